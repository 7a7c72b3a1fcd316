//! A checker of memory orders of logs, whose values may repeat.
//!
//! `README.md` says what is proved.
#![tactic(auto)]

pub use checks::check_log_order;

mod checks;
mod faults;
mod own;
mod passed;
mod places;
mod progress;
mod tables;
