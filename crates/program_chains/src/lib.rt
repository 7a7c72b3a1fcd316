//! Which loads and stores of a log come before which by program order alone.
//!
//! `README.md` says what is proved.
#![tactic(auto)]

pub use events::{LogEvent, log_events};
pub use orders::ProgramOrder;

mod chains;
mod events;
mod orders;
mod pairs;
mod reaches;
mod searches;
