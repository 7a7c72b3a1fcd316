//! What is printed of the outcomes of a program, and how often a stream of traces has each.
//!
//! `README.md` says what is proved.
#![tactic(auto)]

pub use listing::list_outcomes;
pub use seen::count_seen;

mod classes;
mod counts;
mod different;
pub mod laws;
mod lines;
mod listing;
mod places;
mod seen;
mod values;
