//! Small traces that show the violation of a trace: a selection of it that is a violation, or the load of what nothing wrote.
//!
//! `reduce_trace` reads a trace, reduces it, and writes the small trace. `README.md` says what is proved.
#![tactic(auto)]

pub use reports::reduce_trace;
pub use trials::accuses_trace;

mod candidates;
mod judging;
mod kept_events;
mod kept_pairs;
pub mod laws;
mod logs;
mod losses;
mod named;
mod notes;
mod orders;
mod parts;
mod permutations;
mod reductions;
mod reports;
mod searching;
mod selections;
mod trials;
