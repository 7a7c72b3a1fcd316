//! Evidence that a log has no order of its memory model, by the values of its loads and stores alone: sources of loads, found by
//! elimination, and pairs of events of which one comes before the other in each order.
//!
//! `README.md` says what the steps and the cases mean, and what is proved.
#![tactic(auto)]

pub use refutations::{LogEvidence, ValueRefutationLine};
pub use steps::{ValueEnd, ValueEvidence, ValueStep};

pub mod laws;
mod refutations;
mod steps;
