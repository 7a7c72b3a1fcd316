//! Whether a log has an order of its memory model: an order of its loads and stores, or a refutation by cases.
//!
//! `decide_log` reads a log and writes what was decided. `README.md` says what is proved.
#![tactic(auto)]

pub use deciding::{LogQuestion, decide_log};
pub use decisions::LogDecision;

mod deciding;
mod decisions;
mod orders;
mod renderings;
