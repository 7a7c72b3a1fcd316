//! From the text of a log and that of evidence about it to the report on both: whether the evidence shows that the log has an order of
//! its memory model, or that it has none.
//!
//! `check_log_evidence` reads both texts and writes the line that says so. `README.md` says what is proved.
#![tactic(auto)]

pub use checking::{check_log_evidence, report_log_evidence};

mod checking;
pub mod laws;
mod lines;
