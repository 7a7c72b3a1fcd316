//! What is found in a log, and what is printed of it: each violation by lines of the log that have no memory order.
//!
//! `report_log` reads a log, searches it, and writes what a `Rendering` gives of it. `README.md` says what is proved.
#![tactic(auto)]

pub use counts::LogCounts;
pub use findings::{LogFindings, LogViolation, find_violations};
pub use forms::{AsExplainedLog, AsLogEvidence, AsLogLines, AsLogTraces, LogFound};
pub use renumbering::Renumbering;
pub use reports::{LogReporting, report_log};
pub use value_violations::{ShownEvidence, ShownSource, ShownSources};

mod counts;
mod findings;
mod forms;
mod judging;
pub mod laws;
mod lines;
mod naming;
mod notes;
mod refusal_sentences;
mod refusals;
mod rendering;
mod renumbering;
mod reports;
mod value_rendering;
mod value_searching;
mod value_violations;
