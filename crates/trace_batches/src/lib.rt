//! Batches: texts of traces, judged or decided one after the other and trace by trace, a line for each.
//!
//! `README.md` says what is proved.
#![tactic(auto)]

pub use batches::BatchOptions;
pub use begun::Batch;
pub use judging::judge_batch;

mod batches;
mod begun;
mod jobs;
mod judging;
mod judgments;
pub mod laws;
mod lines;
mod names;
mod notes;
mod questions;
mod suites;
mod tallies;
mod totals;
