//! The text of evidence about a log: its events are named by the lines of the log, so that anybody can check it with the log beside
//! it.
//!
//! Evidence has one text, and a text spells one evidence or gets one refusal. `README.md` says what is proved.
#![tactic(auto)]

pub use names::{EventName, names_of};
pub use printers::{print_log_evidence, print_value_evidence};
pub use readers::read_log_evidence;
pub use refusals::{ValuePrintRefusal, ValueTextFault, ValueTextRefusal};

pub mod laws;
mod lines;
mod names;
mod printers;
mod readers;
mod refusals;
mod tables;
mod words;
