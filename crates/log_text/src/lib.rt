//! The text of a log: what the processors of a machine did, operation by operation, in the order in which each issued them.
//!
//! A log has any number of operations, any addresses and values of 64 bits, and values that repeat. `README.md` says what is
//! proved.
#![tactic(auto)]

pub use lines::{LogLine, SaidLine};
pub use logs::{Log, LogOperation, LoggedOperation};
pub use origins::Origins;
pub use readers::read_log;
pub use tags::{LineTags, read_tags};

mod cutting;
mod known;
pub mod laws;
mod lines;
mod logs;
mod origins;
mod readers;
mod readings;
mod tags;
