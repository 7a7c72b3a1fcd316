//! Which operations of a log can be judged as a trace, so that a violation of them is one of the log.
//!
//! `README.md` says what is proved.
#![tactic(auto)]

pub use known::KnownLog;
pub use lone_loads::lone_load;
pub use selecting::Selected;
pub use shown::{Kept, Shown};
pub use unwritten::{LoggedStore, UnwrittenLoad};

mod accesses;
mod keeping;
mod known;
pub mod laws;
mod lone_loads;
mod naming;
mod operations;
mod selecting;
mod shown;
mod source_checks;
mod sources;
mod unwritten;
mod writers;
