//! The operations of a memory test, the programs made of them, and the traces that a run of one leaves.
//!
//! A program or a trace keeps its limits: whoever holds one needs no check of its own. `README.md` says what is proved.
#![tactic(auto)]

pub use acts::Act;
pub use events::{Event, Source};
pub use faults::{OutOfMemory, Refused, RefusedFirst, ValueFault};
pub use limits::{MAX_ADDRESS, MAX_PROCESSORS, Tally};
pub use operations::{EventOperation, Operations, Part};
pub use ops::{Op, Outcome};
pub use programs::Program;
pub use settings::{Order, Setting, Version};
pub use traces::Trace;

mod acts;
mod checks;
mod comparing;
mod events;
mod faults;
pub mod laws;
mod limits;
mod masks;
mod operations;
mod ops;
mod predicates;
mod programs;
mod settings;
mod tables;
mod traces;
