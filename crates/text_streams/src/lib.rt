//! Readers, writers, and the faults that they and the system end a call with.
//!
//! `read_all` reads a reader to its end or to a limit, `read_some` once; `write_text` writes a whole text, `write_flushed` one that is
//! seen at once. `README.md` says what is proved.
#![tactic(auto)]

pub use chunks::read_some;
pub use faults::Fault;
pub use reading::read_all;
pub use writing::{write_flushed, write_text};

mod chunks;
mod counting;
mod faults;
mod limits;
mod reading;
mod writing;
