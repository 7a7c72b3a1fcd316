//! Lawful memory units. `README.md` says what is proved.
#![tactic(auto)]

pub use buffer::StoreBufferUnit;
pub use partial::PartialOrderUnit;
pub use serial::SerialUnit;

mod buffer;
mod draining;
mod partial;
mod partial_buffers;
mod serial;
