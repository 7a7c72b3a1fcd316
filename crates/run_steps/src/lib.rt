//! The store-buffer machine over bytes and locations, and which lines of a run are steps of it.
//!
//! `README.md` says what is proved.
#![tactic(auto)]

pub use cells::Cell;
pub use machines::Machine;
pub use places::Place;
pub use processors::{Processor, Reservation, Taken, WaitingStore};
pub use refusals::{CellContent, Comparison, Origin, RunRefusal};
pub use steps::{RunLine, RunStep};

mod blocks;
mod cell_stores;
mod cells;
pub mod laws;
mod machines;
mod names;
mod places;
mod processors;
mod refusals;
mod stepping;
mod steps;
mod views;
mod waiting;
