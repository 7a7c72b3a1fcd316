//! What is done to a log before it is searched: swaps that change nothing are read as loads, and loads that only repeat the
//! one before them are dropped. The log has an order of its memory model exactly if what is left has one.
//!
//! `README.md` says what is proved.
#![tactic(auto)]

pub use idle_swaps::read_idle_swaps;
pub use thinning::{Thinned, thin};

mod idle_swaps;
pub mod laws;
mod thinning;
