//! Short traces whose derived order is shown to have no cycle, in less time than their rounds take.
//!
//! `README.md` says what is proved.
#![tactic(auto)]

pub use showing::{MAX_EVENTS, is_shown_acyclic};

mod loads;
mod pairs;
mod program_order;
mod showing;
mod swaps;
