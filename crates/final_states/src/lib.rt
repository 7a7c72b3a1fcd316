//! The final states of a program: what complete runs of the store-buffer machine leave of it, all of them and no others.
//!
//! `README.md` says what is proved.
#![tactic(auto)]

pub use finals::final_states;
pub use states::{FinalState, StatesFault};

mod buffers;
mod finals;
mod moves;
mod plans;
mod search;
mod states;
