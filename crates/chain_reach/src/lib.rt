//! Which numbers lead to which, where the numbers lie in chains.
#![tactic(auto)]

pub use types::{Groups, Reach};

mod groups;
mod lowering;
mod reaches;
mod types;
