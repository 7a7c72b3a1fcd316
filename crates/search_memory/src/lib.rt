//! Memory for the lists of a search, which notes that some was refused.
//!
//! `README.md` says what is proved.
#![tactic(auto)]

pub use memory::Memory;

mod memory;
