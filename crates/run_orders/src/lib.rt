//! The law that a log of a run all of whose lines are steps of the store-buffer machine has an order. `README.md` says what is proved.
#![tactic(auto)]

pub mod laws;
