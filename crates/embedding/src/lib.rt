//! The law that the trace of a complete run of the store-buffer machine has an order. `README.md` says what is proved.
#![tactic(auto)]

pub mod laws;
