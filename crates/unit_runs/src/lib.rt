//! The law that the machines of memory units and of runs are one where each access is of a location. `README.md` says what is proved.
#![tactic(auto)]

pub mod laws;
