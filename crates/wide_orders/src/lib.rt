//! The law that a log whose accesses have widths, and which has an order, has one with each access cut to pieces. `README.md` says what is proved.
#![tactic(auto)]

pub mod laws;
