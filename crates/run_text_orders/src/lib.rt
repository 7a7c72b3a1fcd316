//! The laws that the text of a run that holds, as a log, has an order, and that a text has one report as a run. `README.md` says what is proved.
#![tactic(auto)]

pub mod laws;
