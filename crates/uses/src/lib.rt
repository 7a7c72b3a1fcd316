//! The calls that the READMEs of the crates show, so that they compile and are proved; those of the two highest crates stand in
//! `request_serving_tests`.
#![tactic(auto)]

pub mod answers;
pub mod checkers;
pub mod engines;
pub mod generic;
pub mod texts;
pub mod theorems;
pub mod units;
pub mod words;
