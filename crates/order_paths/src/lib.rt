//! Definitions and laws of paths and cycles over any relation of numbers.
#![tactic(auto)]

pub mod laws;
