//! The theorems that axioms, rules, evidence and the store-buffer machine say the same of traces: what a closed order gives, that each
//! trace has evidence, and that consistent traces have runs. `README.md` says what is proved.
#![tactic(auto)]

pub mod closed_orders;
pub mod evidence;
pub mod outcomes;
pub mod runs;
