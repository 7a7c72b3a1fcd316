//! Total store order and partial store order: axioms, rules, rank sets, certificates, and their laws.
#![tactic(auto)]

pub mod certificates;
pub mod conditions;
pub mod exactness;
pub mod rounds;
pub mod rules;
pub mod soundness;
