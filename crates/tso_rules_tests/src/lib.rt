//! Tests of `chain_rules` and `acyclic_traces` where no clause says all, and worked examples of `order_graph` and `tso_rules`.
#![tactic(auto)]

#[cfg(test)]
mod tests;
