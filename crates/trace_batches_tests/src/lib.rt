//! Tests of `trace_batches`, `trace_streams` and `outcome_reports`, by their public calls.
#![tactic(auto)]

#[cfg(test)]
mod tests;
