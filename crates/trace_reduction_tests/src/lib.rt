//! Tests of `trace_reduction`, `log_evidence`, `log_reports`, `trace_decisions`, `log_search`, `trace_explanation`, `trace_pictures` and
//! the crates `decision_..`, by their public calls.
#![tactic(auto)]

#[cfg(test)]
mod tests;
