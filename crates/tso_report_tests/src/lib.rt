//! Tests of `tso_report`, `trace_judging`, `trace_reports`, `unit_core` and `issue_desk`, by their public calls.
#![tactic(auto)]

#[cfg(test)]
mod tests;
