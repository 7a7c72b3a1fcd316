//! The words of a decision: why a trace has a memory order, or why it has none, for readers who know no rule.
//!
//! `explain_evidence` writes them by the evidence that a decision has, `explain_undecided` what they are where there is none.
//! `AsDecisionExplanation` is the rendering for `trace_decisions::decide_input`; `certificate_of` gives the certificate that a refutation without cases is.
//! `README.md` says what is proved.
#![tactic(auto)]

pub use certificates::certificate_of;
pub use explanations::{explain_evidence, explain_undecided};
pub use rendering::AsDecisionExplanation;

mod cases;
mod certificates;
mod explanations;
mod in_force;
pub mod laws;
mod marks;
mod named;
mod orders;
mod places;
mod reasons;
mod rendering;
