//! Whether a trace has an order that meets the axioms of its memory model, with evidence for either answer; and the check of such
//! evidence.
//!
//! `README.md` says what is proved.
#![tactic(auto)]

pub use decisions::{ByDecision, Decision, copy_step};
pub use evidence_lines::OrdersAndRefutations;
pub use renderings::{AsDecision, render_decision_head};
pub use texts::decide_input;
pub use verifying::verify_texts;

mod decisions;
mod evidence_lines;
pub mod laws;
mod renderings;
mod search;
mod texts;
mod verifying;
