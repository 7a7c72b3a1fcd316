//! Pictures of decisions: the text of a picture, in the language of Graphviz, that shows a trace with the evidence on whether
//! it has an order that meets the axioms of its memory model.
//!
//! `draw_evidence` writes it by the evidence, `draw_undecided` where there is none;
//! `AsDecisionPicture` is the rendering for `trace_decisions::decide_input`. `README.md` says what is proved.
#![tactic(auto)]

pub use pictures::{draw_evidence, draw_undecided};
pub use rendering::AsDecisionPicture;

pub mod laws;
mod pictures;
mod rendering;
