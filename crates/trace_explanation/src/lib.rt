//! The explanation of a trace: the text that says to a reader who knows no rule why a trace is a violation.
//!
//! `explain` writes it by the trace and its certificate, `explain_named` with the names that a log gives; `AsExplanation` is the
//! rendering for `trace_judging::answer_reader`.
//! `README.md` says what is proved.
#![tactic(auto)]

pub use cycles::{model_name, order_sentences};
pub use diagnosed_cycles::diagnosed_cycle;
pub use explanations::{explain, explain_named};
pub use field_edges::{FieldEdge, field_edge, field_name};
pub use links::list_links;
pub use loads::step_load;
pub use marks::{EventsOfSteps, NamesEvents, list_named, mark_number};
pub use names::{NamedTrace, address_of, outcome_text, part_text, source_of};
pub use namings::EventNames;
pub use numbers::NumberedSteps;
pub use prefixes::first_of;
pub use refusals::explain_refusal;
pub use rendering::AsExplanation;
pub use unfolded_cycles::is_link;
pub use unwritten::list_stores;
pub use words::reason_words;

mod closed_paths;
mod cycle_names;
mod cycle_shapes;
mod cycles;
mod diagnosed_cycles;
mod diagnoses;
mod diagnosis_words;
mod explanations;
mod field_edges;
pub mod laws;
mod links;
mod loads;
mod marks;
mod names;
mod namings;
mod numbers;
mod prefixes;
mod refusal_sentences;
mod refusals;
mod rendering;
mod rule_sentences;
mod subjects;
mod unfolded_cycles;
mod unwritten;
mod words;
