//! Pictures of traces: the text of a picture, in the language of Graphviz, that shows what each processor did, which load
//! read which store, and why a trace is a violation.
//!
//! `draw` writes it by the trace and its certificate, `draw_field` with the names of the field at the edges of the cycle, `draw_numbered` with the
//! places of events in an order; `AsPicture` and `AsFieldPicture` are the renderings for `trace_judging::answer_reader`. `README.md` says what is proved.
#![tactic(auto)]

pub use arrows::{Arrow, ArrowName, Mark};
pub use captions::Caption;
pub use pictures::{draw, draw_field, draw_numbered};
pub use rendering::{AsFieldPicture, AsPicture};
pub use rows::Row;

mod arrows;
mod captions;
mod choice;
mod contents;
mod cycles;
mod edge_names;
mod edges;
mod field_arrows;
mod labels;
pub mod laws;
mod lines;
mod looks;
mod members;
mod nodes;
mod paths;
mod pictures;
mod placed;
mod rendering;
mod rows;
mod wanted;
