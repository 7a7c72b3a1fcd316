//! The edges that the axioms force on a trace, row by row, and why each holds.
#![tactic(auto)]

pub use affected::affected_rows;
pub use base::{base_edge, base_row, base_words, later_word};
pub use inferred::row_edges;
pub use masked_base::masked_base_words;
pub use masks::SourceMasks;
pub use over_base::row_edges_over_base;
pub use reasons::justify;

mod above;
mod affected;
mod base;
mod inferred;
mod lacking;
pub mod laws;
mod masked_base;
mod masks;
mod over_base;
mod paths;
mod reasons;
mod sources;
