//! A graph of the numbers below a bound, which knows its paths. It keeps rows of bits.
#![tactic(auto)]

pub use edge_rows::EdgeRows;
pub use edge_sets::EdgeSet;
pub use graphs::Graph;
pub use path_search::PathSearch;

mod all_paths;
mod closing;
mod cycles;
mod edge_rows;
mod edge_sets;
mod forward;
mod graphs;
mod grown;
mod joining;
mod kept_tables;
mod path_search;
mod postorder;
mod searches;
mod transposing;
