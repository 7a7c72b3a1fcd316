//! A search over a whole log for violations of its memory model: it proposes small selections of operations, each of which
//! should have no order.
//!
//! What it proposes is checked and judged elsewhere: nothing rests on it. `README.md` says how it goes, and what it misses.
#![tactic(auto)]

pub use deciding::{DecisionFound, decide};
pub use efforts::Effort;
pub use fitting::{fit_trace, is_within_limits};
pub use reduction::{Judge, reduce};
pub use search::{Found, Search};
pub use shown_values::{ShownLoad, ValueViolation};
pub use value_search::{ValueFound, ValueSearch};

mod agreements;
mod building;
mod candidates;
mod chains;
mod deciding;
mod derivation;
mod edges;
mod efforts;
mod eliminations;
mod explanations;
mod fitting;
mod fronts;
mod glances;
mod graphs;
mod groups;
mod links;
mod looks;
mod lookups;
mod nodes;
mod notes;
mod numbers;
mod paths;
mod progress;
mod queues;
mod reduction;
mod roots;
mod rows;
mod rules;
mod search;
mod selections;
mod shown_values;
mod surveys;
mod swaps;
mod thinning;
mod unknowns;
mod value_search;
mod watches;
mod waves;
