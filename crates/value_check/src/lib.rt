//! An independent checker of evidence and of refutations that a log has no order of its memory model, by the values of its loads and
//! stores.
//!
//! It shares no code with the search that finds such evidence. `README.md` says what is proved.
#![tactic(auto)]

pub use checks::check_values;
pub use refusals::{ValueRefusal, ValueRefutationFault};
pub use refutation_checks::check_value_refutation;

mod cells;
mod checks;
mod following;
mod in_force;
mod known;
mod line_faults;
mod noted;
mod numbering;
mod reading;
mod refusals;
mod refutation_checks;
mod settling;
mod steps;
mod structure;
mod tables;
