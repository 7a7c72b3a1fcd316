//! An independent checker of refutations by cases: it calls nothing of the program that finds them.
#![tactic(auto)]

pub use checks::check_refutation;
pub use faults::RefutationFault;

mod checks;
mod faults;
pub mod laws;
mod line_faults;
mod listed;
mod pairs;
mod ranges;
mod structure;
