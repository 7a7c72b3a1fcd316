//! A checker of memory orders: it calls nothing of the program that looks for them.
#![tactic(auto)]

pub use checks::check_order;
pub use faults::{Axiom, OrderFault};

mod axioms;
mod checks;
mod faults;
pub mod laws;
mod left;
mod places;
mod progress;
