//! An independent checker of certificates: it calls nothing of the program that finds violations.
#![tactic(auto)]

pub use checks::{check, check_with_table};
pub use faults::CertFault;

mod checks;
mod faults;
pub mod laws;
mod listed;
pub mod pair_tables;
mod pairs;
pub mod ranges;
pub mod sides;
