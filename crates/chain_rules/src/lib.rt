//! The rules over chains: what the base edges lead to, and rows of new edges of which each chain has the first.
#![tactic(auto)]

pub use base::base_reach;
pub use chains::{chain_count, chains_of};
pub use forms::RoundForm;
pub use joining::{closes_cycle, join_rows};
pub use rounds::{RoundCount, count_rounds, least_rows};
pub use rows::{RowTables, least_row};
pub use types::RuleTables;
pub use worksets::{all_rows, changed_rows};

mod base;
mod chains;
mod forms;
mod joining;
mod lowering;
mod ordered;
mod rounds;
mod rows;
mod rules;
mod sources;
mod tables;
mod types;
mod worksets;
