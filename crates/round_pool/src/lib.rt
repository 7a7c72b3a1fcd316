//! The rank sets of a trace, round by round.
#![tactic(auto)]

pub use answers::both_answers;
pub use claims::{Claimant, Claims};
pub use faults::PoolFault;
pub use gates::{OpenPoolGate, PoolGate};
pub use ranked::{Edge, Ranked};
pub use round_loop::{MAX_WORKERS, rounds, rounds_after_acyclic};

mod answers;
mod claims;
mod edges;
mod faults;
mod gates;
mod graphs;
mod ranked;
mod round_loop;
mod worker_rows;
mod worksets;
