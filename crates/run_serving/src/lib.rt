//! Requests that run programs on memory units: replays, runs with a thread for each processor, campaigns; and programs made from seeds.
//!
//! Each call reads the texts that a request names, and writes what its options ask for. `README.md` says what is proved.
#![tactic(auto)]

pub use campaigning::{campaign_by, limits_of};
pub use failures::{RunFailure, failure_of};
pub use making::make;
pub use repeating::repeat_named;
pub use replaying::replay_named;
pub use running::run_named;

mod campaigning;
mod failures;
mod making;
mod printing;
mod repeating;
mod replaying;
mod running;
mod units;
