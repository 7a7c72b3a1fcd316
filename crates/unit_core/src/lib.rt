//! What a memory unit is, what a run of one is, and the record of what it did at its end. `README.md` says what is proved.
#![tactic(auto)]

pub use accounts::Account;
pub use endings::{conclude, conclude_over};
pub use histories::History;
pub use issuing::perform;
pub use presets::preset_all;
pub use records::{Recorded, is_lawful_under};
pub use replays::{replay, replay_over};
pub use steps::Step;
pub use units::MemoryUnit;

mod accounts;
mod designs;
mod endings;
mod histories;
mod issuing;
pub mod laws;
mod presets;
mod records;
mod replays;
mod steps;
mod units;
