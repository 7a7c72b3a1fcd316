//! What may be asked for of answers and of units, as values: those who read a command line and those who do what it asks for share them.
#![tactic(auto)]

pub use batches::{BatchFormat, BatchMethod, BatchPrinting};
pub use campaigns::{CampaignPrinting, Execution};
pub use faults::FaultKind;
pub use following::{FollowOptions, RunFormat};
pub use logs::{LogForm, LogOptions};
pub use outcomes::{OutcomeForm, OutcomeOptions};

mod batches;
mod campaigns;
mod faults;
mod following;
mod logs;
mod outcomes;
