//! A program run on one memory unit by a thread per processor, and a drainer beside them. `README.md` says what is proved.
#![tactic(auto)]

pub use desks::Desk;
pub use faults::RunFault;
pub use gates::{Gate, OpenGate};
pub use issuers::Issuers;
pub use passes::Pass;
pub use run_threads::RunThreads;
pub use running::{run, run_over, run_with_drainer, run_with_drainer_over};

mod agreement;
mod desks;
mod drainers;
mod faults;
mod gates;
mod issuers;
mod passes;
mod run_desks;
mod run_threads;
mod running;
