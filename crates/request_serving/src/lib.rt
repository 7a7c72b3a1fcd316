//! What the program `tsobench` does for each request: from the arguments of its command line to its output and its status.
//!
//! `drive` does all of it, over the files of the system; `drive_over` does it over any files, and `serve` for a request
//! that is had already. `README.md` says what is proved.
#![tactic(auto)]

pub use driving::{drive, drive_over, end_without_arguments};
pub use endings::{end_by, end_run};
pub use serving::serve;

mod driving;
mod endings;
mod serving;
