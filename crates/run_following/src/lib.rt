//! Runs that say their own order, followed line by line: whether their lines are steps of the store-buffer machine, and what is printed of that.
//!
//! `follow_run` reads a run and writes what a `Rendering` gives of it. `README.md` says what is proved.
#![tactic(auto)]

pub use counts::RunCounts;
pub use facts::{Fact, NamedLine, RefusalKind, Standing, ToldRefusal};
pub use forms::{AsRunJson, AsRunWords};
pub use found::RunFound;
pub use reports::follow_run;
pub use stages::Stage;

mod counts;
mod facts;
mod followers;
mod forms;
mod found;
mod json_lines;
mod kept_lines;
pub mod laws;
mod noted;
mod reports;
mod sentences;
mod stages;
mod streams;
mod tallies;
mod words;
