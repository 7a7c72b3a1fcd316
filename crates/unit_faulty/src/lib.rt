//! Memory units with one deviation each. `README.md` says what is proved.
#![tactic(auto)]

pub use occasions::{Occasion, has_occasion};
pub use unit::FaultyUnit;

mod memory;
mod occasions;
mod unit;
