//! The lines and tokens of texts, and the numbers in them.
//!
//! A text is cut at its line ends, and a line at its single spaces. `README.md` says what is proved.
#![tactic(auto)]

pub use cuts::{at_end, next_line, next_token};
pub use numbers::number_of;

mod cuts;
mod numbers;
