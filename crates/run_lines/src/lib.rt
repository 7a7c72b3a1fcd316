//! The lines of a run, which says its own order.
//!
//! `README.md` says what is proved.
#![tactic(auto)]

pub use arguments::Widths;
pub use lines::{RunText, line_read};
pub use numerals::numeral_of;
pub use places::place_of;
pub use tags::without_tag;
pub use widths::widths_after;

mod arguments;
mod lines;
mod numerals;
mod places;
mod steps;
mod tags;
mod widths;
