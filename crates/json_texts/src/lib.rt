//! How a text stands in a string of JSON.
//!
//! `README.md` says what is proved.
#![tactic(auto)]

pub use characters::{push_json_character, push_printable};
pub use texts::push_json_text;

mod characters;
mod texts;
