//! Sets of numbers as rows of bits, and flat tables of such rows.
//!
//! A row is a slice of 64-bit words: number n is bit `n % 64` of word `n / 64`. `README.md` says what is proved.
#![tactic(auto)]

pub use lists::marked;
pub use marks::{mark, mark_if_some, mark_row, mark_word};
pub use rows::{has_number, word_at, word_below};
pub use shared::{first_shared, used_words};
pub use tables::{
    BitTable, add_words, bit, clear_bit, or_row, or_rows, set_bit, set_word, set_words,
};
pub use words::{with_bit, word_above, word_without};

mod lists;
mod marks;
mod rows;
mod shared;
mod tables;
mod words;
