//! Whether the events of a set that aren't passed stand far enough to the front.
ghost use Rattle.std.specs.Prelude.{◌↔◌, ◌≡◌, ◌<◌, ◌≤◌, ◌+◌, ◌*◌, ◌/◌, ◌%◌, ◌^◌, ℕ, IsTrue, slice_index};
ghost use Rattle.bitsets.specs.Rows.{HasBit};
ghost use Rattle.order_check.specs.Internal.Left.{IsLeftIn};

use crate::progress::Progress;
use bitsets::{word_above, word_at};

/// A set of numbers: those in the first two rows of bits, and not in the third.
#[derive(Clone, Copy)]
pub(crate) struct Chosen<'a> {
    pub one: &'a [u64],
    pub two: &'a [u64],
    pub other: &'a [u64],
}

/// Whether each number of the set up to `n` that isn't passed has a place up to `most`.
pub(crate) fn left_are_up_to(progress: &Progress, chosen: Chosen, n: usize, most: usize) -> bool
    ensures { IsTrue result ↔ ((u : ℕ) → IsLeftIn progress.now.left.items chosen.entry.one.now chosen.entry.two.now chosen.entry.other.now n u →
        slice_index progress.now.places.items u ≤ most) }
{
    for j in 0..n / 64 + 1 {
        let word = left_word(progress.left(), chosen, n, j);
        if !are_up_to(progress, j, word, most) {
            return false;
        }
    }
    true
}

/// Word `j` of the row of the set's numbers up to `n` that are also in the row `left`.
#[inline]
fn left_word(left: &[u64], chosen: Chosen, n: usize, j: usize) -> u64
    ensures { (u : ℕ) → u / 64 ≡ j → HasBit result (u % 64) ↔ IsLeftIn left.now chosen.entry.one.now chosen.entry.two.now chosen.entry.other.now n u }
{
    let within = word_at(left, j) & word_at(chosen.one, j) & word_at(chosen.two, j);
    within & !word_at(chosen.other, j) & !word_above(n, j)
}

/// Whether the numbers of word `j` whose bits are set have places up to `most`.
#[inline]
fn are_up_to(progress: &Progress, j: usize, word: u64, most: usize) -> bool
    requires { j < 2 ^ 58 }
    ensures { IsTrue result ↔ ((k : ℕ) → k < 64 → HasBit word k → slice_index progress.now.places.items (64 * j + k) ≤ most) }
{
    let mut rest = word;
    while rest != 0 {
        let k = rest.trailing_zeros() as usize;
        if progress.place(64 * j + k) > most {
            return false;
        }
        rest &= rest - 1;
    }
    true
}
