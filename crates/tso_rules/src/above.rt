//! The first number of two rows of bits above another number.
ghost use Rattle.std.specs.Prelude.{◌<◌, ◌↔◌, ◌^◌, ℕ, MatchOption};
ghost use Rattle.bitsets.specs.Rows.{HasNumber};
ghost use Rattle.tso_rules.specs.Internal.MaskTables.{IsCommonAbove, IsFirstAbove, AreOfOneProcessor};

use bitsets::{word_above, word_at};
use tso_ops::Trace;

/// The first number above `n` that is in the first two rows and not in the third.
pub(crate) fn first_above(one: &[u64], two: &[u64], other: &[u64], n: usize) -> Option<usize>
    requires { (k : ℕ) → HasNumber one.now k → k < 2 ^ 32 }
    ensures { MatchOption result ((k : ℕ) → IsCommonAbove one.now two.now other.now n k → ⊥) (IsFirstAbove one.now two.now other.now n) }
{
    for j in n / 64..one.len() {
        let word = one[j] & word_at(two, j) & !word_at(other, j) & word_above(n, j);
        if word != 0 {
            return Some(64 * j + word.trailing_zeros() as usize);
        }
    }
    None
}

/// The events of the processor of event `n`, as a row of bits: empty where `n` is no event.
#[inline]
pub(crate) fn processor_row(trace: &Trace, n: usize) -> &[u64]
    ensures { (m : ℕ) → HasNumber result.now m ↔ AreOfOneProcessor trace.now n m }
{
    match trace.event(n) {
        Some(event) => trace.processor_words(event.proc),
        None => &[],
    }
}
