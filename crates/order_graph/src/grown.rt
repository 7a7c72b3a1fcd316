//! The numbers that have come to reach more since a graph was settled, as a row of bits.

ghost use Rattle.std.specs.Prelude.{◌≡◌, ◌≤◌, ◌+◌, ◌*◌, length};
ghost use Rattle.bitsets.specs.Tables.{IsSet, Adds};
ghost use Rattle.order_graph.specs.Internal.Tables.{IsSelfOrSet};

use bitsets::{BitTable, set_word, with_bit};

/// Marks u and the numbers that lead to u, but those that lead to v. The rows of the table have the numbers that lead to
/// each number.
pub fn mark_grown(grown: &mut [u64], transposed: BitTable, u: usize, v: usize)
    requires size { length grown.old ≡ transposed.width }
    requires from { u * transposed.width + transposed.width ≤ length transposed.words.now }
    requires to { v * transposed.width + transposed.width ≤ length transposed.words.now }
    ensures { Adds grown.old grown.new transposed.entry.width (λ i x. (i ≡ 0) × IsSelfOrSet transposed.entry.words.now transposed.entry.width u x
        × (IsSet transposed.entry.words.now transposed.entry.width v x → ⊥)) }
{
    for i in 0..transposed.width {
        let sources = with_bit(transposed.words[u * transposed.width + i], i, u);
        let given = sources & !transposed.words[v * transposed.width + i];
        set_word(grown, transposed.width, 0, i, given);
    }
}
