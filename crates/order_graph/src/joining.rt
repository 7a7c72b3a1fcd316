//! Rows of a table that gain what other rows have, and the transposed table with them.

ghost use Rattle.std.specs.Prelude.{◌≡◌, ◌⊎◌, ◌<◌, ◌≤◌, ◌+◌, ◌*◌, ◌/◌, ◌%◌, ◌^◌, ℕ, length};
ghost use Rattle.bitsets.specs.Rows.{HasBit};
ghost use Rattle.bitsets.specs.Tables.{IsSet, Adds};
ghost use Rattle.order_graph.specs.Internal.Tables.{IsSelfOrSet, AreTransposed, IsTransitive};

use bitsets::{set_word, set_words, with_bit};

/// The size of a table with a row and a column for each number: how many numbers there are, and the words of a row.
#[derive(Clone, Copy)]
pub struct Size {
    pub nodes: usize,
    pub width: usize,
}

/// Gives row x the number v and the numbers of row v.
pub fn add_row(table: &mut [u64], width: usize, x: usize, v: usize)
    requires row { x * width + width ≤ length table.old }
    requires given { v * width + width ≤ length table.old }
    ensures { Adds table.old table.new width (λ i y. (i ≡ x) × IsSelfOrSet table.old width v y) }
{
    for j in 0..width {
        let given = with_bit(table[v * width + j], j, v);
        set_word(table, width, x, j, given);
    }
}

/// Gives each row whose number is a bit of word i the number v and the numbers of row v, in both tables.
///
/// Only bits that some of these rows lacked are set in the transposed table, where each lies in a row of its own.
pub fn join_rows(
    table: &mut [u64],
    transposed: &mut [u64],
    size: Size,
    i: usize,
    rows: u64,
    v: usize,
)
    requires transposed { AreTransposed table.old transposed.old size.width size.nodes }
    requires small { size.nodes < 2 ^ 32 }
    requires fits { size.width ≡ (size.nodes + 63) / 64 }
    requires rows { (k : ℕ) → k < 64 → HasBit rows k → 64 * i + k < size.nodes }
    requires given { v < size.nodes }
    requires word { i < size.width }
    ensures added { Adds table.old table.new size.width (λ x y. (x / 64 ≡ i) × HasBit rows (x % 64) × IsSelfOrSet table.old size.width v y) }
    ensures transposed { AreTransposed table.new transposed.new size.width size.nodes }
{
    if rows == 0 {
        return;
    }
    for j in 0..size.width {
        let given = with_bit(table[v * size.width + j], j, v);
        let fresh = set_words(table, size.width, i, rows, j, given);
        set_words(transposed, size.width, j, fresh, i, rows);
    }
}

/// Gives u, and each number that leads to u, the number v and those that v leads to, in both tables.
///
/// A row that has v already has all of them, so it is left out.
pub fn join(table: &mut [u64], transposed: &mut [u64], size: Size, u: usize, v: usize)
    requires transposed { AreTransposed table.old transposed.old size.width size.nodes }
    requires transitive { IsTransitive table.old size.width size.nodes }
    requires small { size.nodes < 2 ^ 32 }
    requires fits { size.width ≡ (size.nodes + 63) / 64 }
    requires from { u < size.nodes }
    requires to { v < size.nodes }
    ensures added { Adds table.old table.new size.width (λ x y. (x < size.nodes) × ((x ≡ u) ⊎ IsSet table.old size.width x u)
        × IsSelfOrSet table.old size.width v y) }
    ensures transposed { AreTransposed table.new transposed.new size.width size.nodes }
{
    for i in 0..size.width {
        let sources = with_bit(transposed[u * size.width + i], i, u);
        let rows = sources & !transposed[v * size.width + i];
        join_rows(table, transposed, size, i, rows, v);
    }
}
