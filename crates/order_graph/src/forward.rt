//! The numbers that paths lead to from one number, by words: of the numbers in a row, the mask, to which a search keeps.

ghost use Rattle.std.specs.Prelude.{◌≡◌, ◌↔◌, ◌<◌, ◌≤◌, ◌+◌, ◌*◌, ◌/◌, ◌^◌, ℕ, false, IsTrue, IfOk, MatchOption, length, slice_index_or};
ghost use Rattle.order_paths.specs.Paths.{Reaches};
ghost use Rattle.bitsets.specs.Tables.{IsSet, Adds, NoneShared, IsFirstShared};
ghost use Rattle.order_graph.specs.Internal.Tables.{IsMaskedEdge, JoinedWithin};

use bitsets::{BitTable, bit, clear_bit, first_shared, or_row, set_word};
use std::alloc::{AllocError, Global};

/// A row of the table, as a row of its own.
pub fn copied_row(alloc: Global, table: BitTable, x: usize) -> Result<Vec<u64>, AllocError>
    requires row { x * table.width + table.width ≤ length table.words.now }
    ensures sized { IfOk result (λ row. length row.items ≡ table.entry.width) }
    ensures bits { IfOk result (λ row. (y : ℕ) → y / 64 < table.entry.width → IsSet row.items table.entry.width 0 y ↔
        IsSet table.entry.words.now table.entry.width x y) }
{
    let mut row = vec![in alloc; 0; table.width]?;
    or_row(&mut row, 0, table, x, 0);
    Ok(row)
}

/// Adds the numbers of the mask that number x has an edge to to the row of numbers reached, and those that were not in it
/// to the row of numbers left.
#[inline]
pub fn expand(reached: &mut [u64], left: &mut [u64], edges: BitTable, mask: &[u64], x: usize)
    requires reached_row { edges.width ≤ length reached.old }
    requires left_row { edges.width ≤ length left.old }
    requires mask_row { edges.width ≤ length mask.now }
    requires edges_row { x * edges.width + edges.width ≤ length edges.words.now }
    ensures reached { Adds reached.old reached.new edges.entry.width (λ i y. (i ≡ 0) × IsMaskedEdge edges.entry.words.now mask.now edges.entry.width x y) }
    ensures left { Adds left.old left.new edges.entry.width
        (λ i y. (i ≡ 0) × IsMaskedEdge edges.entry.words.now mask.now edges.entry.width x y × (IsSet reached.old edges.entry.width 0 y → ⊥)) }
{
    for j in 0..edges.width {
        let given = edges.words[x * edges.width + j] & mask[j];
        let fresh = set_word(reached, edges.width, 0, j, given);
        set_word(left, edges.width, 0, j, fresh);
    }
}

/// The first number of a row.
#[inline]
pub fn first_of(row: &[u64], width: usize) -> Option<usize>
    requires fits { 64 * width < 2 ^ 64 }
    requires row { length row.now ≡ width }
    ensures { MatchOption result (NoneShared row.now 0 row.now 0 width) (IsFirstShared row.now 0 row.now 0 width) }
{
    first_shared(BitTable { words: row, width }, 0, row, 0, 0, width)
}

/// A row of the numbers that a path of one or more edges over numbers of the mask leads to from u.
///
/// Each number reached is expanded once.
pub fn reached_row(
    alloc: Global,
    edges: BitTable,
    mask: &[u64],
    nodes: usize,
    u: usize,
) -> Result<Vec<u64>, AllocError>
    requires small { nodes < 2 ^ 32 }
    requires fits { edges.width ≡ (nodes + 63) / 64 }
    requires sized { length edges.words.now ≡ nodes * edges.width }
    requires within { (x y : ℕ) → x < nodes → y / 64 < edges.width → IsSet edges.words.now edges.width x y → y < nodes }
    requires mask { edges.width ≤ length mask.now }
    requires from { u < nodes }
    ensures { IfOk result (λ row. (length row.items ≡ edges.entry.width) × ((y : ℕ) → y / 64 < edges.entry.width →
        IsSet row.items edges.entry.width 0 y ↔ Reaches (JoinedWithin edges.entry.words.now mask.now edges.entry.width nodes) u y)) }
{
    let mut reached = vec![in alloc; 0; edges.width]?;
    let mut left = vec![in alloc; 0; edges.width]?;
    expand(&mut reached, &mut left, edges, mask, u);
    'numbers: while let Some(x) = first_of(&left, edges.width) {
        clear_bit(&mut left, edges.width, 0, x);
        expand(&mut reached, &mut left, edges, mask, x);
    }
    Ok(reached)
}

/// For each number below `nodes` whether its bit is set in row x of the table.
pub fn tests_of_row(
    alloc: Global,
    table: BitTable,
    x: usize,
    nodes: usize,
) -> Result<Vec<bool>, AllocError>
    requires fits { table.width ≡ (nodes + 63) / 64 }
    requires row { x * table.width + table.width ≤ length table.words.now }
    ensures sized { IfOk result (λ tests. length tests.items ≡ nodes) }
    ensures tests { IfOk result (λ tests. (y : ℕ) → IsTrue (slice_index_or tests.items y false) ↔
        ((y < nodes) × IsSet table.entry.words.now table.entry.width x y)) }
{
    let mut tests = Vec::new(alloc);
    for y in 0..nodes {
        tests.push(bit(table, x, y))?;
    }
    Ok(tests)
}
