//! The transposed table of a table of paths: rows for columns.

ghost use Rattle.std.specs.Prelude.{◌≡◌, ◌<◌, ◌≤◌, ◌*◌, ◌/◌, IfOk, length};
ghost use Rattle.bitsets.specs.Tables.{IsSet, Adds};
ghost use Rattle.order_graph.specs.Internal.Tables.{IsTable, AreTransposed};

use bitsets::{BitTable, set_words};
use std::alloc::{AllocError, Global};

/// Transposes the block of the rows of word i and the columns of word j.
///
/// Rows one after another with the same word are set at once.
pub fn transpose_block(transposed: &mut [u64], table: BitTable, nodes: usize, i: usize, j: usize)
    requires table { IsTable nodes table.width table.words.now }
    requires transposed_sized { length transposed.old ≡ nodes * table.width }
    requires rows { i < table.width }
    requires columns { j < table.width }
    ensures { Adds transposed.old transposed.new table.entry.width
        (λ y x. (y / 64 ≡ j) × (x / 64 ≡ i) × (x < nodes) × IsSet table.entry.words.now table.entry.width x y) }
{
    let mut word = 0;
    let mut rows = 0;
    for x in 64 * i..nodes.min(64 * i + 64) {
        let next = table.words[x * table.width + j];
        if next != word {
            set_words(transposed, table.width, j, word, i, rows);
            word = next;
            rows = 0;
        }
        rows |= 1 << (x % 64);
    }
    set_words(transposed, table.width, j, word, i, rows);
}

/// Transposes the blocks of the rows of word i and the columns of the words from `first` on and before `end`.
pub fn transpose_blocks(
    transposed: &mut [u64],
    table: BitTable,
    nodes: usize,
    i: usize,
    first: usize,
    end: usize,
)
    requires table { IsTable nodes table.width table.words.now }
    requires transposed_sized { length transposed.old ≡ nodes * table.width }
    requires rows { i < table.width }
    requires order { first ≤ end }
    requires columns { end ≤ table.width }
    ensures { Adds transposed.old transposed.new table.entry.width
        (λ y x. (first ≤ y / 64) × (y / 64 < end) × (x / 64 ≡ i) × (x < nodes) × IsSet table.entry.words.now table.entry.width x y) }
{
    for j in first..end {
        transpose_block(transposed, table, nodes, i, j);
    }
}

/// Transposes the columns of the words from `first` on and before `end`: 64 rows of the transposed table for each.
pub fn transpose_columns(
    transposed: &mut [u64],
    table: BitTable,
    nodes: usize,
    first: usize,
    end: usize,
)
    requires table { IsTable nodes table.width table.words.now }
    requires transposed_sized { length transposed.old ≡ nodes * table.width }
    requires order { first ≤ end }
    requires columns { end ≤ table.width }
    ensures { Adds transposed.old transposed.new table.entry.width
        (λ y x. (first ≤ y / 64) × (y / 64 < end) × (x < nodes) × IsSet table.entry.words.now table.entry.width x y) }
{
    for i in 0..table.width {
        transpose_blocks(transposed, table, nodes, i, first, end);
    }
}

/// How many words of a row lie in a line of the processor's memory. Those of a line are transposed together, so that the
/// processor fetches each line of the table once.
const WORDS_OF_A_LINE: usize = 8;

/// The transposed table.
pub fn transposed_table(
    alloc: Global,
    table: BitTable,
    nodes: usize,
) -> Result<Vec<u64>, AllocError>
    requires { IsTable nodes table.width table.words.now }
    ensures { IfOk result (λ transposed. AreTransposed table.entry.words.now transposed.items table.entry.width nodes) }
{
    let mut transposed = vec![in alloc; 0; nodes * table.width]?;
    for k in 0..table.width.div_ceil(WORDS_OF_A_LINE) {
        let first = k * WORDS_OF_A_LINE;
        let end = table.width.min(first + WORDS_OF_A_LINE);
        transpose_columns(&mut transposed, table, nodes, first, end);
    }
    Ok(transposed)
}
