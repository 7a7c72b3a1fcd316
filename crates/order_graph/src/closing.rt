//! Which numbers can begin a short cycle: searches by words, which find no cycle but show where there is none.

ghost use Rattle.std.specs.Prelude.{◌≡◌, ◌⊎◌, ◌↔◌, ◌<◌, ◌≤◌, ◌+◌, ◌*◌, ◌/◌, ◌^◌, ℕ, IsTrue, IfOk, length};
ghost use Rattle.bitsets.specs.Tables.{IsSet, Adds};
ghost use Rattle.order_graph.specs.Internal.KeptPaths.{KeepsAllPaths};
ghost use Rattle.order_graph.specs.Internal.Tracks.{IsClosedNumber, IsNext, IsUnseen, NoShorterOpen};

use crate::kept_tables::Tables;
use bitsets::{BitTable, bit, or_rows, set_bit, set_word};
use std::alloc::{AllocError, Global};

/// Adds to a row the numbers that number x has an edge to, that reach x, and that are in the row `upto`.
pub fn note_closed(row: &mut [u64], upto: &[u64], tables: Tables, x: usize)
    requires row { tables.width ≤ length row.old }
    requires upto_row { tables.width ≤ length upto.now }
    requires edges_row { x * tables.width + tables.width ≤ length tables.edges.now }
    requires transposed_row { x * tables.width + tables.width ≤ length tables.transposed.now }
    ensures { Adds row.old row.new tables.entry.width (λ i y. (i ≡ 0) × IsSet tables.entry.edges.now tables.entry.width x y
        × IsSet tables.entry.transposed.now tables.entry.width x y × IsSet upto.now tables.entry.width 0 y) }
{
    for j in 0..tables.width {
        let given = tables.edges[x * tables.width + j]
            & tables.transposed[x * tables.width + j]
            & upto[j];
        set_word(row, tables.width, 0, j, given);
    }
}

/// A row of the numbers that an edge leads to from a number that they reach and that isn't below them: only they are
/// the least number of a cycle.
pub fn closed_numbers(alloc: Global, tables: Tables) -> Result<Vec<u64>, AllocError>
    requires keeps { KeepsAllPaths tables.nodes tables.width tables.edges.now tables.paths.now tables.transposed.now }
    ensures { IfOk result (λ row. (length row.items ≡ tables.entry.width) × ((y : ℕ) → y / 64 < tables.entry.width →
        IsSet row.items tables.entry.width 0 y ↔ IsClosedNumber tables.entry.edges.now tables.entry.transposed.now tables.entry.width tables.entry.nodes y)) }
{
    let paths = BitTable {
        words: tables.paths,
        width: tables.width,
    };
    let mut row = vec![in alloc; 0; tables.width]?;
    let mut upto = vec![in alloc; 0; tables.width]?;
    for x in 0..tables.nodes {
        set_bit(&mut upto, tables.width, 0, x);
        if bit(paths, x, x) {
            note_closed(&mut row, &upto, tables, x);
        }
    }
    Ok(row)
}

/// Adds to the numbers reached those that edges lead to from the numbers of a level, in the words from `first` on.
pub fn spread(
    reached: &mut [u64],
    edges: BitTable,
    levels: &[u64],
    count: usize,
    nodes: usize,
    first: usize,
)
    requires small { nodes < 2 ^ 32 }
    requires fits { edges.width ≡ (nodes + 63) / 64 }
    requires sized { length edges.words.now ≡ nodes * edges.width }
    requires row { edges.width ≤ length reached.old }
    requires level { count * edges.width + edges.width ≤ length levels.now }
    requires within { (x : ℕ) → x / 64 < edges.width → IsSet levels.now edges.width count x → x < nodes }
    ensures { Adds reached.old reached.new edges.entry.width
        (λ r y. (r ≡ 0) × (first ≤ y / 64) × IsNext edges.entry.words.now levels.now edges.entry.width count first y) }
{
    for i in first..edges.width {
        let rows = levels[count * edges.width + i];
        or_rows(reached, 0, edges, i, rows, first);
    }
}

/// Fills a level with the numbers reached that lead to the start and weren't seen, marks them as seen, and returns
/// whether there are any. It goes over the words from that of the start on.
pub fn advance(
    levels: &mut [u64],
    row: usize,
    seen: &mut [u64],
    reached: &[u64],
    transposed: BitTable,
    start: usize,
) -> bool
    requires level { row * transposed.width + transposed.width ≤ length levels.old }
    requires seen_row { transposed.width ≤ length seen.old }
    requires reached_row { transposed.width ≤ length reached.now }
    requires start_row { start * transposed.width + transposed.width ≤ length transposed.words.now }
    ensures level { Adds levels.old levels.new transposed.entry.width
        (λ i y. (i ≡ row) × (start / 64 ≤ y / 64) × IsUnseen reached.now transposed.entry.words.now seen.old transposed.entry.width start y) }
    ensures seen { Adds seen.old seen.new transposed.entry.width (λ i y. (i ≡ 0) × (start / 64 ≤ y / 64)
        × IsSet reached.now transposed.entry.width 0 y × IsSet transposed.entry.words.now transposed.entry.width start y) }
    ensures some { (y : ℕ) → y / 64 < transposed.entry.width → start / 64 ≤ y / 64 →
        IsUnseen reached.now transposed.entry.words.now seen.old transposed.entry.width start y → IsTrue result }
{
    let mut all = 0;
    for j in start / 64..transposed.width {
        let given = reached[j] & transposed.words[start * transposed.width + j];
        let fresh = set_word(seen, transposed.width, 0, j, given);
        set_word(levels, transposed.width, row, j, fresh);
        all |= fresh;
    }
    all != 0
}

/// Whether the start may be on a cycle of `limit` numbers or fewer, none of which is below it. Where the answer is
/// false, it is on none.
pub fn closes_within(
    alloc: Global,
    tables: Tables,
    passed: &[u64],
    start: usize,
    limit: usize,
) -> Result<bool, AllocError>
    requires keeps { KeepsAllPaths tables.nodes tables.width tables.edges.now tables.paths.now tables.transposed.now }
    requires within { start < tables.nodes }
    requires sized { length passed.now ≡ tables.width }
    requires passed { (y : ℕ) → y / 64 < tables.width → IsSet passed.now tables.width 0 y ↔ (y < start) }
    ensures { IfOk result (λ closes. IsTrue closes ⊎ NoShorterOpen tables.entry.edges.now tables.entry.transposed.now tables.entry.width tables.entry.nodes
        start limit) }
{
    let width = tables.width;
    let edges = BitTable {
        words: tables.edges,
        width,
    };
    let transposed = BitTable {
        words: tables.transposed,
        width,
    };
    let first = start / 64;
    let mut seen = passed.to_vec(alloc)?;
    let mut reached = vec![in alloc; 0; tables.width]?;
    let mut levels = vec![in alloc; 0; tables.width]?;
    set_bit(&mut levels, tables.width, 0, start);
    for count in 0..limit {
        spread(&mut reached, edges, &levels, count, tables.nodes, first);
        let row = BitTable {
            words: &reached,
            width,
        };
        if bit(row, 0, start) {
            return Ok(true);
        }
        let size = levels.len() + tables.width;
        levels.resize(size, 0)?;
        if !advance(
            &mut levels,
            count + 1,
            &mut seen,
            &reached,
            transposed,
            start,
        ) {
            return Ok(false);
        }
    }
    Ok(false)
}
