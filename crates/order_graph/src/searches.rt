//! The least way from one number to another, level by level.

ghost use Rattle.std.specs.Prelude.{◌≡◌, ◌↔◌, ◌<◌, ◌≤◌, ◌+◌, ◌*◌, ◌/◌, ℕ, IsTrue, IfOk, MatchOption, IsSomeAnd, IfSome, length};
ghost use Rattle.order_paths.specs.Paths.{Reaches, IsLeastPath};
ghost use Rattle.bitsets.specs.Tables.{IsSet, Adds};
ghost use Rattle.order_graph.specs.Internal.Tables.{Joined};
ghost use Rattle.order_graph.specs.Internal.KeptPaths.{Covers};
ghost use Rattle.order_graph.specs.Internal.Tracks.{IsLevel, IsAboveLevel, IsLeastTrack, NoShorter};

use crate::kept_tables::Tables;
use bitsets::{BitTable, bit, first_shared, set_bit, used_words};
use std::alloc::{AllocError, Global};

/// A level, whose bits lie in the words from `low` on and before `high`: row `count` of the levels.
#[derive(Clone, Copy)]
pub struct Level<'a> {
    pub levels: &'a [u64],
    pub count: usize,
    pub low: usize,
    pub high: usize,
}

/// Whether x is above the level.
#[inline]
pub fn is_above(tables: Tables, level: Level, u: usize, v: usize, x: usize) -> bool
    requires covers { Covers tables.nodes tables.width tables.edges.now tables.paths.now tables.transposed.now }
    requires row { x < tables.nodes }
    requires from { u < tables.nodes }
    requires to { v < tables.nodes }
    requires level { level.count * tables.width + tables.width ≤ length level.levels.now }
    requires end { level.high ≤ tables.width }
    requires used { (y : ℕ) → y / 64 < tables.width → IsSet level.levels.now tables.width level.count y → (level.low ≤ y / 64) × (y / 64 < level.high) }
    ensures { IsTrue result ↔ IsAboveLevel tables.entry.edges.now tables.entry.paths.now tables.entry.transposed.now level.entry.levels.now tables.entry.width u
        v level.entry.count x }
{
    let width = tables.width;
    let transposed = BitTable {
        words: tables.transposed,
        width,
    };
    let paths = BitTable {
        words: tables.paths,
        width,
    };
    let edges = BitTable {
        words: tables.edges,
        width,
    };
    bit(transposed, v, x)
        && bit(paths, u, x)
        && first_shared(edges, x, level.levels, level.count, level.low, level.high).is_some()
}

/// Fills the row after level `count` with the numbers above it.
pub fn raise(tables: Tables, levels: &mut [u64], u: usize, v: usize, count: usize)
    requires covers { Covers tables.nodes tables.width tables.edges.now tables.paths.now tables.transposed.now }
    requires from { u < tables.nodes }
    requires to { v < tables.nodes }
    requires level { (count + 1) * tables.width + tables.width ≤ length levels.old }
    ensures { Adds levels.old levels.new tables.entry.width (λ i y. (i ≡ count + 1) × (y < tables.entry.nodes)
        × IsAboveLevel tables.entry.edges.now tables.entry.paths.now tables.entry.transposed.now levels.old tables.entry.width u v count y) }
{
    let (low, high) = used_words(
        BitTable {
            words: levels,
            width: tables.width,
        },
        count,
    );
    for x in 0..tables.nodes {
        let level = Level {
            levels,
            count,
            low,
            high,
        };
        if is_above(tables, level, u, v, x) {
            set_bit(levels, tables.width, count + 1, x);
        }
    }
}

/// The least list from u down the levels to v.
pub fn descend(
    alloc: Global,
    tables: Tables,
    levels: &[u64],
    u: usize,
    v: usize,
    count: usize,
) -> Result<Vec<usize>, AllocError>
    requires covers { Covers tables.nodes tables.width tables.edges.now tables.paths.now tables.transposed.now }
    requires from { u < tables.nodes }
    requires to { v < tables.nodes }
    requires sized { length levels.now ≡ (count + 1) * tables.width }
    requires levels { (d : ℕ) → d ≤ count → IsLevel tables.edges.now tables.paths.now levels.now tables.width tables.nodes u v d }
    requires meets { (y : ℕ) × (y / 64 < tables.width) × IsSet tables.edges.now tables.width u y × IsSet levels.now tables.width count y }
    requires shortest { NoShorter tables.edges.now tables.width tables.nodes u v count }
    ensures { IfOk result (λ list. IsLeastTrack (Joined tables.entry.edges.now tables.entry.width tables.entry.nodes) u v list.items
        × (length list.items ≡ count + 1)) }
{
    let edges = BitTable {
        words: tables.edges,
        width: tables.width,
    };
    let mut list = Vec::new(alloc);
    list.push(u)?;
    let mut at = u;
    for done in 0..count {
        let Some(next) = first_shared(edges, at, levels, count - done, 0, tables.width) else {
            unreachable!()
        };
        list.push(next)?;
        at = next;
    }
    Ok(list)
}

/// Whether there is a limit that this many edges come up to.
pub fn is_passed(limit: Option<usize>, count: usize) -> bool
    ensures { IsTrue result ↔ IsSomeAnd limit (λ most. most ≤ count) }
{
    match limit {
        Some(most) => most <= count,
        None => false,
    }
}

/// The least list from u on the way to v, or None where each way has more edges than the limit.
pub fn shortest(
    alloc: Global,
    tables: Tables,
    u: usize,
    v: usize,
    limit: Option<usize>,
) -> Result<Option<Vec<usize>>, AllocError>
    requires covers { Covers tables.nodes tables.width tables.edges.now tables.paths.now tables.transposed.now }
    requires from { u < tables.nodes }
    requires to { v < tables.nodes }
    requires path { Reaches (Joined tables.edges.now tables.width tables.nodes) u v }
    ensures { IfOk result (λ found. MatchOption found (IsSomeAnd limit (NoShorter tables.entry.edges.now tables.entry.width tables.entry.nodes u v))
        (λ list. IsLeastTrack (Joined tables.entry.edges.now tables.entry.width tables.entry.nodes) u v list.items ×
        IfSome limit (λ most. length list.items ≤ most))) }
{
    let edges = BitTable {
        words: tables.edges,
        width: tables.width,
    };
    let mut levels = vec![in alloc; 0; tables.width]?;
    set_bit(&mut levels, tables.width, 0, v);
    let mut count = 0;
    'levels: loop {
        if is_passed(limit, count) {
            return Ok(None);
        }
        if first_shared(edges, u, &levels, count, 0, tables.width).is_some() {
            break;
        }
        let size = levels.len() + tables.width;
        levels.resize(size, 0)?;
        raise(tables, &mut levels, u, v, count);
        count += 1;
    }
    let list = descend(alloc, tables, &levels, u, v, count)?;
    Ok(Some(list))
}

/// The path from u to v with the fewest edges, and of these the least list.
pub fn least_path_of(
    alloc: Global,
    tables: Tables,
    u: usize,
    v: usize,
) -> Result<Vec<usize>, AllocError>
    requires covers { Covers tables.nodes tables.width tables.edges.now tables.paths.now tables.transposed.now }
    requires from { u < tables.nodes }
    requires to { v < tables.nodes }
    requires path { Reaches (Joined tables.edges.now tables.width tables.nodes) u v }
    ensures { IfOk result (λ path. IsLeastPath (Joined tables.entry.edges.now tables.entry.width tables.entry.nodes) u v path.items) }
{
    match shortest(alloc, tables, u, v, None)? {
        Some(mut list) => {
            list.push(v)?;
            Ok(list)
        }
        None => unreachable!(),
    }
}
