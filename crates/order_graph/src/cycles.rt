//! The least cycle, start by start.

ghost use Rattle.std.specs.Prelude.{◌≡◌, ◌⊎◌, ◌↔◌, ◌<◌, ◌+◌, ◌-◌, ◌/◌, ℕ, IsTrue, IfOk, MatchOption, IsSomeAnd, length};
ghost use Rattle.order_graph.specs.Internal.KeptPaths.{KeepsAllPaths};
ghost use Rattle.bitsets.specs.Tables.{IsSet};
ghost use Rattle.order_graph.specs.Internal.Tables.{Joined};
ghost use Rattle.order_graph.specs.Internal.Tracks.{IsClosedNumber, NoShorterOpen, NoCycleBefore, IsLeastCycleBefore};

use crate::closing::closes_within;
use crate::kept_tables::Tables;
use crate::searches::shortest;
use bitsets::{BitTable, bit};
use std::alloc::{AllocError, Global};

/// How many edges a cycle may have that is shorter than the best so far.
pub fn limit_below(best: &Option<Vec<usize>>) -> Option<usize>
    ensures { MatchOption best.now (result ≡ None) (λ cycle. result ≡ Some (length cycle.items - 1)) }
{
    match best {
        Some(cycle) => Some(cycle.len().saturating_sub(1)),
        None => None,
    }
}

/// Whether the start may be on a cycle within the limit, none of whose numbers is below it. Where the answer is false,
/// it is on none.
pub fn may_be_shorter(
    alloc: Global,
    tables: Tables,
    passed: &[u64],
    start: usize,
    limit: Option<usize>,
) -> Result<bool, AllocError>
    requires keeps { KeepsAllPaths tables.nodes tables.width tables.edges.now tables.paths.now tables.transposed.now }
    requires within { start < tables.nodes }
    requires sized { length passed.now ≡ tables.width }
    requires passed { (y : ℕ) → y / 64 < tables.width → IsSet passed.now tables.width 0 y ↔ (y < start) }
    ensures { IfOk result (λ may. IsTrue may ⊎ IsSomeAnd limit
        (NoShorterOpen tables.entry.edges.now tables.entry.transposed.now tables.entry.width tables.entry.nodes start)) }
{
    match limit {
        Some(most) => closes_within(alloc, tables, passed, start, most),
        None => Ok(true),
    }
}

/// The least cycle of those that begin with `start` or a number below it, where `best` is that of those below it,
/// `closed` a row of the numbers to which an edge closes a cycle, and `passed` one of the numbers below the start.
pub fn better(
    alloc: Global,
    tables: Tables,
    closed: &[u64],
    passed: &[u64],
    start: usize,
    best: Option<Vec<usize>>,
) -> Result<Option<Vec<usize>>, AllocError>
    requires keeps { KeepsAllPaths tables.nodes tables.width tables.edges.now tables.paths.now tables.transposed.now }
    requires within { start < tables.nodes }
    requires sized { length passed.now ≡ tables.width }
    requires passed { (y : ℕ) → y / 64 < tables.width → IsSet passed.now tables.width 0 y ↔ (y < start) }
    requires closed_row { length closed.now ≡ tables.width }
    requires closed { (y : ℕ) → y / 64 < tables.width → IsSet closed.now tables.width 0 y ↔
        IsClosedNumber tables.edges.now tables.transposed.now tables.width tables.nodes y }
    requires best { MatchOption best (NoCycleBefore (Joined tables.edges.now tables.width tables.nodes) start)
        (λ cycle. IsLeastCycleBefore (Joined tables.edges.now tables.width tables.nodes) start cycle.items) }
    ensures { IfOk result (λ found. MatchOption found (NoCycleBefore (Joined tables.entry.edges.now tables.entry.width tables.entry.nodes) (start + 1))
        (λ cycle. IsLeastCycleBefore (Joined tables.entry.edges.now tables.entry.width tables.entry.nodes) (start + 1) cycle.items)) }
{
    let closed_row = BitTable {
        words: closed,
        width: tables.width,
    };
    if !bit(closed_row, 0, start) {
        return Ok(best);
    }
    let limit = limit_below(&best);
    let may = may_be_shorter(alloc, tables, passed, start, limit)?;
    if !may {
        return Ok(best);
    }
    match shortest(alloc, tables, start, start, limit)? {
        Some(cycle) => Ok(Some(cycle)),
        None => Ok(best),
    }
}
