//! Rows of bits, one for the number of each event.
ghost use Rattle.std.specs.Prelude.{◌≡◌, ◌<◌, ℕ, Some, [], length, slice_index_or, IfOk, OnOk, IfSome};
ghost use Rattle.tso_ops.specs.Values.{TraceValue, rows};
ghost use Rattle.tso_ops.specs.Limits.{IsTrace};
ghost use Rattle.tso_ops.specs.declared.events.Source.{Source};
ghost use Rattle.tso_ops.specs.Internal.Tables.{AreSources};
ghost use Rattle.tso_ops.specs.Events.{events_of};
ghost use Rattle.tso_ops.specs.Internal.MaskTables.{AreMasks, AreMaskRowsAmong, HasEventRow, HasSourceRow, source_number, IsInRow, MarksInRow};

use crate::events::{Event, Source};
use crate::faults::OutOfMemory;
use bitsets::mark;
use std::alloc::Global;

/// What the rows of a table are of.
#[derive(Clone, Copy)]
pub(crate) enum Kind {
    /// The loads of each address.
    Loads,
    /// The stores of each address.
    Stores,
    /// The loads of swaps, in one row.
    SwapLoads,
    /// The events of each processor.
    Processors,
    /// The events that so many barriers stand before on their processors.
    Barriers,
    /// The events that so many STBARs stand before on their processors.
    Stbars,
    /// The stores of all addresses, in one row.
    AllStores,
}

/// The tables of a trace. A row ends with the word of its last bit, and a table with its last row that has one.
#[derive(Debug, Drop)]
pub(crate) struct Masks {
    pub loads: Vec<Vec<u64>>,
    pub stores: Vec<Vec<u64>>,
    pub swap_loads: Vec<Vec<u64>>,
    pub processors: Vec<Vec<u64>>,
    pub barriers: Vec<Vec<u64>>,
    pub stbars: Vec<Vec<u64>>,
    pub all_stores: Vec<Vec<u64>>,
    pub readers: Vec<Vec<u64>>,
}

/// The tables of a trace with these events and these sources of its loads.
pub(crate) fn list_masks(
    alloc: Global,
    events: &[Event],
    sources: &[Option<Source>],
) -> Result<Masks, OutOfMemory>
    ensures { (t : TraceValue) → IsTrace t → events_of t ≡ events.now → AreSources t sources.now → IfOk result (AreMasks t) }
{
    Ok(Masks {
        loads: list_rows(alloc, events, Kind::Loads)?,
        stores: list_rows(alloc, events, Kind::Stores)?,
        swap_loads: list_rows(alloc, events, Kind::SwapLoads)?,
        processors: list_rows(alloc, events, Kind::Processors)?,
        barriers: list_rows(alloc, events, Kind::Barriers)?,
        stbars: list_rows(alloc, events, Kind::Stbars)?,
        all_stores: list_rows(alloc, events, Kind::AllStores)?,
        readers: list_readers(alloc, sources)?,
    })
}

/// The table of this kind.
fn list_rows(alloc: Global, events: &[Event], kind: Kind) -> Result<Vec<Vec<u64>>, OutOfMemory>
    ensures { IfOk result (λ table. AreMaskRowsAmong (HasEventRow events.now kind) (length events.now) (rows table.items)) }
{
    let mut table = Vec::new(alloc);
    for (k, event) in events.iter().enumerate() {
        mark_in_row(alloc, &mut table, row_of(kind, *event), k + 1)?;
    }
    Ok(table)
}

/// The loads that each number is the source of, in the row of the number.
fn list_readers(alloc: Global, sources: &[Option<Source>]) -> Result<Vec<Vec<u64>>, OutOfMemory>
    ensures { IfOk result (λ table. AreMaskRowsAmong (HasSourceRow sources.now) (length sources.now) (rows table.items)) }
{
    let mut table = Vec::new(alloc);
    for (k, source) in sources.iter().enumerate() {
        mark_in_row(alloc, &mut table, number_of(*source), k + 1)?;
    }
    Ok(table)
}

/// The number of the source, if there is one.
fn number_of(source: Option<Source>) -> Option<usize>
    ensures is { IfSome result (λ s. (x : Source) × (source ≡ Some x) × (source_number x ≡ Some s)) }
    ensures all { (x : Source) (s : ℕ) → source ≡ Some x → source_number x ≡ Some s → result ≡ Some s }
{
    match source? {
        Source::Init => Some(0),
        Source::Store(s) => Some(s),
        Source::Unwritten => None,
    }
}

/// The row that has the event's number.
fn row_of(kind: Kind, event: Event) -> Option<usize>
    ensures is { IfSome result (λ r. IsInRow kind r event) }
    ensures all { (r : ℕ) → IsInRow kind r event → result ≡ Some r }
{
    match kind {
        Kind::Loads => event.load.then_some(event.a as usize),
        Kind::Stores => (!event.load).then_some(event.a as usize),
        Kind::SwapLoads => (event.load && event.swap).then_some(0),
        Kind::Processors => Some(event.proc),
        Kind::Barriers => Some(event.bars),
        Kind::Stbars => Some(event.stbars),
        Kind::AllStores => (!event.load).then_some(0),
    }
}

/// Marks the number in this row, if there is one.
fn mark_in_row(
    alloc: Global,
    table: &mut Vec<Vec<u64>>,
    row: Option<usize>,
    number: usize,
) -> Result<(), OutOfMemory>
    ensures { OnOk result (MarksInRow (rows table.old.items) (rows table.new.items) row number) }
{
    let Some(row) = row else {
        return Ok(());
    };
    add_rows(alloc, table, row)?;
    mark(&mut table[row], number)?;
    Ok(())
}

/// Adds empty rows until the table has this one.
fn add_rows(alloc: Global, table: &mut Vec<Vec<u64>>, row: usize) -> Result<(), OutOfMemory>
    ensures long { OnOk result (row < length table.new.items) }
    ensures same { OnOk result ((r : ℕ) → slice_index_or (rows table.new.items) r [] ≡ slice_index_or (rows table.old.items) r []) }
{
    for _ in table.len()..=row {
        table.push(Vec::new(alloc))?;
    }
    Ok(())
}

/// Row `r` of a table, empty past its end.
#[inline]
pub(crate) fn row_at(table: &[Vec<u64>], r: usize) -> &[u64]
    ensures { result.now ≡ slice_index_or (rows table.now) r [] }
{
    match table.get(r) {
        Some(row) => row,
        None => &[],
    }
}
