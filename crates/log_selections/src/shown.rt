//! Operations of a log, as they stand in it.
ghost use Rattle.std.specs.Prelude.{◌≡◌, [], IfOk, IfSome, get_or, map};
ghost use Rattle.std.specs.List.{Contains, range_with_len};
ghost use Rattle.tso_ops.specs.Values.{rows};
ghost use Rattle.log_selections.specs.Shown.{AreLinesOf, IsLineOf, counted_of, counted_operation, part_of};

use log_text::{LogOperation, LoggedOperation};
use std::alloc::Global;
use tso_ops::{OutOfMemory, Part};

/// An operation that is kept: which of its processor's, and which part of it. One that is no swap is always kept whole.
#[derive(Clone, Copy, Debug, PartialEq, Eq)]
pub struct Kept {
    /// Which of its processor's operations, from 0.
    pub index: usize,
    /// Which part of it is kept: of a swap perhaps its load or its store alone.
    pub part: Part,
}

/// An operation that is shown, as it stands in the log.
#[derive(Clone, Copy, Debug, PartialEq, Eq)]
pub struct Shown {
    /// Its processor, from 0.
    pub processor: usize,
    /// The operation, with its line.
    pub logged: LoggedOperation,
    /// Which part of it counts.
    pub part: Part,
}

/// An operation that is to be shown: a processor, and which of its operations.
#[derive(Clone, Copy)]
struct Place {
    processor: usize,
    kept: Kept,
    line: usize,
}

/// These operations of each processor, in the order of their lines: None where they are no operations of these lists, or one
/// stands twice.
pub(crate) fn show_kept(
    alloc: Global,
    lists: &[Vec<LoggedOperation>],
    kept: &[Vec<Kept>],
) -> Result<Option<Vec<Shown>>, OutOfMemory>
    ensures { IfOk result (λ found. IfSome found (λ shown. AreLinesOf (rows lists.now) shown.items)) }
{
    let mut places = Vec::new(alloc);
    for (processor, row) in kept.iter().enumerate() {
        push_places(lists, processor, row, &mut places)?;
    }
    places.sort_unstable_by_key(|place: &Place| place.line);
    show_places(alloc, lists, &places)
}

/// Pushes where these operations of a processor stand.
fn push_places(
    lists: &[Vec<LoggedOperation>],
    processor: usize,
    row: &[Kept],
    places: &mut Vec<Place>,
) -> Result<(), OutOfMemory> {
    for kept in row {
        let line = match logged_at(lists, processor, kept.index) {
            Some(logged) => logged.line,
            None => 0,
        };
        places.push(Place {
            processor,
            kept: *kept,
            line,
        })?;
    }
    Ok(())
}

/// The operations at these places: None where one isn't there, or their lines don't ascend.
fn show_places(
    alloc: Global,
    lists: &[Vec<LoggedOperation>],
    places: &[Place],
) -> Result<Option<Vec<Shown>>, OutOfMemory>
    ensures { IfOk result (λ found. IfSome found (λ shown. AreLinesOf (rows lists.now) shown.items)) }
{
    let mut shown = Vec::new(alloc);
    let mut line = 0;
    for place in places {
        let Some(next) = shown_at(lists, *place) else {
            return Ok(None);
        };
        if next.logged.line <= line {
            return Ok(None);
        }
        line = next.logged.line;
        shown.push(next)?;
    }
    Ok(Some(shown))
}

/// The operation at a place.
fn shown_at(lists: &[Vec<LoggedOperation>], place: Place) -> Option<Shown>
    ensures { IfSome result (IsLineOf (rows lists.now)) }
{
    Some(Shown {
        processor: place.processor,
        logged: logged_at(lists, place.processor, place.kept.index)?,
        part: place.kept.part,
    })
}

/// The operation of a processor at an index.
pub(crate) fn logged_at(
    lists: &[Vec<LoggedOperation>],
    processor: usize,
    index: usize,
) -> Option<LoggedOperation>
    ensures { IfSome result (λ logged. Contains (get_or (rows lists.now) processor []) logged) }
{
    lists.get(processor)?.get(index).copied()
}

/// What counts of each of so many processors.
pub(crate) fn count_lists(
    alloc: Global,
    shown: &[Shown],
    processors: usize,
) -> Result<Vec<Vec<LoggedOperation>>, OutOfMemory>
    ensures { IfOk result (λ lists. rows lists.items ≡ map (counted_of shown.now) (range_with_len 0 processors)) }
{
    let mut lists = Vec::new(alloc);
    for p in 0..processors {
        lists.push(count_list(alloc, shown, p)?)?;
    }
    Ok(lists)
}

/// What counts of processor `p`.
fn count_list(alloc: Global, shown: &[Shown], p: usize) -> Result<Vec<LoggedOperation>, OutOfMemory>
    ensures { IfOk result (λ list. list.items ≡ counted_of shown.now p) }
{
    let mut list = Vec::new(alloc);
    for s in shown {
        if s.processor == p {
            list.push(counted(*s))?;
        }
    }
    Ok(list)
}

/// What counts of an operation.
fn counted(shown: Shown) -> LoggedOperation
    ensures { result ≡ counted_operation shown }
{
    LoggedOperation {
        line: shown.logged.line,
        operation: part_of(shown.part, shown.logged.operation),
    }
}

/// This part of an operation, of one that is no swap the whole.
fn part_of(part: Part, operation: LogOperation) -> LogOperation
    ensures { result ≡ part_of part operation }
{
    match (part, operation) {
        (Part::SwapLoad, LogOperation::Sw { a, r, .. }) => LogOperation::Ld { a, r },
        (Part::SwapStore, LogOperation::Sw { a, v, .. }) => LogOperation::St { a, v },
        (_, operation) => operation,
    }
}
