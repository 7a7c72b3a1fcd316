//! The rows of a processor.
ghost use Rattle.std.specs.Prelude.{◌≡◌, ◌++◌, ◌+◌, ◌<◌, ◌^◌, ◌==◌, ◌&&◌, ◌||◌, List, [], ◌∷◌, cond, false, nat_lt, IfOk, OnOk};
ghost use Rattle.std.specs.List.{list_any};
ghost use Rattle.std.specs.Str.{bytes_eq};
ghost use Rattle.line_text.specs.Lines.{is_empty};
ghost use Rattle.tso_ops.specs.declared.ops.Outcome.{Outcome};
ghost use Rattle.tso_ops.specs.Values.{op_of};
ghost use Rattle.tso_ops.specs.Events.{processor_count};
ghost use Rattle.tso_ops.specs.Limits.{barrier_count};
ghost use Rattle.trace_explanation.specs.Names.{outcome_text};
ghost use Rattle.trace_pictures.specs.declared.rows.Row.TheVariants.{Barrier};
ghost use Rattle.trace_pictures.specs.Rows.{event_rows, gap_rows, has_word, is_new_barrier, rows_of, shows_barriers, stands};

use crate::placed::PlacedTrace;
use std::alloc::{AllocError, Global};
use tso_ops::Outcome;

/// A row of a processor.
#[derive(Clone, Copy, Debug, PartialEq, Eq)]
pub enum Row {
    /// An event, by its number.
    Event(usize),
    /// A barrier, by its place among the processor's operations, and the operation.
    Barrier { place: usize, outcome: Outcome },
    /// How many operations are left out before a place among the processor's operations.
    Gap { place: usize, count: usize },
}

/// Which barriers stand before a place of a processor, after the last drawn event there.
#[derive(Clone, Copy, Debug)]
struct Barriers {
    membar: bool,
    stbar: bool,
}

/// The rows of processor `p`. OutOfMemory where an allocation was refused.
#[tactic(auto, unfolding(crate::specs::Rows::rows_of))]
pub(crate) fn rows_of(
    alloc: Global,
    placed: &PlacedTrace<'_>,
    drawn: &[usize],
    p: usize,
) -> Result<Vec<Row>, AllocError>
    requires { p < processor_count placed.now }
    ensures { IfOk result (λ rows. rows.items ≡ rows_of placed.now drawn.now p) }
{
    let ops = placed.trace().ops(p);
    let mut rows = Vec::new(alloc);
    let mut left_out = 0;
    let mut barriers = Barriers {
        membar: false,
        stbar: false,
    };
    for place in 0..ops.len() {
        let mut here = event_rows(alloc, placed, drawn, p, place)?;
        let no_events = here.is_empty();
        let shows = shows_barriers(placed, drawn, p, place);
        let new = is_new_barrier(barriers, ops[place]);
        push_barrier(&mut here, shows, new, place, ops[place])?;
        push_after_gap(&mut rows, place, left_out, &here)?;
        left_out = left_out_after(left_out, here.is_empty(), ops[place]);
        barriers = barriers_after(barriers, no_events, ops[place]);
    }
    push_gap(&mut rows, ops.len(), left_out)?;
    Ok(rows)
}

/// The rows of the drawn events that the operation at a place of processor `p` gives.
fn event_rows(
    alloc: Global,
    placed: &PlacedTrace<'_>,
    drawn: &[usize],
    p: usize,
    place: usize,
) -> Result<Vec<Row>, AllocError>
    ensures { IfOk result (λ rows. rows.items ≡ event_rows placed.now drawn.now p place) }
{
    let mut rows = Vec::new(alloc);
    for n in drawn {
        if stands_at(placed, p, place, *n) {
            rows.push(Row::Event(*n))?;
        }
    }
    Ok(rows)
}

/// Pushes the row of a barrier, if barriers are shown and it is new.
fn push_barrier(
    rows: &mut Vec<Row>,
    shows: bool,
    new: bool,
    place: usize,
    outcome: Outcome,
) -> Result<(), AllocError>
    ensures { OnOk result (rows.new.items ≡ rows.old.items ++ cond (shows && new) (Barrier place outcome ∷ []) []) }
{
    if shows && new {
        rows.push(Row::Barrier { place, outcome })?;
    }
    Ok(())
}

/// Whether the operation is a barrier, and none of these is one of its word.
fn is_new_barrier(barriers: Barriers, outcome: Outcome) -> bool
    ensures { (others : List Outcome) → barriers.membar ≡ has_word Outcome.Mb others → barriers.stbar ≡ has_word Outcome.Sb others →
        result ≡ is_new_barrier others outcome }
{
    match outcome {
        Outcome::Mb => !barriers.membar,
        Outcome::Sb => !barriers.stbar,
        Outcome::Ld { .. } | Outcome::St { .. } | Outcome::Sw { .. } => false,
    }
}

/// Whether barriers at a place of processor `p` have rows.
fn shows_barriers(placed: &PlacedTrace<'_>, drawn: &[usize], p: usize, place: usize) -> bool
    ensures { result ≡ shows_barriers placed.now drawn.now p place }
{
    drawn.len() == placed.trace().events()
        || (some_before(placed, drawn, p, place) && some_after(placed, drawn, p, place))
}

/// Whether a drawn event of processor `p` stands before a place.
fn some_before(placed: &PlacedTrace<'_>, drawn: &[usize], p: usize, place: usize) -> bool
    ensures { result ≡ list_any (stands placed.now p (λ other. nat_lt other place)) drawn.now }
{
    for n in drawn {
        if stands_before(placed, p, place, *n) {
            return true;
        }
    }
    false
}

/// Whether a drawn event of processor `p` stands after a place.
fn some_after(placed: &PlacedTrace<'_>, drawn: &[usize], p: usize, place: usize) -> bool
    ensures { result ≡ list_any (stands placed.now p (λ other. nat_lt place other)) drawn.now }
{
    for n in drawn {
        if stands_after(placed, p, place, *n) {
            return true;
        }
    }
    false
}

/// Whether event `n` stands at a place of processor `p`.
fn stands_at(placed: &PlacedTrace<'_>, p: usize, place: usize, n: usize) -> bool
    ensures { result ≡ stands placed.now p (λ other. other == place) n }
{
    match placed.operation(n) {
        Some(operation) => operation.proc == p && operation.place == place,
        None => false,
    }
}

/// Whether event `n` stands before a place of processor `p`.
fn stands_before(placed: &PlacedTrace<'_>, p: usize, place: usize, n: usize) -> bool
    ensures { result ≡ stands placed.now p (λ other. nat_lt other place) n }
{
    match placed.operation(n) {
        Some(operation) => operation.proc == p && operation.place < place,
        None => false,
    }
}

/// Whether event `n` stands after a place of processor `p`.
fn stands_after(placed: &PlacedTrace<'_>, p: usize, place: usize, n: usize) -> bool
    ensures { result ≡ stands placed.now p (λ other. nat_lt place other) n }
{
    match placed.operation(n) {
        Some(operation) => operation.proc == p && place < operation.place,
        None => false,
    }
}

/// Pushes the rows at a place, after what is left out before it.
fn push_after_gap(
    rows: &mut Vec<Row>,
    place: usize,
    left_out: usize,
    here: &[Row],
) -> Result<(), AllocError>
    ensures { OnOk result (rows.new.items ≡ rows.old.items ++ cond (is_empty here.now) [] (gap_rows place left_out ++ here.now)) }
{
    if !here.is_empty() {
        push_gap(rows, place, left_out)?;
        rows.extend_from_slice(here)?;
    }
    Ok(())
}

/// Pushes the row that says how many operations are left out before a place, if any are.
fn push_gap(rows: &mut Vec<Row>, place: usize, count: usize) -> Result<(), AllocError>
    ensures { OnOk result (rows.new.items ≡ rows.old.items ++ gap_rows place count) }
{
    if count > 0 {
        rows.push(Row::Gap { place, count })?;
    }
    Ok(())
}

/// How many operations are left out after this one, which may have no rows.
fn left_out_after(left_out: usize, no_rows: bool, outcome: Outcome) -> usize
    requires { left_out < 2 ^ 63 }
    ensures { result ≡ cond no_rows (left_out + cond (barrier_count (op_of outcome) == 0) 1 0) 0 }
{
    match outcome {
        _ if !no_rows => 0,
        Outcome::Mb | Outcome::Sb => left_out,
        _ => left_out + 1,
    }
}

/// Which barriers stand before the place after this operation, whose place may have no drawn event.
#[tactic(auto, unfolding(trace_explanation::specs::Names::outcome_text))]
fn barriers_after(barriers: Barriers, no_events: bool, outcome: Outcome) -> Barriers
    ensures membar { result.membar ≡ cond no_events (barriers.membar || bytes_eq (outcome_text outcome) (outcome_text Outcome.Mb)) false }
    ensures stbar { result.stbar ≡ cond no_events (barriers.stbar || bytes_eq (outcome_text outcome) (outcome_text Outcome.Sb)) false }
{
    match outcome {
        _ if !no_events => Barriers {
            membar: false,
            stbar: false,
        },
        Outcome::Mb => Barriers {
            membar: true,
            ..barriers
        },
        Outcome::Sb => Barriers {
            stbar: true,
            ..barriers
        },
        _ => barriers,
    }
}
