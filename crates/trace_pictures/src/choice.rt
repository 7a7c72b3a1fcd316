//! Which events a picture draws.
ghost use Rattle.std.specs.Prelude.{◌≡◌, [], IfOk, OnOk};
ghost use Rattle.std.specs.List.{fold, range_with_len};
ghost use Rattle.trace_pictures.specs.Choice.{drawn_events, whole_at, with_whole};

use crate::members::is_among;
use crate::placed::PlacedTrace;
use crate::wanted::list_wanted;
use std::alloc::{AllocError, Global};
use tso_cert::Certificate;
use tso_ops::Part;

/// How many events a picture draws at most.
const DRAWN_LIMIT: usize = 100;

/// The events that are drawn. OutOfMemory where an allocation was refused.
#[tactic(auto, unfolding(crate::specs::Choice::drawn_events))]
pub(crate) fn choose_events(
    alloc: Global,
    placed: &PlacedTrace<'_>,
    certificate: &Option<Certificate>,
) -> Result<Vec<usize>, AllocError>
    ensures { IfOk result (λ drawn. drawn.items ≡ drawn_events placed.now certificate.now) }
{
    let trace = placed.trace();
    if trace.events() <= DRAWN_LIMIT {
        list_numbers(alloc, trace.events())
    } else {
        let wanted = list_wanted(alloc, trace, certificate)?;
        draw_wholes(alloc, placed, &wanted)
    }
}

/// The numbers from 1 to `last`.
#[tactic(auto, using(trace_explanation::proofs::SearchFacts::numbers_more))]
fn list_numbers(alloc: Global, last: usize) -> Result<Vec<usize>, AllocError>
    ensures { IfOk result (λ numbers. numbers.items ≡ range_with_len 1 last) }
{
    let mut numbers = Vec::new(alloc);
    for n in 0..last {
        numbers.push(n + 1)?;
    }
    Ok(numbers)
}

/// The events of these that are drawn, with the whole operations that give them.
fn draw_wholes(
    alloc: Global,
    placed: &PlacedTrace<'_>,
    wanted: &[usize],
) -> Result<Vec<usize>, AllocError>
    ensures { IfOk result (λ drawn. drawn.items ≡ fold (with_whole placed.now) [] wanted.now) }
{
    let mut drawn = Vec::new(alloc);
    for n in wanted {
        draw_whole(alloc, placed, &mut drawn, *n)?;
    }
    Ok(drawn)
}

/// Draws event `n` too, with the whole operation that gives it, unless it is drawn already or that would be too many.
#[tactic(auto, unfolding(crate::specs::Choice::with_whole))]
fn draw_whole(
    alloc: Global,
    placed: &PlacedTrace<'_>,
    drawn: &mut Vec<usize>,
    n: usize,
) -> Result<(), AllocError>
    ensures { OnOk result (drawn.new.items ≡ with_whole placed.now drawn.old.items n) }
{
    if is_among(n, drawn) {
        return Ok(());
    }
    let whole = list_whole(alloc, placed, n)?;
    if drawn.len() + whole.len() <= DRAWN_LIMIT {
        drawn.extend_from_slice(&whole)?;
    }
    Ok(())
}

/// The events of the operation that gives event `n`: none where there is no such event.
fn list_whole(alloc: Global, placed: &PlacedTrace<'_>, n: usize) -> Result<Vec<usize>, AllocError>
    ensures { IfOk result (λ whole. whole.items ≡ whole_at placed.now n) }
{
    let mut whole = Vec::new(alloc);
    if let Some(operation) = placed.operation(n) {
        match operation.part {
            Part::Whole => whole.push(n)?,
            Part::SwapLoad => {
                whole.push(n)?;
                whole.push(n + 1)?;
            },
            Part::SwapStore => {
                whole.push(n - 1)?;
                whole.push(n)?;
            },
        }
    }
    Ok(whole)
}
