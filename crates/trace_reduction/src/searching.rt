//! Fewer operations of a trace that are still a violation.

use crate::candidates::{Candidate, candidate_as_it_is, candidate_of};
use crate::judging::SparingJudge;
use crate::logs::{keep_all, log_of};
use crate::named::named_operations;
use log_search::{Effort, Judge, reduce};
use log_selections::{Kept, KnownLog};
use log_text::LogOperation;
use std::alloc::Global;
use std::sync::Wait;
use std::thread::Threads;
use tso_cert::StepList;
use tso_ops::{OutOfMemory, Part, Trace};

/// A place in lists of kept operations: the list of a processor, and an index there.
#[derive(Clone, Copy)]
struct Place {
    processor: usize,
    index: usize,
}

/// A small trace that should show the violation, of which the trace's certificate has these steps: what these name is made
/// smaller as long as it is a violation by itself, and as long as the effort isn't spent. None where it is too much to begin.
/// OutOfMemory where an allocation was refused.
pub(crate) fn search<H: Threads + Wait>(
    rt: &H,
    alloc: Global,
    trace: &Trace,
    steps: &StepList,
    effort: &mut Effort,
) -> Result<Option<Candidate>, OutOfMemory> {
    let known = KnownLog::new(alloc, log_of(alloc, trace)?)?;
    let all = keep_all(alloc, known.log())?;
    let named = named_operations(alloc, trace, steps)?;
    if effort.is_too_much(count(&named), count(&all)) {
        effort.give_up();
        return Ok(None);
    }
    let mut judge = SparingJudge::new(rt, alloc, trace, &known, *effort)?;
    let kept = if judge.judge_all(&named)? { named } else { all };
    let mut fewer = reduce(alloc, &known, kept, &mut judge)?;
    for place in swaps(alloc, &known, &fewer)? {
        halve(&mut fewer, place, &mut judge)?;
    }
    *effort = judge.effort();
    if effort.is_spent() {
        candidate_as_it_is(alloc, &known, &fewer)
    } else {
        candidate_of(alloc, &known, &fewer)
    }
}

/// How many operations there are.
fn count(kept: &[Vec<Kept>]) -> usize {
    let mut count: usize = 0;
    for list in kept {
        count = count.saturating_add(list.len());
    }
    count
}

/// Where swaps are kept as a whole.
fn swaps(alloc: Global, known: &KnownLog, kept: &[Vec<Kept>]) -> Result<Vec<Place>, OutOfMemory> {
    let mut places = Vec::new(alloc);
    for (processor, list) in kept.iter().enumerate() {
        push_swaps(known, processor, list, &mut places)?;
    }
    Ok(places)
}

/// Pushes where swaps of a processor are kept as a whole.
fn push_swaps(
    known: &KnownLog,
    processor: usize,
    list: &[Kept],
    places: &mut Vec<Place>,
) -> Result<(), OutOfMemory> {
    for (index, kept) in list.iter().enumerate() {
        if kept.part == Part::Whole && is_swap(known, processor, kept.index) {
            places.push(Place { processor, index })?;
        }
    }
    Ok(())
}

/// Whether an operation of a processor is a swap.
fn is_swap(known: &KnownLog, processor: usize, index: usize) -> bool {
    if let Some(list) = known.log().lists.get(processor)
        && let Some(logged) = list.get(index)
    {
        matches!(logged.operation, LogOperation::Sw { .. })
    } else {
        false
    }
}

/// Keeps of a swap its store alone, or its load, where that is still accused.
fn halve<J: Judge>(kept: &mut [Vec<Kept>], place: Place, judge: &mut J) -> Result<(), OutOfMemory> {
    for part in [Part::SwapStore, Part::SwapLoad] {
        keep_part(kept, place, part);
        if judge.accuses(kept)? {
            return Ok(());
        }
    }
    keep_part(kept, place, Part::Whole);
    Ok(())
}

/// Keeps this part of an operation.
fn keep_part(kept: &mut [Vec<Kept>], place: Place, part: Part) {
    if let Some(list) = kept.get_mut(place.processor)
        && let Some(kept) = list.get_mut(place.index)
    {
        kept.part = part;
    }
}
