//! The base rules.
ghost use Rattle.std.specs.Prelude.{◌≡◌, ◌↔◌, ◌<◌, ◌+◌, ◌*◌, ◌/◌, ◌^◌, ℕ, suc, Some, IfOk, OnOk, IfSome, MatchOption};
ghost use Rattle.bitsets.specs.Rows.{HasBit, HasNumber, IsListOf, Marks};
ghost use Rattle.tso_ops.specs.Events.{event_at, event_total, IsEvent};
ghost use Rattle.tso_model.specs.Rules.{BasePair};
ghost use Rattle.tso_model.specs.Ranks.{RankSet};
ghost use Rattle.tso_model.specs.Certs.{IsFirstBase};
ghost use Rattle.tso_rules.specs.Internal.MarkedRows.{IsBaseButOwn, IsKeptStore, IsOrdered};
ghost use Rattle.tso_rules.specs.Rows.{IsLater};

use crate::sources::mark_sources;
use bitsets::{mark_if_some, mark_word, marked, word_above, word_at};
use std::alloc::Global;
use tso_cert::BaseRule;
use tso_model::conditions::first_base_rule;
use tso_ops::{Event, Order, OutOfMemory, Trace};

/// The first base rule that gives the edge from `u` to `v`, or None where no rule does.
///
/// It walks once over the events from `u` on at most: `base_row` gives all base edges of a row at once.
pub fn base_edge(trace: &Trace, u: usize, v: usize) -> Option<BaseRule>
    ensures { MatchOption result ((rule : BaseRule) → BasePair trace.now rule u v → ⊥) (IsFirstBase trace.now u v) }
{
    first_base_rule(trace, u, v)
}

/// The numbers to which the base rules give an edge from `u`, ascending; OutOfMemory where an allocation was refused.
///
/// It lists the numbers of `base_words`.
pub fn base_row(alloc: Global, trace: &Trace, u: usize) -> Result<Vec<usize>, OutOfMemory>
    ensures { IfOk result (λ row. IsListOf row.items (RankSet trace.now 0 u)) }
{
    // The call is for the proof: the contract of `events` says that the trace keeps its limits, so no number is above
    // 8,000. Elsewhere too, a call whose answer isn't used brings what its contract says into the proof.
    let _events = trace.events();
    marked(alloc, &base_words(alloc, trace, u)?, trace.node_count())
}

/// The numbers to which the base rules give an edge from `u`, as a row of bits: that of the number v is bit `v % 64` of
/// word `v / 64`. OutOfMemory where an allocation was refused.
///
/// For 0 it takes one look at each event; else a few looks at each word of the trace's rows, and, for a store, one at each
/// program-later load of its address. For the rows of many numbers `masked_base_words` takes less.
pub fn base_words(alloc: Global, trace: &Trace, u: usize) -> Result<Vec<u64>, OutOfMemory>
    ensures { IfOk result (λ row. (v : ℕ) → HasNumber row.items v ↔ RankSet trace.now 0 u v) }
{
    let mut marks = Vec::with_capacity(alloc, word_count(trace))?;
    mark_base(trace, &mut marks, u)?;
    Ok(marks)
}

/// The number of words that a row of bits has at most, for the numbers of a trace.
pub(crate) fn word_count(trace: &Trace) -> usize
    ensures count { (v : ℕ) → v < suc (event_total trace.now) → v / 64 < result }
    ensures small { result < 2 ^ 32 }
{
    let _events = trace.events();
    trace.node_count().div_ceil(64)
}

/// Marks the numbers to which the base rules give an edge from `u`.
fn mark_base(trace: &Trace, marks: &mut Vec<u64>, u: usize) -> Result<(), OutOfMemory>
    ensures { OnOk result (Marks marks.old.items marks.new.items (RankSet trace.now 0 u)) }
{
    mark_all_but_own(trace, marks, u)?;
    mark_own(trace, marks, u)
}

/// Marks the numbers to which a base rule other than Own gives an edge from `u`.
pub(crate) fn mark_all_but_own(
    trace: &Trace,
    marks: &mut Vec<u64>,
    u: usize,
) -> Result<(), OutOfMemory>
    ensures { OnOk result (Marks marks.old.items marks.new.items (IsBaseButOwn trace.now u)) }
{
    mark_events(trace, marks, u)?;
    mark_later(trace, marks, u)?;
    mark_readers(trace, marks, u)
}

/// Marks the numbers to which the rule Init gives an edge from `u`: all events, if it is 0.
fn mark_events(trace: &Trace, marks: &mut Vec<u64>, u: usize) -> Result<(), OutOfMemory>
    ensures { OnOk result (Marks marks.old.items marks.new.items (BasePair trace.now BaseRule.Init u)) }
{
    if u != 0 {
        return Ok(());
    }
    for n in 0..trace.node_count() {
        mark_if_some(marks, event_end(trace, n))?;
    }
    Ok(())
}

/// Number `n`, where it is an event.
#[inline]
pub(crate) fn event_end(trace: &Trace, n: usize) -> Option<usize>
    ensures is { IfSome result (λ v. (v ≡ n) × IsEvent trace.now n) }
    ensures all { IsEvent trace.now n → result ≡ Some n }
{
    trace.is_event(n).then_some(n)
}

/// Marks the numbers to which program order gives an edge from `u`.
fn mark_later(trace: &Trace, marks: &mut Vec<u64>, u: usize) -> Result<(), OutOfMemory>
    ensures { OnOk result (Marks marks.old.items marks.new.items (IsLater trace.now u)) }
{
    let Some(event) = trace.event(u) else {
        return Ok(());
    };
    for j in u / 64..trace.processor_words(event.proc).len() {
        mark_word(marks, j, later_word_of(trace, event, u, j))?;
    }
    Ok(())
}

/// Word `j` of the row of the numbers to which program order gives an edge from `u`: that of the number v is bit `v % 64` of
/// word `v / 64`.
pub fn later_word(trace: &Trace, u: usize, j: usize) -> u64
    ensures { (k : ℕ) → k < 64 → HasBit result k ↔ IsLater trace.now u (64 * j + k) }
{
    match trace.event(u) {
        Some(event) => later_word_of(trace, event, u, j),
        None => 0,
    }
}

/// The same for event `u`, which is this one.
#[inline]
fn later_word_of(trace: &Trace, event: Event, u: usize, j: usize) -> u64
    requires { event_at trace.now u ≡ Some event }
    ensures { (k : ℕ) → k < 64 → HasBit result k ↔ IsLater trace.now u (64 * j + k) }
{
    let processor = trace.processor_words(event.proc);
    word_at(processor, j) & word_above(u, j) & ordered_word(trace, event, j)
}

/// Word `j` of the row of the numbers that program order puts after the event, if they are program-later: all for a load,
/// and for a store the stores that the memory model keeps after it or that have more STBARs before them, and the loads that
/// have more barriers before them.
#[inline]
fn ordered_word(trace: &Trace, event: Event, j: usize) -> u64
    ensures { (k : ℕ) → k < 64 → HasBit result k ↔ IsOrdered trace.now event (64 * j + k) }
{
    if event.load {
        u64::MAX
    } else {
        let stores = word_at(trace.all_store_words(), j);
        let no_stbar = word_at(trace.stbar_words(event.stbars), j);
        let no_barrier = word_at(trace.barrier_words(event.bars), j);
        kept_word(trace, event, j) | stores & !no_stbar | !stores & !no_barrier
    }
}

/// Word `j` of the row of the stores that the memory model keeps after the store without an STBAR, if they are
/// program-later: under TSO all, under PSO those to its address.
#[inline]
fn kept_word(trace: &Trace, event: Event, j: usize) -> u64
    ensures { (k : ℕ) → k < 64 → HasBit result k ↔ IsKeptStore trace.now event (64 * j + k) }
{
    match trace.order() {
        Order::Tso => word_at(trace.all_store_words(), j),
        Order::Pso => word_at(trace.store_words(event.a), j),
    }
}

/// Marks the numbers to which the rule Read gives an edge from `u`, if it is a store: the loads that read it but aren't
/// program-later.
fn mark_readers(trace: &Trace, marks: &mut Vec<u64>, u: usize) -> Result<(), OutOfMemory>
    ensures { OnOk result (Marks marks.old.items marks.new.items (BasePair trace.now BaseRule.Read u)) }
{
    let Some(event) = trace.event(u) else {
        return Ok(());
    };
    if event.load {
        return Ok(());
    }
    let readers = trace.reader_words(u);
    let processor = trace.processor_words(event.proc);
    for j in 0..readers.len() {
        let later = word_at(processor, j) & word_above(u, j);
        mark_word(marks, j, readers[j] & !later)?;
    }
    Ok(())
}

/// Marks the numbers to which the rule Own gives an edge from `u`, if it is a store: the other sources of the program-later
/// loads of its address.
fn mark_own(trace: &Trace, marks: &mut Vec<u64>, u: usize) -> Result<(), OutOfMemory>
    ensures { OnOk result (Marks marks.old.items marks.new.items (BasePair trace.now BaseRule.Own u)) }
{
    let Some(event) = trace.event(u) else {
        return Ok(());
    };
    if event.load {
        return Ok(());
    }
    let loads = trace.load_words(event.a);
    let processor = trace.processor_words(event.proc);
    for j in 0..word_count(trace) {
        let later = word_at(processor, j) & word_above(u, j);
        mark_sources(trace, marks, u, j, word_at(loads, j) & later)?;
    }
    Ok(())
}
