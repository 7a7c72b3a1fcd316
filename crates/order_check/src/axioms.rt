//! Which axioms are met at an event that has just been passed: by the events that are passed with it, and those that are left.
ghost use Rattle.std.specs.Prelude.{◌↔◌, ◌≡◌, ◌<◌, suc, ℕ, List, Some, IsTrue, MatchOption};
ghost use Rattle.bitsets.specs.Rows.{HasNumber, IsMask};
ghost use Rattle.tso_ops.specs.Events.{IsStore, IsSwapLoad, KeepsStores, event_at};
ghost use Rattle.tso_model.specs.Axioms.{place};
ghost use Rattle.order_check.specs.Refusals.{IsFirstUnmet, MeetsAll, MeetsAt};
ghost use Rattle.order_check.specs.Internal.Progress.{HasJustPassed, IsAnswerAt};
ghost use Rattle.order_check.specs.Internal.Seen.{IsLastSeen, IsSeen};

use crate::faults::Axiom;
use crate::left::{Chosen, left_are_up_to};
use crate::progress::Progress;
use bitsets::{word_at, word_below};
use tso_ops::{Event, Order, Source, Trace};

/// The first axiom that isn't met at event `n`, or None where all are.
pub(crate) fn first_unmet(trace: &Trace, progress: &Progress, n: usize) -> Option<Axiom>
    ensures { (order : List ℕ) → HasJustPassed trace.now order n progress.now →
        MatchOption result (MeetsAll trace.now order n) (IsFirstUnmet trace.now order n) }
{
    let event = trace.event(n)?;
    for k in 0..Axiom::ALL.len() {
        let law = Axiom::ALL[k];
        if !is_met(trace, progress, law, n, event) {
            return Some(law);
        }
    }
    None
}

/// Whether this axiom is met at the event.
fn is_met(trace: &Trace, progress: &Progress, law: Axiom, n: usize, event: Event) -> bool
    ensures { IsAnswerAt trace.now progress.now n event result (λ order. MeetsAt trace.now order law n) }
{
    match law {
        Axiom::LoadOp => is_load_op_met(trace, progress, n, event),
        Axiom::StoreStore => is_store_store_met(trace, progress, n, event),
        Axiom::Stbar => is_stbar_met(trace, progress, n, event),
        Axiom::Membar => is_membar_met(trace, progress, n, event),
        Axiom::Atomicity => event.load || is_no_swap_open(trace, progress.left()),
        Axiom::Value => is_value_met(trace, progress, n, event),
    }
}

/// Whether no program-earlier load is left.
fn is_load_op_met(trace: &Trace, progress: &Progress, v: usize, event: Event) -> bool
    ensures { IsAnswerAt trace.now progress.now v event result (λ order. MeetsAt trace.now order Axiom.LoadOp v) }
{
    let own = trace.processor_words(event.proc);
    let loads = Chosen {
        one: own,
        two: own,
        other: trace.all_store_words(),
    };
    left_are_up_to(progress, loads, v, progress.place(v))
}

/// Whether, where the event is a store, no program-earlier store is left whose order with it the memory model keeps.
fn is_store_store_met(trace: &Trace, progress: &Progress, v: usize, event: Event) -> bool
    ensures { IsAnswerAt trace.now progress.now v event result (λ order. MeetsAt trace.now order Axiom.StoreStore v) }
{
    if event.load {
        return true;
    }
    let kept = Chosen {
        one: trace.processor_words(event.proc),
        two: kept_stores(trace, event),
        other: &[],
    };
    left_are_up_to(progress, kept, v, progress.place(v))
}

/// The stores whose order with the event the memory model keeps with no STBAR, if both are one processor's, as a row of bits.
fn kept_stores(trace: &Trace, event: Event) -> &[u64]
    ensures { (v : ℕ) → event_at trace.now v ≡ Some event → IsMask result.now (λ u. IsStore trace.now u × KeepsStores trace.now u v) }
{
    match trace.order() {
        Order::Tso => trace.all_store_words(),
        Order::Pso => trace.store_words(event.a),
    }
}

/// Whether, where the event is a store, no program-earlier store before an STBAR is left: one that fewer STBARs stand before.
fn is_stbar_met(trace: &Trace, progress: &Progress, v: usize, event: Event) -> bool
    ensures { IsAnswerAt trace.now progress.now v event result (λ order. MeetsAt trace.now order Axiom.Stbar v) }
{
    if event.load {
        return true;
    }
    let before_stbar = Chosen {
        one: trace.processor_words(event.proc),
        two: trace.all_store_words(),
        other: trace.stbar_words(event.stbars),
    };
    left_are_up_to(progress, before_stbar, v, progress.place(v))
}

/// Whether, where the event is a load, no program-earlier store before a barrier is left: one that fewer barriers stand before.
fn is_membar_met(trace: &Trace, progress: &Progress, v: usize, event: Event) -> bool
    ensures { IsAnswerAt trace.now progress.now v event result (λ order. MeetsAt trace.now order Axiom.Membar v) }
{
    if !event.load {
        return true;
    }
    let before_barrier = Chosen {
        one: trace.processor_words(event.proc),
        two: trace.all_store_words(),
        other: trace.barrier_words(event.bars),
    };
    left_are_up_to(progress, before_barrier, v, progress.place(v))
}

/// Whether no swap is open: one whose load is passed, and whose store is left.
fn is_no_swap_open(trace: &Trace, left: &[u64]) -> bool
    ensures { IsTrue result ↔ ((l : ℕ) → IsSwapLoad trace.now l → (HasNumber left.now l → ⊥) → HasNumber left.now (suc l) → ⊥) }
{
    let swaps = trace.swap_load_words();
    for j in 0..trace.events() / 64 + 1 {
        let open = word_at(swaps, j) & word_below(left, j) & !word_at(left, j);
        if open != 0 {
            return false;
        }
    }
    true
}

/// Whether, where the event is a load, it read what the last store that it sees wrote: its source is the only store that can be
/// that one, since no two stores have one value.
fn is_value_met(trace: &Trace, progress: &Progress, l: usize, event: Event) -> bool
    ensures { IsAnswerAt trace.now progress.now l event result (λ order. MeetsAt trace.now order Axiom.Value l) }
{
    match trace.source(l) {
        None => true,
        Some(Source::Unwritten) => false,
        Some(Source::Init) => is_last_seen(trace, progress, l, event, 0),
        Some(Source::Store(s)) => {
            is_seen(trace, progress, l, s) && is_last_seen(trace, progress, l, event, s)
        },
    }
}

/// Whether the load sees store `s`, which is to its address: it is passed, or program-earlier.
fn is_seen(trace: &Trace, progress: &Progress, l: usize, s: usize) -> bool
    ensures { IsTrue result ↔ IsSeen trace.now progress.now.places.items l s }
{
    progress.place(s) <= progress.place(l) || trace.is_earlier(s, l)
}

/// Whether no store that the load sees stands after number `s`, its source. The first values, number 0, stand before all.
fn is_last_seen(trace: &Trace, progress: &Progress, l: usize, event: Event, s: usize) -> bool
    ensures { IsAnswerAt trace.now progress.now l event result (λ order. IsLastSeen trace.now order progress.now.places.items l s) }
{
    let most = progress.place(s);
    let own = Chosen {
        one: trace.processor_words(event.proc),
        two: trace.store_words(event.a),
        other: &[],
    };
    progress.last_place(event.a) <= most && left_are_up_to(progress, own, l, most)
}
