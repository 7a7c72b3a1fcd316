//! Whether the events of a small trace are those of the whole trace that they are said to be.
ghost use Rattle.std.specs.Prelude.{◌≡◌, ℕ, suc, true};
ghost use Rattle.tso_ops.specs.Events.{HasSource, IsSwapLoad};
ghost use Rattle.log_selections.specs.Cuts.{origin_in};
ghost use Rattle.trace_reduction.specs.Internal.Checking.{KeepsEvent, KeepsEvents};

use tso_ops::Trace;

/// The number in the whole trace of event `n` of a small trace, by the numbers of all its events. Number 0, the writer of the
/// first values, is itself; an event that has none gets 0.
pub(crate) fn origin_of(origins: &[usize], n: usize) -> usize
    ensures { result ≡ origin_in origins.now n }
{
    match n.checked_sub(1) {
        None => 0,
        Some(k) => origins.get(k).copied().unwrap_or(0),
    }
}

/// Whether each event is the one of the whole trace that has the number given for it: by its kind and by its source.
pub(crate) fn keeps_events(trace: &Trace, small: &Trace, origins: &[usize]) -> bool
    ensures { result ≡ true → KeepsEvents trace.now small.now (origin_in origins.now) }
{
    for k in 0..small.events() {
        if !keeps_event(trace, small, origins, k + 1) {
            return false;
        }
    }
    true
}

/// Whether event `n` is.
fn keeps_event(trace: &Trace, small: &Trace, origins: &[usize], n: usize) -> bool
    ensures { result ≡ true → KeepsEvent trace.now small.now (origin_in origins.now) n }
{
    let origin = origin_of(origins, n);
    if small.is_load(n) {
        trace.is_load(origin)
            && keeps_swap(trace, small, origins, n)
            && keeps_source(trace, small, origins, n)
    } else {
        trace.is_store(origin)
    }
}

/// Whether event `n`, if it is the load of a swap, is that of a swap of the whole trace.
fn keeps_swap(trace: &Trace, small: &Trace, origins: &[usize], n: usize) -> bool
    ensures { result ≡ true → IsSwapLoad small.now n → IsSwapLoad trace.now (origin_in origins.now n) ×
        (origin_in origins.now (suc n) ≡ suc (origin_in origins.now n)) }
{
    match (small.swap_store(n), trace.swap_store(origin_of(origins, n))) {
        (None, _) => true,
        (Some(store), Some(other)) => origin_of(origins, store) == other,
        (Some(_), None) => false,
    }
}

/// Whether load `n` reads from where it reads in the whole trace.
fn keeps_source(trace: &Trace, small: &Trace, origins: &[usize], n: usize) -> bool
    ensures { result ≡ true → (s : ℕ) × HasSource small.now n s × HasSource trace.now (origin_in origins.now n) (origin_in origins.now s) }
{
    match small.source_number(n) {
        Some(s) => trace.has_source(origin_of(origins, n), origin_of(origins, s)),
        None => false,
    }
}
