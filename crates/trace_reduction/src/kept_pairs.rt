//! Whether the events of a small trace stand to each other as they do in the whole trace.
ghost use Rattle.std.specs.Prelude.{◌≡◌, ◌↔◌, true};
ghost use Rattle.tso_ops.specs.Events.{Earlier, HasFewerBarriersBefore, HasFewerStbarsBefore, SameAddress};
ghost use Rattle.log_selections.specs.Cuts.{origin_in};
ghost use Rattle.trace_reduction.specs.Internal.Checking.{KeepsPair, KeepsPairs, KeepsPairsOf};

use crate::kept_events::origin_of;
use tso_ops::Trace;

/// Two numbers.
#[derive(Clone, Copy)]
struct Pair {
    u: usize,
    v: usize,
}

/// Whether each two events stand to each other as those of the whole trace do that have the numbers given for them.
pub(crate) fn keeps_pairs(trace: &Trace, small: &Trace, origins: &[usize]) -> bool
    ensures { result ≡ true → KeepsPairs trace.now small.now (origin_in origins.now) }
{
    for k in 0..small.events() {
        if !keeps_pairs_of(trace, small, origins, k + 1) {
            return false;
        }
    }
    true
}

/// Whether each event stands to event `u` so.
fn keeps_pairs_of(trace: &Trace, small: &Trace, origins: &[usize], u: usize) -> bool
    ensures { result ≡ true → KeepsPairsOf trace.now small.now (origin_in origins.now) u }
{
    for k in 0..small.events() {
        if !keeps_pair(trace, small, origins, Pair { u, v: k + 1 }) {
            return false;
        }
    }
    true
}

/// Whether two events do.
fn keeps_pair(trace: &Trace, small: &Trace, origins: &[usize], pair: Pair) -> bool
    ensures { result ≡ true → KeepsPair trace.now small.now (origin_in origins.now) pair.u pair.v }
{
    let origin = Pair {
        u: origin_of(origins, pair.u),
        v: origin_of(origins, pair.v),
    };
    if !keeps_apart(pair, origin) {
        return false;
    }
    if !keeps_order(trace, small, pair, origin) {
        return false;
    }
    if !keeps_addresses(trace, small, pair, origin) {
        return false;
    }
    keeps_barriers(trace, small, pair, origin)
}

/// Whether two numbers with one origin are the same.
fn keeps_apart(pair: Pair, origin: Pair) -> bool
    ensures { result ≡ true → origin.u ≡ origin.v → pair.u ≡ pair.v }
{
    pair.u == pair.v || origin.u != origin.v
}

/// Whether one event is program-earlier than the other exactly where it is so in the whole trace.
fn keeps_order(trace: &Trace, small: &Trace, pair: Pair, origin: Pair) -> bool
    ensures { result ≡ true → Earlier small.now pair.u pair.v ↔ Earlier trace.now origin.u origin.v }
{
    small.is_earlier(pair.u, pair.v) == trace.is_earlier(origin.u, origin.v)
}

/// Whether two events have one address exactly where they have one in the whole trace.
fn keeps_addresses(trace: &Trace, small: &Trace, pair: Pair, origin: Pair) -> bool
    ensures { result ≡ true → SameAddress small.now pair.u pair.v ↔ SameAddress trace.now origin.u origin.v }
{
    small.same_address(pair.u, pair.v) == trace.same_address(origin.u, origin.v)
}

/// Whether the barriers between two events are between those of the whole trace.
fn keeps_barriers(trace: &Trace, small: &Trace, pair: Pair, origin: Pair) -> bool
    ensures barriers { result ≡ true → Earlier small.now pair.u pair.v → HasFewerBarriersBefore small.now pair.u pair.v →
        HasFewerBarriersBefore trace.now origin.u origin.v }
    ensures stbars { result ≡ true → Earlier small.now pair.u pair.v → HasFewerStbarsBefore small.now pair.u pair.v →
        HasFewerStbarsBefore trace.now origin.u origin.v }
{
    if !small.is_earlier(pair.u, pair.v) {
        return true;
    }
    (!small.has_barrier_between(pair.u, pair.v) || trace.has_barrier_between(origin.u, origin.v))
        && (!small.has_stbar_between(pair.u, pair.v) || trace.has_stbar_between(origin.u, origin.v))
}
