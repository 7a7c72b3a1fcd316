//! Which event comes before which by program order alone.
ghost use Rattle.std.specs.Prelude.{◌↔◌, ◌<◌, length, IsTrue};
ghost use Rattle.program_chains.specs.LogEvents.{as_trace_event};
ghost use Rattle.program_chains.specs.Internal.Pairs.{ArePaired, IsPair, Keeps};

use crate::events::LogEvent;
use tso_ops::Order;

/// Whether event `u` comes before event `v` by program order alone. They count from 0.
#[inline]
pub fn is_pair(order: Order, events: &[LogEvent], u: usize, v: usize) -> bool
    requires from { u < length events.now }
    requires to { v < length events.now }
    ensures { IsTrue result ↔ IsPair order events.now u v }
{
    u < v && are_paired(order, events[u], events[v])
}

/// Whether an event comes before another one that isn't before it in the log.
fn are_paired(order: Order, u: LogEvent, v: LogEvent) -> bool
    ensures { IsTrue result ↔ ArePaired order (as_trace_event u) (as_trace_event v) }
{
    if u.processor != v.processor {
        return false;
    }
    if u.load {
        return true;
    }
    if v.load {
        return u.barriers < v.barriers;
    }
    keeps(order, u, v) || u.stbars < v.stbars
}

/// Whether the memory model keeps the order of two stores of a processor with no STBAR between them.
fn keeps(order: Order, u: LogEvent, v: LogEvent) -> bool
    ensures { IsTrue result ↔ Keeps order (as_trace_event u) (as_trace_event v) }
{
    match order {
        Order::Tso => true,
        Order::Pso => u.address == v.address,
    }
}
