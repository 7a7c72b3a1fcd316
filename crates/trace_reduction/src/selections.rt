//! Whether a small trace is a selection of the whole trace.
ghost use Rattle.std.specs.Prelude.{◌≡◌, true};
ghost use Rattle.log_selections.specs.Cuts.{origin_in};
ghost use Rattle.log_selections.specs.Selections.{IsSelectionBy};

use crate::kept_events::keeps_events;
use crate::kept_pairs::keeps_pairs;
use tso_ops::{Order, Trace};

/// Whether the small trace is a selection of the whole trace, where its events have these numbers there.
pub(crate) fn is_selection(trace: &Trace, small: &Trace, origins: &[usize]) -> bool
    ensures { result ≡ true → IsSelectionBy trace.now small.now (origin_in origins.now) }
{
    // Its clause `kept`, that the trace is within the limits of traces, is why each load has one source.
    let _processors = trace.processors();
    if !is_same(trace.order(), small.order()) || !keeps_events(trace, small, origins) {
        return false;
    }
    keeps_pairs(trace, small, origins)
}

/// Whether two memory models are the same.
fn is_same(order: Order, other: Order) -> bool
    ensures { result ≡ true → order ≡ other }
{
    match (order, other) {
        (Order::Tso, Order::Tso) | (Order::Pso, Order::Pso) => true,
        (Order::Tso, Order::Pso) | (Order::Pso, Order::Tso) => false,
    }
}
