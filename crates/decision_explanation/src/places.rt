//! Where the events stand in an order.
ghost use Rattle.std.specs.Prelude.{◌≡◌, ◌<◌, ◌==◌, ℕ, suc, cond, length, get_or, IfOk};
ghost use Rattle.tso_ops.specs.Events.{event_total};
ghost use Rattle.decision_explanation.specs.Internal.Tables.{ArePlaces};

use std::alloc::{AllocError, Global};
use tso_ops::Trace;

/// For number 0 and each event its place in the list, from 0: the list's length where it doesn't stand there. OutOfMemory where
/// an allocation was refused.
pub(crate) fn list_places(
    alloc: Global,
    trace: &Trace,
    order: &[u64],
) -> Result<Vec<usize>, AllocError>
    ensures { IfOk result (λ places. ArePlaces order.now (suc (event_total trace.now)) places.items) }
{
    let mut places = vec![in alloc; order.len(); trace.node_count()]?;
    for done in 0..order.len() {
        let k = order.len() - 1 - done;
        enter(&mut places, order[k] as usize, k);
    }
    Ok(places)
}

/// Enters the place of a number; nothing where the table has no row for it.
fn enter(places: &mut Vec<usize>, number: usize, place: usize)
    ensures length { length places.new.items ≡ length places.old.items }
    ensures entered { (n : ℕ) → n < length places.old.items → get_or places.new.items n 0 ≡ cond (number == n) place (get_or places.old.items n 0) }
{
    if number < places.len() {
        places[number] = place;
    }
}
