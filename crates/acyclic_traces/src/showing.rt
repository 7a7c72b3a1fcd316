//! Whether a short trace is shown to have no derived cycle.
ghost use Rattle.std.specs.Prelude.{◌≡◌, ◌≤◌, ℕ, suc, false, IsTrue};
ghost use Rattle.tso_ops.specs.Events.{event_total};
ghost use Rattle.tso_model.specs.Rules.{HasDerivedCycle};
ghost use Rattle.acyclic_traces.specs.Internal.Pairs.{IsClosedForReads, IsClosedForSwap};

use crate::loads::add_by_load;
use crate::pairs::{NUMBERS, Pairs, has_all, is_strict_order};
use crate::program_order::put_order;
use crate::swaps::add_by_swaps;
use tso_ops::Trace;

/// How many events a trace has at most of which this is asked.
pub const MAX_EVENTS: usize = NUMBERS - 1;

/// How often the rules are gone through at most: each time but the last adds a pair.
const MAX_PASSES: usize = NUMBERS * NUMBERS;

/// Whether the trace is shown to have no derived cycle: a set of pairs was found that the rules don't lead out of, and that puts no
/// number before itself. False says nothing: the trace may have more than MAX_EVENTS events, or a derived cycle.
///
/// It takes no memory, and looks at each event a few times.
pub fn is_shown_acyclic(trace: &Trace) -> bool
    ensures { IsTrue result → HasDerivedCycle trace.now → ⊥ }
{
    if trace.events() > MAX_EVENTS {
        return false;
    }
    let mut order = [0; NUMBERS];
    put_order(trace, &mut order);
    let mut pairs = Pairs::new(order);
    for _ in 0..MAX_PASSES {
        if !add_by_events(trace, &mut pairs) {
            return has_all(pairs.rows(), &order) && is_strict_order(pairs.rows());
        }
    }
    false
}

/// Adds the pairs that each event gives by what it reads or swaps, and some that follow from them. Whether there was a new one; else
/// nothing is changed.
fn add_by_events(trace: &Trace, pairs: &mut Pairs) -> bool
    requires { suc (event_total trace.now) ≤ 64 }
    ensures same { result ≡ false → pairs.new ≡ pairs.old }
    ensures reads { result ≡ false → (l : ℕ) → IsClosedForReads trace.now pairs.old l }
    ensures swaps { result ≡ false → (l : ℕ) → IsClosedForSwap trace.now pairs.old l }
{
    let mut added = false;
    for l in 0..trace.node_count() {
        added |= add_by_load(trace, pairs, l);
    }
    let by_swaps = add_by_swaps(trace, pairs);
    added | by_swaps
}
