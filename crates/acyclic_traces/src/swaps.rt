//! The pairs that a swap gives: nothing comes between its load and its store.
ghost use Rattle.std.specs.Prelude.{◌≡◌, ◌≤◌, ℕ, suc, false};
ghost use Rattle.tso_ops.specs.Events.{event_total};
ghost use Rattle.acyclic_traces.specs.Internal.Pairs.{IsClosedForSwap};

use crate::pairs::Pairs;
use bitsets::word_at;
use tso_ops::Trace;

/// Adds the pairs that the rules SwapBefore and SwapAfter give, where the table's pairs stand for paths, and some that follow from
/// them. Whether there was a new one; else nothing is changed.
pub(crate) fn add_by_swaps(trace: &Trace, pairs: &mut Pairs) -> bool
    requires { suc (event_total trace.now) ≤ 64 }
    ensures same { result ≡ false → pairs.new ≡ pairs.old }
    ensures closed { result ≡ false → (l : ℕ) → IsClosedForSwap trace.now pairs.old l }
{
    let mut added = false;
    let mut left = word_at(trace.swap_load_words(), 0);
    while left != 0 {
        if add_by_swap(trace, pairs, left.trailing_zeros() as usize) {
            added = true;
        }
        left &= left - 1;
    }
    added
}

/// Adds the pairs that the rules SwapBefore and SwapAfter give for load `l`, where the table's pairs stand for paths, and some
/// that follow from them. Whether there was a new one; else nothing is changed.
fn add_by_swap(trace: &Trace, pairs: &mut Pairs, l: usize) -> bool
    requires { suc (event_total trace.now) ≤ 64 }
    ensures same { result ≡ false → pairs.new ≡ pairs.old }
    ensures closed { result ≡ false → IsClosedForSwap trace.now pairs.old l }
{
    let Some(store) = trace.swap_store(l) else {
        return false;
    };
    let others = word_at(trace.all_store_words(), 0) & !(1 << store);
    let before = pairs.earlier(store) & others;
    let by_before = pairs.add_before(before, l);
    let after = pairs.later(l) & others;
    let by_after = pairs.add_after(store, after);
    by_before | by_after
}
