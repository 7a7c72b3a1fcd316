//! What program order puts after a store.
ghost use Rattle.std.specs.Prelude.{◌↔◌, ◌<◌, ℕ, IsTrue, MatchOption, length, slice_index};
ghost use Rattle.tso_ops.specs.Events.{IsStore, Earlier};
ghost use Rattle.tso_rules.specs.Rows.{IsLater};
ghost use Rattle.chain_rules.specs.Internal.BaseJoins.{IsFirstLater};

use tso_ops::Trace;

/// The first number of the list of a chain that program order puts after store `u`; None where it puts none after it.
///
/// The numbers of the list that are greater are of the store's processor, and where one comes after the store, so do those
/// that stand after it.
pub fn first_ordered(trace: &Trace, list: &[u32], u: usize) -> Option<usize>
    requires store { IsStore trace.now u }
    requires processor { (k : ℕ) → k < length list.now → u < slice_index list.now k → Earlier trace.now u (slice_index list.now k) }
    requires rising { (i j : ℕ) → i < j → j < length list.now → IsLater trace.now u (slice_index list.now i) → IsLater trace.now u (slice_index list.now j) }
    ensures { MatchOption result ((k : ℕ) → k < length list.now → IsLater trace.now u (slice_index list.now k) → ⊥) (IsFirstLater trace.now list.now u) }
{
    let mut low = 0;
    let mut high = list.len();
    while low < high {
        let middle = low + (high - low) / 2;
        if is_ordered(trace, u, list[middle] as usize) {
            high = middle;
        } else {
            low = middle + 1;
        }
    }
    if low == list.len() {
        return None;
    }
    Some(list[low] as usize)
}

/// Whether program order puts number `v`, an event of its processor if it is greater, after store `u`.
fn is_ordered(trace: &Trace, u: usize, v: usize) -> bool
    requires store { IsStore trace.now u }
    requires processor { u < v → Earlier trace.now u v }
    ensures { IsTrue result ↔ IsLater trace.now u v }
{
    if v <= u {
        return false;
    }
    if trace.is_load(v) {
        return trace.has_barrier_between(u, v);
    }
    trace.keeps_stores(u, v) || trace.has_stbar_between(u, v)
}
