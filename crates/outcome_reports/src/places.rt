//! Where values stand in a list that ascends.
ghost use Rattle.std.specs.Prelude.{◌≡◌, ◌<◌, ◌≤◌, length, Decides, IfSome};
ghost use Rattle.tso_ops.specs.Values.{rows};
ghost use Rattle.final_states.specs.FinalStates.{is_below};
ghost use Rattle.outcome_reports.specs.Internal.Counting.{AreRising, IsBetween, IsPlaceOf};

/// The place of these values, from 0, in lists that ascend; None where they aren't there.
pub(crate) fn place_of(keys: &[Vec<u64>], values: &[u64]) -> Option<usize>
    ensures place { IsPlaceOf (rows keys.now) values.now result }
    ensures within { IfSome result (λ k. k < length keys.now) }
{
    let k = first_from(keys, values);
    if k < keys.len() && are_same(&keys[k], values) {
        return Some(k);
    }
    None
}

/// The first place whose values aren't below these, where the lists ascend; how many there are where all are below.
fn first_from(keys: &[Vec<u64>], values: &[u64]) -> usize
    ensures within { result ≤ length keys.now }
    ensures between { AreRising (rows keys.now) → IsBetween (rows keys.now) values.now result result }
{
    let mut start = 0usize;
    let mut end = keys.len();
    while start < end {
        let middle = start + (end - start) / 2;
        if are_below(&keys[middle], values) {
            start = middle + 1;
        } else {
            end = middle;
        }
    }
    start
}

/// Whether the values are the same.
fn are_same(one: &[u64], other: &[u64]) -> bool
    ensures { Decides result (one.now ≡ other.now) }
{
    one == other
}

/// Whether the one list's number is the lesser where the two first differ.
fn are_below(one: &[u64], other: &[u64]) -> bool
    ensures { result ≡ is_below one.now other.now }
{
    for i in 0..one.len().min(other.len()) {
        if one[i] != other[i] {
            return one[i] < other[i];
        }
    }
    false
}
