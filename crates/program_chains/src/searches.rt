//! The last event of a chain that comes before another one.
ghost use Rattle.std.specs.Prelude.{◌<◌, ◌≤◌, ℕ, length, slice_index};
ghost use Rattle.chain_reach.specs.Internal.Lists.{IsCut};
ghost use Rattle.program_chains.specs.Internal.Pairs.{IsPair};

use crate::events::LogEvent;
use crate::pairs::is_pair;
use tso_ops::Order;

/// How many of the members of a chain come before event `v`: none after the others. It begins at the guess, which no answer
/// depends on, and goes on from there in steps that double: two looks where the guess is right.
pub fn count_before(
    order: Order,
    events: &[LogEvent],
    members: &[u32],
    v: usize,
    guess: usize,
) -> usize
    requires within { (k : ℕ) → k < length members.now → slice_index members.now k < length events.now }
    requires number { v < length events.now }
    requires first { (i j : ℕ) → i < j → j < length members.now → IsPair order events.now (slice_index members.now j) v →
        IsPair order events.now (slice_index members.now i) v }
    ensures { IsCut members.now (λ u. IsPair order events.now u v) result }
{
    let mut low = 0;
    let mut high = members.len();
    let mut step = 0;
    while low < high {
        let place = next_place(low, high, guess, step);
        step = step.saturating_mul(2).max(1);
        if is_pair(order, events, members[place] as usize, v) {
            low = place + 1;
        } else {
            high = place;
        }
    }
    low
}

/// The place that a search from `low` to below `high` looks at next: where the step is 0 the one before the guess, else the
/// one that is a step on from the one before `low`, but not beyond the middle.
fn next_place(low: usize, high: usize, guess: usize, step: usize) -> usize
    requires { low < high }
    ensures from { low ≤ result }
    ensures below { result < high }
{
    if step == 0 {
        return guess.saturating_sub(1).max(low).min(high - 1);
    }
    low + ((high - low) / 2).min(step - 1)
}
