//! Which rows a round looks at.
ghost use Rattle.std.specs.Prelude.{◌<◌, ℕ, IfOk, Contains};
ghost use Rattle.tso_rules.specs.Affected.{RestsOn};
ghost use Rattle.chain_reach.specs.declared.types.Reach.{Reach};
ghost use Rattle.chain_reach.specs.Leading.{LeadsToMore};
ghost use Rattle.chain_rules.specs.Rounds.{IsRowList, FollowsRound};

use chain_reach::Reach;
use std::alloc::Global;
use tso_ops::{OutOfMemory, Trace};
use tso_rules::affected_rows;

/// The rows of the first round: those of all events. OutOfMemory where an allocation was refused.
pub fn all_rows(alloc: Global, trace: &Trace) -> Result<Vec<usize>, OutOfMemory>
    ensures { IfOk result (λ numbers. (r : Reach) → IsRowList trace.now r numbers.items) }
{
    let mut numbers = Vec::with_capacity(alloc, trace.events())?;
    for u in 0..trace.events() {
        numbers.push(u + 1)?;
    }
    Ok(numbers)
}

/// The rows of a later round: those that rest on a number that leads to more since the round before. OutOfMemory where an
/// allocation was refused.
pub fn changed_rows(alloc: Global, trace: &Trace, reach: &Reach) -> Result<Vec<usize>, OutOfMemory>
    ensures rows { IfOk result (λ numbers. (k : ℕ) (old : Reach) → FollowsRound trace.now k old reach.now → IsRowList trace.now reach.now numbers.items) }
    ensures only { IfOk result (λ numbers. (u : ℕ) → Contains numbers.items u → (x : ℕ) × LeadsToMore reach.now x × RestsOn trace.now x u) }
{
    let grown = reach.grown(alloc)?;
    affected_rows(alloc, trace, &grown)
}
