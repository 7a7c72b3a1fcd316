//! The search for all states that runs reach.

ghost use Rattle.std.specs.Prelude.{◌≡◌, ◌<◌, ◌≤◌, ℕ, List, [], ◌∷◌, IfOk, IfErr, OnOk, length};
ghost use Rattle.tso_ops.specs.Values.{rows};
ghost use Rattle.final_states.specs.Internal.Plans.{IsPlanOf};
ghost use Rattle.final_states.specs.Internal.Search.{AddsAll, AddsSome, AreOnce, IsPastLimit, IsSearched};

use crate::moves::following;
use crate::plans::{Plan, first_words};
use crate::states::StatesFault;
use indexmap::IndexSet;
use std::alloc::Global;
use tso_ops::Program;

/// The words of all states that runs of the program reach, each once.
pub(crate) fn reached_words(
    alloc: Global,
    program: &Program,
    plan: &Plan,
    limit: u64,
) -> Result<IndexSet<Vec<u64>>, StatesFault>
    requires { IsPlanOf program.now plan.now }
    ensures found { IfOk result (λ s. IsSearched program.now plan.now.addresses.items limit (rows s.keys)) }
    ensures refused { IfErr result (λ why. why ≡ StatesFault.TooManyStates → (found : List (List ℕ)) ×
        IsPastLimit program.now plan.now.addresses.items limit found) }
{
    let mut reached = IndexSet::new(alloc);
    add(&mut reached, first_words(alloc, program, plan)?, limit)?;
    let mut index = 0;
    while let Some(words) = reached.get_index(index) {
        let next = following(alloc, program, plan, words)?;
        add_all(&mut reached, next, limit)?;
        index += 1;
    }
    Ok(reached)
}

/// Adds the words of states, of which some may be there already.
fn add_all(
    reached: &mut IndexSet<Vec<u64>>,
    mut next: Vec<Vec<u64>>,
    limit: u64,
) -> Result<(), StatesFault>
    requires once { AreOnce (rows reached.old.keys) }
    requires few { length reached.old.keys ≤ limit }
    ensures added { OnOk result (AddsAll (rows next.items) (rows reached.old.keys) (rows reached.new.keys)) }
    ensures few { OnOk result (length reached.new.keys ≤ limit) }
    ensures refused { IfErr result (λ why. why ≡ StatesFault.TooManyStates → AddsSome (rows next.items) (rows reached.old.keys) (rows reached.new.keys)) }
    ensures many { IfErr result (λ why. why ≡ StatesFault.TooManyStates → limit < length reached.new.keys) }
{
    while let Some(words) = next.pop() {
        add(reached, words, limit)?;
    }
    Ok(())
}

/// Adds the words of a state, if they aren't there already.
fn add(reached: &mut IndexSet<Vec<u64>>, words: Vec<u64>, limit: u64) -> Result<(), StatesFault>
    ensures added { OnOk result (AddsAll (words.items ∷ []) (rows reached.old.keys) (rows reached.new.keys)) }
    ensures few { OnOk result (length reached.new.keys ≤ limit) }
    ensures refused { IfErr result (λ why. why ≡ StatesFault.TooManyStates → AddsAll (words.items ∷ []) (rows reached.old.keys) (rows reached.new.keys)) }
    ensures many { IfErr result (λ why. why ≡ StatesFault.TooManyStates → limit < length reached.new.keys) }
{
    reached.insert(words)?;
    if reached.len() as u64 > limit {
        return Err(StatesFault::TooManyStates);
    }
    Ok(())
}
