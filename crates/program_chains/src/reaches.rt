//! What leads to what by program order alone.
ghost use Rattle.std.specs.Prelude.{◌≡◌, ◌↔◌, ◌<◌, ◌*◌, ℕ, length, IfOk};
ghost use Rattle.order_paths.specs.Paths.{Reaches};
ghost use Rattle.chain_reach.specs.Groups.{count_of};
ghost use Rattle.chain_reach.specs.Leading.{Leads, LeadsToMore};
ghost use Rattle.program_chains.specs.Internal.Pairs.{ArePairChains, IsPair};
ghost use Rattle.program_chains.specs.Internal.Joined.{GrowsByPairs};

use crate::events::LogEvent;
use crate::searches::count_before;
use chain_reach::{Groups, Reach};
use std::alloc::Global;
use tso_ops::{Order, OutOfMemory};

/// What the events lead to by program order alone, counted from 0; none has grown. OutOfMemory where an allocation was
/// refused.
pub fn reach_of(
    alloc: Global,
    order: Order,
    events: &[LogEvent],
    chains: Groups,
) -> Result<Reach, OutOfMemory>
    requires { ArePairChains order events.now chains }
    ensures chains { IfOk result (λ r. r.chains ≡ chains) }
    ensures leads { IfOk result (λ r. (x y : ℕ) → Leads r x y ↔ Reaches (IsPair order events.now) x y) }
    ensures settled { IfOk result (λ r. (x : ℕ) → LeadsToMore r x → ⊥) }
{
    // a product past usize is the greatest one, and no allocation is that large
    let mut near = vec![in alloc; 0; chains.count().saturating_mul(2)]?;
    let mut reach = Reach::new(alloc, chains)?;
    for v in 0..events.len() {
        join_earlier(order, events, &mut near, &mut reach, v);
    }
    reach.settle();
    // The call is for the proof: its contract says that what a number leads to leads on.
    let _chains = reach.chains();
    Ok(reach)
}

/// Lets lead to event `v` what comes before it by program order alone: of each chain the last such event is joined, and those
/// before it lead to it. `near` has for each chain and each kind of event where the search in the chain for the last event of
/// the kind ended.
fn join_earlier(order: Order, events: &[LogEvent], near: &mut [usize], reach: &mut Reach, v: usize)
    requires chains { ArePairChains order events.now reach.old.chains }
    requires near { length near.old ≡ count_of reach.old.chains * 2 }
    requires number { v < length events.now }
    ensures grows { GrowsByPairs order events.now reach.old reach.new }
    ensures led { (u : ℕ) → IsPair order events.now u v → Leads reach.new u v }
{
    let kind = if events[v].load { 0 } else { 1 };
    for d in 0..reach.chains().count() {
        let members = reach.chains().list(d);
        let place = d * 2 + kind;
        let count = count_before(order, events, members, v, near[place]);
        near[place] = count;
        if count > 0 {
            let u = members[count - 1] as usize;
            reach.join(u, v);
        }
    }
}
