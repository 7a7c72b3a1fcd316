//! How the tables of a trace are made.
ghost use Rattle.std.specs.Prelude.{◌≡◌, ◌<◌, ◌^◌, ℕ, IfOk, IfSome, MatchOption};
ghost use Rattle.chain_reach.specs.Groups.{node_count, count_of};
ghost use Rattle.chain_rules.specs.Chains.{AreChainsOf, address_total};
ghost use Rattle.chain_rules.specs.Internal.Accesses.{AreAccesses, AreSwapStores, HasSlot, HasSwapChain};
ghost use Rattle.chain_rules.specs.Internal.Tables.{slot_of};
ghost use Rattle.chain_rules.specs.Tables.{AreTablesOf};

use crate::chains::address_count;
use crate::sources::least_sources;
use crate::types::RuleTables;
use chain_reach::Groups;
use std::alloc::Global;
use tso_ops::{OutOfMemory, Trace};

impl RuleTables {
    /// The tables of this trace, for these chains. OutOfMemory where an allocation was refused.
    pub fn new(alloc: Global, trace: &Trace, chains: &Groups) -> Result<RuleTables, OutOfMemory>
        requires { AreChainsOf trace.now chains.now }
        ensures { IfOk result (AreTablesOf trace.now chains.now) }
    {
        let addresses = address_count(trace);
        let loads = accesses(alloc, trace, addresses, true)?;
        let stores = accesses(alloc, trace, addresses, false)?;
        let swaps = swap_stores(alloc, trace, chains)?;
        let least = least_sources(alloc, trace, chains, &loads, addresses)?;
        Ok(RuleTables {
            addresses,
            loads,
            stores,
            swaps,
            least,
        })
    }

    /// Where the tables have the accesses of processor `p` to address `a`.
    pub(crate) fn slot(&self, p: usize, a: u16) -> usize
        requires { slot_of self.now p a < 2 ^ 64 }
        ensures { result ≡ slot_of self.now p a }
    {
        p * self.addresses + a as usize
    }
}

/// The loads, or the stores, of a trace by processor and address; the other numbers are in a group of their own, the last.
fn accesses(
    alloc: Global,
    trace: &Trace,
    addresses: usize,
    loads: bool,
) -> Result<Groups, OutOfMemory>
    requires { addresses ≡ address_total trace.now }
    ensures { IfOk result (AreAccesses trace.now addresses loads) }
{
    let others = trace.processors() * addresses;
    let mut keys = Vec::with_capacity(alloc, trace.node_count())?;
    for n in 0..trace.node_count() {
        let slot = access_slot(trace, addresses, loads, n).unwrap_or(others);
        keys.push(slot as u32)?;
    }
    Ok(Groups::of_keys(alloc, keys, others + 1)?)
}

/// The place, by processor and address, of number `n`; None where it is no load, or no store.
fn access_slot(trace: &Trace, addresses: usize, loads: bool, n: usize) -> Option<usize>
    requires { addresses ≡ address_total trace.now }
    ensures { MatchOption result ((s : ℕ) → HasSlot trace.now addresses loads n s → ⊥) (HasSlot trace.now addresses loads n) }
{
    let _kept = trace.events();
    let event = trace.event(n)?;
    if event.load != loads {
        return None;
    }
    Some(event.proc * addresses + event.a as usize)
}

/// The stores of swaps by chain; the other numbers are in a group of their own, the last.
fn swap_stores(alloc: Global, trace: &Trace, chains: &Groups) -> Result<Groups, OutOfMemory>
    requires { AreChainsOf trace.now chains.now }
    ensures { IfOk result (AreSwapStores trace.now chains.now) }
{
    let others = chains.count();
    let mut keys = Vec::with_capacity(alloc, trace.node_count())?;
    for n in 0..trace.node_count() {
        let slot = swap_chain(trace, chains, n).unwrap_or(others);
        keys.push(slot as u32)?;
    }
    Ok(Groups::of_keys(alloc, keys, others + 1)?)
}

/// The chain of number `n`, where that is the store of a swap: the number before it is the load of one.
fn swap_chain(trace: &Trace, chains: &Groups, n: usize) -> Option<usize>
    requires { n < node_count chains.now }
    ensures is { MatchOption result ((d : ℕ) → HasSwapChain trace.now chains.now n d → ⊥) (HasSwapChain trace.now chains.now n) }
    ensures within { IfSome result (λ d. d < count_of chains.now) }
{
    let l = n.checked_sub(1)?;
    trace.swap_store(l)?;
    Some(chains.group(n))
}
