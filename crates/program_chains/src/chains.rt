//! The events of a log in chains.
ghost use Rattle.std.specs.Prelude.{◌≡◌, ◌<◌, ◌^◌, length, IfOk};
ghost use Rattle.program_chains.specs.LogEvents.{as_trace_event};
ghost use Rattle.program_chains.specs.Internal.Keys.{AreKeyed, FindsChain, chain_key};

use crate::events::LogEvent;
use chain_reach::Groups;
use std::alloc::Global;
use std::collections::BTreeMap;
use tso_ops::{Order, OutOfMemory};

/// What the events of a chain have in common: the processor, and of stores what tells its chains of stores apart. None is the
/// chain of the processor's loads.
type ChainKey = (usize, Option<u64>);

/// The events in chains, of which each has an event. OutOfMemory where an allocation was refused.
pub fn chains_of(alloc: Global, order: Order, events: &[LogEvent]) -> Result<Groups, OutOfMemory>
    requires { length events.now < 2 ^ 32 }
    ensures { IfOk result (AreKeyed order events.now) }
{
    let mut chains = BTreeMap::new(alloc);
    let mut keys = Vec::with_capacity(alloc, events.len())?;
    let mut count = 0;
    for event in events {
        let chain = find_chain(&mut chains, key_of(order, *event), count)?;
        if chain == count {
            count += 1;
        }
        keys.push(chain as u32)?;
    }
    Ok(Groups::of_keys(alloc, keys, count)?)
}

/// What the chain of an event has in common.
fn key_of(order: Order, event: LogEvent) -> ChainKey
    ensures { result ≡ chain_key order (as_trace_event event) }
{
    if event.load {
        return (event.processor, None);
    }
    match order {
        Order::Tso => (event.processor, Some(0)),
        Order::Pso => (event.processor, Some(event.address)),
    }
}

/// The chain of a key; `next` where the key is new, which then has it.
fn find_chain(
    chains: &mut BTreeMap<ChainKey, usize>,
    key: ChainKey,
    next: usize,
) -> Result<usize, OutOfMemory>
    ensures { IfOk result (FindsChain chains.old chains.new key next) }
{
    if let Some(chain) = chains.get(&key) {
        return Ok(*chain);
    }
    chains.insert(key, next)?;
    Ok(next)
}
