//! The least sources of loads by chain.
ghost use Rattle.std.specs.Prelude.{◌≡◌, ◌<◌, ◌≤◌, ◌+◌, ◌*◌, ℕ, suc, true, length, slice_index, IfOk, IfSome, MatchOption};
ghost use Rattle.tso_ops.specs.Events.{event_total};
ghost use Rattle.chain_reach.specs.Groups.{count_of};
ghost use Rattle.chain_rules.specs.Chains.{AreChainsOf, address_total};
ghost use Rattle.chain_rules.specs.Internal.Accesses.{AreAccesses};
ghost use Rattle.chain_rules.specs.Internal.LeastRows.{AreLeastFrom, KeepsRows, IsRowOf, LowersBySource};

use crate::lowering::lower;
use chain_reach::Groups;
use std::alloc::Global;
use tso_ops::{OutOfMemory, Trace};

/// For each load and each chain the least source, in the chain, of the load and the program-later loads of its address; the
/// number of numbers where there is none, and for what is no load.
pub fn least_sources(
    alloc: Global,
    trace: &Trace,
    chains: &Groups,
    loads: &Groups,
    addresses: usize,
) -> Result<Vec<u16>, OutOfMemory>
    requires chains { AreChainsOf trace.now chains.now }
    requires addresses { addresses ≡ address_total trace.now }
    requires loads { AreAccesses trace.now addresses true loads.now }
    ensures { IfOk result (λ least. AreLeastFrom trace.now chains.now least.items 0) }
{
    let nodes = trace.node_count();
    let mut least = vec![in alloc; nodes as u16; nodes * chains.count()]?;
    for l in (0..nodes).rev() {
        add_load(trace, chains, loads, addresses, &mut least, l);
    }
    Ok(least)
}

/// Makes the row of number `l`, if it is a load, where those of the greater numbers are made.
fn add_load(
    trace: &Trace,
    chains: &Groups,
    loads: &Groups,
    addresses: usize,
    least: &mut [u16],
    l: usize,
)
    requires chains { AreChainsOf trace.now chains.now }
    requires addresses { addresses ≡ address_total trace.now }
    requires loads { AreAccesses trace.now addresses true loads.now }
    requires within { l < suc (event_total trace.now) }
    requires later { AreLeastFrom trace.now chains.now least.old (suc l) }
    ensures { AreLeastFrom trace.now chains.now least.new l }
{
    let _kept = trace.events();
    let Some(event) = trace.event(l) else {
        return;
    };
    if !event.load {
        return;
    }
    let next = loads.first_from(event.proc * addresses + event.a as usize, l + 1);
    copy_row(least, chains.count(), l, next);
    add_source(trace, chains, least, l);
}

/// Gives row `row` what row `from` has, if there is one.
fn copy_row(table: &mut [u16], count: usize, row: usize, from: Option<usize>)
    requires row { row * count + count ≤ length table.old }
    requires from { IfSome from (λ x. (row < x) × (x * count + count ≤ length table.old)) }
    ensures kept { KeepsRows table.old table.new count row }
    ensures row { MatchOption from (IsRowOf table.old table.new count row row) (IsRowOf table.old table.new count row) }
{
    let Some(from) = from else {
        return;
    };
    for d in 0..count {
        table[row * count + d] = table[from * count + d];
    }
}

/// Lowers the row of load `l` by its source, if it has one.
fn add_source(trace: &Trace, chains: &Groups, least: &mut [u16], l: usize)
    requires chains { AreChainsOf trace.now chains.now }
    requires within { l < suc (event_total trace.now) }
    requires sized { length least.old ≡ suc (event_total trace.now) * count_of chains.now }
    ensures kept { KeepsRows least.old least.new (count_of chains.now) l }
    ensures row { (d : ℕ) → d < count_of chains.now → LowersBySource trace.now chains.now l d (slice_index least.old (l * count_of chains.now + d))
        (slice_index least.new (l * count_of chains.now + d)) }
{
    let _kept = trace.events();
    if let Some(s) = trace.source_number(l) {
        lower(least, l * chains.count() + chains.group(s), s);
    }
}
