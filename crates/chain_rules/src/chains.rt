//! The events of a trace in chains.
ghost use Rattle.std.specs.Prelude.{◌≡◌, ◌<◌, IfOk};
ghost use Rattle.chain_reach.specs.Groups.{count_of};
ghost use Rattle.chain_rules.specs.Chains.{AreChainsOf, address_total, chain_total};
ghost use Rattle.chain_rules.specs.Internal.Layouts.{layout_of, layout_count, chain_in, IsSmall, IsPlaced};

use chain_reach::Groups;
use std::alloc::Global;
use tso_ops::{Event, Order, OutOfMemory, Trace};

/// How the events of a trace lie in chains: chain 0 has `init` alone, then there is one of loads for each processor, and then
/// `width` of stores for each, one for each address where memory keeps the order of stores to one address alone.
#[derive(Clone, Copy)]
struct Layout {
    processors: usize,
    width: usize,
    by_address: bool,
}

impl Layout {
    /// The layout of a trace.
    fn of(trace: &Trace) -> Layout
        ensures { result ≡ layout_of trace.now }
    {
        let processors = trace.processors();
        match trace.order() {
            Order::Tso => Layout {
                processors,
                width: 1,
                by_address: false,
            },
            Order::Pso => Layout {
                processors,
                width: address_count(trace),
                by_address: true,
            },
        }
    }

    /// How many chains there are.
    fn count(self) -> usize
        requires { IsSmall self }
        ensures { result ≡ layout_count self }
    {
        1 + self.processors * (1 + self.width)
    }

    /// The chain of an event.
    fn chain(self, event: Event) -> usize
        requires small { IsSmall self }
        requires placed { IsPlaced self event }
        ensures is { result ≡ chain_in self event }
        ensures within { result < layout_count self }
    {
        if event.load {
            return 1 + event.proc;
        }
        let place = if self.by_address { event.a as usize } else { 0 };
        1 + self.processors + event.proc * self.width + place
    }
}

/// How many chains a trace has: two for each processor and one more under TSO; under PSO each processor has one of stores for
/// each address up to the greatest.
pub fn chain_count(trace: &Trace) -> usize
    ensures { result ≡ chain_total trace.now }
{
    let _kept = trace.events();
    Layout::of(trace).count()
}

/// The events of a trace and `init` in chains. OutOfMemory where an allocation was refused.
pub fn chains_of(alloc: Global, trace: &Trace) -> Result<Groups, OutOfMemory>
    ensures chains { IfOk result (AreChainsOf trace.now) }
    ensures count { IfOk result (λ chains. count_of chains ≡ chain_total trace.now) }
{
    let layout = Layout::of(trace);
    let mut keys = Vec::with_capacity(alloc, trace.node_count())?;
    for n in 0..trace.node_count() {
        let chain = match trace.event(n) {
            Some(event) => layout.chain(event),
            None => 0,
        };
        keys.push(chain as u32)?;
    }
    Ok(Groups::of_keys(alloc, keys, layout.count())?)
}

/// One more than the greatest address of an event; 1 where there is none.
pub fn address_count(trace: &Trace) -> usize
    ensures { result ≡ address_total trace.now }
{
    let mut count = 1;
    for n in 0..trace.node_count() {
        if let Some(event) = trace.event(n) {
            count = count.max(event.a as usize + 1);
        }
    }
    count
}
