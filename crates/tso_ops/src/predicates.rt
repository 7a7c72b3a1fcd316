//! What events are, and how two of them stand to each other, by their numbers.
ghost use Rattle.std.specs.Prelude.{◌≡◌, ◌↔◌, ℕ, suc, Some, IsTrue, IfSome, MatchOption};
ghost use Rattle.tso_ops.specs.Limits.{IsTrace};
ghost use Rattle.tso_ops.specs.Events.{event_total, IsEvent, IsLoad, IsStore, IsSwapLoad, SameAddress, Earlier, HasFewerBarriersBefore, HasFewerStbarsBefore, KeepsStores, HasSource, IsUnwritten};

use crate::events::Source;
use crate::settings::Order;
use crate::traces::Trace;

impl Trace {
    /// One more than the number of events: the numbers of `init` and of the events lie below it.
    #[inline]
    pub fn node_count(&self) -> usize
        ensures count { result ≡ suc (event_total self.now) }
        ensures kept { IsTrace self.now }
    {
        self.events() + 1
    }

    /// Whether there is an event of this number.
    #[inline]
    pub fn is_event(&self, n: usize) -> bool
        ensures { IsTrue result ↔ IsEvent self.now n }
    {
        self.event(n).is_some()
    }

    /// Whether event `n` is a load.
    #[inline]
    pub fn is_load(&self, n: usize) -> bool
        ensures { IsTrue result ↔ IsLoad self.now n }
    {
        self.event(n).is_some_and(|e| e.load)
    }

    /// Whether event `n` is a store.
    #[inline]
    pub fn is_store(&self, n: usize) -> bool
        ensures { IsTrue result ↔ IsStore self.now n }
    {
        self.event(n).is_some_and(|e| !e.load)
    }

    /// The number of the store of the swap whose load is event `l`; None where `l` is no load of a swap.
    #[inline]
    pub fn swap_store(&self, l: usize) -> Option<usize>
        ensures { MatchOption result (IsSwapLoad self.now l → ⊥) (λ s. IsSwapLoad self.now l × (s ≡ suc l)) }
    {
        match self.event(l) {
            Some(e) if e.load && e.swap && l < self.events() => Some(l + 1),
            _ => None,
        }
    }

    /// Whether the events have one address.
    #[inline]
    pub fn same_address(&self, u: usize, v: usize) -> bool
        ensures { IsTrue result ↔ SameAddress self.now u v }
    {
        match (self.event(u), self.event(v)) {
            (Some(d), Some(e)) => d.a == e.a,
            _ => false,
        }
    }

    /// Whether event `u` is program-earlier than event `v`.
    #[inline]
    pub fn is_earlier(&self, u: usize, v: usize) -> bool
        ensures { IsTrue result ↔ Earlier self.now u v }
    {
        match (self.event(u), self.event(v)) {
            (Some(d), Some(e)) => d.proc == e.proc && u < v,
            _ => false,
        }
    }

    /// Whether a barrier stands between the events, of which `u` is program-earlier.
    #[inline]
    pub fn has_barrier_between(&self, u: usize, v: usize) -> bool
        ensures { IsTrue result ↔ HasFewerBarriersBefore self.now u v }
    {
        match (self.event(u), self.event(v)) {
            (Some(d), Some(e)) => d.bars < e.bars,
            _ => false,
        }
    }

    /// Whether an STBAR stands between the events, of which `u` is program-earlier.
    #[inline]
    pub fn has_stbar_between(&self, u: usize, v: usize) -> bool
        ensures { IsTrue result ↔ HasFewerStbarsBefore self.now u v }
    {
        match (self.event(u), self.event(v)) {
            (Some(d), Some(e)) => d.stbars < e.stbars,
            _ => false,
        }
    }

    /// Whether the memory model keeps the program order of the stores `u` and `v` without an STBAR: TSO that of any two,
    /// PSO of two to one address (SPARC Architecture Manual Version 8, 6.3 and appendix K).
    #[inline]
    pub fn keeps_stores(&self, u: usize, v: usize) -> bool
        ensures { IsTrue result ↔ KeepsStores self.now u v }
    {
        match self.order() {
            Order::Tso => true,
            Order::Pso => self.same_address(u, v),
        }
    }

    /// The number of the source of load `l`: 0 for `init`. None where `l` is no load or nothing wrote its value.
    #[inline]
    pub fn source_number(&self, l: usize) -> Option<usize>
        ensures is { IfSome result (λ s. HasSource self.now l s) }
        ensures all { (s : ℕ) → HasSource self.now l s → result ≡ Some s }
    {
        let _events = self.events();
        match self.source(l)? {
            Source::Init => Some(0),
            Source::Store(s) => Some(s),
            Source::Unwritten => None,
        }
    }

    /// Whether number `s`, 0 for `init` or a store, is the source of load `l`.
    #[inline]
    pub fn has_source(&self, l: usize, s: usize) -> bool
        ensures { IsTrue result ↔ HasSource self.now l s }
    {
        self.source_number(l) == Some(s)
    }

    /// Whether event `l` is a load whose value nothing wrote.
    #[inline]
    pub fn is_unwritten(&self, l: usize) -> bool
        ensures { IsTrue result ↔ IsUnwritten self.now l }
    {
        match self.source(l) {
            Some(Source::Unwritten) => true,
            Some(Source::Init) => false,
            Some(Source::Store(_)) => false,
            None => false,
        }
    }
}
