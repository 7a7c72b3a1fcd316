ghost use Rattle.std.specs.Prelude.{◌≡◌};

use std::alloc::Global;
use std::sync::Arc;
use std::sync::atomic::{AtomicU64, Ordering};
use std::thread::yield_now;
use tso_ops::OutOfMemory;
use unit_core::{MemoryUnit, Step};

/// How often the first call of a unit looks for that of another.
const LOOKS: u64 = 100_000;

/// How often a unit was called, and how often one was dropped.
#[derive(Drop)]
pub struct CallCounts {
    /// Calls of `load`.
    pub loads: AtomicU64,
    /// Calls of `store`.
    pub stores: AtomicU64,
    /// Calls of `swap`.
    pub swaps: AtomicU64,
    /// Calls of `membar`.
    pub membars: AtomicU64,
    /// Calls of `stbar`.
    pub stbars: AtomicU64,
    /// Calls of `drain`.
    pub drains: AtomicU64,
    /// Units that were dropped.
    pub drops: AtomicU64,
    /// First calls that waited for one another.
    first_calls: AtomicU64,
    /// First calls that another came to meet.
    meetings: AtomicU64,
}

impl CallCounts {
    /// Counts of 0.
    pub fn new() -> CallCounts {
        CallCounts {
            loads: AtomicU64::new(0),
            stores: AtomicU64::new(0),
            swaps: AtomicU64::new(0),
            membars: AtomicU64::new(0),
            stbars: AtomicU64::new(0),
            drains: AtomicU64::new(0),
            drops: AtomicU64::new(0),
            first_calls: AtomicU64::new(0),
            meetings: AtomicU64::new(0),
        }
    }

    /// Says that a unit was called for the first time, and waits for the first call of another.
    fn meet(&self) {
        self.first_calls.fetch_add(1, Ordering::SeqCst);
        for _ in 0..LOOKS {
            if self.first_calls.load(Ordering::SeqCst) > 1 {
                self.meetings.fetch_add(1, Ordering::SeqCst);
                return;
            }
            yield_now();
        }
    }

    /// Whether the first calls of two units waited, and each for the other.
    pub fn have_met(&self) -> bool {
        self.first_calls.load(Ordering::SeqCst) == 2 && self.meetings.load(Ordering::SeqCst) == 2
    }
}

/// Counts of 0 that units can share, or OutOfMemory where an allocation was refused.
pub fn new_counts(alloc: Global) -> Result<Arc<CallCounts, Global>, OutOfMemory> {
    Ok(Arc::new(alloc, CallCounts::new())?)
}

/// How many units were dropped.
pub fn drops_of(counts: &CallCounts) -> u64 {
    counts.drops.load(Ordering::SeqCst)
}

/// How many loads, stores, swaps, membars, STBARs, drains and drops were counted.
pub fn numbers_of(counts: &CallCounts) -> [u64; 7] {
    [
        counts.loads.load(Ordering::SeqCst),
        counts.stores.load(Ordering::SeqCst),
        counts.swaps.load(Ordering::SeqCst),
        counts.membars.load(Ordering::SeqCst),
        counts.stbars.load(Ordering::SeqCst),
        counts.drains.load(Ordering::SeqCst),
        counts.drops.load(Ordering::SeqCst),
    ]
}

/// A unit that passes each call on to another, and counts its calls and its end.
pub struct CountingUnit<U> {
    inner: U,
    counts: Arc<CallCounts, Global>,
    /// Whether its next load, store, swap or barrier waits for the first of another unit with these counts.
    waits: bool,
}

impl<U: MemoryUnit> CountingUnit<U> {
    /// Passes calls on to this unit, and counts them in these counts, which it shares.
    pub fn new(inner: U, counts: Arc<CallCounts, Global>) -> CountingUnit<U>
        ensures { ⟦<CountingUnit<U> as MemoryUnit>⟧.value_of result ≡ U.value_of inner }
    {
        CountingUnit {
            inner,
            counts,
            waits: false,
        }
    }

    /// One whose first load, store, swap or membar waits for that of another such unit with these counts.
    pub fn waiting(inner: U, counts: Arc<CallCounts, Global>) -> CountingUnit<U>
        ensures { ⟦<CountingUnit<U> as MemoryUnit>⟧.value_of result ≡ U.value_of inner }
    {
        CountingUnit {
            inner,
            counts,
            waits: true,
        }
    }

    /// Waits for the other unit, where it is to wait.
    fn arrive(&mut self)
        ensures { self.new.inner ≡ self.old.inner }
    {
        if self.waits {
            self.waits = false;
            self.counts.meet();
        }
    }
}

impl<U: Drop> Drop for CountingUnit<U> {
    fn drop(self) {
        self.counts.drops.fetch_add(1, Ordering::SeqCst);
        let CountingUnit {
            inner: _,
            counts: _,
            waits: _,
        } = self;
    }
}

impl<U: MemoryUnit> MemoryUnit for CountingUnit<U> {
    ghost value_of = { λ u. U.value_of u.inner };

    fn load(&mut self, p: usize, a: u16) -> Result<u64, OutOfMemory> {
        self.counts.loads.fetch_add(1, Ordering::SeqCst);
        self.arrive();
        self.inner.load(p, a)
    }

    fn store(&mut self, p: usize, a: u16, v: u64) -> Result<(), OutOfMemory> {
        self.counts.stores.fetch_add(1, Ordering::SeqCst);
        self.arrive();
        self.inner.store(p, a, v)
    }

    fn swap(&mut self, p: usize, a: u16, v: u64) -> Result<u64, OutOfMemory> {
        self.counts.swaps.fetch_add(1, Ordering::SeqCst);
        self.arrive();
        self.inner.swap(p, a, v)
    }

    fn membar(&mut self, p: usize) -> Result<(), OutOfMemory> {
        self.counts.membars.fetch_add(1, Ordering::SeqCst);
        self.arrive();
        self.inner.membar(p)
    }

    fn stbar(&mut self, p: usize) -> Result<(), OutOfMemory> {
        self.counts.stbars.fetch_add(1, Ordering::SeqCst);
        self.inner.stbar(p)
    }

    fn drain(&mut self, p: usize) -> Result<bool, OutOfMemory> {
        self.counts.drains.fetch_add(1, Ordering::SeqCst);
        self.inner.drain(p)
    }

    fn preset(&mut self, a: u16, v: u64) {
        self.inner.preset(a, v)
    }

    fn waiting(&self, p: usize) -> usize {
        self.inner.waiting(p)
    }

    fn steps(&self) -> &[Step] {
        self.inner.steps()
    }

    fn lawful(&self) -> bool {
        self.inner.lawful()
    }

    fn order(&self) -> tso_ops::Order {
        self.inner.order()
    }

    fn first(&self, a: u16) -> u64 {
        self.inner.first(a)
    }
}
