ghost use Rattle.std.specs.Prelude.{◌≡◌};

use std::alloc::Global;
use std::sync::Arc;
use std::sync::atomic::{AtomicU64, AtomicUsize, Ordering};
use tso_ops::OutOfMemory;
use unit_core::{MemoryUnit, Step};

/// A call of a unit.
#[derive(Clone, Copy, Debug, PartialEq, Eq)]
pub enum Call {
    /// Of `load`.
    Load = 1,
    /// Of `store`.
    Store = 2,
    /// Of `swap`.
    Swap = 3,
    /// Of `membar`.
    Membar = 4,
    /// Of `stbar`.
    Stbar = 5,
    /// Of `drain`.
    Drain = 6,
}

/// The first calls of a unit with their processors, in their order, as many as there is room for.
#[derive(Drop)]
pub struct CallLog {
    taken: AtomicUsize,
    /// The number of each call, or 0 where none came.
    calls: Vec<AtomicU64>,
    processors: Vec<AtomicUsize>,
}

impl CallLog {
    /// No call, with room for so many, or OutOfMemory where an allocation was refused.
    pub fn new(alloc: Global, room: usize) -> Result<CallLog, OutOfMemory> {
        let (mut calls, mut processors) = (Vec::new(alloc), Vec::new(alloc));
        for _ in 0..room {
            calls.push(AtomicU64::new(0))?;
            processors.push(AtomicUsize::new(0))?;
        }
        Ok(CallLog {
            taken: AtomicUsize::new(0),
            calls,
            processors,
        })
    }

    fn push(&self, call: Call, p: usize) {
        let taken = self.taken.fetch_add(1, Ordering::SeqCst);
        if let (Some(number), Some(processor)) = (
            self.calls.get(taken),
            self.processors.get(taken),
        ) {
            processor.store(p, Ordering::SeqCst);
            number.store(call as u64, Ordering::SeqCst);
        }
    }

    /// The calls, or OutOfMemory where an allocation was refused.
    pub fn calls(&self, alloc: Global) -> Result<Vec<Call>, OutOfMemory> {
        let mut calls = Vec::new(alloc);
        for number in &self.calls {
            match number.load(Ordering::SeqCst) {
                1 => calls.push(Call::Load)?,
                2 => calls.push(Call::Store)?,
                3 => calls.push(Call::Swap)?,
                4 => calls.push(Call::Membar)?,
                5 => calls.push(Call::Stbar)?,
                6 => calls.push(Call::Drain)?,
                _ => break,
            }
        }
        Ok(calls)
    }

    /// The processor of each call, or OutOfMemory where an allocation was refused.
    pub fn processors(&self, alloc: Global) -> Result<Vec<usize>, OutOfMemory> {
        let mut processors = Vec::new(alloc);
        for processor in self
            .processors
            .iter()
            .take(self.taken.load(Ordering::SeqCst))
        {
            processors.push(processor.load(Ordering::SeqCst))?;
        }
        Ok(processors)
    }
}

/// A log of no call, with room for so many, that a unit can share, or OutOfMemory where an allocation was refused.
pub fn new_log(alloc: Global, room: usize) -> Result<Arc<CallLog, Global>, OutOfMemory> {
    Ok(Arc::new(alloc, CallLog::new(alloc, room)?)?)
}

/// A unit that sends each call on to another, and logs those that may take a step.
#[derive(Drop)]
pub struct ForwardingUnit<U> {
    inner: U,
    log: Arc<CallLog, Global>,
}

impl<U: MemoryUnit> ForwardingUnit<U> {
    /// Passes calls on to this unit, and logs them in this log, which it shares.
    pub fn new(inner: U, log: Arc<CallLog, Global>) -> ForwardingUnit<U>
        ensures { ⟦<ForwardingUnit<U> as MemoryUnit>⟧.value_of result ≡ U.value_of inner }
    {
        ForwardingUnit { inner, log }
    }
}

impl<U: MemoryUnit> MemoryUnit for ForwardingUnit<U> {
    ghost value_of = { λ u. U.value_of u.inner };

    fn load(&mut self, p: usize, a: u16) -> Result<u64, OutOfMemory> {
        self.log.push(Call::Load, p);
        self.inner.load(p, a)
    }

    fn store(&mut self, p: usize, a: u16, v: u64) -> Result<(), OutOfMemory> {
        self.log.push(Call::Store, p);
        self.inner.store(p, a, v)
    }

    fn swap(&mut self, p: usize, a: u16, v: u64) -> Result<u64, OutOfMemory> {
        self.log.push(Call::Swap, p);
        self.inner.swap(p, a, v)
    }

    fn membar(&mut self, p: usize) -> Result<(), OutOfMemory> {
        self.log.push(Call::Membar, p);
        self.inner.membar(p)
    }

    fn stbar(&mut self, p: usize) -> Result<(), OutOfMemory> {
        self.log.push(Call::Stbar, p);
        self.inner.stbar(p)
    }

    fn drain(&mut self, p: usize) -> Result<bool, OutOfMemory> {
        self.log.push(Call::Drain, p);
        self.inner.drain(p)
    }

    fn preset(&mut self, a: u16, v: u64) {
        self.inner.preset(a, v)
    }

    fn waiting(&self, p: usize) -> usize {
        self.inner.waiting(p)
    }

    fn steps(&self) -> &[Step] {
        self.inner.steps()
    }

    fn lawful(&self) -> bool {
        self.inner.lawful()
    }

    fn order(&self) -> tso_ops::Order {
        self.inner.order()
    }

    fn first(&self, a: u16) -> u64 {
        self.inner.first(a)
    }
}
