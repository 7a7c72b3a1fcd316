//! A machine of processors with store buffers, which draws its operations: of TSO, or of PSO with STBARs among them.

use crate::draws::Draws;
use std::alloc::{AllocError, Global};
use tso_ops::{Order, Outcome};

/// How many stores wait in a buffer at most.
const CAPACITY: usize = 8;

/// A store that waits in a buffer.
#[derive(Clone, Copy, Drop)]
struct Waiting {
    a: u16,
    v: u64,
    /// How many STBARs stand before it on its processor.
    stbars: u64,
}

#[derive(Drop)]
struct Processor {
    buffer: Vec<Waiting>,
    stbars: u64,
    done: Vec<Outcome>,
}

/// Processors with a store buffer each, and their memory.
#[derive(Drop)]
pub struct DrawingMachine {
    order: Order,
    memory: Vec<u64>,
    processors: Vec<Processor>,
    addresses: u64,
    draws: Draws,
    value: u64,
}

/// Which store of a buffer leaves next: under TSO the oldest; under PSO the oldest to the address of one of those after
/// the fewest STBARs, by the drawn number.
fn next_to_leave(order: Order, buffer: &[Waiting], drawn: usize) -> usize {
    let Some(oldest) = buffer.first() else {
        return 0;
    };
    if order == Order::Tso {
        return 0;
    }
    let open = buffer
        .iter()
        .filter(|store| store.stbars == oldest.stbars)
        .count();
    let chosen = buffer.get(drawn.checked_rem(open).unwrap_or(0));
    let a = chosen.map_or(0, |store| store.a);
    buffer.iter().position(|store| store.a == a).unwrap_or(0)
}

impl Processor {
    /// Removes the store that leaves the buffer next.
    fn remove(&mut self, order: Order, drawn: usize) -> Option<Waiting> {
        let k = next_to_leave(order, &self.buffer, drawn);
        if k < self.buffer.len() {
            Some(self.buffer.remove(k))
        } else {
            None
        }
    }

    /// Its newest store to the address that waits.
    fn forwarded(&self, a: u16) -> Option<u64> {
        self.buffer
            .iter()
            .rev()
            .find(|store| store.a == a)
            .map(|store| store.v)
    }
}

impl DrawingMachine {
    /// So many processors, which draw among so many addresses. The error is that memory ran out.
    pub fn new(
        alloc: Global,
        order: Order,
        processors: usize,
        addresses: u16,
    ) -> Result<DrawingMachine, AllocError> {
        let mut list = Vec::new(alloc);
        for _ in 0..processors {
            list.push(Processor {
                buffer: Vec::new(alloc),
                stbars: 0,
                done: Vec::new(alloc),
            })?;
        }
        Ok(DrawingMachine {
            order,
            memory: vec![in alloc; 0; 256]?,
            processors: list,
            addresses: addresses.max(1) as u64,
            draws: Draws::new(1),
            value: 0,
        })
    }

    fn write(&mut self, a: u16, v: u64) {
        if let Some(word) = self.memory.get_mut(a as usize) {
            *word = v;
        }
    }

    /// Writes the next store that waits; whether there was one.
    fn drain(&mut self, p: usize) -> bool {
        let drawn = self.draws.below(1 << 20) as usize;
        let order = self.order;
        let Some(processor) = self.processors.get_mut(p) else {
            return false;
        };
        let Some(store) = processor.remove(order, drawn) else {
            return false;
        };
        self.write(store.a, store.v);
        true
    }

    fn drain_all(&mut self, p: usize) {
        for _ in 0..1_000_000 {
            if !self.drain(p) {
                return;
            }
        }
    }

    /// What the processor reads: its newest store that waits, else the memory.
    fn read(&self, p: usize, a: u16) -> u64 {
        let memory = self.memory.get(a as usize).copied().unwrap_or(0);
        match self.processors.get(p) {
            Some(processor) => processor.forwarded(a).unwrap_or(memory),
            None => memory,
        }
    }

    fn next_value(&mut self) -> u64 {
        self.value = self.value.wrapping_add(1);
        self.value
    }

    /// Puts a store with the next value into the buffer; one leaves it before where it is full.
    fn store(&mut self, p: usize, a: u16) -> Result<Outcome, AllocError> {
        if self
            .processors
            .get(p)
            .map_or(0, |processor| processor.buffer.len())
            >= CAPACITY
        {
            self.drain(p);
        }
        let v = self.next_value();
        if let Some(processor) = self.processors.get_mut(p) {
            let stbars = processor.stbars;
            processor.buffer.push(Waiting { a, v, stbars })?;
        }
        Ok(Outcome::St { a, v })
    }

    /// Swaps in the next value, once the buffer is empty.
    fn swap(&mut self, p: usize, a: u16) -> Outcome {
        self.drain_all(p);
        let r = self.read(p, a);
        let v = self.next_value();
        self.write(a, v);
        Outcome::Sw { a, r, v }
    }

    fn stbar(&mut self, p: usize) -> Outcome {
        if let Some(processor) = self.processors.get_mut(p) {
            processor.stbars = processor.stbars.wrapping_add(1);
        }
        Outcome::Sb
    }

    /// What processor p does next.
    fn step(&mut self, p: usize) -> Result<Outcome, AllocError> {
        let addresses = self.addresses;
        let a = (self.draws.below(addresses) % 256) as u16;
        match self.draws.below(20) {
            0..8 => self.store(p, a),
            8..17 => Ok(Outcome::Ld {
                a,
                r: self.read(p, a),
            }),
            17 => Ok(self.swap(p, a)),
            18 if self.order == Order::Pso => Ok(self.stbar(p)),
            _ => {
                self.drain_all(p);
                Ok(Outcome::Mb)
            }
        }
    }

    /// Adds what the processor did to its list; how many events that are.
    fn record(&mut self, p: usize, outcome: Outcome) -> Result<usize, AllocError> {
        if let Some(processor) = self.processors.get_mut(p) {
            processor.done.push(outcome)?;
        }
        Ok(match outcome {
            Outcome::Sw { .. } => 2,
            Outcome::Mb | Outcome::Sb => 0,
            _ => 1,
        })
    }

    /// What the processors did up to this many events, the last of which is a load where a swap is one too many.
    pub fn run(mut self, alloc: Global, events: usize) -> Result<Vec<Vec<Outcome>>, AllocError> {
        let mut count = 0usize;
        for _ in 0..10_000_000 {
            if count.saturating_add(1) >= events {
                break;
            }
            let processors = self.processors.len() as u64;
            let p = self.draws.below(processors) as usize;
            let outcome = self.step(p)?;
            count = count.saturating_add(self.record(p, outcome)?);
            let other = self.draws.below(processors) as usize;
            self.drain(other);
        }
        if count < events {
            let r = self.read(0, 0);
            self.record(0, Outcome::Ld { a: 0, r })?;
        }
        let mut lists = Vec::new(alloc);
        for processor in self.processors {
            lists.push(processor.done)?;
        }
        Ok(lists)
    }
}
