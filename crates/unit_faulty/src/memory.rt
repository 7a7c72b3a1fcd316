ghost use Rattle.std.specs.Prelude.{◌≡◌, ◌<◌, ◌≤◌, ◌+◌, ◌^◌, ◌==◌, IfOk, IfSome, length};
ghost use Rattle.store_buffers.specs.Buffers.{IsBuffers, entries_of};
ghost use Rattle.unit_faulty.specs.Faulty.{after_load, after_preset, counted, deviates, drain_once, drain_times, load_answer, new_faulty_state, swapped, with_entered, with_entry_written, with_write, word_of};

use crate::occasions::{Occasion, has_occasion};
use request_options::FaultKind;
use std::alloc::Global;
use std::marker::Model;
use store_buffers::{Buffers, StoreEntry};
use tso_ops::OutOfMemory;

/// A faulty unit without its steps: memory and store buffers, which deviate, and what has to be known for that.
///
/// Processors go from 0 to 15 and addresses from 0 to 255. No call but `new` allocates.
#[derive(Debug, Drop)]
pub(crate) struct FaultyMemory {
    kind: FaultKind,
    /// The number of the first occasion at which the deviation acts. They are counted from 1.
    trigger: u64,
    /// How many occasions of the kind there were.
    occasions: u64,
    parts: Buffers,
    /// What memory had at each address before its latest write.
    former: Vec<u64>,
}

impl Model for FaultyMemory {
    ghost use Rattle.std.specs.Prelude.{◌≡◌, length};
    ghost use Rattle.unit_faulty.specs.Faulty.{FaultyState};

    ghost Value = { FaultyState };

    ghost view = { λ m. record { kind = m.kind; trigger = m.trigger; occasions = m.occasions; parts = m.parts; former = m.former.items } };

    ghost invariant = { λ m. length m.former.items ≡ 256 };
}

impl FaultyMemory {
    /// A memory of zeros with empty buffers, without an occasion yet.
    pub fn new(
        alloc: Global,
        kind: FaultKind,
        trigger: u64,
        capacity: usize,
    ) -> Result<FaultyMemory, OutOfMemory>
        requires least { 1 ≤ capacity }
        requires most { capacity ≤ 64 }
        ensures { IfOk result (λ m. m ≡ new_faulty_state kind trigger capacity) }
    {
        Ok(FaultyMemory {
            kind,
            trigger,
            occasions: 0,
            parts: Buffers::new(alloc, capacity)?,
            former: vec![in alloc; 0; 256]?,
        })
    }

    /// Counts this, if it is an occasion of the kind, and answers whether the deviation acts at it.
    pub fn deviates(&mut self, occasion: Occasion) -> bool
        requires count { self.old.occasions + 1 < 2 ^ 64 }
        ensures is { result ≡ deviates self.old occasion }
        ensures left { self.new ≡ counted self.old occasion }
    {
        if !has_occasion(self.kind, occasion) {
            return false;
        }
        self.occasions += 1;
        self.trigger <= self.occasions
    }

    /// How many entries wait in the buffer of processor `p`.
    pub fn waiting(&self, p: usize) -> usize
        requires { p < 16 }
        ensures is { result ≡ length (entries_of self.now.parts p) }
        ensures kept { IsBuffers self.now.parts }
    {
        self.parts.waiting(p)
    }

    /// Whether the buffer of processor `p` has no room for another entry.
    pub fn is_full(&self, p: usize) -> bool
        requires { p < 16 }
        ensures is { result ≡ (length (entries_of self.now.parts p) == self.now.parts.capacity) }
        ensures kept { IsBuffers self.now.parts }
    {
        self.parts.is_full(p)
    }

    /// Gives address `a` the first value `v`.
    pub fn preset(&mut self, a: u16, v: u64)
        requires { a < 256 }
        ensures { self.new ≡ after_preset self.old a v }
    {
        self.former[a as usize] = v;
        self.parts.write(a, v);
    }

    /// What processor `p` loads from address `a`.
    pub fn load(&mut self, p: usize, a: u16) -> u64
        requires processor { p < 16 }
        requires address { a < 256 }
        requires count { self.old.occasions + 1 < 2 ^ 64 }
        ensures answer { result ≡ load_answer self.old p a }
        ensures left { self.new ≡ after_load self.old p a }
    {
        let newest = self.parts.newest(p, a);
        let occasion = match newest {
            Some(_own) => Occasion::LoadForwarded,
            None => Occasion::LoadFromMemory,
        };
        let deviates = self.deviates(occasion);
        match newest {
            Some(own) if !deviates => own,
            None if deviates => self.former[a as usize],
            _ => self.parts.word(a),
        }
    }

    /// Appends an entry to the buffer of processor `p`, which has room for it.
    pub fn enter(&mut self, p: usize, a: u16, v: u64)
        requires processor { p < 16 }
        requires address { a < 256 }
        requires room { length (entries_of self.old.parts p) < self.old.parts.capacity }
        ensures { self.new ≡ with_entered self.old p a v }
    {
        self.parts.enter(p, a, v);
    }

    /// Drains one entry of processor `p`, which has one.
    pub fn drain_once(&mut self, p: usize)
        requires processor { p < 16 }
        requires count { self.old.occasions + 1 < 2 ^ 64 }
        ensures { self.new ≡ drain_once self.old p }
    {
        let deviates = self.deviates(Occasion::DrainMade);
        match self.kind {
            FaultKind::NewestFirst if deviates => {
                let newest = self.parts.remove_newest(p);
                self.write_entry(newest);
            }
            FaultKind::LostDrain if deviates => {
                self.parts.remove_oldest(p);
            }
            _ => {
                let oldest = self.parts.remove_oldest(p);
                self.write_entry(oldest);
            }
        }
    }

    /// Makes so many drains of processor `p`.
    pub fn drain_times(&mut self, p: usize, count: usize)
        requires processor { p < 16 }
        requires count { self.old.occasions + count < 2 ^ 64 }
        ensures left { self.new ≡ drain_times count self.old p }
        ensures count { self.new.occasions ≤ self.old.occasions + count }
    {
        for _done in 0..count {
            self.drain_once(p);
        }
    }

    /// Swaps `v` with the word at address `a`, for processor `p`, whose buffer is drained and so has room. Answers the word
    /// that was there.
    pub fn swap(&mut self, p: usize, a: u16, v: u64) -> u64
        requires processor { p < 16 }
        requires address { a < 256 }
        requires room { length (entries_of self.old.parts p) < self.old.parts.capacity }
        requires count { self.old.occasions + 1 < 2 ^ 64 }
        ensures answer { result ≡ word_of self.old a }
        ensures left { self.new ≡ swapped self.old p a v }
    {
        let r = self.parts.word(a);
        if self.deviates(Occasion::SwapMade) {
            self.enter(p, a, v);
        } else {
            self.write(a, v);
        }
        r
    }

    /// Writes the entry, if there is one, to memory.
    fn write_entry(&mut self, entry: Option<StoreEntry>)
        requires { IfSome entry (λ e. e.a < 256) }
        ensures { self.new ≡ with_entry_written self.old entry }
    {
        if let Some(entry) = entry {
            self.write(entry.a, entry.v);
        }
    }

    /// Writes the word at address `a`.
    fn write(&mut self, a: u16, v: u64)
        requires { a < 256 }
        ensures { self.new ≡ with_write self.old a v }
    {
        self.former[a as usize] = self.parts.word(a);
        self.parts.write(a, v);
    }
}
