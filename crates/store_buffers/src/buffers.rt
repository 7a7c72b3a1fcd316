ghost use Rattle.std.specs.Prelude.{◌≡◌, ◌<◌, ◌≤◌, ◌-◌, ◌==◌, [], ◌∷◌, ◌++◌, IfOk, IfSome, length, drop, take, replicate, slice_get, slice_index};
ghost use Rattle.circular_buffer.specs.Buffer.{buffer, last_item};
ghost use Rattle.store_buffers.specs.Buffers.{IsBuffers, entries_of, new_buffers, newest_value, oldest_drained, with_entries, with_word};
ghost use Rattle.std.specs.Option.{is_some};

use crate::entries::StoreEntry;
use circular_buffer::HeapCircularBuffer;
use std::alloc::{AllocError, Global};
use std::marker::Model;

/// A memory of 256 words, and a store buffer of one capacity for each of 16 processors.
///
/// Processors go from 0 to 15 and addresses from 0 to 255. No call but `new` allocates.
#[derive(Debug, Drop)]
pub struct Buffers {
    /// The word at each address.
    memory: Vec<u64>,
    /// The store buffer of each processor, its oldest entry in front.
    rings: Vec<HeapCircularBuffer<StoreEntry>>,
    capacity: usize,
}

impl Model for Buffers {
    ghost use Rattle.store_buffers.specs.Buffers.{BuffersValue};
    ghost use Rattle.store_buffers.specs.Internal.Rings.{IsRings, buffers_of_rings};

    ghost Value = { BuffersValue };

    ghost view = { λ b. buffers_of_rings b.memory.items b.rings.items b.capacity };

    ghost invariant = { λ b. IsRings b.memory.items b.rings.items b.capacity };
}

impl Buffers {
    /// A memory of zeros and empty buffers that each hold up to `capacity` entries, from 1 to 64; or AllocError where an
    /// allocation was refused.
    pub fn new(alloc: Global, capacity: usize) -> Result<Buffers, AllocError>
        requires least { 1 ≤ capacity }
        requires most { capacity ≤ 64 }
        ensures { IfOk result (λ b. b ≡ new_buffers capacity) }
    {
        let memory = vec![in alloc; 0; 256]?;
        let rings = make_rings(alloc, capacity)?;
        Ok(Buffers {
            memory,
            rings,
            capacity,
        })
    }

    /// How many entries wait in the buffer of processor `p`.
    pub fn waiting(&self, p: usize) -> usize
        requires { p < 16 }
        ensures is { result ≡ length (entries_of self.now p) }
        ensures kept { IsBuffers self.now }
    {
        self.rings[p].len()
    }

    /// Whether the buffer of processor `p` has no room for another entry.
    pub fn is_full(&self, p: usize) -> bool
        requires { p < 16 }
        ensures is { result ≡ (length (entries_of self.now p) == self.now.capacity) }
        ensures kept { IsBuffers self.now }
    {
        self.waiting(p) == self.capacity
    }

    /// The value of the newest entry of address `a` in the buffer of processor `p`, if there is one.
    pub fn newest(&self, p: usize, a: u16) -> Option<u64>
        requires { p < 16 }
        ensures { result ≡ newest_value (entries_of self.now p) a }
    {
        newest_among(&self.rings[p], a)
    }

    /// The word of memory at address `a`.
    pub fn word(&self, a: u16) -> u64
        requires { a < 256 }
        ensures { result ≡ slice_index self.now.memory a }
    {
        self.memory[a as usize]
    }

    /// Writes the word of memory at address `a`.
    pub fn write(&mut self, a: u16, v: u64)
        requires { a < 256 }
        ensures { self.new ≡ with_word self.old a v }
    {
        self.memory[a as usize] = v;
    }

    /// Appends an entry to the buffer of processor `p`, which has room for it.
    pub fn enter(&mut self, p: usize, a: u16, v: u64)
        requires processor { p < 16 }
        requires address { a < 256 }
        requires room { length (entries_of self.old p) < self.old.capacity }
        ensures { self.new ≡ with_entries self.old p (entries_of self.old p ++ record { a = a; v = v } ∷ []) }
    {
        let _full = self.rings[p].try_push_back(StoreEntry { a, v });
    }

    /// Takes the oldest entry out of the buffer of processor `p`, if one waits. Memory stays.
    pub fn remove_oldest(&mut self, p: usize) -> Option<StoreEntry>
        requires { p < 16 }
        ensures is { result ≡ slice_get (entries_of self.old p) 0 }
        ensures address { IfSome result (λ e. e.a < 256) }
        ensures left { self.new ≡ with_entries self.old p (drop 1 (entries_of self.old p)) }
    {
        self.rings[p].pop_front()
    }

    /// Takes the newest entry out of the buffer of processor `p`, if one waits. Memory stays.
    pub fn remove_newest(&mut self, p: usize) -> Option<StoreEntry>
        requires { p < 16 }
        ensures is { result ≡ last_item (entries_of self.old p) }
        ensures address { IfSome result (λ e. e.a < 256) }
        ensures left { self.new ≡ with_entries self.old p (take (length (entries_of self.old p) - 1) (entries_of self.old p)) }
    {
        self.rings[p].pop_back()
    }

    /// Writes the oldest entry in the buffer of processor `p` to memory, and takes it out of the buffer; or answers false
    /// where none waits.
    pub fn drain_oldest(&mut self, p: usize) -> bool
        requires { p < 16 }
        ensures is { result ≡ is_some (slice_get (entries_of self.old p) 0) }
        ensures drained { self.new ≡ oldest_drained self.old p }
    {
        match self.remove_oldest(p) {
            Some(entry) => {
                self.write(entry.a, entry.v);
                true
            }
            None => false,
        }
    }
}

/// An empty buffer of this capacity for each of 16 processors.
fn make_rings(
    alloc: Global,
    capacity: usize,
) -> Result<Vec<HeapCircularBuffer<StoreEntry>>, AllocError>
    ensures { IfOk result (λ rings. rings.items ≡ replicate 16 (buffer [] capacity)) }
{
    let mut rings = Vec::with_capacity(alloc, 16)?;
    for _p in 0..16usize {
        rings.push(HeapCircularBuffer::with_capacity(alloc, capacity)?)?;
    }
    Ok(rings)
}

/// The value of the newest entry of address `a`, if there is one. The newest entry stands last.
fn newest_among(ring: &HeapCircularBuffer<StoreEntry>, a: u16) -> Option<u64>
    ensures { result ≡ newest_value ring.now.items a }
{
    for k in (0..ring.len()).rev() {
        if let Some(entry) = ring.get(k)
            && entry.a == a
        {
            return Some(entry.v);
        }
    }
    None
}
