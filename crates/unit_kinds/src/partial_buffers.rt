ghost use Rattle.std.specs.Prelude.{◌≡◌, ◌⊎◌, ◌+◌, ◌<◌, ◌≤◌, ◌==◌, ◌^◌, suc, cond, IfOk, length, map, replicate, set, slice_index};
ghost use Rattle.unit_core.specs.declared.steps.Step.TheVariants.{DrainAt, Stbar, Store};
ghost use Rattle.unit_core.specs.Machine.{buffer_of, first_state, newest, next, oldest_of, seen_by, stbars_of};
ghost use Rattle.unit_kinds.specs.Internal.Partial.{AreEmptyBuffers, IsNextPlace, LeavesFirst, entry_of};
ghost use Rattle.unit_kinds.specs.Partial.{IsNextAddress};

use std::alloc::{AllocError, Global};
use std::marker::Model;

/// A store that waits in a buffer.
#[derive(Clone, Copy, Debug, PartialEq, Eq)]
pub(crate) struct WaitingStore {
    /// The address, from 0 to 255.
    a: u16,
    /// The value that is stored.
    v: u64,
    /// How many STBARs its processor made before it.
    stbars: usize,
}

/// A memory of 256 words, a store buffer for each of 16 processors, and how many STBARs each has made.
///
/// An entry may leave a buffer in its middle, so a buffer is a vector, the oldest entry first. No call but `new` allocates.
#[derive(Debug, Drop)]
pub(crate) struct PartialBuffers {
    memory: Vec<u64>,
    buffers: Vec<Vec<WaitingStore>>,
    stbars: Vec<usize>,
    capacity: usize,
}

impl Model for PartialBuffers {
    ghost use Rattle.unit_kinds.specs.Internal.Partial.{ArePartialBuffers, PartialBuffersValue, state_in};

    ghost Value = { PartialBuffersValue };

    ghost view = { λ b. record { state = state_in b.memory.items b.buffers.items b.stbars.items; capacity = b.capacity } };

    ghost invariant = { λ b. ArePartialBuffers b.memory.items b.buffers.items b.stbars.items b.capacity };
}

impl PartialBuffers {
    /// A memory of zeros, and empty buffers with room for `capacity` entries each, from 1 to 64; or AllocError where an
    /// allocation was refused.
    pub(crate) fn new(alloc: Global, capacity: usize) -> Result<PartialBuffers, AllocError>
        requires least { 1 ≤ capacity }
        requires most { capacity ≤ 64 }
        ensures { IfOk result (λ b. b ≡ record { state = first_state (replicate 256 0); capacity = capacity }) }
    {
        Ok(PartialBuffers {
            memory: vec![in alloc; 0; 256]?,
            buffers: make_buffers(alloc, capacity)?,
            stbars: vec![in alloc; 0; 16]?,
            capacity,
        })
    }

    /// How many entries wait in the buffer of processor `p`.
    pub(crate) fn waiting(&self, p: usize) -> usize
        requires { p < 16 }
        ensures is { result ≡ length (buffer_of self.now.state p) }
        ensures kept { result ≤ self.now.capacity }
        ensures most { result ≤ 64 }
    {
        self.buffers[p].len()
    }

    /// Whether the buffer of processor `p` has no room for another entry.
    pub(crate) fn is_full(&self, p: usize) -> bool
        requires { p < 16 }
        ensures is { result ≡ (length (buffer_of self.now.state p) == self.now.capacity) }
        ensures least { 1 ≤ self.now.capacity }
        ensures kept { length (buffer_of self.now.state p) ≤ self.now.capacity }
    {
        self.waiting(p) == self.capacity
    }

    /// What processor `p` reads at address `a`.
    pub(crate) fn seen(&self, p: usize, a: u16) -> u64
        requires processor { p < 16 }
        requires address { a < 256 }
        ensures { result ≡ seen_by self.now.state p a }
    {
        newest_of(&self.buffers[p], a, self.memory[a as usize])
    }

    /// The word of memory at address `a`.
    pub(crate) fn word(&self, a: u16) -> u64
        requires { a < 256 }
        ensures { result ≡ slice_index self.now.state.memory a }
    {
        self.memory[a as usize]
    }

    /// Writes the word of memory at address `a`.
    pub(crate) fn write(&mut self, a: u16, v: u64)
        requires { a < 256 }
        ensures { self.new ≡ record self.old { state = record self.old.state { memory = set self.old.state.memory a v } } }
    {
        self.memory[a as usize] = v;
    }

    /// Appends an entry to the buffer of processor `p`, which has room for it.
    pub(crate) fn enter(&mut self, p: usize, a: u16, v: u64)
        requires processor { p < 16 }
        requires address { a < 256 }
        requires room { length (buffer_of self.old.state p) < self.old.capacity }
        ensures { self.new ≡ record self.old { state = next self.old.state (Store p a v) } }
    {
        let stbars = self.stbars[p];
        let _pushed = self.buffers[p].push(WaitingStore { a, v, stbars });
    }

    /// Counts an STBAR of processor `p`.
    pub(crate) fn count_stbar(&mut self, p: usize)
        requires processor { p < 16 }
        requires countable { stbars_of self.old.state p + 1 < 2 ^ 64 }
        ensures { self.new ≡ record self.old { state = next self.old.state (Stbar p) } }
    {
        self.stbars[p] += 1;
    }

    /// Writes the entry of processor `p` that is the next to leave its buffer to memory, and takes it out of the buffer: its
    /// address.
    pub(crate) fn drain_next(&mut self, p: usize) -> u16
        requires processor { p < 16 }
        requires waits { 0 < length (buffer_of self.old.state p) }
        ensures is { IsNextAddress (buffer_of self.old.state p) result }
        ensures drained { self.new ≡ record self.old { state = next self.old.state (DrainAt p result) } }
        ensures fewer { suc (length (buffer_of self.new.state p)) ≡ length (buffer_of self.old.state p) }
    {
        let place = self.next_place(p);
        let entry = self.buffers[p].remove(place);
        self.memory[entry.a as usize] = entry.v;
        entry.a
    }

    /// The place of the entry of processor `p` that is the next to leave its buffer.
    fn next_place(&self, p: usize) -> usize
        requires processor { p < 16 }
        requires waits { 0 < length (buffer_of self.now.state p) }
        ensures { IsNextPlace (buffer_of self.now.state p) result }
    {
        let buffer = &self.buffers[p];
        oldest_place(buffer, next_address(buffer))
    }
}

/// An empty buffer with room for `capacity` entries for each of 16 processors.
fn make_buffers(alloc: Global, capacity: usize) -> Result<Vec<Vec<WaitingStore>>, AllocError>
    ensures { IfOk result (λ buffers. AreEmptyBuffers capacity 16 buffers.items) }
{
    let mut buffers = Vec::with_capacity(alloc, 16)?;
    for _p in 0..16usize {
        buffers.push(Vec::with_capacity(alloc, capacity)?)?;
    }
    Ok(buffers)
}

/// The value of the newest entry of address `a`, or else this word.
fn newest_of(buffer: &[WaitingStore], a: u16, word: u64) -> u64
    ensures { result ≡ newest (map entry_of buffer.now) a word }
{
    let mut seen = word;
    for entry in buffer {
        seen = seen_after(*entry, a, seen);
    }
    seen
}

/// What is seen at address `a` after one more entry.
fn seen_after(entry: WaitingStore, a: u16, seen: u64) -> u64
    ensures { result ≡ cond (entry.a == a) entry.v seen }
{
    if entry.a == a { entry.v } else { seen }
}

/// The greatest address among the entries with the smallest number of STBARs.
fn next_address(buffer: &[WaitingStore]) -> u16
    requires { 0 < length buffer.now }
    ensures { IsNextAddress (map entry_of buffer.now) result }
{
    let mut best = buffer[0];
    for entry in buffer {
        best = first_of(*entry, best);
    }
    best.a
}

/// Which of two entries leaves first: the one after fewer STBARs, and of two after as many the one of the greater address.
fn first_of(entry: WaitingStore, other: WaitingStore) -> WaitingStore
    ensures one { (result ≡ entry) ⊎ (result ≡ other) }
    ensures before_entry { LeavesFirst result entry }
    ensures before_other { LeavesFirst result other }
{
    if entry.stbars < other.stbars || (entry.stbars == other.stbars && entry.a > other.a) {
        entry
    } else {
        other
    }
}

/// The place of the oldest entry of address `a`, or how many entries there are where none is of it.
fn oldest_place(buffer: &[WaitingStore], a: u16) -> usize
    ensures { result ≡ oldest_of (map entry_of buffer.now) a }
{
    for (place, entry) in buffer.iter().enumerate() {
        if entry.a == a {
            return place;
        }
    }
    buffer.len()
}
