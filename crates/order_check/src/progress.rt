//! How far the check of a list has come.
ghost use Rattle.std.specs.Prelude.{◌≡◌, ◌≢◌, ◌↔◌, ◌<◌, ◌≤◌, ◌/◌, ◌^◌, suc, ℕ, List, Some, length, slice_get, slice_index, IfOk};
ghost use Rattle.bitsets.specs.Rows.{HasNumber};
ghost use Rattle.order_check.specs.Internal.Places.{ArePlaces};
ghost use Rattle.order_check.specs.Internal.Progress.{HasPassed};

use bitsets::{mark, word_without};
use std::alloc::{AllocError, Global};
use tso_ops::Trace;

/// What is known of a list once some of its events are passed.
#[derive(Debug, Drop)]
pub(crate) struct Progress {
    /// The place of each event in the list, from 1, and 0 for number 0.
    places: Vec<usize>,
    /// The events that aren't passed, as a row of bits.
    left: Vec<u64>,
    /// For each address the place of the last store to it that is passed, from 1; 0 where none is.
    last: Vec<usize>,
}

impl Progress {
    /// That of a list with these places, of which no event is passed. OutOfMemory where an allocation was refused.
    pub(crate) fn new(
        alloc: Global,
        trace: &Trace,
        places: Vec<usize>,
    ) -> Result<Progress, AllocError>
        ensures { (order : List ℕ) → ArePlaces trace.now order places.items → IfOk result (HasPassed trace.now order 0) }
    {
        let left = numbers_to(alloc, trace.events())?;
        let last = vec![in alloc; 0; 256]?;
        Ok(Progress { places, left, last })
    }

    /// The place of number `n`: 0 past the last event.
    #[inline]
    pub(crate) fn place(&self, n: usize) -> usize
        ensures { result ≡ slice_index self.now.places.items n }
    {
        match self.places.get(n) {
            Some(place) => *place,
            None => 0,
        }
    }

    /// The place of the last store to address `a` that is passed.
    #[inline]
    pub(crate) fn last_place(&self, a: u16) -> usize
        ensures { result ≡ slice_index self.now.last.items a }
    {
        match self.last.get(a as usize) {
            Some(place) => *place,
            None => 0,
        }
    }

    /// The events that aren't passed, as a row of bits.
    #[inline]
    pub(crate) fn left(&self) -> &[u64]
        ensures { result.now ≡ self.now.left.items }
    {
        &self.left
    }

    /// Passes the next event of the list.
    pub(crate) fn pass(&mut self, trace: &Trace, n: usize)
        requires { (order : List ℕ) × (k : ℕ) × HasPassed trace.now order k self.old × (slice_get order k ≡ Some n) }
        ensures { (order : List ℕ) (k : ℕ) → HasPassed trace.now order k self.old → slice_get order k ≡ Some n → HasPassed trace.now order (suc k) self.new }
    {
        let place = self.place(n);
        without_number(&mut self.left, n);
        if let Some(event) = trace.event(n) {
            if !event.load {
                self.last[event.a as usize] = place;
            }
        }
    }
}

/// The numbers from 1 to `count` as a row of bits. OutOfMemory where an allocation was refused.
fn numbers_to(alloc: Global, count: usize) -> Result<Vec<u64>, AllocError>
    requires { count < 2 ^ 32 }
    ensures { IfOk result (λ row. (v : ℕ) → HasNumber row.items v ↔ ((0 < v) × (v ≤ count))) }
{
    let mut row = Vec::new(alloc);
    for n in 1..count + 1 {
        mark(&mut row, n)?;
    }
    Ok(row)
}

/// Takes a number out of a row of bits.
fn without_number(row: &mut [u64], n: usize)
    requires { n / 64 < length row.old }
    ensures { (v : ℕ) → HasNumber row.new v ↔ (HasNumber row.old v × (v ≢ n)) }
{
    let j = n / 64;
    row[j] = word_without(row[j], j, n);
}
