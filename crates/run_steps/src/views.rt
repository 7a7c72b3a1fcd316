//! What a processor sees of memory and of the stores that wait in its buffer.
ghost use Rattle.std.specs.Prelude.{◌≡◌, ◌≢◌, None, ◌++◌, ◌+◌, ◌%◌, ◌≤◌, ◌<◌, ℕ, [], get_or, map, IfOk, IfSome, OnOk};
ghost use Rattle.run_steps.specs.declared.cells.Cell.TheVariants.{First};
ghost use Rattle.run_steps.specs.Places.{cell_count};
ghost use Rattle.std.specs.List.{list_any};
ghost use Rattle.run_steps.specs.Reads.{compared, is_origin, memory_of_cells, newest_sharing, origins_in, read_in, refusal_of, seen_before, seen_in, sees, value_refusals, with_origin};

use crate::blocks::{Block, MemoryCells};
use crate::cell_stores::newest_of_cells;
use crate::cells::Cell;
use crate::places::{Place, fits};
use crate::processors::{WaitingStore, newest_over, newest_sharing};
use crate::refusals::{CellContent, Comparison, Origin, RunRefusal};
use std::alloc::Global;
use tso_ops::OutOfMemory;

/// Memory, and stores that wait before it.
#[derive(Clone, Copy)]
pub(crate) struct View<'a> {
    pub(crate) memory: &'a MemoryCells,
    pub(crate) waiting: &'a [WaitingStore],
}

impl<'a> View<'a> {
    /// What is seen in a cell: what the newest store that waits has there, or else what memory holds. None where that isn't known.
    fn look(&self, cell: u64) -> Option<CellContent>
        ensures { result ≡ sees (memory_of_cells self.now.memory.now) self.now.waiting.now cell }
    {
        self.seen(newest_over(self.waiting, cell), cell)
    }

    /// What is seen in a cell over which this is the newest store that waits: what memory holds, where there is none. None where that isn't
    /// known.
    fn seen(&self, newest: Option<WaitingStore>, cell: u64) -> Option<CellContent>
        ensures { result ≡ seen_before (memory_of_cells self.now.memory.now) cell newest }
    {
        if let Some(waiting) = newest {
            let number = cell.saturating_sub(waiting.place.address);
            return Some(CellContent {
                value: waiting.place.part(waiting.value, number),
                origin: Origin::Waiting(waiting.store),
            });
        }
        match self.memory.cell(cell) {
            Cell::First(value) => Some(CellContent {
                value,
                origin: Origin::First,
            }),
            Cell::Stored {
                value,
                store,
                reached,
            } => Some(CellContent {
                value,
                origin: Origin::Reached {
                    store,
                    line: reached,
                },
            }),
            Cell::Unknown => None,
        }
    }

    /// The value that is read at a place. None where some of it isn't known.
    pub(crate) fn read(&self, place: Place) -> Option<u64>
        ensures { result ≡ read_in place (sees (memory_of_cells self.now.memory.now) self.now.waiting.now) }
    {
        if place.width == 0 {
            return match self.look(place.address) {
                Some(seen) => Some(seen.value),
                None => None,
            };
        }
        let Some(k) = newest_sharing(self.waiting, place) else {
            return self.read_memory(place);
        };
        let store = self.waiting[k];
        if store.place.is(&place) && fits(place.width, store.value) {
            return Some(store.value);
        }
        let older = View {
            memory: self.memory,
            waiting: &self.waiting[..k + 1],
        };
        older.read_bytes(place)
    }

    /// The value that is read at a place of bytes over which no store waits. None where some of it isn't known.
    fn read_memory(&self, place: Place) -> Option<u64>
        requires bytes { place.width ≢ 0 }
        requires alone { newest_sharing self.now.waiting.now place None ≡ None }
        ensures { result ≡ read_in place (sees (memory_of_cells self.now.memory.now) self.now.waiting.now) }
    {
        match self.block(place) {
            Some(block) => block.read(place),
            None => View {
                memory: self.memory,
                waiting: &[],
            }
            .read_bytes(place),
        }
    }

    /// The block in which all bytes of a place are seen over which no store waits. None where there isn't one.
    fn block(&self, place: Place) -> Option<&Block>
        requires { newest_sharing self.now.waiting.now place None ≡ None }
        ensures within { IfSome result (λ block. place.address % 8 + cell_count place ≤ 8) }
        ensures seen { IfSome result (λ block. (i : ℕ) → i < cell_count place →
            sees (memory_of_cells self.now.memory.now) self.now.waiting.now (place.address + i) ≡
            seen_in (get_or block.now.cells (place.address % 8 + i) (First 0))) }
    {
        if place.address % 8 + place.cells() > 8 {
            return None;
        }
        self.memory.block(place.address)
    }

    /// The value that is read at a place of bytes, one by one. None where some of it isn't known.
    fn read_bytes(&self, place: Place) -> Option<u64>
        requires { place.width ≢ 0 }
        ensures { result ≡ read_in place (sees (memory_of_cells self.now.memory.now) self.now.waiting.now) }
    {
        let newest = newest_of_cells(self.waiting, place);
        let mut value = Some(0);
        for i in (0..place.width).rev() {
            value = match (self.seen(newest[i as usize], place.address + i), value) {
                (Some(seen), Some(above)) => Some(seen.value % 256 + 256 * above),
                _ => None,
            };
        }
        value
    }

    /// Where the value at a place is from, each once, by ascending byte. OutOfMemory where an allocation was refused.
    fn origins(&self, alloc: Global, place: Place) -> Result<Vec<Origin>, OutOfMemory>
        ensures { IfOk result (λ origins. origins.items ≡ origins_in place (sees (memory_of_cells self.now.memory.now) self.now.waiting.now)) }
    {
        let newest = newest_of_cells(self.waiting, place);
        let mut origins = Vec::new(alloc);
        for i in 0..place.cells() {
            let seen = self.seen(newest[i as usize], place.address + i);
            add_origin(&mut origins, seen)?;
        }
        Ok(origins)
    }

    /// Compares what is read at a place with the value that a line says. OutOfMemory where an allocation was refused.
    pub(crate) fn compare(
        &self,
        alloc: Global,
        place: Place,
        said: u64,
        refusals: &mut Vec<RunRefusal>,
    ) -> Result<Comparison, OutOfMemory>
        ensures found { OnOk result (map refusal_of refusals.new.items ≡ map refusal_of refusals.old.items ++
            value_refusals place (sees (memory_of_cells self.now.memory.now) self.now.waiting.now) said) }
        ensures compared { IfOk result (λ comparison. comparison ≡ compared place (sees (memory_of_cells self.now.memory.now) self.now.waiting.now)) }
    {
        let Some(has) = self.read(place) else {
            return Ok(Comparison::Unknown);
        };
        if has != said {
            let origins = self.origins(alloc, place)?;
            refusals.push(RunRefusal::Value { has, origins })?;
        }
        Ok(Comparison::Compared)
    }
}

/// Adds the origin of what is seen, if it isn't there. OutOfMemory where an allocation was refused.
fn add_origin(origins: &mut Vec<Origin>, seen: Option<CellContent>) -> Result<(), OutOfMemory>
    ensures { OnOk result (origins.new.items ≡ with_origin origins.old.items seen) }
{
    if let Some(seen) = seen {
        if !is_among(origins, seen.origin) {
            origins.push(seen.origin)?;
        }
    }
    Ok(())
}

/// Whether an origin is one of these.
fn is_among(origins: &[Origin], origin: Origin) -> bool
    ensures { result ≡ list_any (λ o. is_origin o origin) origins.now }
{
    origins.iter().any(|other| other.is(&origin))
}
