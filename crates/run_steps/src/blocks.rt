//! Memory: locations one by one, and bytes in blocks of eight, so that most accesses look up one thing.
ghost use Rattle.std.specs.Prelude.{◌≡◌, ◌≢◌, Option, ◌*◌, ◌/◌, [], ◌+◌, ◌%◌, ◌≤◌, ◌<◌, ℕ, IfSome, OnOk, get_or, length, map, nat_eq, set};
ghost use Rattle.std.specs.Map.{lookup};
ghost use Rattle.run_steps.specs.declared.cells.Cell.TheVariants.{First};
ghost use Rattle.run_steps.specs.declared.refusals.CellContent.{CellContent};
ghost use Rattle.run_steps.specs.Places.{cell_count, cell_parts};
ghost use Rattle.run_steps.specs.Reads.{cell_in, filled, location_in, memory_in, memory_of_cells, read_in, seen_in, with_cell, with_cells, written_in};

use crate::cells::{Cell, Written, cell_of};
use crate::places::{Place, low_part};
use std::alloc::Global;
use std::collections::HashMap;
use tso_ops::OutOfMemory;

/// What memory holds, where something was written.
#[derive(Drop)]
pub(crate) struct MemoryCells {
    /// What is in the cells that no block has, by address.
    pub(crate) locations: HashMap<u64, Cell>,
    /// The blocks that bytes were written into: the block of an address a has the number a / 8.
    pub(crate) blocks: HashMap<u64, Block>,
}

/// Eight cells that lie side by side, the first of them at a multiple of 8.
#[derive(Clone, Copy)]
pub(crate) struct Block {
    pub(crate) cells: [Cell; 8],
}

impl MemoryCells {
    /// Memory in which nothing was written: it holds 0.
    pub(crate) fn new(alloc: Global) -> MemoryCells
        ensures locations { result.locations.entries ≡ [] }
        ensures blocks { result.blocks.entries ≡ [] }
    {
        MemoryCells {
            locations: HashMap::new(alloc),
            blocks: HashMap::new(alloc),
        }
    }

    /// What is in the cell of an address: 0, where nothing was written.
    pub(crate) fn cell(&self, address: u64) -> Cell
        ensures { result ≡ memory_of_cells self.now address }
    {
        match self.blocks.get(&(address / 8)) {
            Some(block) => block.cells[(address % 8) as usize],
            None => location_at(&self.locations, address),
        }
    }

    /// The block of an address. None where only locations were written into.
    pub(crate) fn block(&self, address: u64) -> Option<&Block>
        ensures { IfSome result (λ block. (i : ℕ) → address % 8 + i < 8 → memory_of_cells self.now (address + i) ≡ get_or block.now.cells (address % 8 + i) (First 0)) }
    {
        self.blocks.get(&(address / 8))
    }

    /// Writes a value into the cells of a place. OutOfMemory where an allocation was refused.
    pub(crate) fn fill(
        &mut self,
        place: Place,
        value: u64,
        written: Written,
    ) -> Result<(), OutOfMemory>
        ensures { OnOk result (memory_of_cells self.new ≡ filled (memory_of_cells self.old) place.address (map (written_in written) (cell_parts place value))) }
    {
        if place.width == 0 {
            let cell = cell_of(written, value);
            set_location(&mut self.locations, &mut self.blocks, place.address, cell)
        } else if place.address % 8 + place.cells() <= 8 {
            fill_block(&self.locations, &mut self.blocks, place, value, written)
        } else {
            fill_cells(&self.locations, &mut self.blocks, place, value, written)
        }
    }
}

impl Block {
    /// The value that is read at a place of bytes which lie in this block. None where some of it isn't known.
    pub(crate) fn read(&self, place: Place) -> Option<u64>
        requires bytes { place.width ≢ 0 }
        requires within { place.address % 8 + place.width ≤ 8 }
        ensures { (look : ℕ → Option CellContent) →
            ((i : ℕ) → i < place.width → look (place.address + i) ≡ seen_in (get_or self.now.cells (place.address % 8 + i) (First 0))) →
            result ≡ read_in place look }
    {
        let start = place.address % 8;
        let mut value = Some(0);
        for i in (0..place.width).rev() {
            value = match (self.cells[(start + i) as usize].value(), value) {
                (Some(byte), Some(above)) => Some(byte % 256 + 256 * above),
                _ => None,
            };
        }
        value
    }
}

/// What is in a location: 0, where nothing was written.
fn location_at(locations: &HashMap<u64, Cell>, address: u64) -> Cell
    ensures { result ≡ location_in locations.now address }
{
    locations.get(&address).copied().unwrap_or(Cell::First(0))
}

/// Writes the cell of a location. OutOfMemory where an allocation was refused.
fn set_location(
    locations: &mut HashMap<u64, Cell>,
    blocks: &mut HashMap<u64, Block>,
    address: u64,
    cell: Cell,
) -> Result<(), OutOfMemory>
    ensures { OnOk result (memory_in locations.new blocks.new ≡ with_cell (memory_in locations.old blocks.old) address cell) }
{
    if let Some(block) = blocks.get_mut(&(address / 8)) {
        set_cell(block, (address % 8) as usize, cell);
        return Ok(());
    }
    match locations.insert(address, cell) {
        Ok(_) => Ok(()),
        Err(_) => Err(OutOfMemory),
    }
}

/// Writes a value into the cells of a place that lie in one block. OutOfMemory where an allocation was refused.
fn fill_block(
    locations: &HashMap<u64, Cell>,
    blocks: &mut HashMap<u64, Block>,
    place: Place,
    value: u64,
    written: Written,
) -> Result<(), OutOfMemory>
    requires { place.address % 8 + cell_count place ≤ 8 }
    ensures { OnOk result (memory_in locations.now blocks.new ≡ filled (memory_in locations.now blocks.old) place.address
        (map (written_in written) (cell_parts place value))) }
{
    let number = place.address / 8;
    if let Some(block) = blocks.get_mut(&number) {
        write(block, place, value, written);
        return Ok(());
    }
    let mut block = block_of(locations, place.address);
    write(&mut block, place, value, written);
    match blocks.insert(number, block) {
        Ok(_) => Ok(()),
        Err(_) => Err(OutOfMemory),
    }
}

/// A block of the locations that lie in the block of an address.
fn block_of(locations: &HashMap<u64, Cell>, address: u64) -> Block
    ensures { (i : ℕ) → i < 8 → get_or result.cells i (First 0) ≡ location_in locations.now (8 * (address / 8) + i) }
{
    let first = address / 8 * 8;
    let mut block = Block {
        cells: [Cell::First(0); 8],
    };
    for i in 0..8 {
        block.cells[i as usize] = location_at(locations, first + i);
    }
    block
}

/// Writes a value into the cells of a place that lie in this block.
fn write(block: &mut Block, place: Place, value: u64, written: Written)
    requires { place.address % 8 + cell_count place ≤ 8 }
    ensures cells { block.new.cells ≡ with_cells block.old.cells (place.address % 8) (map (written_in written) (cell_parts place value)) }
    ensures whole { length block.old.cells ≡ 8 }
{
    let start = place.address % 8;
    let mut rest = value;
    for i in 0..place.cells() {
        block.cells[(start + i) as usize] = cell_of(written, low_part(place.width, rest));
        rest /= 256;
    }
}

/// Writes a value into the cells of a place, one by one. OutOfMemory where an allocation was refused.
fn fill_cells(
    locations: &HashMap<u64, Cell>,
    blocks: &mut HashMap<u64, Block>,
    place: Place,
    value: u64,
    written: Written,
) -> Result<(), OutOfMemory>
    ensures { OnOk result (memory_in locations.now blocks.new ≡ filled (memory_in locations.now blocks.old) place.address
        (map (written_in written) (cell_parts place value))) }
{
    let mut rest = value;
    for i in 0..place.cells() {
        let cell = cell_of(written, low_part(place.width, rest));
        put(locations, blocks, place.address + i, cell)?;
        rest /= 256;
    }
    Ok(())
}

/// Writes one cell of a block. OutOfMemory where an allocation was refused.
fn put(
    locations: &HashMap<u64, Cell>,
    blocks: &mut HashMap<u64, Block>,
    address: u64,
    cell: Cell,
) -> Result<(), OutOfMemory>
    ensures { OnOk result (memory_in locations.now blocks.new ≡ with_cell (memory_in locations.now blocks.old) address cell) }
{
    let mut block = block_at(locations, blocks, address);
    set_cell(&mut block, (address % 8) as usize, cell);
    match blocks.insert(address / 8, block) {
        Ok(_) => Ok(()),
        Err(_) => Err(OutOfMemory),
    }
}

/// The block of an address.
fn block_at(locations: &HashMap<u64, Cell>, blocks: &HashMap<u64, Block>, address: u64) -> Block
    ensures { (i : ℕ) → i < 8 → get_or result.cells i (First 0) ≡
        cell_in (location_in locations.now (8 * (address / 8) + i)) (lookup (nat_eq (address / 8)) blocks.now.entries) i }
{
    match blocks.get(&(address / 8)) {
        Some(block) => *block,
        None => block_of(locations, address),
    }
}

/// Writes one cell of a block.
fn set_cell(block: &mut Block, number: usize, cell: Cell)
    requires { number < 8 }
    ensures cells { block.new.cells ≡ set block.old.cells number cell }
    ensures whole { length block.old.cells ≡ 8 }
{
    block.cells[number] = cell;
}
