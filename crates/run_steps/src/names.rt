//! Which stores the machine names, by the numbers of their lines.
ghost use Rattle.std.specs.Prelude.{◌≡◌, ℕ, IfSome, IsTrue, OnOk, map, nat_eq};
ghost use Rattle.std.specs.HashMap.{values};
ghost use Rattle.std.specs.HashSet.{contains};
ghost use Rattle.std.specs.List.{AllByRecursion};
ghost use Rattle.run_steps.specs.Machine.{processor_state, state_of_machine};
ghost use Rattle.run_steps.specs.Names.{BlockNames, CellNames, ProcessorNames, StateNames};
ghost use Rattle.run_steps.specs.Reads.{memory_of_cells};

use crate::blocks::{Block, MemoryCells};
use crate::cells::Cell;
use crate::machines::Machine;
use crate::processors::{Processor, Reservation, WaitingStore};
use std::collections::{HashMap, HashSet};
use tso_ops::OutOfMemory;

impl Machine {
    /// Adds the numbers of the lines of all stores that the machine names: those that memory holds, those that wait, and those by which
    /// reservations were lost. OutOfMemory where an allocation was refused.
    pub fn add_named_stores(&self, names: &mut HashSet<u64>) -> Result<(), OutOfMemory>
        ensures named { OnOk result (StateNames (contains nat_eq names.new) (state_of_machine self.now)) }
        ensures kept { OnOk result ((n : ℕ) → IsTrue (contains nat_eq names.old n) → IsTrue (contains nat_eq names.new n)) }
    {
        add_of_memory(&self.memory, names)?;
        add_of_processors(&self.processors, names)
    }
}

/// Adds the stores that memory holds. OutOfMemory where an allocation was refused.
fn add_of_memory(memory: &MemoryCells, names: &mut HashSet<u64>) -> Result<(), OutOfMemory>
    ensures named { OnOk result ((address : ℕ) → CellNames (contains nat_eq names.new) (memory_of_cells memory.now address)) }
    ensures kept { OnOk result ((n : ℕ) → IsTrue (contains nat_eq names.old n) → IsTrue (contains nat_eq names.new n)) }
{
    add_of_locations(&memory.locations, names)?;
    add_of_blocks(&memory.blocks, names)
}

/// Adds the stores that the locations hold. OutOfMemory where an allocation was refused.
fn add_of_locations(
    locations: &HashMap<u64, Cell>,
    names: &mut HashSet<u64>,
) -> Result<(), OutOfMemory>
    ensures named { OnOk result (AllByRecursion (CellNames (contains nat_eq names.new)) (values locations.now)) }
    ensures kept { OnOk result ((n : ℕ) → IsTrue (contains nat_eq names.old n) → IsTrue (contains nat_eq names.new n)) }
{
    for cell in locations.values() {
        add_of_cell(*cell, names)?;
    }
    Ok(())
}

/// Adds the stores that the blocks hold. OutOfMemory where an allocation was refused.
fn add_of_blocks(blocks: &HashMap<u64, Block>, names: &mut HashSet<u64>) -> Result<(), OutOfMemory>
    ensures named { OnOk result (AllByRecursion (BlockNames (contains nat_eq names.new)) (values blocks.now)) }
    ensures kept { OnOk result ((n : ℕ) → IsTrue (contains nat_eq names.old n) → IsTrue (contains nat_eq names.new n)) }
{
    for block in blocks.values() {
        add_of_block(block, names)?;
    }
    Ok(())
}

/// Adds the stores that a block of memory holds. OutOfMemory where an allocation was refused.
fn add_of_block(block: &Block, names: &mut HashSet<u64>) -> Result<(), OutOfMemory>
    ensures named { OnOk result (AllByRecursion (CellNames (contains nat_eq names.new)) block.now.cells) }
    ensures kept { OnOk result ((n : ℕ) → IsTrue (contains nat_eq names.old n) → IsTrue (contains nat_eq names.new n)) }
{
    for cell in &block.cells {
        add_of_cell(*cell, names)?;
    }
    Ok(())
}

/// Adds the store that left there what a cell holds. OutOfMemory where an allocation was refused.
fn add_of_cell(cell: Cell, names: &mut HashSet<u64>) -> Result<(), OutOfMemory>
    ensures named { OnOk result (CellNames (contains nat_eq names.new) cell) }
    ensures kept { OnOk result ((n : ℕ) → IsTrue (contains nat_eq names.old n) → IsTrue (contains nat_eq names.new n)) }
{
    match cell {
        Cell::Stored { store, .. } => add(store, names),
        Cell::First(_) | Cell::Unknown => Ok(()),
    }
}

/// Adds the stores that processors name. OutOfMemory where an allocation was refused.
fn add_of_processors(processors: &[Processor], names: &mut HashSet<u64>) -> Result<(), OutOfMemory>
    ensures named { OnOk result (AllByRecursion (ProcessorNames (contains nat_eq names.new)) (map processor_state processors.now)) }
    ensures kept { OnOk result ((n : ℕ) → IsTrue (contains nat_eq names.old n) → IsTrue (contains nat_eq names.new n)) }
{
    for processor in processors {
        add_of_buffer(&processor.waiting, names)?;
        add_of_reservation(processor.reservation, names)?;
    }
    Ok(())
}

/// Adds stores that wait. OutOfMemory where an allocation was refused.
fn add_of_buffer(waiting: &[WaitingStore], names: &mut HashSet<u64>) -> Result<(), OutOfMemory>
    ensures named { OnOk result (AllByRecursion (λ w. IsTrue (contains nat_eq names.new w.store)) waiting.now) }
    ensures kept { OnOk result ((n : ℕ) → IsTrue (contains nat_eq names.old n) → IsTrue (contains nat_eq names.new n)) }
{
    for waits in waiting {
        add(waits.store, names)?;
    }
    Ok(())
}

/// Adds the store by which a reservation was lost. OutOfMemory where an allocation was refused.
fn add_of_reservation(
    reservation: Option<Reservation>,
    names: &mut HashSet<u64>,
) -> Result<(), OutOfMemory>
    ensures named { OnOk result (IfSome reservation (λ r. IfSome r.taken (λ by. IsTrue (contains nat_eq names.new by.store)))) }
    ensures kept { OnOk result ((n : ℕ) → IsTrue (contains nat_eq names.old n) → IsTrue (contains nat_eq names.new n)) }
{
    let Some(reservation) = reservation else {
        return Ok(());
    };
    match reservation.taken {
        Some(by) => add(by.store, names),
        None => Ok(()),
    }
}

/// Adds the number of a line. OutOfMemory where an allocation was refused.
fn add(line: u64, names: &mut HashSet<u64>) -> Result<(), OutOfMemory>
    ensures named { OnOk result (IsTrue (contains nat_eq names.new line)) }
    ensures kept { OnOk result ((n : ℕ) → IsTrue (contains nat_eq names.old n) → IsTrue (contains nat_eq names.new n)) }
{
    names.insert(line)?;
    Ok(())
}
