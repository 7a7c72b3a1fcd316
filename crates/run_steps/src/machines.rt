//! The machine: what each line does to memory and to the stores that wait, and whether it is a step.
ghost use Rattle.std.specs.Prelude.{◌≡◌, ◌++◌, ◌∷◌, [], ◌<◌, Some, None, Option, map, length, IfOk, OnOk};
ghost use Rattle.run_steps.specs.Places.{cell_parts};
ghost use Rattle.run_steps.specs.Reads.{filled, refusal_of, written_in};
ghost use Rattle.run_steps.specs.declared.cells.Written.TheVariants.{First, Unknown};

use crate::blocks::MemoryCells;
use crate::cells::Written;
use crate::places::Place;
use crate::processors::{
    Processor, Reservation, Taken, WaitingStore, add_waiting, grow, take_reservations,
};
use std::alloc::Global;
use std::mem;
use tso_ops::{Order, OutOfMemory};

/// The machine of a memory model: memory, byte by byte or location by location, and the stores that wait before it.
#[derive(Drop)]
pub struct Machine {
    pub(crate) order: Order,
    pub(crate) memory: MemoryCells,
    /// What there is of processors 0, 1, ..
    pub(crate) processors: Vec<Processor>,
}

impl Machine {
    ghost use Rattle.run_steps.specs.Machine.{admitted, state_after_line, beginning_state, draining, emptied, forgetting, model_of, presetting, processor_in, reaching, state_of_machine, storing, waits_of, with_processor, with_reserved, with_store};

    /// A machine before the first line of a run: memory holds 0.
    pub fn new(alloc: Global, order: Order) -> Machine
        ensures begins { state_of_machine result ≡ beginning_state }
        ensures model { model_of result ≡ order }
    {
        Machine {
            order,
            memory: MemoryCells::new(alloc),
            processors: Vec::new(alloc),
        }
    }

    /// The memory model from here on.
    pub fn set_model(&mut self, order: Order)
        ensures model { model_of self.new ≡ order }
        ensures state { state_of_machine self.new ≡ state_of_machine self.old }
    {
        self.order = order;
    }

    /// Gives a place a first value. OutOfMemory where an allocation was refused.
    pub fn preset(&mut self, place: Place, value: u64) -> Result<(), OutOfMemory>
        ensures state { OnOk result (state_of_machine self.new ≡ presetting place value (state_of_machine self.old)) }
        ensures others { (model_of self.new ≡ model_of self.old) × ((state_of_machine self.new).processors ≡ (state_of_machine self.old).processors) }
    {
        self.memory.fill(place, value, Written::First)
    }

    /// Makes a place for processor `p`. OutOfMemory where an allocation was refused.
    pub(crate) fn admit(&mut self, alloc: Global, p: usize) -> Result<(), OutOfMemory>
        requires { p < 4096 }
        ensures state { OnOk result (state_of_machine self.new ≡ admitted p (state_of_machine self.old)) }
        ensures there { OnOk result (p < length self.new.processors.items) }
        ensures model { model_of self.new ≡ model_of self.old }
    {
        grow(alloc, &mut self.processors, p)
    }

    /// A store of processor `p` waits. OutOfMemory where an allocation was refused.
    pub(crate) fn enter(
        &mut self,
        line: u64,
        p: usize,
        place: Place,
        value: u64,
    ) -> Result<(), OutOfMemory>
        requires { p < length self.old.processors.items }
        ensures state { OnOk result (state_of_machine self.new ≡ with_processor (state_of_machine self.old) p
            (with_store line place value (processor_in (state_of_machine self.old) p))) }
        ensures model { model_of self.new ≡ model_of self.old }
    {
        add_waiting(&mut self.processors[p], line, place, value)
    }

    /// A store of processor `p` reaches memory at a line. OutOfMemory where an allocation was refused.
    fn reach(&mut self, line: u64, p: usize, store: WaitingStore) -> Result<(), OutOfMemory>
        ensures state { OnOk result (state_of_machine self.new ≡ reaching line p store (state_of_machine self.old)) }
        ensures kept { length self.new.processors.items ≡ length self.old.processors.items }
        ensures model { model_of self.new ≡ model_of self.old }
    {
        let written = Written::Stored {
            store: store.store,
            reached: line,
        };
        self.memory.fill(store.place, store.value, written)?;
        let by = Taken {
            store: store.store,
            reached: line,
        };
        take_reservations(&mut self.processors, p, store.place, by);
        Ok(())
    }

    /// The stores of processor `p` that wait reach memory at a line. OutOfMemory where an allocation was refused.
    pub(crate) fn empty_buffer(
        &mut self,
        alloc: Global,
        line: u64,
        p: usize,
    ) -> Result<(), OutOfMemory>
        requires { p < length self.old.processors.items }
        ensures state { OnOk result (state_of_machine self.new ≡ emptied line p (state_of_machine self.old)) }
        ensures kept { length self.new.processors.items ≡ length self.old.processors.items }
        ensures model { model_of self.new ≡ model_of self.old }
    {
        if self.processors[p].waiting.is_empty() {
            return Ok(());
        }
        let waiting = mem::replace(&mut self.processors[p].waiting, Vec::new(alloc));
        for store in &waiting {
            self.reach(line, p, *store)?;
        }
        Ok(())
    }

    /// The reservation of processor `p` from here on.
    pub(crate) fn reserve(&mut self, p: usize, reservation: Option<Reservation>)
        requires { p < length self.old.processors.items }
        ensures state { state_of_machine self.new ≡ with_reserved (state_of_machine self.old) p reservation }
        ensures model { model_of self.new ≡ model_of self.old }
    {
        self.processors[p].reservation = reservation;
    }

    /// An STBAR of processor `p`.
    pub(crate) fn separate(&mut self, line: u64, p: usize)
        requires { p < length self.old.processors.items }
        ensures state { state_of_machine self.new ≡ with_processor (state_of_machine self.old) p
            (record (processor_in (state_of_machine self.old) p) { stbar = line }) }
        ensures model { model_of self.new ≡ model_of self.old }
    {
        self.processors[p].stbar = line;
    }

    /// Something else changes a place. OutOfMemory where an allocation was refused.
    pub(crate) fn forget(&mut self, place: Place) -> Result<(), OutOfMemory>
        ensures state { OnOk result (state_of_machine self.new ≡ forgetting place (state_of_machine self.old)) }
        ensures model { model_of self.new ≡ model_of self.old }
    {
        self.memory.fill(place, 0, Written::Unknown)
    }

    /// A store of processor `p` reaches memory at its own line, after all of its stores that wait. OutOfMemory where an allocation was
    /// refused.
    pub(crate) fn write(
        &mut self,
        alloc: Global,
        line: u64,
        p: usize,
        place: Place,
        value: u64,
    ) -> Result<(), OutOfMemory>
        requires { p < length self.old.processors.items }
        ensures state { OnOk result (state_of_machine self.new ≡ storing line p place value (emptied line p (state_of_machine self.old))) }
        ensures kept { length self.new.processors.items ≡ length self.old.processors.items }
        ensures model { model_of self.new ≡ model_of self.old }
    {
        self.empty_buffer(alloc, line, p)?;
        self.store_at(line, p, place, value)
    }

    /// A store of processor `p` reaches memory at its own line. OutOfMemory where an allocation was refused.
    pub(crate) fn store_at(
        &mut self,
        line: u64,
        p: usize,
        place: Place,
        value: u64,
    ) -> Result<(), OutOfMemory>
        ensures state { OnOk result (state_of_machine self.new ≡ storing line p place value (state_of_machine self.old)) }
        ensures kept { length self.new.processors.items ≡ length self.old.processors.items }
        ensures model { model_of self.new ≡ model_of self.old }
    {
        let store = WaitingStore {
            store: line,
            place,
            value,
            stbar: 0,
        };
        self.reach(line, p, store)
    }

    /// The store of processor `p` that waits at a number of its buffer reaches memory. OutOfMemory where an allocation was refused.
    pub(crate) fn drain(&mut self, line: u64, p: usize, number: usize) -> Result<(), OutOfMemory>
        requires admitted { p < length self.old.processors.items }
        requires waits { number < length (waits_of (state_of_machine self.old) p) }
        ensures state { OnOk result (state_of_machine self.new ≡ draining line p number (state_of_machine self.old)) }
        ensures model { model_of self.new ≡ model_of self.old }
    {
        let store = self.processors[p].waiting.remove(number);
        self.reach(line, p, store)
    }
}
