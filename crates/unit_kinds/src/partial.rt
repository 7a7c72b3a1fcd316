//! The unit of partial store order: a store buffer for each address.
ghost use Rattle.std.specs.Prelude.{◌≡◌, ◌+◌, ◌<◌, ◌≤◌, [], ◌∷◌, ◌++◌, IfOk, IfErr, length, true};
ghost use Rattle.tso_ops.specs.declared.settings.Order.TheVariants.{Pso};
ghost use Rattle.unit_core.specs.Machine.{buffer_of};
ghost use Rattle.unit_core.specs.declared.steps.Step.TheVariants.{Store, Load, Swap, Membar, Stbar};
ghost use Rattle.unit_core.specs.Units.{AnswersDrain, Takes, new_unit, waiting_of};
ghost use Rattle.unit_kinds.specs.Buffer.{drains_for_store, new_store_buffer};
ghost use Rattle.unit_kinds.specs.Internal.Partial.{TakesNextDrains};
ghost use Rattle.unit_kinds.specs.Partial.{DrainsAndTakes, DrainsNext, partial_design, partial_unit};

use crate::partial_buffers::PartialBuffers;
use std::alloc::Global;
use std::marker::Model;
use tso_ops::{Order, OutOfMemory};
use unit_core::{History, MemoryUnit, Step};

/// A lawful unit of PSO with a store buffer for each processor, all of one capacity, whose entries leave out of order where
/// PSO allows it (SPARC V8 manual, chapter 6 and appendix K).
///
/// Of the entries of a buffer with the smallest number of STBARs before them, one of the greatest address leaves first, and
/// of that address the oldest one. A store into a full buffer drains one entry first, a swap and a membar drain the own
/// buffer first; an STBAR drains nothing. Nothing else drains unasked. Only `new` and the list of the steps allocate.
#[derive(Debug, Drop)]
pub struct PartialOrderUnit {
    parts: PartialBuffers,
    history: History,
}

impl Model for PartialOrderUnit {
    ghost use Rattle.unit_kinds.specs.Internal.Partial.{IsPartialUnit};
    ghost use Rattle.unit_kinds.specs.Buffer.{StoreBufferValue};

    ghost Value = { StoreBufferValue };

    ghost view = { λ u. record { steps = u.history.steps; first = u.history.first; capacity = u.parts.capacity } };

    ghost invariant = { λ u. IsPartialUnit u.history.steps u.history.first u.parts.state };
}

impl PartialOrderUnit {
    /// A unit that has taken no step, with room for `capacity` entries in each buffer, from 1 to 64; or OutOfMemory where
    /// an allocation was refused.
    pub fn new(alloc: Global, capacity: usize) -> Result<PartialOrderUnit, OutOfMemory>
        requires least { 1 ≤ capacity }
        requires most { capacity ≤ 64 }
        ensures is { IfOk result (λ u. u ≡ new_store_buffer capacity) }
        ensures unit { IfOk result (λ u. partial_unit u ≡ new_unit (partial_design capacity) true Pso) }
    {
        Ok(PartialOrderUnit {
            parts: PartialBuffers::new(alloc, capacity)?,
            history: History::new(alloc)?,
        })
    }
}

impl MemoryUnit for PartialOrderUnit {
    ghost value_of = { partial_unit };

    fn load(&mut self, p: usize, a: u16) -> Result<u64, OutOfMemory>
        requires processor { p < 16 }
        requires address { a < 256 }
        ensures taken { IfOk result (λ r. Takes (partial_unit self.old) (partial_unit self.new) (Load p a r)) }
        ensures refused { IfErr result (λ _. self.new ≡ self.old) }
        ensures exact { IfOk result (λ r. self.new ≡ record self.old { steps = self.old.steps ++ Load p a r ∷ [] }) }
    {
        let r = self.parts.seen(p, a);
        self.history.append(Step::Load { p, a, r })?;
        Ok(r)
    }

    fn store(&mut self, p: usize, a: u16, v: u64) -> Result<(), OutOfMemory>
        requires processor { p < 16 }
        requires address { a < 256 }
        requires value { 0 < v }
        ensures taken { IfOk result (λ _. Takes (partial_unit self.old) (partial_unit self.new) (Store p a v)) }
        ensures refused { IfErr result (λ _. self.new ≡ self.old) }
        ensures exact { IfOk result (λ _. DrainsAndTakes self.old self.new p (drains_for_store self.old p) (Store p a v)) }
    {
        let drains = usize::from(self.parts.is_full(p));
        self.history.reserve(drains + 1)?;
        drain_times(&mut self.parts, &mut self.history, p, drains);
        self.parts.enter(p, a, v);
        self.history.push_reserved(Step::Store { p, a, v });
        Ok(())
    }

    fn swap(&mut self, p: usize, a: u16, v: u64) -> Result<u64, OutOfMemory>
        requires processor { p < 16 }
        requires address { a < 256 }
        requires value { 0 < v }
        ensures taken { IfOk result (λ r. Takes (partial_unit self.old) (partial_unit self.new) (Swap p a r v)) }
        ensures refused { IfErr result (λ _. self.new ≡ self.old) }
        ensures exact { IfOk result (λ r. DrainsAndTakes self.old self.new p (waiting_of (partial_unit self.old) p) (Swap p a r v)) }
    {
        let waiting = self.parts.waiting(p);
        self.history.reserve(waiting + 1)?;
        drain_times(&mut self.parts, &mut self.history, p, waiting);
        let r = self.parts.word(a);
        self.parts.write(a, v);
        self.history.push_reserved(Step::Swap { p, a, r, v });
        Ok(r)
    }

    fn membar(&mut self, p: usize) -> Result<(), OutOfMemory>
        requires processor { p < 16 }
        ensures taken { IfOk result (λ _. Takes (partial_unit self.old) (partial_unit self.new) (Membar p)) }
        ensures refused { IfErr result (λ _. self.new ≡ self.old) }
        ensures exact { IfOk result (λ _. DrainsAndTakes self.old self.new p (waiting_of (partial_unit self.old) p) (Membar p)) }
    {
        let waiting = self.parts.waiting(p);
        self.history.reserve(waiting + 1)?;
        drain_times(&mut self.parts, &mut self.history, p, waiting);
        self.history.push_reserved(Step::Membar { p });
        Ok(())
    }

    fn stbar(&mut self, p: usize) -> Result<(), OutOfMemory>
        requires processor { p < 16 }
        ensures taken { IfOk result (λ _. Takes (partial_unit self.old) (partial_unit self.new) (Stbar p)) }
        ensures refused { IfErr result (λ _. self.new ≡ self.old) }
        ensures exact { IfOk result (λ _. self.new ≡ record self.old { steps = self.old.steps ++ Stbar p ∷ [] }) }
    {
        self.history.append(Step::Stbar { p })?;
        self.parts.count_stbar(p);
        Ok(())
    }

    fn drain(&mut self, p: usize) -> Result<bool, OutOfMemory>
        requires processor { p < 16 }
        ensures drained { IfOk result (λ some. AnswersDrain (partial_unit self.old) (partial_unit self.new) p some) }
        ensures refused { IfErr result (λ _. self.new ≡ self.old) }
        ensures exact { IfOk result (λ some. DrainsNext self.old self.new p some) }
    {
        if self.parts.waiting(p) == 0 {
            return Ok(false);
        }
        self.history.reserve(1)?;
        let a = self.parts.drain_next(p);
        self.history.push_reserved(Step::DrainAt { p, a });
        Ok(true)
    }

    fn preset(&mut self, a: u16, v: u64) {
        self.history.preset(a, v);
        self.parts.write(a, v);
    }

    fn waiting(&self, p: usize) -> usize {
        self.parts.waiting(p)
    }

    fn steps(&self) -> &[Step] {
        self.history.steps()
    }

    fn lawful(&self) -> bool {
        true
    }

    fn order(&self) -> Order {
        Order::Pso
    }

    fn first(&self, a: u16) -> u64 {
        self.history.first(a)
    }
}

/// Drains so many entries of processor `p`, which wait, and appends the steps to the history, which has room for them.
fn drain_times(parts: &mut PartialBuffers, history: &mut History, p: usize, count: usize)
    requires processor { p < 16 }
    requires enough { count ≤ length (buffer_of parts.old.state p) }
    requires room { count ≤ history.old.room }
    ensures drains { TakesNextDrains p count parts.old parts.new history.old history.new }
    ensures room { history.old.room ≤ history.new.room + count }
    ensures fewer { length (buffer_of parts.new.state p) + count ≡ length (buffer_of parts.old.state p) }
{
    for _done in 0..count {
        let a = parts.drain_next(p);
        history.push_reserved(Step::DrainAt { p, a });
    }
}
