//! The store-buffer unit, under TSO.
ghost use Rattle.std.specs.Prelude.{◌≡◌, ◌<◌, ◌≤◌, [], ◌∷◌, ◌++◌, IfOk, IfErr, cond, replicate, true};
ghost use Rattle.tso_ops.specs.declared.settings.Order.TheVariants.{Tso};
ghost use Rattle.unit_core.specs.declared.steps.Step.TheVariants.{Store, Drain, Load, Swap, Membar, Stbar};
ghost use Rattle.unit_core.specs.Units.{AnswersDrain, Takes, new_unit, waiting_of};
ghost use Rattle.unit_kinds.specs.Buffer.{after_drains_and, drains_for_store, new_store_buffer, store_buffer_design, store_buffer_unit};

use crate::draining::drain_times;
use std::alloc::Global;
use std::marker::Model;
use store_buffers::Buffers;
use tso_ops::{Order, OutOfMemory};
use unit_core::{History, MemoryUnit, Step};

/// A lawful unit of TSO with a store buffer for each processor, all of one capacity.
///
/// A store into a full buffer drains the oldest entry first, a swap and a membar drain the own buffer first. Nothing else
/// drains unasked. Only `new` and the list of the steps allocate.
#[derive(Debug, Drop)]
pub struct StoreBufferUnit {
    parts: Buffers,
    history: History,
}

impl Model for StoreBufferUnit {
    ghost use Rattle.unit_kinds.specs.Internal.Buffer.{IsStoreBufferUnit};
    ghost use Rattle.unit_kinds.specs.Buffer.{StoreBufferValue};

    ghost Value = { StoreBufferValue };

    ghost view = { λ u. record { steps = u.history.steps; first = u.history.first; capacity = u.parts.capacity } };

    ghost invariant = { λ u. IsStoreBufferUnit u.history.steps u.history.first u.parts };
}

impl StoreBufferUnit {
    /// A unit that has taken no step, with room for `capacity` entries in each buffer, from 1 to 64; or OutOfMemory where
    /// an allocation was refused.
    pub fn new(alloc: Global, capacity: usize) -> Result<StoreBufferUnit, OutOfMemory>
        requires least { 1 ≤ capacity }
        requires most { capacity ≤ 64 }
        ensures is { IfOk result (λ u. u ≡ new_store_buffer capacity) }
        ensures unit { IfOk result (λ u. store_buffer_unit u ≡ new_unit (store_buffer_design capacity) true Tso) }
    {
        Ok(StoreBufferUnit {
            parts: Buffers::new(alloc, capacity)?,
            history: History::new(alloc)?,
        })
    }
}

impl MemoryUnit for StoreBufferUnit {
    ghost value_of = { store_buffer_unit };

    fn load(&mut self, p: usize, a: u16) -> Result<u64, OutOfMemory>
        requires processor { p < 16 }
        requires address { a < 256 }
        ensures taken { IfOk result (λ r. Takes (store_buffer_unit self.old) (store_buffer_unit self.new) (Load p a r)) }
        ensures refused { IfErr result (λ _. self.new ≡ self.old) }
        ensures exact { IfOk result (λ r. self.new ≡ record self.old { steps = self.old.steps ++ Load p a r ∷ [] }) }
    {
        let word = self.parts.word(a);
        let r = self.parts.newest(p, a).unwrap_or(word);
        self.history.append(Step::Load { p, a, r })?;
        Ok(r)
    }

    fn store(&mut self, p: usize, a: u16, v: u64) -> Result<(), OutOfMemory>
        requires processor { p < 16 }
        requires address { a < 256 }
        requires value { 0 < v }
        ensures taken { IfOk result (λ _. Takes (store_buffer_unit self.old) (store_buffer_unit self.new) (Store p a v)) }
        ensures refused { IfErr result (λ _. self.new ≡ self.old) }
        ensures exact { IfOk result (λ _. self.new ≡ after_drains_and self.old p (drains_for_store self.old p) (Store p a v)) }
    {
        let drains = usize::from(self.parts.is_full(p));
        self.history.reserve(drains + 1)?;
        drain_times(&mut self.parts, p, drains);
        self.parts.enter(p, a, v);
        self.history
            .push_after_drains(p, drains, Step::Store { p, a, v });
        Ok(())
    }

    fn swap(&mut self, p: usize, a: u16, v: u64) -> Result<u64, OutOfMemory>
        requires processor { p < 16 }
        requires address { a < 256 }
        requires value { 0 < v }
        ensures taken { IfOk result (λ r. Takes (store_buffer_unit self.old) (store_buffer_unit self.new) (Swap p a r v)) }
        ensures refused { IfErr result (λ _. self.new ≡ self.old) }
        ensures exact { IfOk result (λ r. self.new ≡ after_drains_and self.old p (waiting_of (store_buffer_unit self.old) p) (Swap p a r v)) }
    {
        let waiting = self.parts.waiting(p);
        self.history.reserve(waiting + 1)?;
        drain_times(&mut self.parts, p, waiting);
        let r = self.parts.word(a);
        self.parts.write(a, v);
        self.history
            .push_after_drains(p, waiting, Step::Swap { p, a, r, v });
        Ok(r)
    }

    fn membar(&mut self, p: usize) -> Result<(), OutOfMemory>
        requires processor { p < 16 }
        ensures taken { IfOk result (λ _. Takes (store_buffer_unit self.old) (store_buffer_unit self.new) (Membar p)) }
        ensures refused { IfErr result (λ _. self.new ≡ self.old) }
        ensures exact { IfOk result (λ _. self.new ≡ after_drains_and self.old p (waiting_of (store_buffer_unit self.old) p) (Membar p)) }
    {
        let drains = self.parts.waiting(p);
        self.history.reserve(drains + 1)?;
        drain_times(&mut self.parts, p, drains);
        self.history
            .push_after_drains(p, drains, Step::Membar { p });
        Ok(())
    }

    fn stbar(&mut self, p: usize) -> Result<(), OutOfMemory>
        requires processor { p < 16 }
        ensures taken { IfOk result (λ _. Takes (store_buffer_unit self.old) (store_buffer_unit self.new) (Stbar p)) }
        ensures refused { IfErr result (λ _. self.new ≡ self.old) }
        ensures exact { IfOk result (λ _. self.new ≡ record self.old { steps = self.old.steps ++ Stbar p ∷ [] }) }
    {
        self.history.append(Step::Stbar { p })?;
        Ok(())
    }

    fn drain(&mut self, p: usize) -> Result<bool, OutOfMemory>
        requires processor { p < 16 }
        ensures drained { IfOk result (λ some. AnswersDrain (store_buffer_unit self.old) (store_buffer_unit self.new) p some) }
        ensures refused { IfErr result (λ _. self.new ≡ self.old) }
        ensures exact { IfOk result (λ some. self.new ≡ record self.old { steps = self.old.steps ++ replicate (cond some 1 0) (Drain p) }) }
    {
        if self.parts.waiting(p) == 0 {
            return Ok(false);
        }
        self.history.append(Step::Drain { p })?;
        self.parts.drain_oldest(p);
        Ok(true)
    }

    fn preset(&mut self, a: u16, v: u64) {
        self.history.preset(a, v);
        self.parts.write(a, v);
    }

    fn waiting(&self, p: usize) -> usize {
        self.parts.waiting(p)
    }

    fn steps(&self) -> &[Step] {
        self.history.steps()
    }

    fn lawful(&self) -> bool {
        true
    }

    fn order(&self) -> Order {
        Order::Tso
    }

    fn first(&self, a: u16) -> u64 {
        self.history.first(a)
    }
}
