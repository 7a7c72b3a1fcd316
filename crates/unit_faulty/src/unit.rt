ghost use Rattle.std.specs.Prelude.{◌≡◌, ◌<◌, ◌≤◌, [], false, IfOk, IfErr, cond, set};
ghost use Rattle.tso_ops.specs.declared.settings.Order.TheVariants.{Tso};
ghost use Rattle.unit_core.specs.declared.steps.Step.TheVariants.{Store, Drain, Load, Swap, Membar, Stbar};
ghost use Rattle.unit_core.specs.Units.{AnswersDrain, Takes, new_unit};
ghost use Rattle.unit_faulty.specs.Faulty.{after_load, after_membar, after_preset, after_store, after_swap, drain_once, faulty_design, faulty_unit, load_answer, membar_drains, new_faulty, new_faulty_state, store_drains, swap_answer, swap_drains, with_step};

use crate::memory::FaultyMemory;
use crate::occasions::Occasion;
use request_options::FaultKind;
use std::alloc::Global;
use std::marker::Model;
use tso_ops::{Order, OutOfMemory};
use unit_core::{History, MemoryUnit, Step};

/// A store-buffer unit of TSO with one deviation. It isn't lawful.
///
/// It counts the occasions of its kind from 1. The deviation acts at the occasion with the number of its trigger, and at
/// each later one; otherwise the unit does what a store-buffer unit does: a store into a full buffer drains an entry
/// first, a swap and a membar drain the own buffer first. Only `new` and the list of the steps allocate.
#[derive(Debug, Drop)]
pub struct FaultyUnit {
    memory: FaultyMemory,
    history: History,
}

impl Model for FaultyUnit {
    ghost use Rattle.unit_faulty.specs.Faulty.{FaultyValue};
    ghost use Rattle.unit_faulty.specs.Internal.Faulty.{IsFaulty};

    ghost Value = { FaultyValue };

    ghost view = { λ u. record { steps = u.history.steps; first = u.history.first; state = u.memory } };

    ghost invariant = { λ u. IsFaulty u.history.steps u.memory };
}

impl FaultyUnit {
    /// A unit of this kind that has taken no step, with room for `capacity` entries in each buffer, from 1 to 64, whose
    /// deviation acts from occasion `trigger` on, 1 or more; or OutOfMemory where an allocation was refused.
    pub fn new(
        alloc: Global,
        kind: FaultKind,
        trigger: u64,
        capacity: usize,
    ) -> Result<FaultyUnit, OutOfMemory>
        requires trigger { 1 ≤ trigger }
        requires least { 1 ≤ capacity }
        requires most { capacity ≤ 64 }
        ensures is { IfOk result (λ u. u ≡ new_faulty kind trigger capacity) }
        ensures unit { IfOk result (λ u. faulty_unit u ≡ new_unit (faulty_design (new_faulty_state kind trigger capacity)) false Tso) }
    {
        Ok(FaultyUnit {
            memory: FaultyMemory::new(alloc, kind, trigger, capacity)?,
            history: History::new(alloc)?,
        })
    }
}

impl MemoryUnit for FaultyUnit {
    ghost value_of = { faulty_unit };

    fn load(&mut self, p: usize, a: u16) -> Result<u64, OutOfMemory>
        requires processor { p < 16 }
        requires address { a < 256 }
        ensures taken { IfOk result (λ r. Takes (faulty_unit self.old) (faulty_unit self.new) (Load p a r)) }
        ensures refused { IfErr result (λ _. self.new ≡ self.old) }
        ensures answer { IfOk result (λ r. r ≡ load_answer self.old.state p a) }
        ensures exact { IfOk result (λ r. self.new ≡ with_step self.old p 0 (Load p a r) (after_load self.old.state p a)) }
    {
        self.history.reserve(1)?;
        let r = self.memory.load(p, a);
        self.history.push_reserved(Step::Load { p, a, r });
        Ok(r)
    }

    fn store(&mut self, p: usize, a: u16, v: u64) -> Result<(), OutOfMemory>
        requires processor { p < 16 }
        requires address { a < 256 }
        requires value { 0 < v }
        ensures taken { IfOk result (λ _. Takes (faulty_unit self.old) (faulty_unit self.new) (Store p a v)) }
        ensures refused { IfErr result (λ _. self.new ≡ self.old) }
        ensures exact { IfOk result (λ _. self.new ≡ with_step self.old p (store_drains self.old.state p) (Store p a v) (after_store self.old.state p a v)) }
    {
        let forced = usize::from(self.memory.is_full(p));
        self.history.reserve(forced + 1)?;
        self.memory.drain_times(p, forced);
        self.memory.enter(p, a, v);
        self.history
            .push_after_drains(p, forced, Step::Store { p, a, v });
        Ok(())
    }

    fn swap(&mut self, p: usize, a: u16, v: u64) -> Result<u64, OutOfMemory>
        requires processor { p < 16 }
        requires address { a < 256 }
        requires value { 0 < v }
        ensures taken { IfOk result (λ r. Takes (faulty_unit self.old) (faulty_unit self.new) (Swap p a r v)) }
        ensures refused { IfErr result (λ _. self.new ≡ self.old) }
        ensures answer { IfOk result (λ r. r ≡ swap_answer self.old.state p a) }
        ensures exact { IfOk result (λ r. self.new ≡ with_step self.old p (swap_drains self.old.state p) (Swap p a r v) (after_swap self.old.state p a v)) }
    {
        let waiting = self.memory.waiting(p);
        self.history.reserve(waiting + 1)?;
        self.memory.drain_times(p, waiting);
        let r = self.memory.swap(p, a, v);
        self.history
            .push_after_drains(p, waiting, Step::Swap { p, a, r, v });
        Ok(r)
    }

    fn membar(&mut self, p: usize) -> Result<(), OutOfMemory>
        requires processor { p < 16 }
        ensures taken { IfOk result (λ _. Takes (faulty_unit self.old) (faulty_unit self.new) (Membar p)) }
        ensures refused { IfErr result (λ _. self.new ≡ self.old) }
        ensures exact { IfOk result (λ _. self.new ≡ with_step self.old p (membar_drains self.old.state p) (Membar p) (after_membar self.old.state p)) }
    {
        let waiting = self.memory.waiting(p);
        self.history.reserve(waiting + 1)?;
        let deviates = self.memory.deviates(Occasion::MembarMade);
        let drains = if deviates { 0 } else { waiting };
        self.memory.drain_times(p, drains);
        self.history
            .push_after_drains(p, drains, Step::Membar { p });
        Ok(())
    }

    fn stbar(&mut self, p: usize) -> Result<(), OutOfMemory>
        requires processor { p < 16 }
        ensures taken { IfOk result (λ _. Takes (faulty_unit self.old) (faulty_unit self.new) (Stbar p)) }
        ensures refused { IfErr result (λ _. self.new ≡ self.old) }
        ensures exact { IfOk result (λ _. self.new ≡ with_step self.old p 0 (Stbar p) self.old.state) }
    {
        self.history.append(Step::Stbar { p })?;
        Ok(())
    }

    fn drain(&mut self, p: usize) -> Result<bool, OutOfMemory>
        requires processor { p < 16 }
        ensures drained { IfOk result (λ some. AnswersDrain (faulty_unit self.old) (faulty_unit self.new) p some) }
        ensures refused { IfErr result (λ _. self.new ≡ self.old) }
        ensures exact { IfOk result (λ some. self.new ≡ cond some (with_step self.old p 0 (Drain p) (drain_once self.old.state p)) self.old) }
    {
        if self.memory.waiting(p) == 0 {
            return Ok(false);
        }
        self.history.append(Step::Drain { p })?;
        self.memory.drain_once(p);
        Ok(true)
    }

    fn preset(&mut self, a: u16, v: u64)
        requires address { a < 256 }
        requires untouched { self.old.steps ≡ [] }
        ensures set { faulty_unit self.new ≡ record (faulty_unit self.old) { first = set (faulty_unit self.old).first a v } }
        ensures exact { self.new ≡ record self.old { first = set self.old.first a v; state = after_preset self.old.state a v } }
    {
        self.history.preset(a, v);
        self.memory.preset(a, v);
    }

    fn waiting(&self, p: usize) -> usize {
        self.memory.waiting(p)
    }

    fn steps(&self) -> &[Step] {
        self.history.steps()
    }

    fn lawful(&self) -> bool {
        false
    }

    fn order(&self) -> Order {
        Order::Tso
    }

    fn first(&self, a: u16) -> u64 {
        self.history.first(a)
    }
}
