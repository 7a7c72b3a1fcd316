//! The serial unit, without store buffers.
ghost use Rattle.std.specs.Prelude.{◌≡◌, ◌<◌, [], ◌∷◌, ◌++◌, true, IfOk, IfErr};
ghost use Rattle.unit_core.specs.declared.steps.Step.TheVariants.{Store, Drain, Load, Swap, Membar, Stbar};
ghost use Rattle.unit_core.specs.Units.{Takes};
ghost use Rattle.unit_kinds.specs.Serial.{new_serial, serial_unit};

use std::alloc::Global;
use std::marker::Model;
use tso_ops::{Order, OutOfMemory};
use unit_core::{History, MemoryUnit, Step};

/// A lawful unit of TSO that drains each store within its call: no entry waits between two calls.
#[derive(Debug, Drop)]
pub struct SerialUnit {
    /// The word at each address.
    memory: Vec<u64>,
    history: History,
}

impl Model for SerialUnit {
    ghost use Rattle.unit_kinds.specs.Internal.Serial.{IsSerial};
    ghost use Rattle.unit_kinds.specs.Serial.{SerialValue};

    ghost Value = { SerialValue };

    ghost view = { λ u. record { steps = u.history.steps; first = u.history.first } };

    ghost invariant = { λ u. IsSerial u.history.steps u.history.first u.memory.items };
}

impl SerialUnit {
    /// A unit that has taken no step, or OutOfMemory where an allocation was refused.
    pub fn new(alloc: Global) -> Result<SerialUnit, OutOfMemory>
        ensures { IfOk result (λ u. u ≡ new_serial) }
    {
        Ok(SerialUnit {
            memory: vec![in alloc; 0; 256]?,
            history: History::new(alloc)?,
        })
    }
}

impl MemoryUnit for SerialUnit {
    ghost value_of = { serial_unit };

    fn load(&mut self, p: usize, a: u16) -> Result<u64, OutOfMemory>
        requires processor { p < 16 }
        requires address { a < 256 }
        ensures taken { IfOk result (λ r. Takes (serial_unit self.old) (serial_unit self.new) (Load p a r)) }
        ensures refused { IfErr result (λ _. self.new ≡ self.old) }
        ensures exact { IfOk result (λ r. self.new ≡ record self.old { steps = self.old.steps ++ Load p a r ∷ [] }) }
    {
        let r = self.memory[a as usize];
        self.history.append(Step::Load { p, a, r })?;
        Ok(r)
    }

    fn store(&mut self, p: usize, a: u16, v: u64) -> Result<(), OutOfMemory>
        requires processor { p < 16 }
        requires address { a < 256 }
        requires value { 0 < v }
        ensures taken { IfOk result (λ _. Takes (serial_unit self.old) (serial_unit self.new) (Store p a v)) }
        ensures refused { IfErr result (λ _. self.new ≡ self.old) }
        ensures exact { IfOk result (λ _. self.new ≡ record self.old { steps = self.old.steps ++ (Store p a v ∷ (Drain p ∷ [])) }) }
    {
        self.history.reserve(2)?;
        self.memory[a as usize] = v;
        self.history.push_reserved(Step::Store { p, a, v });
        self.history.push_reserved(Step::Drain { p });
        Ok(())
    }

    fn swap(&mut self, p: usize, a: u16, v: u64) -> Result<u64, OutOfMemory>
        requires processor { p < 16 }
        requires address { a < 256 }
        requires value { 0 < v }
        ensures taken { IfOk result (λ r. Takes (serial_unit self.old) (serial_unit self.new) (Swap p a r v)) }
        ensures refused { IfErr result (λ _. self.new ≡ self.old) }
        ensures exact { IfOk result (λ r. self.new ≡ record self.old { steps = self.old.steps ++ Swap p a r v ∷ [] }) }
    {
        let r = self.memory[a as usize];
        self.history.append(Step::Swap { p, a, r, v })?;
        self.memory[a as usize] = v;
        Ok(r)
    }

    fn membar(&mut self, p: usize) -> Result<(), OutOfMemory>
        requires processor { p < 16 }
        ensures taken { IfOk result (λ _. Takes (serial_unit self.old) (serial_unit self.new) (Membar p)) }
        ensures refused { IfErr result (λ _. self.new ≡ self.old) }
        ensures exact { IfOk result (λ _. self.new ≡ record self.old { steps = self.old.steps ++ Membar p ∷ [] }) }
    {
        self.history.append(Step::Membar { p })?;
        Ok(())
    }

    fn stbar(&mut self, p: usize) -> Result<(), OutOfMemory>
        requires processor { p < 16 }
        ensures taken { IfOk result (λ _. Takes (serial_unit self.old) (serial_unit self.new) (Stbar p)) }
        ensures refused { IfErr result (λ _. self.new ≡ self.old) }
        ensures exact { IfOk result (λ _. self.new ≡ record self.old { steps = self.old.steps ++ Stbar p ∷ [] }) }
    {
        self.history.append(Step::Stbar { p })?;
        Ok(())
    }

    fn drain(&mut self, _p: usize) -> Result<bool, OutOfMemory> {
        Ok(false)
    }

    fn preset(&mut self, a: u16, v: u64) {
        self.history.preset(a, v);
        self.memory[a as usize] = v;
    }

    fn waiting(&self, _p: usize) -> usize {
        0
    }

    fn steps(&self) -> &[Step] {
        self.history.steps()
    }

    fn lawful(&self) -> bool {
        true
    }

    fn order(&self) -> Order {
        Order::Tso
    }

    fn first(&self, a: u16) -> u64 {
        self.history.first(a)
    }
}
