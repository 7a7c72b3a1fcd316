ghost use Rattle.std.specs.Prelude.{◌≡◌, false, IfOk};
ghost use Rattle.tso_ops.specs.declared.settings.Order.TheVariants.{Tso};
ghost use Rattle.unit_core.specs.Units.{new_unit};
ghost use Rattle.units_for_tests.specs.Inventing.{inventing_design, inventing_unit};

use std::alloc::Global;
use std::marker::Model;
use tso_ops::{Order, OutOfMemory};
use unit_core::{History, MemoryUnit, Step};

/// What each load and each swap of an `InventingUnit` answers.
pub const INVENTED: u64 = 999_999;

/// A unit whose loads and swaps answer a number that nobody wrote. It isn't lawful. Each store is drained within its
/// call.
#[derive(Debug, Drop)]
pub struct InventingUnit {
    history: History,
}

impl Model for InventingUnit {
    ghost use Rattle.units_for_tests.specs.Inventing.{InventingValue};

    ghost Value = { InventingValue };

    ghost view = { λ u. record { steps = u.history.steps; first = u.history.first } };
}

impl InventingUnit {
    /// A unit that has taken no step, or OutOfMemory where an allocation was refused.
    pub fn new(alloc: Global) -> Result<InventingUnit, OutOfMemory>
        ensures { IfOk result (λ u. inventing_unit u ≡ new_unit inventing_design false Tso) }
    {
        Ok(InventingUnit {
            history: History::new(alloc)?,
        })
    }
}

impl MemoryUnit for InventingUnit {
    ghost value_of = { inventing_unit };

    fn load(&mut self, p: usize, a: u16) -> Result<u64, OutOfMemory> {
        self.history.append(Step::Load { p, a, r: INVENTED })?;
        Ok(INVENTED)
    }

    fn store(&mut self, p: usize, a: u16, v: u64) -> Result<(), OutOfMemory> {
        self.history.reserve(2)?;
        self.history.push_reserved(Step::Store { p, a, v });
        self.history.push_reserved(Step::Drain { p });
        Ok(())
    }

    fn swap(&mut self, p: usize, a: u16, v: u64) -> Result<u64, OutOfMemory> {
        self.history.append(Step::Swap {
            p,
            a,
            r: INVENTED,
            v,
        })?;
        Ok(INVENTED)
    }

    fn membar(&mut self, p: usize) -> Result<(), OutOfMemory> {
        self.history.append(Step::Membar { p })?;
        Ok(())
    }

    fn stbar(&mut self, p: usize) -> Result<(), OutOfMemory> {
        self.history.append(Step::Stbar { p })?;
        Ok(())
    }

    fn drain(&mut self, _p: usize) -> Result<bool, OutOfMemory> {
        Ok(false)
    }

    fn preset(&mut self, a: u16, v: u64) {
        self.history.preset(a, v);
    }

    fn waiting(&self, _p: usize) -> usize {
        0
    }

    fn steps(&self) -> &[Step] {
        self.history.steps()
    }

    fn lawful(&self) -> bool {
        false
    }

    fn order(&self) -> Order {
        Order::Tso
    }

    fn first(&self, a: u16) -> u64 {
        self.history.first(a)
    }
}
