ghost use Rattle.std.specs.Prelude.{◌≡◌, ◌<◌, [], IfErr, OnOk};
ghost use Rattle.issue_desk.specs.Internal.Issued.{IsAnswered};
ghost use Rattle.unit_core.specs.Issues.{IsIssuable};

use std::alloc::Global;
use std::marker::Model;
use tso_ops::{Op, OutOfMemory, Outcome};
use unit_core::{MemoryUnit, perform};

/// The pass of one processor, from 0 to 15: all that it was answered, the first answer first.
#[derive(Debug, Drop)]
pub struct Pass {
    processor: usize,
    outcomes: Vec<Outcome>,
}

impl Model for Pass {
    ghost use Rattle.std.specs.Prelude.{◌<◌};
    ghost use Rattle.issue_desk.specs.Desks.{PassValue};

    ghost Value = { PassValue };

    ghost view = { λ p. record { processor = p.processor; outcomes = p.outcomes.items } };

    ghost invariant = { λ p. p.processor < 16 };
}

impl Pass {
    /// The pass of processor `processor`, which was answered nothing yet.
    pub fn new(alloc: Global, processor: usize) -> Pass
        requires { processor < 16 }
        ensures { result ≡ record { processor = processor; outcomes = [] } }
    {
        Pass {
            processor,
            outcomes: Vec::new(alloc),
        }
    }

    /// Whose pass it is.
    pub fn processor(&self) -> usize
        ensures is { result ≡ self.now.processor }
        ensures kept { self.now.processor < 16 }
    {
        self.processor
    }

    /// What the processor was answered.
    pub fn outcomes(&self) -> &[Outcome]
        ensures { result.now ≡ self.now.outcomes }
    {
        &self.outcomes
    }

    /// Makes the processor take an operation on the unit, and appends what it was answered. OutOfMemory, with unit and
    /// pass as they were, where the unit answered it or an allocation was refused.
    pub(crate) fn perform<U: MemoryUnit>(&mut self, unit: &mut U, op: Op) -> Result<(), OutOfMemory>
        requires { IsIssuable op }
        ensures answered { OnOk result (IsAnswered (U.value_of unit.old) (U.value_of unit.new) self.old self.new op) }
        ensures unit { IfErr result (λ _. U.value_of unit.new ≡ U.value_of unit.old) }
        ensures pass { IfErr result (λ _. self.new ≡ self.old) }
    {
        self.outcomes.reserve(1)?;
        let outcome = perform(unit, self.processor, op)?;
        // the room was reserved
        let _pushed = self.outcomes.push(outcome);
        Ok(())
    }
}
