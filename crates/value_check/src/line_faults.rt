//! The fault of one line of a refutation, where it is known what is in force before it.
ghost use Rattle.std.specs.Prelude.{◌≡◌, ◌↔◌, false, List, IsTrue, IfOk, MatchOption};
ghost use Rattle.tso_ops.specs.Values.{TraceValue};
ghost use Rattle.tso_ops.specs.Events.{IsLoad};
ghost use Rattle.value_evidence.specs.declared.steps.ValueStep.{ValueStep};
ghost use Rattle.value_evidence.specs.Refutations.{AreTwoLogEvents};
ghost use Rattle.value_check.specs.Internal.Known.{IsKnownBy};
ghost use Rattle.value_check.specs.Internal.InForce.{Place, IsAt};
ghost use Rattle.value_check.specs.Internal.Walks.{HasLineFault, LineHolds};

use crate::in_force::InForce;
use crate::known::Known;
use crate::refusals::ValueRefutationFault;
use std::alloc::Global;
use tso_ops::OutOfMemory;
use value_evidence::ValueRefutationLine;

impl InForce {
    /// The fault of the line with this number, if it has one. OutOfMemory where an allocation was refused.
    pub(crate) fn line_fault(
        &self,
        alloc: Global,
        number: usize,
        line: ValueRefutationLine,
    ) -> Result<Option<ValueRefutationFault>, OutOfMemory>
        ensures { IfOk result (λ fault. (t : TraceValue) (p : Place) → IsAt t self.now p →
            MatchOption fault (LineHolds t p line) (HasLineFault t p number line)) }
    {
        match line {
            ValueRefutationLine::Step(step) => {
                let holds = self.known.holds(alloc, step)?;
                Ok(refusal(holds, ValueRefutationFault::StepRefused(number)))
            },
            ValueRefutationLine::ReadCase { load, source: _ } => {
                let holds = self.known.has_load(load);
                Ok(refusal(holds, ValueRefutationFault::CaseRefused(number)))
            },
            ValueRefutationLine::BeforeCase { first, second } => {
                let holds = self.known.has_two(first, second);
                Ok(refusal(holds, ValueRefutationFault::CaseRefused(number)))
            },
            ValueRefutationLine::Else => Ok(None),
            ValueRefutationLine::End(end) => {
                let holds = self.known.ends(alloc, end, &self.aside)?;
                Ok(refusal(holds, ValueRefutationFault::EndRefused(number)))
            },
        }
    }
}

impl Known {
    /// Whether a load has this number.
    fn has_load(&self, number: usize) -> bool
        ensures { (t : TraceValue) (steps : List ValueStep) → IsKnownBy t steps self.now → IsTrue result ↔ IsLoad t number }
    {
        match self.index_of(number) {
            Some(x) => self.is_load(x),
            None => false,
        }
    }

    /// Whether these are the numbers of two events.
    fn has_two(&self, first: usize, second: usize) -> bool
        ensures { (t : TraceValue) (steps : List ValueStep) → IsKnownBy t steps self.now → IsTrue result ↔ AreTwoLogEvents t first second }
    {
        let Some(u) = self.index_of(first) else {
            return false;
        };
        let Some(v) = self.index_of(second) else {
            return false;
        };
        u != v
    }
}

/// The fault, unless the line holds.
fn refusal(holds: bool, fault: ValueRefutationFault) -> Option<ValueRefutationFault>
    ensures { MatchOption result (IsTrue holds) (λ said. (said ≡ fault) × (holds ≡ false)) }
{
    if holds { None } else { Some(fault) }
}
