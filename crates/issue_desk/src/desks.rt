ghost use Rattle.std.specs.Prelude.{◌≡◌, ◌<◌, [], true, IfOk, IfErr};
ghost use Rattle.issue_desk.specs.Desks.{AnswersIssue, DrainsUnit, IsDesk, IsNewDesk};
ghost use Rattle.issue_desk.specs.Finishing.{ArePassesOf, Finishes};

use crate::agreement::compare;
use crate::faults::RunFault;
use crate::passes::Pass;
use std::alloc::Global;
use std::marker::Model;
use tso_ops::{OutOfMemory, Program};
use unit_core::{Account, MemoryUnit, Recorded, conclude_over, preset_all};

/// A program and the unit on which it is run, operation by operation: what the threads of a run share, under one lock.
///
/// Whoever gets the lock finds that the unit's steps without drains are, on each processor, the first operations of the
/// program, each once, in order; and where the unit is lawful, that its steps are a run of its machine.
#[derive(Drop)]
pub struct Desk<U: MemoryUnit> {
    program: Program,
    unit: U,
    /// How many operations of each processor were issued.
    issued: Vec<usize>,
}

impl<U: MemoryUnit> Model for Desk<U> {
    ghost use Rattle.issue_desk.specs.Desks.{DeskValue, IsDesk};
    ghost use Rattle.issue_desk.specs.Internal.Issued.{CountsIssued};

    ghost Value = { DeskValue };

    ghost view = { λ d. record { program = d.program; unit = U.value_of d.unit } };

    ghost invariant = { λ d. IsDesk (record { program = d.program; unit = U.value_of d.unit }) ×
        CountsIssued (record { program = d.program; unit = U.value_of d.unit }) d.issued.items };
}

impl<U: MemoryUnit> Desk<U> {
    /// The desk of a program and of a unit that has taken no step: it gets the program's first values. OutOfMemory where
    /// an allocation was refused; the unit is then ended, and the program dropped.
    pub fn new(alloc: Global, program: Program, unit: U) -> Result<Desk<U>, OutOfMemory>
        requires { (U.value_of unit).steps ≡ [] }
        ensures { IfOk result (λ desk. IsNewDesk program (U.value_of unit) desk) }
    {
        let issued = vec![in alloc; 0; program.processors()]?;
        let mut unit = unit;
        preset_all(&mut unit, &program);
        // the unit's law, which the desk keeps
        let _steps = unit.steps();
        Ok(Desk {
            program,
            unit,
            issued,
        })
    }

    /// Issues the next operation of the pass's processor, and appends to the pass what it was answered. False, with nothing
    /// changed, where none is left or the program doesn't have the processor. OutOfMemory, with desk and pass as they were,
    /// where the unit answered it or an allocation was refused.
    pub fn issue(&mut self, pass: &mut Pass) -> Result<bool, OutOfMemory>
        ensures issued { IfOk result (AnswersIssue self.old self.new pass.old pass.new) }
        ensures desk { IfErr result (λ _. self.new ≡ self.old) }
        ensures pass { IfErr result (λ _. pass.new ≡ pass.old) }
        ensures kept { IsDesk self.new }
    {
        let p = pass.processor();
        if p >= self.program.processors() {
            return Ok(false);
        }
        let ops = self.program.ops(p);
        let next = self.issued[p];
        if next >= ops.len() {
            return Ok(false);
        }
        pass.perform(&mut self.unit, ops[next])?;
        self.issued[p] = next + 1;
        let _steps = self.unit.steps();
        Ok(true)
    }

    /// Drains one entry of processor `p`, from 0 to 15, or answers false where none waits. OutOfMemory, with the desk as it
    /// was, where the unit answered it.
    pub fn drain(&mut self, p: usize) -> Result<bool, OutOfMemory>
        requires { p < 16 }
        ensures drained { IfOk result (DrainsUnit self.old self.new p) }
        ensures refused { IfErr result (λ _. self.new ≡ self.old) }
        ensures kept { IsDesk self.new }
    {
        let drained = self.unit.drain(p)?;
        let _steps = self.unit.steps();
        Ok(drained)
    }

    /// Ends the unit, and gives the record of the run, whose passes are one per processor of `program`, in order.
    ///
    /// Torn with the least processor whose pass, steps on the unit and operations in `program` don't agree; or else
    /// OtherProgram where the desk's program isn't an equal one. Else the buffers are drained and the run is recorded as by
    /// `conclude`, or OutOfMemory where the unit answered it or an allocation was refused. On every return the unit is
    /// ended, and the account is closed with the numbers of all its steps.
    pub fn finish(
        self,
        alloc: Global,
        program: &Program,
        passes: &[Pass],
        account: &mut Account,
    ) -> Result<Recorded, RunFault>
        requires { ArePassesOf program.now passes.now }
        ensures { Finishes self program.now passes.now account.new result }
    {
        let Desk {
            program: own,
            unit,
            ..
        } = self;
        if let Err(fault) = compare(&own, unit.steps(), program, passes) {
            *account = Account::of_steps(unit.steps());
            return Err(fault);
        }
        Ok(conclude_over(alloc, program, unit, account)?)
    }

    /// Ends the unit of a run that gave no passes, and closes the account with the numbers of its steps.
    pub(crate) fn end(self, account: &mut Account)
        ensures { account.new.closed ≡ true }
    {
        *account = Account::of_steps(self.unit.steps());
    }
}
