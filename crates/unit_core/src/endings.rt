ghost use Rattle.std.specs.Prelude.{◌≡◌, ◌<◌, ◌≤◌, suc, OnOk, IfOk, length};
ghost use Rattle.unit_core.specs.Machine.{IsFirstMemory};
ghost use Rattle.unit_core.specs.Records.{AreOpsOf, Concludes, EmptiesBelow, IsRecordOf, IsRecorded};
ghost use Rattle.unit_core.specs.Units.{TakesDrains, IsUnit, waiting_of};

use crate::accounts::Account;
use crate::records::{Recorded, record};
use crate::units::MemoryUnit;
use std::alloc::Global;
use tso_ops::{OutOfMemory, Program};

/// Ends the unit on which the program was run, and gives the record of its run.
///
/// The caller sees to it that the unit's steps are the program's operations, all, and that the unit has the program's
/// first values. First the buffer of each processor of the program is drained, in order, until it is empty. On every
/// return the unit is ended, and the account is closed with the numbers of all its steps. OutOfMemory where the unit
/// answered it or an allocation was refused.
pub fn conclude(
    alloc: Global,
    program: &Program,
    unit: Box<dyn MemoryUnit + Send>,
    account: &mut Account,
) -> Result<Recorded, OutOfMemory>
    requires ops { AreOpsOf program.now (value_of unit).steps }
    requires first { IsFirstMemory program.now.setting.first (value_of unit).first }
    ensures { Concludes program.now (value_of unit) account.new result }
{
    conclude_over(alloc, program, unit, account)
}

/// `conclude` for a unit of any type.
pub fn conclude_over<U: MemoryUnit>(
    alloc: Global,
    program: &Program,
    unit: U,
    account: &mut Account,
) -> Result<Recorded, OutOfMemory>
    requires ops { AreOpsOf program.now (U.value_of unit).steps }
    requires first { IsFirstMemory program.now.setting.first (U.value_of unit).first }
    ensures { Concludes program.now (U.value_of unit) account.new result }
{
    let mut unit = unit;
    let answer = drain_and_record(alloc, program, &mut unit);
    *account = Account::of_steps(unit.steps());
    answer
}

/// Drains the unit and records its run.
pub(crate) fn drain_and_record<U: MemoryUnit>(
    alloc: Global,
    program: &Program,
    unit: &mut U,
) -> Result<Recorded, OutOfMemory>
    requires ops { AreOpsOf program.now (U.value_of unit.old).steps }
    requires first { IsFirstMemory program.now.setting.first (U.value_of unit.old).first }
    ensures drained { TakesDrains (U.value_of unit.old) (U.value_of unit.new) 0 (length program.now.lists) }
    ensures recorded { IfOk result (IsRecordOf program.now (U.value_of unit.new)) }
    ensures kept { IfOk result IsRecorded }
    ensures empty { OnOk result (EmptiesBelow (U.value_of unit.new) (length program.now.lists)) }
    ensures unit { OnOk result (IsUnit (U.value_of unit.new)) }
{
    drain_all(unit, program.processors())?;
    let _steps = unit.steps();
    record(alloc, program, unit)
}

/// Drains the buffers of the first processors, so many, in order.
fn drain_all<U: MemoryUnit>(unit: &mut U, processors: usize) -> Result<(), OutOfMemory>
    requires { processors ≤ 16 }
    ensures drained { TakesDrains (U.value_of unit.old) (U.value_of unit.new) 0 processors }
    ensures empty { OnOk result (EmptiesBelow (U.value_of unit.new) processors) }
{
    for p in 0..processors {
        drain_processor(unit, p)?;
    }
    Ok(())
}

/// Drains the buffer of processor `p`.
fn drain_processor<U: MemoryUnit>(unit: &mut U, p: usize) -> Result<(), OutOfMemory>
    requires { p < 16 }
    ensures drained { TakesDrains (U.value_of unit.old) (U.value_of unit.new) p (suc p) }
    ensures empty { OnOk result (waiting_of (U.value_of unit.new) p ≡ 0) }
    ensures kept { OnOk result (IsUnit (U.value_of unit.new)) }
{
    while unit.drain(p)? {}
    let _steps = unit.steps();
    Ok(())
}
