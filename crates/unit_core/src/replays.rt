ghost use Rattle.std.specs.Prelude.{◌≡◌, ℕ, ◌+◌, ◌<◌, List, [], ◌∷◌, length, get_or, set, true, IfOk, OnOk};
ghost use Rattle.tso_ops.specs.declared.acts.Act.TheVariants.{Issue, Drain};
ghost use Rattle.tso_ops.specs.Values.{list_count, ops_at};
ghost use Rattle.unit_core.specs.Internal.Replays.{FollowsActs, HasIssued, IssuesRest, left_from, rest_of};
ghost use Rattle.unit_core.specs.Machine.{IsFirstMemory};
ghost use Rattle.unit_core.specs.Records.{AreOpsOf, IsRecordOf, IsRecorded};
ghost use Rattle.unit_core.specs.Replays.{AreFirstOpsOf, Replays};
ghost use Rattle.unit_core.specs.Schedule.{BelongsTo, issues_of};
ghost use Rattle.unit_core.specs.Units.{KeepsMachine};

use crate::accounts::Account;
use crate::endings::drain_and_record;
use crate::issuing::perform;
use crate::presets::preset_all;
use crate::records::Recorded;
use crate::units::MemoryUnit;
use std::alloc::Global;
use tso_ops::{Act, OutOfMemory, Program};

/// Runs a program on a unit by a schedule, on the caller's thread, ends the unit, and gives the record of its run.
///
/// The caller hands in a unit that has taken no step. It gets the program's first values. Then each act is done in turn:
/// `Issue(p)` issues the next operation of processor `p`, `Drain(p)` drains an entry of it; nothing happens where the
/// program doesn't have the processor, or nothing is left to issue or to drain. The operations that are left are issued
/// next, processor by processor, and last the buffers are drained as by `conclude`. On every return the unit is ended,
/// and the account is closed with the numbers of all its steps. OutOfMemory where the unit answered it or an allocation
/// was refused.
pub fn replay(
    alloc: Global,
    unit: Box<dyn MemoryUnit + Send>,
    program: &Program,
    schedule: &[Act],
    account: &mut Account,
) -> Result<Recorded, OutOfMemory>
    requires { (value_of unit).steps ≡ [] }
    ensures { Replays program.now schedule.now (value_of unit) account.new result }
{
    replay_over(alloc, unit, program, schedule, account)
}

/// `replay` for a unit of any type.
pub fn replay_over<U: MemoryUnit>(
    alloc: Global,
    unit: U,
    program: &Program,
    schedule: &[Act],
    account: &mut Account,
) -> Result<Recorded, OutOfMemory>
    requires { (U.value_of unit).steps ≡ [] }
    ensures { Replays program.now schedule.now (U.value_of unit) account.new result }
{
    let mut unit = unit;
    let answer = issue_and_record(alloc, program, schedule, &mut unit);
    *account = Account::of_steps(unit.steps());
    answer
}

/// Issues the next operation of processor `p`, if the program has this processor and one is left.
fn issue_next<U: MemoryUnit>(
    unit: &mut U,
    program: &Program,
    issued: &mut [usize],
    p: usize,
) -> Result<(), OutOfMemory>
    requires { HasIssued program.now issued.old (U.value_of unit.old) }
    ensures kept { KeepsMachine (U.value_of unit.old) (U.value_of unit.new) }
    ensures issued { HasIssued program.now issued.new (U.value_of unit.new) }
    ensures follows { OnOk result (FollowsActs program.now (Issue p ∷ []) issued.old issued.new (U.value_of unit.old) (U.value_of unit.new)) }
    ensures counted { get_or issued.old p 0 < length (ops_at program.now p) → OnOk result (issued.new ≡ set issued.old p (get_or issued.old p 0 + 1)) }
{
    if p >= program.processors() {
        return Ok(());
    }
    let ops = program.ops(p);
    let next = issued[p];
    if next < ops.len() {
        perform(unit, p, ops[next])?;
        issued[p] = next + 1;
    }
    Ok(())
}

/// Drains an entry of processor `p`, if the program has this processor and one waits.
fn drain_next<U: MemoryUnit>(unit: &mut U, program: &Program, p: usize) -> Result<(), OutOfMemory>
    ensures kept { KeepsMachine (U.value_of unit.old) (U.value_of unit.new) }
    ensures issued { (issued : List ℕ) → HasIssued program.now issued (U.value_of unit.old) → HasIssued program.now issued (U.value_of unit.new) }
    ensures follows { (issued : List ℕ) → OnOk result (FollowsActs program.now (Drain p ∷ []) issued issued (U.value_of unit.old) (U.value_of unit.new)) }
{
    let _steps = unit.steps();
    if p < program.processors() {
        unit.drain(p)?;
    }
    Ok(())
}

/// Does what the act says: nothing where the program doesn't have its processor, or nothing is left to do.
fn follow<U: MemoryUnit>(
    unit: &mut U,
    program: &Program,
    issued: &mut [usize],
    act: Act,
) -> Result<(), OutOfMemory>
    requires { HasIssued program.now issued.old (U.value_of unit.old) }
    ensures kept { KeepsMachine (U.value_of unit.old) (U.value_of unit.new) }
    ensures issued { HasIssued program.now issued.new (U.value_of unit.new) }
    ensures follows { OnOk result (FollowsActs program.now (act ∷ []) issued.old issued.new (U.value_of unit.old) (U.value_of unit.new)) }
{
    match act {
        Act::Issue(p) => issue_next(unit, program, issued, p),
        Act::Drain(p) => drain_next(unit, program, p),
    }
}

/// Does what the acts say, one after the other.
fn follow_all<U: MemoryUnit>(
    unit: &mut U,
    program: &Program,
    issued: &mut [usize],
    schedule: &[Act],
) -> Result<(), OutOfMemory>
    requires { HasIssued program.now issued.old (U.value_of unit.old) }
    ensures kept { KeepsMachine (U.value_of unit.old) (U.value_of unit.new) }
    ensures issued { HasIssued program.now issued.new (U.value_of unit.new) }
    ensures follows { OnOk result (FollowsActs program.now schedule.now issued.old issued.new (U.value_of unit.old) (U.value_of unit.new)) }
{
    for act in schedule {
        follow(unit, program, issued, *act)?;
    }
    Ok(())
}

/// Issues the operations of processor `p` that are left.
fn issue_rest<U: MemoryUnit>(
    unit: &mut U,
    program: &Program,
    issued: &mut [usize],
    p: usize,
) -> Result<(), OutOfMemory>
    requires processor { p < list_count program.now }
    requires so_far { HasIssued program.now issued.old (U.value_of unit.old) }
    ensures kept { KeepsMachine (U.value_of unit.old) (U.value_of unit.new) }
    ensures issued { HasIssued program.now issued.new (U.value_of unit.new) }
    ensures all { OnOk result (IssuesRest program.now p issued.old issued.new) }
    ensures follows { OnOk result (FollowsActs program.now (rest_of program.now issued.old p) issued.old issued.new (U.value_of unit.old)
        (U.value_of unit.new)) }
{
    let _processors = program.processors();
    for _next in issued[p]..program.ops(p).len() {
        issue_next(unit, program, issued, p)?;
    }
    Ok(())
}

/// Issues all operations that are left, processor by processor.
fn issue_all<U: MemoryUnit>(
    unit: &mut U,
    program: &Program,
    issued: &mut [usize],
) -> Result<(), OutOfMemory>
    requires { HasIssued program.now issued.old (U.value_of unit.old) }
    ensures kept { KeepsMachine (U.value_of unit.old) (U.value_of unit.new) }
    ensures issued { HasIssued program.now issued.new (U.value_of unit.new) }
    ensures ops { OnOk result (AreOpsOf program.now (U.value_of unit.new).steps) }
    ensures follows { OnOk result (FollowsActs program.now (issues_of 0 (left_from 0 issued.old program.now.lists)) issued.old issued.new (U.value_of unit.old)
        (U.value_of unit.new)) }
{
    for p in 0..program.processors() {
        issue_rest(unit, program, issued, p)?;
    }
    Ok(())
}

/// Does what the schedule says, then issues the operations that are left, and records the unit's run.
fn issue_and_record<U: MemoryUnit>(
    alloc: Global,
    program: &Program,
    schedule: &[Act],
    unit: &mut U,
) -> Result<Recorded, OutOfMemory>
    requires { (U.value_of unit.old).steps ≡ [] }
    ensures design { (U.value_of unit.new).design ≡ (U.value_of unit.old).design }
    ensures lawful { (U.value_of unit.new).lawful ≡ (U.value_of unit.old).lawful }
    ensures order { (U.value_of unit.new).order ≡ (U.value_of unit.old).order }
    ensures first { IsFirstMemory program.now.setting.first (U.value_of unit.new).first }
    ensures begun { AreFirstOpsOf program.now (U.value_of unit.new).steps }
    ensures recorded { IfOk result (IsRecordOf program.now (U.value_of unit.new)) }
    ensures kept { IfOk result IsRecorded }
    ensures ops { OnOk result (AreOpsOf program.now (U.value_of unit.new).steps) }
    ensures belongs { (U.value_of unit.old).lawful ≡ true → OnOk result
        (BelongsTo (U.value_of unit.new).first program.now.lists schedule.now (U.value_of unit.new).steps) }
{
    preset_all(unit, program);
    let mut issued = [0; 16];
    follow_all(unit, program, &mut issued, schedule)?;
    issue_all(unit, program, &mut issued)?;
    drain_and_record(alloc, program, unit)
}
