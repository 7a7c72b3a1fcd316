ghost use Rattle.std.specs.Prelude.{◌≡◌, ◌≤◌, [], IfOk};
ghost use Rattle.issue_desk.specs.Running.{Runs};

use crate::desks::Desk;
use crate::faults::RunFault;
use crate::gates::Gate;
use crate::issuers::Issuers;
use crate::run_desks::{RunDesign, RunDesk};
use crate::run_threads::{RunThreads, passes_in_threads};
use std::alloc::Global;
use std::marker::Brand;
use std::sync::{Mutex, Wait};
use std::thread::Threads;
use tso_ops::{OutOfMemory, Program};
use unit_core::{Account, MemoryUnit, Recorded, is_lawful_under};

/// Runs a program on a unit by a thread per processor, ends the unit, and gives the record of its run.
///
/// The caller hands in a unit that has taken no step. It gets the program's first values. The issuer of each processor
/// issues its operations in order, one at a time under one lock; it passes the gate before each, outside the lock. After
/// each operation it draws a word of its own generator, PCG64 seeded by the sum of the drain seed and its processor modulo
/// 2^64, and drains its buffer up to that word modulo 3 times, each under a lock of its own taking, stopping where nothing
/// waits. Once all are joined the record is made as by `Desk::finish`.
///
/// OutOfMemory where the unit answered it or an allocation was refused; else NoThread where the system refused a thread;
/// else Torn or OtherProgram as by `Desk::finish`, and OtherProgram also where the record isn't as lawful as the unit that
/// was handed in. On every return all threads are joined, the unit is ended and the account is closed. It may wait.
pub fn run<R: Threads + Wait + Sync, G: Gate + Sync>(
    rt: &R,
    alloc: Global,
    program: &Program,
    unit: Box<dyn MemoryUnit + Send>,
    issuers: Issuers<'_, G>,
    account: &mut Account,
) -> Result<Recorded, RunFault>
    requires { (value_of unit).steps ≡ [] }
    ensures { Runs program.now (value_of unit) account.new result }
{
    run_with_drainer(rt, alloc, program, unit, without_drainer(issuers), account)
}

/// `run` for a unit of any type.
pub fn run_over<U: MemoryUnit + Send, R: Threads + Wait + Sync, G: Gate + Sync>(
    rt: &R,
    alloc: Global,
    program: &Program,
    unit: U,
    issuers: Issuers<'_, G>,
    account: &mut Account,
) -> Result<Recorded, RunFault>
    requires { (U.value_of unit).steps ≡ [] }
    ensures { Runs program.now (U.value_of unit) account.new result }
{
    run_with_drainer_over(rt, alloc, program, unit, without_drainer(issuers), account)
}

/// Runs a program as by `run`, with a drainer beside the issuers, in a thread of its own.
///
/// The drainer takes `threads.turns` turns, from 0 to 1,000,000. On turn `t`, from 0, it drains processor `t` modulo the
/// number of the program's processors once, under a lock of its own taking, whether or not an entry waits. It is started
/// before the issuers and passes no gate. It stops at OutOfMemory, which the call then answers. With no turns or no
/// processors it isn't started.
///
/// OutOfMemory where the unit answered it, to whichever thread, or an allocation was refused; else NoThread where the system
/// refused a thread, that of the drainer too; else Torn or OtherProgram as by `run`. On every return all threads are joined,
/// the unit is ended and the account is closed. It may wait.
pub fn run_with_drainer<R: Threads + Wait + Sync, G: Gate + Sync>(
    rt: &R,
    alloc: Global,
    program: &Program,
    unit: Box<dyn MemoryUnit + Send>,
    threads: RunThreads<'_, G>,
    account: &mut Account,
) -> Result<Recorded, RunFault>
    requires untouched { (value_of unit).steps ≡ [] }
    requires turns { threads.turns ≤ 1000000 }
    ensures { Runs program.now (value_of unit) account.new result }
{
    run_with_drainer_over(rt, alloc, program, unit, threads, account)
}

/// `run_with_drainer` for a unit of any type.
pub fn run_with_drainer_over<U: MemoryUnit + Send, R: Threads + Wait + Sync, G: Gate + Sync>(
    rt: &R,
    alloc: Global,
    program: &Program,
    unit: U,
    threads: RunThreads<'_, G>,
    account: &mut Account,
) -> Result<Recorded, RunFault>
    requires untouched { (U.value_of unit).steps ≡ [] }
    requires turns { threads.turns ≤ 1000000 }
    ensures { Runs program.now (U.value_of unit) account.new result }
{
    run_of::<Brand, U, R, G>(rt, alloc, program, unit, threads, account)
}

/// The threads of a run without a drainer.
fn without_drainer<G>(issuers: Issuers<'_, G>) -> RunThreads<'_, G>
    ensures { result.turns ≡ 0 }
{
    RunThreads { issuers, turns: 0 }
}

/// `run_with_drainer_over` for a unit of this design.
fn run_of<D: RunDesign + Send, U: MemoryUnit + Send, R: Threads + Wait + Sync, G: Gate + Sync>(
    rt: &R,
    alloc: Global,
    program: &Program,
    unit: U,
    threads: RunThreads<'_, G>,
    account: &mut Account,
) -> Result<Recorded, RunFault>
    requires untouched { (U.value_of unit).steps ≡ [] }
    requires design { (U.value_of unit).design ≡ D.design }
    requires turns { threads.turns ≤ 1000000 }
    ensures { Runs program.now (U.value_of unit) account.new result }
{
    // the account of a unit that takes no step, where the desk is refused memory
    *account = Account::of_steps(&[]);
    let lawful = is_lawful_under(&unit, program.order());
    let desk: RunDesk<D, U> = RunDesk::new(open_desk(alloc, program, unit)?);
    let desk = Mutex::new(desk);
    let passes = passes_in_threads(rt, alloc, &desk, threads, program.processors());
    let desk = desk.into_inner().into_desk();
    let passes = match passes {
        Ok(passes) => passes,
        Err(fault) => {
            desk.end(account);
            return Err(fault);
        }
    };
    let record = desk.finish(alloc, program, &passes, account)?;
    if record.lawful() == lawful {
        Ok(record)
    } else {
        Err(RunFault::OtherProgram)
    }
}

/// The desk of an equal program and the unit.
fn open_desk<U: MemoryUnit>(
    alloc: Global,
    program: &Program,
    unit: U,
) -> Result<Desk<U>, OutOfMemory>
    requires { (U.value_of unit).steps ≡ [] }
    ensures { IfOk result (λ desk. desk.unit.design ≡ (U.value_of unit).design) }
{
    let own = program.copy()?;
    Desk::new(alloc, own, unit)
}
