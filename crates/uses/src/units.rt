//! Of the memory units, replays and runs.
ghost use Rattle.std.specs.Prelude.{◌<◌};

use issue_desk::{Issuers, OpenGate, RunFault, run};
use request_options::FaultKind;
use run_steps::{Comparison, Machine, RunLine, RunRefusal};
use std::alloc::{AllocError, Global};
use std::sync::Wait;
use std::thread::Threads;
use tso_ops::{Act, Order, OutOfMemory, Program};
use unit_core::{Account, MemoryUnit, Recorded, replay};
use unit_faulty::FaultyUnit;
use unit_kinds::StoreBufferUnit;

/// `run_steps`: what the first line of a run is refused for, and whether it compares a value.
pub fn step_first_line(
    alloc: Global,
    line: RunLine,
) -> Result<(Comparison, Vec<RunRefusal>), OutOfMemory>
    requires { line.processor < 4096 }
{
    let mut refusals = Vec::new(alloc);
    let mut machine = Machine::new(alloc, Order::Tso);
    let comparison = machine.step(alloc, line, &mut refusals)?;
    Ok((comparison, refusals))
}

/// `unit_kinds` and `unit_core`: a replay on a unit with store buffers of eight entries.
pub fn replay_on_store_buffers(
    alloc: Global,
    program: &Program,
    schedule: &[Act],
    account: &mut Account,
) -> Result<Recorded, AllocError> {
    let unit = StoreBufferUnit::new(alloc, 8)?;
    let unit: Box<dyn MemoryUnit + Send> = Box::new(alloc, unit)?;
    let recorded = replay(alloc, unit, program, schedule, account)?;
    Ok(recorded)
}

/// `unit_faulty`: a unit whose loads miss its store buffers, from the first occasion on.
pub fn faulty_unit(alloc: Global) -> Result<FaultyUnit, AllocError> {
    let unit = FaultyUnit::new(alloc, FaultKind::NoForward, 1, 8)?;
    Ok(unit)
}

/// `issue_desk`: a run with a thread per processor on a unit with store buffers.
pub fn run_on_store_buffers<R: Threads + Wait + Sync>(
    rt: &R,
    alloc: Global,
    program: &Program,
    account: &mut Account,
) -> Result<Result<Recorded, RunFault>, AllocError> {
    let unit = StoreBufferUnit::new(alloc, 8)?;
    let unit: Box<dyn MemoryUnit + Send> = Box::new(alloc, unit)?;
    let issuers = Issuers {
        gate: &OpenGate,
        drain_seed: 1,
    };
    let answer = run(rt, alloc, program, unit, issuers, account);
    Ok(answer)
}
