//! The drainer of a run, in a thread of its own.
ghost use Rattle.std.specs.Prelude.{◌≡◌, ◌≤◌, ◌<◌, Err, IfErr, IfOk};
ghost use Rattle.issue_desk.specs.declared.faults.RunFault.TheVariants.{OutOfMemory as NoMemory};

use crate::faults::RunFault;
use crate::passes::Pass;
use crate::run_desks::{RunDesign, RunDesk};
use std::sync::{Mutex, Wait};
use std::thread::{JoinHandle, Scope};
use tso_ops::OutOfMemory;
use unit_core::MemoryUnit;

/// Drains processor `turn` modulo `processors` once on each turn, from 0, under a lock of its own taking. OutOfMemory, with
/// no further turn, where the unit answered it.
fn drain_in_turn<D: RunDesign + Send, U: MemoryUnit + Send, R: Wait>(
    rt: &R,
    desk: &Mutex<RunDesk<D, U>>,
    processors: usize,
    turns: u64,
) -> Result<(), OutOfMemory>
    requires some { 0 < processors }
    requires most { processors ≤ 16 }
    requires turns { turns ≤ 1000000 }
{
    for turn in 0..turns {
        desk.lock(rt).drain(turn as usize % processors)?;
    }
    Ok(())
}

/// Starts the drainer. NoThread where the system refused the thread.
pub(crate) fn start_drainer<'s, E, D: RunDesign + Send, U: MemoryUnit + Send, R: Wait + Sync>(
    scope: &'s Scope<'s, E>,
    rt: &'s R,
    desk: &'s Mutex<RunDesk<D, U>>,
    processors: usize,
    turns: u64,
) -> Result<JoinHandle<Result<(), OutOfMemory>>, RunFault>
    requires some { 0 < processors }
    requires most { processors ≤ 16 }
    requires turns { turns ≤ 1000000 }
{
    let job = move || -> Result<(), OutOfMemory>
        requires some { 0 < processors }
        requires most { processors ≤ 16 }
        requires turns { turns ≤ 1000000 }
    { drain_in_turn(rt, desk, processors, turns) };
    match scope.spawn(job) {
        Ok(child) => Ok(child),
        Err(_) => Err(RunFault::NoThread),
    }
}

/// The passes of the issuers, or the one fault that is reported of the drainer and the issuers: OutOfMemory of the drainer,
/// else the fault of the issuers.
pub(crate) fn passes_beside(
    drained: Result<(), OutOfMemory>,
    passes: Result<Vec<Pass>, RunFault>,
) -> Result<Vec<Pass>, RunFault>
    ensures refused { IfErr drained (λ _. result ≡ Err NoMemory) }
    ensures drained { IfOk drained (λ _. result ≡ passes) }
{
    drained?;
    passes
}
