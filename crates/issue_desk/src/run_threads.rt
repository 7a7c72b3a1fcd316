//! The threads of a run: its issuers, and a drainer beside them.
ghost use Rattle.std.specs.Prelude.{◌≤◌, ◌<◌, IfOk};
ghost use Rattle.issue_desk.specs.Internal.Passes.{ArePassesFrom};

use crate::drainers::{passes_beside, start_drainer};
use crate::faults::RunFault;
use crate::gates::Gate;
use crate::issuers::{Issuers, Shared, passes_from};
use crate::passes::Pass;
use crate::run_desks::{RunDesign, RunDesk};
use std::alloc::Global;
use std::sync::{Mutex, Wait};
use std::thread;
use std::thread::{Scope, Threads};
use unit_core::MemoryUnit;

/// The threads of a run: how its issuers go on, and how often a drainer beside them takes the lock.
#[derive(Drop)]
pub struct RunThreads<'a, G> {
    pub issuers: Issuers<'a, G>,
    /// How many turns the drainer takes, from 0, where it isn't started, to 1,000,000.
    pub turns: u64,
}

/// The passes of a run's processors, given back by issuers beside which a drainer takes so many turns. It is started before
/// them, and not at all where there are no turns or no processors. All threads that were started are joined.
fn passes_in_scope<
    's,
    E,
    D: RunDesign + Send,
    U: MemoryUnit + Send,
    R: Threads + Wait + Sync,
    G: Gate + Sync,
>(
    scope: &'s Scope<'s, E>,
    rt: &'s R,
    alloc: Global,
    shared: Shared<&'s Mutex<RunDesk<D, U>>, &'s G>,
    turns: u64,
) -> Result<Vec<Pass>, RunFault>
    requires most { shared.processors ≤ 16 }
    requires turns { turns ≤ 1000000 }
    ensures { IfOk result (λ passes. ArePassesFrom 0 shared.entry.processors passes.items) }
{
    if shared.processors == 0 || turns == 0 {
        return passes_from(scope, rt, alloc, shared, 0);
    }
    let drainer = start_drainer(scope, rt, shared.desk, shared.processors, turns)?;
    let passes = passes_from(scope, rt, alloc, shared, 0);
    passes_beside(drainer.join(rt), passes)
}

/// The passes of a run's processors, in order, each given back by an issuer in a thread of its own, beside which a drainer
/// in a thread of its own takes its turns. OutOfMemory where the unit answered it or an allocation was refused, else NoThread
/// where the system refused a thread; all threads are joined.
pub(crate) fn passes_in_threads<
    D: RunDesign + Send,
    U: MemoryUnit + Send,
    R: Threads + Wait + Sync,
    G: Gate + Sync,
>(
    rt: &R,
    alloc: Global,
    desk: &Mutex<RunDesk<D, U>>,
    threads: RunThreads<'_, G>,
    processors: usize,
) -> Result<Vec<Pass>, RunFault>
    requires most { processors ≤ 16 }
    requires turns { threads.turns ≤ 1000000 }
    ensures { IfOk result (λ passes. ArePassesFrom 0 processors passes.items) }
{
    let RunThreads { issuers, turns } = threads;
    let Issuers { gate, drain_seed } = issuers;
    thread::scope(
        thread::scope_env(),
        rt,
        |scope| -> Result<Vec<Pass>, RunFault>
            requires most { processors ≤ 16 }
            requires turns { turns ≤ 1000000 }
            ensures { IfOk result (λ passes. ArePassesFrom 0 processors passes.items) }
        {
            let shared = Shared {
                desk,
                gate,
                drain_seed,
                processors,
            };
            passes_in_scope(scope, rt, alloc, shared, turns)
        },
    )
}
