//! The ranks of a trace's edges, from which a certificate is made.
ghost use Rattle.std.specs.Prelude.{◌≡◌, ◌⊎◌, ◌≤◌, ◌<◌, ℕ, IfOk, IfErr};
ghost use Rattle.order_paths.specs.Paths.{HasCycle};
ghost use Rattle.round_pool.specs.Rankings.{IsRankingOf};
ghost use Rattle.round_pool.specs.Workers.{worker_limit};
ghost use Rattle.round_pool.specs.declared.faults.PoolFault.{PoolFault};
ghost use Rattle.text_streams.specs.declared.faults.Fault.{Fault};
ghost use Rattle.tso_model.specs.Ranks.{RankSet};
ghost use Rattle.tso_ops.specs.Events.{IsUnwritten};

use round_pool::{OpenPoolGate, PoolFault, Ranked, rounds_after_acyclic};
use std::alloc::Global;
use std::sync::Wait;
use std::thread::Threads;
use text_streams::Fault;
use tso_ops::Trace;

/// The ranks of the edges of a trace without unwritten loads, made on `workers` workers (1 to 64). The first `acyclic` rank sets are
/// known to have no cycle.
///
/// Faults: OutOfMemory where an allocation was refused, NoThread where the system refused a thread.
pub fn rank_edges<H: Threads + Wait>(
    rt: &H,
    alloc: Global,
    trace: &Trace,
    workers: usize,
    acyclic: u64,
) -> Result<Ranked, Fault>
    requires written { (l : ℕ) → IsUnwritten trace.now l → ⊥ }
    requires some { 1 ≤ workers }
    requires most { workers ≤ worker_limit }
    requires acyclic { (k : ℕ) → k < acyclic → HasCycle (RankSet trace.now k) → ⊥ }
    ensures ranked { IfOk result (IsRankingOf trace.now) }
    ensures fault { IfErr result (λ fault. (fault ≡ Fault.OutOfMemory) ⊎ (fault ≡ Fault.NoThread)) }
{
    match rounds_after_acyclic(rt, alloc, trace, workers, &OpenPoolGate, acyclic) {
        Ok(ranked) => Ok(ranked),
        Err(fault) => Err(fault_of(fault)),
    }
}

/// The fault of rounds that gave no ranks.
pub(crate) fn fault_of(fault: PoolFault) -> Fault
    ensures memory { fault ≡ PoolFault.OutOfMemory → result ≡ Fault.OutOfMemory }
    ensures thread { fault ≡ PoolFault.NoThread → result ≡ Fault.NoThread }
{
    match fault {
        PoolFault::OutOfMemory => Fault::OutOfMemory,
        PoolFault::NoThread => Fault::NoThread,
    }
}
