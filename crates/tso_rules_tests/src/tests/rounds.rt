//! What the tests share.

mod claims;
mod faults;
mod gates;
mod refused_allocations;

use round_pool::{MAX_WORKERS, PoolFault, PoolGate, Ranked, rounds};
use std::alloc::Global;
use std::fmt::Debug;
use std::process::Abort;
use std::sync::Wait;
use std::thread::Threads;
use traces_for_tests::has_unwritten_load;
use tso_ops::Trace;

/// Compares what a call gave in this case with what it has to give. An assertion costs the check of a function many times
/// what a call of this one costs it.
fn expect<C: Copy + Debug, T: Copy + Debug + PartialEq>(
    rt: &impl Abort,
    case: C,
    found: T,
    wanted: T,
) {
    assert_eq!(rt; found, wanted, "{case:?}");
}

fn rounds_of(ranked: &Ranked) -> u64 {
    ranked.rounds()
}

fn rank_of(ranked: &Ranked, u: usize, v: usize) -> Option<u64> {
    ranked.rank(u, v)
}

/// The rounds, where no load of the trace is unwritten and there are 1 to 64 workers.
fn made<H: Threads + Wait, G: PoolGate + Sync>(
    rt: &H,
    alloc: Global,
    trace: &Trace,
    workers: usize,
    gate: &G,
) -> Result<Ranked, PoolFault> {
    if has_unwritten_load(trace) || workers < 1 || workers > MAX_WORKERS {
        return Err(PoolFault::NoThread);
    }
    rounds(rt, alloc, trace, workers, gate)
}
