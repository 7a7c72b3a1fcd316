//! The threads that do a campaign's jobs, and the channels between them and the caller's thread.
ghost use Rattle.std.specs.Prelude.{◌≡◌, ◌⊎◌, ◌+◌, ◌≤◌, ◌^◌, [], All, IfOk, IfErr, length, map};
ghost use Rattle.tso_report.specs.Limits.{seed_count_limit};
ghost use Rattle.tso_report.specs.Internal.Gathering.{AreUnitsFrom, KeepsSeeds};
ghost use Rattle.text_streams.specs.declared.faults.Fault.{Fault};

use super::CampaignPlan;
use super::gathering::Gathered;
use super::seeds::{Job, JobResult, SeedUnits, job_of, result_of};
use crossbeam_channel::{Receiver, Sender, bounded};
use progress_meters::Meter;
use std::alloc::Global;
use std::sync::Wait;
use std::thread;
use std::thread::{Scope, Threads};
use text_streams::Fault;
use unit_core::MemoryUnit;

/// The ends of the channels that a worker has: jobs come in by one, their results go out by the other.
#[derive(Drop)]
struct Ends<S: SeedUnits, U: MemoryUnit> {
    jobs: Receiver<Job<S, U>>,
    results: Sender<JobResult<S>>,
}

/// Has the jobs of all seeds done by `workers` threads, and takes their results in; the meter hears of each. With no seed no
/// thread is started.
///
/// Faults: OutOfMemory where an allocation was refused; NoThread where the system refused a thread, and then no job was
/// sent. On every return what the started threads had to do has ended.
pub(super) fn gather<
    S: SeedUnits + Send,
    U: MemoryUnit + Send,
    R: Threads + Wait + Sync + AllocGlobal,
    M: Meter,
>(
    rt: &R,
    gathered: Gathered<S>,
    units: Vec<U>,
    workers: usize,
    meter: &M,
) -> Result<Gathered<S>, Fault>
    requires most { length units.items ≤ seed_count_limit }
    requires one_each { length units.items ≡ length gathered.violations }
    requires untouched { All (λ unit. (U.value_of unit).steps ≡ []) units.items }
    requires units { AreUnitsFrom S.unit_of gathered.plan.first (map (λ unit. U.value_of unit) units.items) }
    ensures seeds { IfOk result (KeepsSeeds gathered) }
    ensures fault { IfErr result (λ fault. (fault ≡ Fault.OutOfMemory) ⊎ (fault ≡ Fault.NoThread)) }
{
    if units.is_empty() {
        return Ok(gathered);
    }
    thread::scope(
        thread::scope_env(),
        rt,
        |scope| -> Result<Gathered<S>, Fault>
            requires most { length units.items ≤ seed_count_limit }
            requires one_each { length units.items ≡ length gathered.violations }
            requires untouched { All (λ unit. (U.value_of unit).steps ≡ []) units.items }
            requires units { AreUnitsFrom S.unit_of gathered.plan.first (map (λ unit. U.value_of unit) units.items) }
            ensures seeds { IfOk result (KeepsSeeds gathered) }
            ensures fault { IfErr result (λ fault. (fault ≡ Fault.OutOfMemory) ⊎ (fault ≡ Fault.NoThread)) }
        { gather_in(scope, rt, gathered, units, workers, meter) },
    )
}

fn gather_in<
    's,
    E,
    S: SeedUnits + Send + 's,
    U: MemoryUnit + Send + 's,
    R: Threads + Wait + Sync + AllocGlobal,
    M: Meter,
>(
    scope: &'s Scope<'s, E>,
    rt: &'s R,
    gathered: Gathered<S>,
    units: Vec<U>,
    workers: usize,
    meter: &M,
) -> Result<Gathered<S>, Fault>
    requires most { length units.items ≤ seed_count_limit }
    requires one_each { length units.items ≡ length gathered.violations }
    requires untouched { All (λ unit. (U.value_of unit).steps ≡ []) units.items }
    requires units { AreUnitsFrom S.unit_of gathered.plan.first (map (λ unit. U.value_of unit) units.items) }
    ensures seeds { IfOk result (KeepsSeeds gathered) }
    ensures fault { IfErr result (λ fault. (fault ≡ Fault.OutOfMemory) ⊎ (fault ≡ Fault.NoThread)) }
{
    let alloc = rt.alloc();
    let plan = gathered.plan();
    let first = plan.first;
    // All jobs fit, so that results are taken in from the first one on.
    let (to_workers, jobs) = bounded(alloc, units.len())?;
    let (results, from_workers) = bounded(alloc, units.len())?;
    start_workers(scope, rt, alloc, plan, Ends { jobs, results }, workers)?;
    send_jobs(rt, to_workers, first, units);
    Ok(receive_results(rt, from_workers, gathered, meter))
}

/// Starts the workers, each with ends of its own. NoThread where the system refused a thread.
fn start_workers<
    's,
    E,
    S: SeedUnits + Send + 's,
    U: MemoryUnit + Send + 's,
    R: Threads + Wait + Sync,
>(
    scope: &'s Scope<'s, E>,
    rt: &'s R,
    alloc: Global,
    plan: CampaignPlan,
    ends: Ends<S, U>,
    workers: usize,
) -> Result<(), Fault>
    ensures { IfErr result (λ fault. (fault ≡ Fault.OutOfMemory) ⊎ (fault ≡ Fault.NoThread)) }
{
    for _ in 0..workers {
        let own = Ends {
            jobs: ends.jobs.clone()?,
            results: ends.results.clone()?,
        };
        let plan = plan.copy();
        let Ok(_) = scope.spawn(move || work(rt, alloc, plan, own)) else {
            return Err(Fault::NoThread);
        };
    }
    Ok(())
}

/// Does jobs as long as some come.
fn work<S: SeedUnits + Send, U: MemoryUnit + Send, R: Threads + Wait + Sync>(
    rt: &R,
    alloc: Global,
    plan: CampaignPlan,
    ends: Ends<S, U>,
) {
    for _ in rt.forever() {
        let Ok(job) = ends.jobs.recv(rt) else {
            return;
        };
        let result = result_of(rt, alloc, plan.copy(), job);
        let _ = ends.results.send(rt, result);
    }
}

/// Sends the jobs of the seeds from `first` on.
fn send_jobs<S: SeedUnits, U: MemoryUnit, R: Wait>(
    rt: &R,
    to_workers: Sender<Job<S, U>>,
    first: u64,
    units: Vec<U>,
)
    requires most { length units.items ≤ seed_count_limit }
    requires last { first + length units.items ≤ 2 ^ 64 }
    requires untouched { All (λ unit. (U.value_of unit).steps ≡ []) units.items }
    requires units { AreUnitsFrom S.unit_of first (map (λ unit. U.value_of unit) units.items) }
{
    let mut after: u64 = 0;
    for unit in units {
        let _ = to_workers.send(rt, job_of(first + after, unit));
        after += 1;
    }
}

/// Takes results in until they end. The meter hears of each.
fn receive_results<S: SeedUnits, R: Wait, M: Meter>(
    rt: &R,
    from_workers: Receiver<JobResult<S>>,
    gathered: Gathered<S>,
    meter: &M,
) -> Gathered<S>
    ensures { KeepsSeeds gathered result }
{
    let mut gathered = gathered;
    for _ in rt.forever() {
        let Ok(result) = from_workers.recv(rt) else {
            break;
        };
        gathered.accept(result);
        meter.advance(1);
    }
    gathered
}
