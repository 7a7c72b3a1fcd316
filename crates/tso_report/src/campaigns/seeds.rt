//! One seed of a campaign: its program is drawn and run or replayed on a unit, and the record is judged.
ghost use Rattle.std.specs.Prelude.{◌≡◌, [], Decides, IfOk};
ghost use Rattle.unit_core.specs.Units.{UnitValue};
ghost use Rattle.issue_desk.specs.Running.{IsRunOf};
ghost use Rattle.tso_report.specs.Campaigns.{IsRecordOfReplay, IsRecordOfSeed, program_of_seed, program_of_seed_with_order};
ghost use Rattle.tso_report.specs.Internal.Gathering.{IsKept, IsKnown, fault_of_seed};

use super::CampaignPlan;
use super::schedules::seeded_schedule;
use drawn_programs::{Shape, make_program_with_order};
use issue_desk::{Issuers, OpenGate, RunFault, RunThreads, run_with_drainer_over};
use rand_core::SeedableRng;
use rand_pcg::Pcg64;
use request_options::{CampaignPrinting, Execution};
use std::alloc::Global;
use std::marker::{Brand, Model, PhantomData};
use std::sync::Wait;
use std::thread::Threads;
use text_streams::Fault;
use trace_judging::is_violation;
use tso_ops::{Act, Order, OutOfMemory, Program, Trace};
use tso_text::print_trace;
use unit_core::{Account, MemoryUnit, Recorded, replay_over};

/// How many turns a drainer takes at most.
const MAX_DRAIN_TURNS: u64 = 1_000_000;

/// The unit of each seed. Each campaign picks them.
pub(crate) trait SeedUnits {
    ghost use Rattle.std.specs.Prelude.{ℕ};
    ghost use Rattle.unit_core.specs.Units.{UnitValue};

    ghost unit_of: { ℕ → UnitValue };
}

impl SeedUnits for Brand {
    ghost use Rattle.tso_report.specs.Internal.Gathering.{no_unit};

    ghost unit_of = { λ seed. no_unit };
}

/// A seed, and its unit, on which its program is run.
#[derive(Drop)]
pub(crate) struct Job<S: SeedUnits, U: MemoryUnit> {
    seed: u64,
    unit: U,
    of: PhantomData<S>,
    ghost untouched: { (U.value_of unit).steps ≡ [] },
    ghost is: { U.value_of unit ≡ S.unit_of seed },
}

/// What is said of a seed by this plan.
#[derive(Drop)]
pub(crate) struct Judged<S: SeedUnits> {
    seed: u64,
    plan: CampaignPlan,
    /// Whether the trace recorded on its unit is a violation.
    violation: bool,
    /// The text of that trace, where the plan has traces printed.
    text: Vec<u8>,
    of: PhantomData<S>,
}

impl<S: SeedUnits> Model for Judged<S> {
    ghost use Rattle.tso_report.specs.Internal.Gathering.{IsKnown, JudgedValue};

    ghost Value = { JudgedValue };

    ghost view = { λ j. record { seed = j.seed; plan = j.plan; violation = j.violation; text = j.text.items } };

    ghost invariant = { λ j. IsKnown j.plan j.seed (S.unit_of j.seed) j.violation j.text.items };
}

impl<S: SeedUnits> Judged<S> {
    /// Whose verdict it is.
    pub(crate) fn seed(&self) -> u64
        ensures { result ≡ self.now.seed }
    {
        self.seed
    }

    /// Whether it is by this plan.
    pub(crate) fn is_of(&self, plan: &CampaignPlan) -> bool
        ensures { Decides result (self.now.plan ≡ plan.now) }
    {
        self.plan.are_same(plan)
    }

    /// Whether the trace is a violation, and the text that is kept of it.
    pub(crate) fn into_parts(self) -> (bool, Vec<u8>)
        ensures { IsKnown self.plan self.seed (S.unit_of self.seed) result.0 result.1.items }
    {
        (self.violation, self.text)
    }
}

/// What a job gave.
#[derive(Drop)]
pub(crate) enum JobResult<S: SeedUnits> {
    /// A record of the seed was judged.
    Judged(Judged<S>),
    /// None was, for this fault.
    Failed { seed: u64, fault: Fault },
}

/// The program under TSO of this shape that the words of PCG64 from this seed draw, or OutOfMemory where an allocation was
/// refused.
pub fn seeded_program(alloc: Global, seed: u64, shape: Shape) -> Result<Program, OutOfMemory>
    ensures { IfOk result (λ program. program ≡ program_of_seed shape seed) }
{
    seeded_program_with_order(alloc, Order::Tso, seed, shape)
}

/// `seeded_program` under this memory model: under PSO some barriers are an STBAR in place of a membar.
pub fn seeded_program_with_order(
    alloc: Global,
    order: Order,
    seed: u64,
    shape: Shape,
) -> Result<Program, OutOfMemory>
    ensures { IfOk result (λ program. program ≡ program_of_seed_with_order order shape seed) }
{
    make_program_with_order(alloc, order, &mut Pcg64::seed_from_u64(seed), shape)
}

/// The job of a seed and its unit, which has taken no step.
pub(crate) fn job_of<S: SeedUnits, U: MemoryUnit>(seed: u64, unit: U) -> Job<S, U>
    requires untouched { (U.value_of unit).steps ≡ [] }
    requires is { U.value_of unit ≡ S.unit_of seed }
{
    Job {
        seed,
        unit,
        of: PhantomData,
    }
}

/// Does a job: executes the program of its seed on its unit as the plan says, and judges the record with one worker.
pub(crate) fn result_of<S: SeedUnits, U: MemoryUnit + Send, R: Threads + Wait + Sync>(
    rt: &R,
    alloc: Global,
    plan: CampaignPlan,
    job: Job<S, U>,
) -> JobResult<S> {
    let seed = job.seed;
    match judge_seed(rt, alloc, plan, job) {
        Ok(judged) => JobResult::Judged(judged),
        Err(fault) => JobResult::Failed { seed, fault },
    }
}

/// What is said of the job's seed. OutOfMemory where the unit answered it or an allocation was refused, NoThread where the
/// system refused a thread, Missing where the run gave no record.
fn judge_seed<S: SeedUnits, U: MemoryUnit + Send, R: Threads + Wait + Sync>(
    rt: &R,
    alloc: Global,
    plan: CampaignPlan,
    job: Job<S, U>,
) -> Result<Judged<S>, Fault> {
    let Job { seed, unit, .. } = job;
    let recorded = record_of_seed(rt, alloc, &plan, seed, unit)?;
    let violation = is_violation(rt, alloc, recorded.trace(), 1)?;
    let text = kept_text(alloc, plan.printing, recorded.trace())?;
    Ok(Judged {
        seed,
        plan,
        violation,
        text,
        of: PhantomData,
    })
}

/// The text of a trace, where traces are printed, or else nothing.
fn kept_text(
    alloc: Global,
    printing: CampaignPrinting,
    trace: &Trace,
) -> Result<Vec<u8>, OutOfMemory>
    ensures { IfOk result (λ text. IsKept printing text.items trace.now) }
{
    match printing {
        CampaignPrinting::Lines => Ok(Vec::new(alloc)),
        CampaignPrinting::Traces => Ok(print_trace(alloc, trace)?.into_bytes()),
    }
}

/// Runs or replays the program of a seed on its unit, as the plan says: the record.
fn record_of_seed<U: MemoryUnit + Send, R: Threads + Wait + Sync>(
    rt: &R,
    alloc: Global,
    plan: &CampaignPlan,
    seed: u64,
    unit: U,
) -> Result<Recorded, Fault>
    requires { (U.value_of unit).steps ≡ [] }
    ensures { IfOk result (IsRecordOfSeed plan.now.execution plan.now seed (U.value_of unit)) }
{
    let program = seeded_program_with_order(alloc, plan.order, seed, plan.shape)?;
    match plan.execution {
        Execution::Threads { drain_turns } => {
            run_program(rt, alloc, &program, seed, drain_turns, unit)
        }
        Execution::Replay => {
            let schedule = seeded_schedule(alloc, seed, plan.shape)?;
            Ok(replay_program(alloc, &program, &schedule, unit)?)
        }
    }
}

/// Runs the program of a seed on this unit by a thread per processor, with drains by the seed, beside a drainer that takes
/// so many turns: the record.
fn run_program<U: MemoryUnit + Send, R: Threads + Wait + Sync>(
    rt: &R,
    alloc: Global,
    program: &Program,
    seed: u64,
    drain_turns: u64,
    unit: U,
) -> Result<Recorded, Fault>
    requires { (U.value_of unit).steps ≡ [] }
    ensures { IfOk result (IsRunOf program.now (U.value_of unit)) }
{
    let issuers = Issuers {
        gate: &OpenGate,
        drain_seed: seed,
    };
    let threads = RunThreads {
        issuers,
        turns: drain_turns.min(MAX_DRAIN_TURNS),
    };
    let mut account = Account::new();
    match run_with_drainer_over(rt, alloc, program, unit, threads, &mut account) {
        Ok(recorded) => Ok(recorded),
        Err(fault) => Err(fault_of_seed(seed, fault)),
    }
}

/// Replays the program by the schedule on this unit: the record. OutOfMemory as `replay_over` has it.
fn replay_program<U: MemoryUnit>(
    alloc: Global,
    program: &Program,
    schedule: &[Act],
    unit: U,
) -> Result<Recorded, OutOfMemory>
    requires { (U.value_of unit).steps ≡ [] }
    ensures { IfOk result (IsRecordOfReplay program.now schedule.now (U.value_of unit)) }
{
    let mut account = Account::new();
    replay_over(alloc, unit, program, schedule, &mut account)
}

/// The fault of a seed whose run gave no record.
fn fault_of_seed(seed: u64, fault: RunFault) -> Fault
    ensures { result ≡ fault_of_seed seed fault }
{
    match fault {
        RunFault::OutOfMemory => Fault::OutOfMemory,
        RunFault::NoThread => Fault::NoThread,
        RunFault::Torn { .. } => Fault::Missing(seed),
        RunFault::OtherProgram => Fault::Missing(seed),
    }
}
