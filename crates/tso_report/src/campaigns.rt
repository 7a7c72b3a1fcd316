//! Campaigns: a program drawn from each of many seeds, run or replayed on a unit of its own, and judged.
ghost use Rattle.std.specs.Prelude.{◌≡◌, ◌≤◌, ◌+◌, ◌^◌, [], All, Decides, IfOk, IfErr, length, map};
ghost use Rattle.std.specs.List.{list_any};
ghost use Rattle.trace_judging.specs.Limits.{worker_limit};
ghost use Rattle.tso_report.specs.Campaigns.{IsCampaign, LeavesCampaign, verdict_on};
ghost use Rattle.tso_report.specs.Internal.Gathering.{AreUnitsFrom};
ghost use Rattle.tso_report.specs.Limits.{seed_count_limit};
ghost use Rattle.text_streams.specs.WrittenTexts.{WritesWhole};

use drawn_programs::Shape;
use gathering::Gathered;
use lines::campaign_text;
use progress_meters::{Meter, NoMeter};
use request_options::{CampaignPrinting, Execution};
use seeds::SeedUnits;
use std::alloc::Global;
use std::io::Write;
use std::marker::Brand;
use std::sync::Wait;
use std::thread::Threads;
use text_streams::{Fault, write_text};
use trace_reports::Verdict;
use tso_ops::Order;
use unit_core::MemoryUnit;
use workers::gather;

mod gathering;
mod lines;
pub(crate) mod schedules;
pub(crate) mod seeds;
mod workers;

/// The greatest number of seeds of a campaign.
pub const MAX_SEEDS: usize = 1000;

/// What a campaign does: the programs of the seeds from `first` on, of one memory model and in one shape, are executed.
#[derive(Clone, Copy, Debug)]
pub struct CampaignPlan {
    pub first: u64,
    /// The memory model of each program.
    pub order: Order,
    pub shape: Shape,
    /// How each program is executed.
    pub execution: Execution,
    pub printing: CampaignPrinting,
}

impl CampaignPlan {
    /// The same plan, to be handed on again: what is proved of `Copy` allows that once for a value with a shape.
    pub(crate) fn copy(&self) -> CampaignPlan
        ensures { result ≡ self.now }
    {
        CampaignPlan {
            first: self.first,
            order: self.order,
            shape: self.shape,
            execution: self.execution,
            printing: self.printing,
        }
    }

    /// Whether the other is the same plan.
    pub(crate) fn are_same(&self, other: &CampaignPlan) -> bool
        ensures { Decides result (self.now ≡ other.now) }
    {
        self.first == other.first
            && self.order == other.order
            && self.execution == other.execution
            && self.printing == other.printing
            && self.shape.is_same(&other.shape)
    }
}

/// Runs a campaign and writes its text: unit `i` serves seed `first + i`, whose program is that of
/// `seeded_program_with_order`. It is executed on the unit as the plan says: by a thread per processor, with drains by the
/// same seed, or by a replay of the schedule of `seeded_schedule`; and the record's trace is judged with one worker.
/// `workers` threads (1 to 64) share the seeds.
///
/// The text has a line for each seed, in the order of the seeds, and a last line with their numbers; or, where the plan has
/// traces printed, the trace of each seed, in the same order. It is written after all results are in. The verdict is
/// Violation where a trace is one, else NoViolation. At most 1,000 units, none of which has taken a step, and the last seed
/// is at most 2^64 - 1.
///
/// Faults, of several the first: OutOfMemory where a unit answered it or an allocation was refused; NoThread where the
/// system refused a thread; Missing with the least seed of which no record was judged; with each nothing was written. Write
/// where the writer failed, took no byte or was interrupted more than 1,048,576 times: then what was written is a prefix of
/// the text. It may wait.
pub fn campaign<R: Threads + Wait + Sync + AllocGlobal, W: Write>(
    rt: &R,
    plan: CampaignPlan,
    units: Vec<Box<dyn MemoryUnit + Send>>,
    workers: usize,
    writer: &mut W,
) -> Result<Verdict, Fault>
    requires some { 1 ≤ workers }
    requires most { workers ≤ worker_limit }
    requires seeds { length units.items ≤ seed_count_limit }
    requires last { plan.first + length units.items ≤ 2 ^ 64 }
    requires untouched { All (λ unit. (value_of unit).steps ≡ []) units.items }
    ensures whole { IfOk result (WritesWhole (IsCampaign plan (map (λ unit. value_of unit) units.items)) (W.contents writer.old) (W.contents writer.new)) }
    ensures fault { IfErr result (LeavesCampaign plan (map (λ unit. value_of unit) units.items) (W.contents writer.old) (W.contents writer.new)) }
{
    campaign_over(rt, plan, units, workers, &NoMeter, writer)
}

/// `campaign` over units of any one type. The meter hears of each seed whose result came in.
pub fn campaign_over<
    U: MemoryUnit + Send,
    R: Threads + Wait + Sync + AllocGlobal,
    M: Meter,
    W: Write,
>(
    rt: &R,
    plan: CampaignPlan,
    units: Vec<U>,
    workers: usize,
    meter: &M,
    writer: &mut W,
) -> Result<Verdict, Fault>
    requires some { 1 ≤ workers }
    requires most { workers ≤ worker_limit }
    requires seeds { length units.items ≤ seed_count_limit }
    requires last { plan.first + length units.items ≤ 2 ^ 64 }
    requires untouched { All (λ unit. (U.value_of unit).steps ≡ []) units.items }
    ensures whole { IfOk result (WritesWhole (IsCampaign plan (map (λ unit. U.value_of unit) units.items)) (W.contents writer.old) (W.contents writer.new)) }
    ensures fault { IfErr result (LeavesCampaign plan (map (λ unit. U.value_of unit) units.items) (W.contents writer.old) (W.contents writer.new)) }
{
    campaign_of::<Brand, U, R, M, W>(rt, plan, units, workers, meter, writer)
}

/// `campaign_over` where these are the units of the seeds.
fn campaign_of<
    S: SeedUnits + Send,
    U: MemoryUnit + Send,
    R: Threads + Wait + Sync + AllocGlobal,
    M: Meter,
    W: Write,
>(
    rt: &R,
    plan: CampaignPlan,
    units: Vec<U>,
    workers: usize,
    meter: &M,
    writer: &mut W,
) -> Result<Verdict, Fault>
    requires some { 1 ≤ workers }
    requires most { workers ≤ worker_limit }
    requires seeds { length units.items ≤ seed_count_limit }
    requires last { plan.first + length units.items ≤ 2 ^ 64 }
    requires untouched { All (λ unit. (U.value_of unit).steps ≡ []) units.items }
    requires units { AreUnitsFrom S.unit_of plan.first (map (λ unit. U.value_of unit) units.items) }
    ensures whole { IfOk result (WritesWhole (IsCampaign plan (map (λ unit. U.value_of unit) units.items)) (W.contents writer.old) (W.contents writer.new)) }
    ensures fault { IfErr result (LeavesCampaign plan (map (λ unit. U.value_of unit) units.items) (W.contents writer.old) (W.contents writer.new)) }
{
    let alloc = rt.alloc();
    let (first, printing) = (plan.first, plan.printing);
    let gathered: Gathered<S> = Gathered::new(alloc, plan, units.len())?;
    let gathered = gather(rt, gathered, units, workers, meter)?;
    let known = gathered.known(alloc)?;
    let text = campaign_text(alloc, printing, first, &known)?;
    write_text(writer, &text)?;
    Ok(verdict_of(says_violation(&known.violations)))
}

/// Whether a line of the seeds says VIOLATION.
fn says_violation(violations: &[bool]) -> bool
    ensures { result ≡ list_any (λ violation. violation) violations.now }
{
    violations.iter().any(|violation| *violation)
}

/// The verdict on a trace, which is a violation or not.
fn verdict_of(violation: bool) -> Verdict
    ensures { result ≡ verdict_on violation }
{
    if violation {
        Verdict::Violation
    } else {
        Verdict::NoViolation
    }
}
