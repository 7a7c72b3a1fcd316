//! Runs a campaign: a program from each of many seeds, run or replayed on a unit of its own.
ghost use Rattle.std.specs.Prelude.{◌≡◌, Decides, IfOk, IfErr, map, replicate};
ghost use Rattle.trace_judging.specs.Limits.{HasWorkerRange};
ghost use Rattle.run_serving.specs.Ranges.{IsCampaignInRange};
ghost use Rattle.run_serving.specs.Campaigning.{AreSeeds, IsCampaignText, IsPlanOf, LeavesCampaignText};
ghost use Rattle.run_serving.specs.Printing.{unit_of};
ghost use Rattle.text_streams.specs.WrittenTexts.{WritesWhole};

use crate::making::{SHAPE_REFUSAL, asked_shape};
use crate::units::make_units;
use command_line::CampaignOptions;
use progress_meters::Meter;
use request_texts::{SEEDS_LIMITS, SHAPE_LIMITS};
use std::io::Write;
use std::sync::Wait;
use std::thread::Threads;
use text_streams::{Fault, write_text};
use trace_reports::{REFUSED, status_of};
use tso_report::{CampaignPlan, MAX_SEEDS, campaign_over};
use unit_core::MemoryUnit;

/// The line of seeds that aren't within their limits.
const SEEDS_REFUSAL: &[u8] = b"REFUSED Seeds\n";

/// The plan that the options of a campaign ask for, or the line of what is refused: the shape, or else the seeds.
fn asked_plan(options: &CampaignOptions) -> Result<CampaignPlan, &'static [u8]>
    ensures plan { IfOk result (λ plan. IsPlanOf options.now plan) }
    ensures refused { IfErr result (λ line. IsCampaignText options.now line.now 2) }
{
    let Some(shape) = asked_shape(options.shape) else {
        return Err(SHAPE_REFUSAL);
    };
    if !are_seeds(options.first, options.count) {
        return Err(SEEDS_REFUSAL);
    }
    Ok(CampaignPlan {
        first: options.first,
        order: options.order,
        shape,
        execution: options.execution,
        printing: options.printing,
    })
}

/// The limits that are told where these options are refused: those of the shape, or else of the seeds.
pub fn limits_of(options: &CampaignOptions) -> &'static str {
    match asked_shape(options.shape) {
        None => SHAPE_LIMITS,
        Some(_) => SEEDS_LIMITS,
    }
}

/// Whether the seeds from the first on, so many, are within their limits.
fn are_seeds(first: u64, count: u64) -> bool
    ensures { Decides result (AreSeeds first count) }
{
    count <= MAX_SEEDS as u64 && (count == 0 || count - 1 <= u64::MAX - first)
}

/// Runs a campaign and writes its text, or that the shape or the seeds are refused: the status.
pub fn campaign_by<H: Threads + Wait + Sync + AllocGlobal, M: Meter, W: Write>(
    rt: &H,
    options: &CampaignOptions,
    meter: &M,
    writer: &mut W,
) -> Result<u8, Fault>
    requires ranges { IsCampaignInRange options.now }
    ensures text { IfOk result (WritesWhole (IsCampaignText options.now) (W.contents writer.old) (W.contents writer.new)) }
    ensures fault { IfErr result (LeavesCampaignText options.now (W.contents writer.old) (W.contents writer.new)) }
{
    match asked_plan(options) {
        Ok(plan) => campaign_by_plan(rt, options, plan, meter, writer),
        Err(line) => {
            write_text(writer, line)?;
            Ok(REFUSED)
        }
    }
}

/// Makes a unit for each seed, runs the campaign over them and writes its text: the status.
fn campaign_by_plan<H: Threads + Wait + Sync + AllocGlobal, M: Meter, W: Write>(
    rt: &H,
    options: &CampaignOptions,
    plan: CampaignPlan,
    meter: &M,
    writer: &mut W,
) -> Result<u8, Fault>
    requires plan { IsPlanOf options.now plan }
    requires ranges { IsCampaignInRange options.now }
    ensures text { IfOk result (WritesWhole (IsCampaignText options.now) (W.contents writer.old) (W.contents writer.new)) }
    ensures fault { IfErr result (LeavesCampaignText options.now (W.contents writer.old) (W.contents writer.new)) }
{
    let units = make_units(rt.alloc(), options.unit, options.count)?;
    campaign_on(rt, options, plan, units, meter, writer)
}

/// Runs the campaign over units, each of which is as the options ask for, and writes its text: the status.
fn campaign_on<H: Threads + Wait + Sync + AllocGlobal, U: MemoryUnit + Send, M: Meter, W: Write>(
    rt: &H,
    options: &CampaignOptions,
    plan: CampaignPlan,
    units: Vec<U>,
    meter: &M,
    writer: &mut W,
) -> Result<u8, Fault>
    requires plan { IsPlanOf options.now plan }
    requires units { map (λ unit. U.value_of unit) units.items ≡ replicate options.now.count (unit_of options.now.unit) }
    requires workers { HasWorkerRange options.now.workers }
    ensures text { IfOk result (WritesWhole (IsCampaignText options.now) (W.contents writer.old) (W.contents writer.new)) }
    ensures fault { IfErr result (LeavesCampaignText options.now (W.contents writer.old) (W.contents writer.new)) }
{
    let verdict = campaign_over(rt, plan, units, options.workers, meter, writer)?;
    Ok(status_of(verdict))
}
