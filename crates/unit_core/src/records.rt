ghost use Rattle.std.specs.Prelude.{◌≡◌, ◌&&◌, IfOk, All, length, ◌==◌};
ghost use Rattle.std.specs.List.{flat_map};
ghost use Rattle.tso_ops.specs.Values.{ReadFits, rows};
ghost use Rattle.unit_core.specs.Machine.{outcomes_of, lists_from};
ghost use Rattle.unit_core.specs.Records.{AreOpsOf, EmptiesBelow, IsRecorded, IsRecordOf, is_within};
ghost use Rattle.unit_core.specs.Machine.{IsFirstMemory};

use crate::designs::DesignMark;
use crate::steps::Step;
use crate::units::MemoryUnit;
use std::alloc::Global;
use std::marker::Model;
use tso_ops::{Order, OutOfMemory, Outcome, Program, Trace};

/// The record of a program's run on a unit: the trace of the unit's steps, and whether these are a run of the trace's
/// memory model; clauses see of which unit it is. `conclude` makes it, at the end of the unit.
#[derive(Debug, Drop)]
pub struct Recorded {
    trace: Trace,
    steps: Vec<Step>,
    lawful: bool,
    design: DesignMark,
}

impl Model for Recorded {
    ghost use Rattle.unit_core.specs.Records.{RecordedValue, IsRecorded};

    ghost Value = { RecordedValue };

    ghost view = { λ r. record { design = r.design.value; trace = r.trace; steps = r.steps.items; lawful = r.lawful } };

    ghost invariant = { λ r. IsRecorded (record { design = r.design.value; trace = r.trace; steps = r.steps.items; lawful = r.lawful }) };
}

impl Recorded {
    /// The trace: its program, with what the unit answered.
    pub fn trace(&self) -> &Trace
        ensures is { result.now ≡ self.now.trace }
        ensures kept { IsRecorded self.now }
    {
        &self.trace
    }

    /// Whether the steps are known to be a complete run of the trace's memory model: the unit was lawful, and not of PSO
    /// where the program is of TSO.
    pub fn lawful(&self) -> bool
        ensures is { result ≡ self.now.lawful }
        ensures kept { IsRecorded self.now }
    {
        self.lawful
    }
}

/// The record of a unit whose buffers were drained.
pub(crate) fn record<U: MemoryUnit>(
    alloc: Global,
    program: &Program,
    unit: &U,
) -> Result<Recorded, OutOfMemory>
    requires ops { AreOpsOf program.now (U.value_of unit.now).steps }
    requires first { IsFirstMemory program.now.setting.first (U.value_of unit.now).first }
    requires empty { EmptiesBelow (U.value_of unit.now) (length program.now.lists) }
    ensures is { IfOk result (IsRecordOf program.now (U.value_of unit.now)) }
    ensures kept { IfOk result IsRecorded }
{
    let lists = list_outcomes(alloc, program.processors(), unit.steps())?;
    let trace = Trace::of_program(alloc, program, lists)?;
    let steps = Vec::from_slice(alloc, unit.steps())?;
    let lawful = is_lawful_under(unit, program.order());
    Ok(Recorded {
        trace,
        steps,
        lawful,
        design: DesignMark::of(unit),
    })
}

/// Whether the unit's steps are known to be a run of this memory model: those of a TSO unit are also one under PSO.
pub fn is_lawful_under<U: MemoryUnit>(unit: &U, order: Order) -> bool
    ensures { result ≡ ((U.value_of unit.now).lawful && is_within (U.value_of unit.now).order order) }
{
    match unit.order() {
        Order::Tso => unit.lawful(),
        Order::Pso => unit.lawful() && order == Order::Pso,
    }
}

/// What each processor was answered.
fn list_outcomes(
    alloc: Global,
    processors: usize,
    steps: &[Step],
) -> Result<Vec<Vec<Outcome>>, OutOfMemory>
    ensures are { IfOk result (λ lists. rows lists.items ≡ lists_from 0 processors steps.now) }
    ensures fits { IfOk result (λ lists. All ReadFits (flat_map (λ ops. ops) (rows lists.items))) }
{
    let mut lists = Vec::new(alloc);
    for p in 0..processors {
        lists.push(outcomes_of_one(alloc, p, steps)?)?;
    }
    Ok(lists)
}

/// What processor `p` was answered.
fn outcomes_of_one(alloc: Global, p: usize, steps: &[Step]) -> Result<Vec<Outcome>, OutOfMemory>
    ensures are { IfOk result (λ list. list.items ≡ outcomes_of p steps.now) }
    ensures fits { IfOk result (λ list. All ReadFits list.items) }
{
    let mut list = Vec::new(alloc);
    for step in steps {
        if let Some(outcome) = step.outcome_of(p) {
            list.push(outcome)?;
        }
    }
    Ok(list)
}
