//! Which events the lines of evidence name.
ghost use Rattle.std.specs.Prelude.{◌≡◌, ◌==◌, ◌||◌, ◌<◌, ℕ, List, suc, false, get_or, length, IfOk};
ghost use Rattle.tso_ops.specs.Events.{event_total};
ghost use Rattle.tso_ops.specs.Values.{TraceValue};
ghost use Rattle.std.specs.List.{filter};
ghost use Rattle.trace_explanation.specs.Names.{event_numbers};
ghost use Rattle.trace_explanation.specs.Steps.{is_among, is_named, step_numbers};
ghost use Rattle.trace_explanation.specs.Internal.Tables.{AreMarks};

use crate::loads::step_load;
use std::alloc::{AllocError, Global};
use tso_cert::CertStep;
use tso_ops::Trace;

/// Which events a line of evidence names.
pub trait NamesEvents<L> {
    /// The numbers that a line names.
    ghost numbers: { TraceValue → L → List ℕ };

    /// Marks the numbers that a line names; nothing for one that is past the end.
    fn mark(&self, trace: &Trace, line: &L, marks: &mut Vec<bool>)
        ensures length { length marks.new.items ≡ length marks.old.items }
        ensures marked { (n : ℕ) → n < length marks.old.items → get_or marks.new.items n false ≡
            (is_among n (numbers trace.now line.now) || get_or marks.old.items n false) };
}

/// The events that the lines name, in the order of their numbers. OutOfMemory where an allocation was refused.
pub fn list_named<L, N: NamesEvents<L>>(
    alloc: Global,
    naming: &N,
    trace: &Trace,
    lines: &[L],
) -> Result<Vec<usize>, AllocError>
    ensures { IfOk result (λ events. events.items ≡ filter (is_named (N.numbers trace.now) lines.now) (event_numbers trace.now)) }
{
    let marks = mark_named(alloc, naming, trace, lines)?;
    let mut events = Vec::new(alloc);
    for n in 0..trace.events() {
        if marks[n + 1] {
            events.push(n + 1)?;
        }
    }
    Ok(events)
}

/// For number 0 and each event whether one of the lines names it.
fn mark_named<L, N: NamesEvents<L>>(
    alloc: Global,
    naming: &N,
    trace: &Trace,
    lines: &[L],
) -> Result<Vec<bool>, AllocError>
    ensures { IfOk result (λ marks. AreMarks (is_named (N.numbers trace.now) lines.now) (suc (event_total trace.now)) marks.items) }
{
    let mut marks = vec![in alloc; false; trace.node_count()]?;
    for line in lines {
        naming.mark(trace, line, &mut marks);
    }
    Ok(marks)
}

/// The events that the steps of a certificate name.
pub struct EventsOfSteps;

impl NamesEvents<CertStep> for EventsOfSteps {
    ghost numbers = { step_numbers };

    fn mark(&self, trace: &Trace, step: &CertStep, marks: &mut Vec<bool>) {
        mark_number(marks, step.from as usize);
        mark_number(marks, step.to as usize);
        if let Some(load) = step_load(trace, step) {
            mark_number(marks, load);
        }
    }
}

/// Marks a number; nothing where it is past the end.
pub fn mark_number(marks: &mut Vec<bool>, number: usize)
    ensures length { length marks.new.items ≡ length marks.old.items }
    ensures marked { (n : ℕ) → n < length marks.old.items → get_or marks.new.items n false ≡ (number == n || get_or marks.old.items n false) }
{
    if number < marks.len() {
        marks[number] = true;
    }
}
