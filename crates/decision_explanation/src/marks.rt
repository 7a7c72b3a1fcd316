//! Which events the lines of a refutation name.
ghost use Rattle.decision_explanation.specs.Cases.{line_numbers};

use trace_explanation::{EventsOfSteps, NamesEvents, mark_number};
use tso_evidence::RefutationLine;
use tso_ops::Trace;

/// The events that the lines of a refutation name.
pub(crate) struct EventsOfLines;

impl NamesEvents<RefutationLine> for EventsOfLines {
    ghost numbers = { line_numbers };

    fn mark(&self, trace: &Trace, line: &RefutationLine, marks: &mut Vec<bool>) {
        match line {
            RefutationLine::Step(step) => EventsOfSteps.mark(trace, step, marks),
            RefutationLine::Case { first, second } => {
                mark_number(marks, *first as usize);
                mark_number(marks, *second as usize);
            },
            RefutationLine::Else { .. } | RefutationLine::Cycle(_) => {},
        }
    }
}
