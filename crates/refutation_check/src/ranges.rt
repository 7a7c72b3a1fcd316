//! Whether the numbers of lines are numbers of events.
ghost use Rattle.std.specs.Prelude.{◌↔◌, IsTrue, All};
ghost use Rattle.refutation_check.specs.Refusals.{IsLineUpTo};

use cert_check::ranges::{are_up_to, is_reason_up_to};
use tso_evidence::RefutationLine;

/// Whether no number of the lines is above `last`.
pub(crate) fn are_lines_up_to(last: u64, lines: &[RefutationLine]) -> bool
    ensures { IsTrue result ↔ All (IsLineUpTo last) lines.now }
{
    for line in lines {
        if !is_line_up_to(last, line) {
            return false;
        }
    }
    true
}

/// Whether no number of the line is above `last`.
fn is_line_up_to(last: u64, line: &RefutationLine) -> bool
    ensures { IsTrue result ↔ IsLineUpTo last line.now }
{
    match line {
        RefutationLine::Step(step) => {
            step.from <= last && step.to <= last && is_reason_up_to(last, &step.reason)
        },
        RefutationLine::Case { first, second } => *first <= last && *second <= last,
        RefutationLine::Else { first, second } => *first <= last && *second <= last,
        RefutationLine::Cycle(cycle) => are_up_to(last, cycle.items()),
    }
}
