//! The status that a program ends with.
ghost use Rattle.std.specs.Prelude.{◌≡◌};
ghost use Rattle.trace_reports.specs.Statuses.{status_of, status_of_answer};

use crate::answers::Answer;
use crate::verdicts::Verdict;

/// The status of a trace in which no violation was found or which has an order, of an order that holds, and of a text that was
/// asked for.
pub const DONE: u8 = 0;

/// The status of a log in which no violation was found and not all was judged, of a batch of which too few traces were, and of a
/// trace on which nothing was decided.
pub const NOT_ALL_JUDGED: u8 = 1;

/// The status of what was refused: a text, a certificate, evidence, or the arguments.
pub const REFUSED: u8 = 2;

/// The status of a violation, and of a certificate or a refutation that holds.
pub const VIOLATION: u8 = 3;

/// The status of a fault, and of a batch with a text that can't be read.
pub const FAULT: u8 = 4;

/// The status of a verdict.
pub fn status_of(verdict: Verdict) -> u8
    ensures { result ≡ status_of verdict }
{
    match verdict {
        Verdict::NoViolation => DONE,
        Verdict::Refused => REFUSED,
        Verdict::Violation => VIOLATION,
    }
}

/// The status of an answer.
pub fn status_of_answer(answer: Answer) -> u8
    ensures { result ≡ status_of_answer answer }
{
    match answer {
        Answer::Clear => DONE,
        Answer::Undecided => NOT_ALL_JUDGED,
        Answer::Refused => REFUSED,
        Answer::Violation => VIOLATION,
        Answer::Unread => FAULT,
    }
}
