//! Verdicts, and the line that says one.
ghost use Rattle.std.specs.Prelude.{◌≡◌};
ghost use Rattle.trace_reports.specs.Verdicts.{is_violation, verdict_line};

/// What a report says.
#[derive(Clone, Copy, Debug, PartialEq, Eq)]
pub enum Verdict {
    /// No violation was found. Nothing is proved about the trace.
    NoViolation,
    /// The trace has no order that meets the axioms, as its certificate shows.
    Violation,
    /// The input is no trace, or the certificate doesn't hold or is none.
    Refused,
}

impl Verdict {
    /// Whether it says a violation.
    pub fn is_violation(self) -> bool
        ensures { result ≡ is_violation self }
    {
        match self {
            Verdict::Violation => true,
            Verdict::NoViolation | Verdict::Refused => false,
        }
    }
}

/// The line of the verdict on a trace, which is a violation or not.
pub fn verdict_line(violation: bool) -> &'static str
    ensures { result.now ≡ verdict_line violation }
{
    if violation {
        "VIOLATION\n"
    } else {
        "NO VIOLATION FOUND\n"
    }
}
