//! What an explanation is of.
ghost use Rattle.std.specs.Prelude.{◌≡◌};
ghost use Rattle.trace_explanation.specs.Namings.{noun};

/// What an explanation is of.
#[derive(Clone, Copy, Debug, PartialEq, Eq)]
pub enum Subject {
    /// A trace.
    Trace,
    /// A log, from which the trace was selected.
    Log,
}

/// The noun for what the explanation is of.
pub(crate) fn noun(subject: Subject) -> &'static str
    ensures { result.now ≡ noun subject }
{
    match subject {
        Subject::Trace => "trace",
        Subject::Log => "log",
    }
}
