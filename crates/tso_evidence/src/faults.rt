ghost use Rattle.std.specs.Prelude.{◌≡◌};

use thiserror::Error;

/// Why the text of evidence is refused, in the order of their numbers: of two on one line the first counts.
#[derive(Clone, Copy, Debug, PartialEq, Eq, Error)]
#[error("{}", self.name())]
pub enum EvidenceFault {
    /// A line with no line end; `unwritten` or `order` on another line than the first; `unwritten` not with just one token
    /// after it; or another line that isn't `cycle`, of fewer than four tokens.
    BadLine,
    /// A line of a refutation, other than `cycle`, that isn't numbered as it should be; or a token that should be an event
    /// number and is none.
    BadNumber,
    /// The name of no rule; a base rule, `Case` or `Else` with tokens after it; or an inferred rule with none.
    BadRule,
    /// A byte after the line `unwritten` or `order`.
    AfterEnd,
    /// An allocation was refused.
    OutOfMemory,
}

impl EvidenceFault {
    ghost use Rattle.tso_evidence.specs.RefusalNames.{evidence_refusal_name};

    /// The name, as reports on evidence print it.
    pub fn name(self) -> &'static str
        ensures { result.now ≡ evidence_refusal_name self }
    {
        match self {
            EvidenceFault::BadLine => "BadLine",
            EvidenceFault::BadNumber => "BadNumber",
            EvidenceFault::BadRule => "BadRule",
            EvidenceFault::AfterEnd => "AfterEnd",
            EvidenceFault::OutOfMemory => "OutOfMemory",
        }
    }
}

/// Why the text of evidence is refused, and at which line: from 1, or 0 for OutOfMemory.
#[derive(Clone, Copy, Debug, PartialEq, Eq, Error)]
#[error("{why} line {line}")]
pub struct EvidenceTextFault {
    /// The line.
    pub line: usize,
    /// The refusal.
    pub why: EvidenceFault,
}
