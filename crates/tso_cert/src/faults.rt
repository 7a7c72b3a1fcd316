ghost use Rattle.std.specs.Prelude.{◌≡◌};
ghost use Rattle.tso_cert.specs.declared.faults.CertificateRefusal.{CertificateRefusal};

use std::alloc::{AllocError, AllocFailed};
use thiserror::Error;

/// An allocation was refused: std's error of the allocator.
pub use std::alloc::AllocError as OutOfMemory;

/// Why the text of a certificate is refused, in the order of their numbers: of two on one line the first counts.
#[derive(Clone, Copy, Debug, PartialEq, Eq, Error)]
#[error("{}", self.name())]
pub enum CertificateRefusal {
    /// A line with no line end; `unwritten` on another line than the first, or not with just one token after it; or a
    /// step line of fewer than four tokens.
    BadLine,
    /// A step that isn't numbered as its line is, or a token that should be an event number and is none.
    BadNumber,
    /// The name of no rule, a base rule with tokens after it, or an inferred rule with none.
    BadRule,
    /// The text ends after a whole line, or is empty, and no line `cycle` or `unwritten` came.
    NoCycle,
    /// A byte after the line `cycle` or `unwritten`.
    AfterCycle,
    /// An allocation was refused.
    OutOfMemory,
}

impl CertificateRefusal {
    ghost use Rattle.tso_cert.specs.RefusalNames.{certificate_refusal_name};

    /// The name, as reports on certificates print it.
    pub fn name(self) -> &'static str
        ensures { result.now ≡ certificate_refusal_name self }
    {
        match self {
            CertificateRefusal::BadLine => "BadLine",
            CertificateRefusal::BadNumber => "BadNumber",
            CertificateRefusal::BadRule => "BadRule",
            CertificateRefusal::NoCycle => "NoCycle",
            CertificateRefusal::AfterCycle => "AfterCycle",
            CertificateRefusal::OutOfMemory => "OutOfMemory",
        }
    }
}

/// Why the text of a certificate is refused, and at which line: from 1, or 0 for OutOfMemory.
#[derive(Clone, Copy, Debug, PartialEq, Eq, Error)]
#[error("{why} line {line}")]
pub struct CertificateTextFault {
    /// The line.
    pub line: usize,
    /// The refusal.
    pub why: CertificateRefusal,
}

impl From<AllocError> for CertificateRefusal {
    ghost from_gives = { λ _ why. why ≡ CertificateRefusal.OutOfMemory };

    fn from(_error: AllocError) -> CertificateRefusal {
        CertificateRefusal::OutOfMemory
    }
}

impl<T: Drop> From<AllocFailed<T>> for CertificateRefusal {
    ghost from_gives = { λ _ why. why ≡ CertificateRefusal.OutOfMemory };

    fn from(_error: AllocFailed<T>) -> CertificateRefusal {
        CertificateRefusal::OutOfMemory
    }
}
