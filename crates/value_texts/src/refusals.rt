ghost use Rattle.std.specs.Prelude.{◌≡◌};
ghost use Rattle.value_texts.specs.declared.refusals.ValuePrintRefusal.{ValuePrintRefusal};
ghost use Rattle.value_texts.specs.declared.refusals.ValueTextRefusal.{ValueTextRefusal};

use std::alloc::{AllocError, AllocFailed};
use thiserror::Error;

/// Why the text of evidence about a log is refused. Of two on one line the first counts.
#[derive(Clone, Copy, Debug, PartialEq, Eq, Error)]
#[error("{}", self.name())]
pub enum ValueTextRefusal {
    /// A line with no line end; one that isn't the word of a line of a refutation and as many tokens after it as that has events; or
    /// `order` on another line than the first.
    BadLine,
    /// A token that should name an event of the log, and names none.
    NoEvent,
    /// A byte after the line `order`.
    AfterEnd,
    /// An allocation was refused.
    OutOfMemory,
}

impl ValueTextRefusal {
    ghost use Rattle.value_texts.specs.RefusalNames.{value_refusal_name};

    /// The name, as reports on evidence print it.
    pub fn name(self) -> &'static str
        ensures { result.now ≡ value_refusal_name self }
    {
        match self {
            ValueTextRefusal::BadLine => "BadLine",
            ValueTextRefusal::NoEvent => "NoEvent",
            ValueTextRefusal::AfterEnd => "AfterEnd",
            ValueTextRefusal::OutOfMemory => "OutOfMemory",
        }
    }
}

impl From<AllocError> for ValueTextRefusal {
    ghost from_gives = { λ _ why. why ≡ ValueTextRefusal.OutOfMemory };

    fn from(_error: AllocError) -> ValueTextRefusal {
        ValueTextRefusal::OutOfMemory
    }
}

impl<T: Drop> From<AllocFailed<T>> for ValueTextRefusal {
    ghost from_gives = { λ _ why. why ≡ ValueTextRefusal.OutOfMemory };

    fn from(_error: AllocFailed<T>) -> ValueTextRefusal {
        ValueTextRefusal::OutOfMemory
    }
}

/// Why the text of evidence is refused, and at which line: from 1, or 0 for OutOfMemory.
#[derive(Clone, Copy, Debug, PartialEq, Eq, Error)]
#[error("{why} line {line}")]
pub struct ValueTextFault {
    /// The line.
    pub line: usize,
    /// The refusal.
    pub why: ValueTextRefusal,
}

/// Why evidence has no text.
#[derive(Clone, Copy, Debug, PartialEq, Eq, Error)]
pub enum ValuePrintRefusal {
    /// A number in it is that of no event.
    #[error("NoEvent")]
    NoEvent,
    /// An allocation was refused.
    #[error("OutOfMemory")]
    OutOfMemory,
}

impl From<AllocError> for ValuePrintRefusal {
    ghost from_gives = { λ _ why. why ≡ ValuePrintRefusal.OutOfMemory };

    fn from(_error: AllocError) -> ValuePrintRefusal {
        ValuePrintRefusal::OutOfMemory
    }
}
