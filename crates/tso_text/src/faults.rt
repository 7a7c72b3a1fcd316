ghost use Rattle.std.specs.Prelude.{◌≡◌, ◌≢◌};
ghost use Rattle.tso_ops.specs.declared.faults.ValueFault.{ValueFault};
ghost use Rattle.tso_text.specs.Internal.Accepted.{IsWhyOf};
ghost use Rattle.tso_text.specs.declared.faults.Why.{Why};

use std::alloc::{AllocError, AllocFailed};
use thiserror::Error;
use tso_ops::ValueFault;

/// Why a text is refused, in the order of their numbers: of two on one line the first counts.
#[derive(Clone, Copy, Debug, PartialEq, Eq, Error)]
#[error("{}", self.name())]
pub enum Why {
    /// The text doesn't begin with a header line and its line end.
    BadHeader,
    /// A line with no line end, whose first token is no keyword, or with another number of tokens than its keyword has.
    BadLine,
    /// A token after the first is no number.
    BadNumber,
    /// An operation before the first `proc`.
    BeforeProc,
    /// The 17th `proc`.
    TooManyProcessors,
    /// The line that makes more than 2,000 events, or more than 2,000 barriers of both kinds; in version 2, than 8,000.
    TooManyEvents,
    /// An address above 255.
    AddressRange,
    /// A store or a swap of the value 0, or a first value 0.
    ZeroValue,
    /// A store or a swap of a value that an earlier line stored, or that is a first value of any address.
    RepeatedValue,
    /// The text ends after a whole line, and no `end` came.
    MissingEnd,
    /// A byte after the line `end`.
    AfterEnd,
    /// More than 1,048,576 bytes.
    TooLong,
    /// A processor above 15 in a schedule.
    ProcessorRange,
    /// An allocation was refused.
    OutOfMemory,
    /// Line 2 is `model` with one more token that isn't `pso`.
    BadModel,
    /// An address of an `init` line that isn't above that of the one before.
    InitOrder,
    /// A place with a width after places without one, or the other way round.
    MixedWidths,
    /// A store of a processor of which 4,096 stores wait.
    TooManyWaiting,
    /// A place with a width, in a log.
    Widths,
}

impl Why {
    ghost use Rattle.tso_text.specs.RefusalNames.{refusal_name};

    /// The name, as reports print it.
    pub fn name(self) -> &'static str
        ensures { result.now ≡ refusal_name self }
    {
        match self {
            Why::BadHeader => "BadHeader",
            Why::BadLine => "BadLine",
            Why::BadNumber => "BadNumber",
            Why::BeforeProc => "BeforeProc",
            Why::TooManyProcessors => "TooManyProcessors",
            Why::TooManyEvents => "TooManyEvents",
            Why::AddressRange => "AddressRange",
            Why::ZeroValue => "ZeroValue",
            Why::RepeatedValue => "RepeatedValue",
            Why::MissingEnd => "MissingEnd",
            Why::AfterEnd => "AfterEnd",
            Why::TooLong => "TooLong",
            Why::ProcessorRange => "ProcessorRange",
            Why::OutOfMemory => "OutOfMemory",
            Why::BadModel => "BadModel",
            Why::InitOrder => "InitOrder",
            Why::MixedWidths => "MixedWidths",
            Why::TooManyWaiting => "TooManyWaiting",
            Why::Widths => "Widths",
        }
    }
}

/// Why a text is refused, and at which line: from 1, or 0 for TooLong and OutOfMemory.
#[derive(Clone, Copy, Debug, PartialEq, Eq, Error)]
#[error("{why} line {line}")]
pub struct TextFault {
    /// The line.
    pub line: usize,
    /// The refusal.
    pub why: Why,
}

impl From<AllocError> for Why {
    ghost from_gives = { λ _ why. why ≡ Why.OutOfMemory };

    fn from(_error: AllocError) -> Why {
        Why::OutOfMemory
    }
}

impl<T: Drop> From<AllocFailed<T>> for Why {
    ghost from_gives = { λ _ why. why ≡ Why.OutOfMemory };

    fn from(_error: AllocFailed<T>) -> Why {
        Why::OutOfMemory
    }
}

/// The refusal of a value, as that of a text. No text is refused for an STBAR under TSO: `stbar` is no keyword there.
pub(crate) fn why_of(fault: ValueFault) -> Why
    requires { fault ≢ ValueFault.StbarInTso }
    ensures { IsWhyOf fault result }
{
    match fault {
        ValueFault::TooManyProcessors => Why::TooManyProcessors,
        ValueFault::TooManyEvents => Why::TooManyEvents,
        ValueFault::AddressRange => Why::AddressRange,
        ValueFault::ZeroValue => Why::ZeroValue,
        ValueFault::RepeatedValue => Why::RepeatedValue,
        ValueFault::OutOfMemory => Why::OutOfMemory,
        ValueFault::StbarInTso => unreachable!(),
        ValueFault::InitOrder => Why::InitOrder,
    }
}

/// The refusal at this line of a text, from 1; OutOfMemory is of the whole text, at line 0.
pub fn fault_of(line: usize, why: Why) -> TextFault
    ensures why { result.why ≡ why }
    ensures line { why ≢ Why.OutOfMemory → result.line ≡ line }
    ensures memory { why ≡ Why.OutOfMemory → result.line ≡ 0 }
{
    match why {
        Why::OutOfMemory => TextFault { line: 0, why },
        _ => TextFault { line, why },
    }
}
