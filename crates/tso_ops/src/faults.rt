ghost use Rattle.std.specs.Prelude.{◌≡◌};
ghost use Rattle.tso_ops.specs.declared.faults.ValueFault.TheVariants.{OutOfMemory};

use std::alloc::AllocFailed;
use thiserror::Error;

/// An allocation was refused: std's error of the allocator.
pub use std::alloc::AllocError as OutOfMemory;

/// Why lists of operations are no program or no trace, or entries no first values.
///
/// Of two that one operation or entry has, the earlier here is told.
#[derive(Clone, Copy, Debug, PartialEq, Eq, Error)]
pub enum ValueFault {
    /// More than 16 processors.
    #[error("TooManyProcessors")]
    TooManyProcessors,
    /// More events (a load 1, a store 1, a swap 2) or more barriers of both kinds, over all processors, than 2,000, or
    /// than 8,000 in version 2.
    #[error("TooManyEvents")]
    TooManyEvents,
    /// An address above 255.
    #[error("AddressRange")]
    AddressRange,
    /// A store or a swap of the value 0, or a first value of 0.
    #[error("ZeroValue")]
    ZeroValue,
    /// A store or a swap of a value that an earlier one stored or that is a first value, at any address.
    #[error("RepeatedValue")]
    RepeatedValue,
    /// An allocation was refused.
    #[error("OutOfMemory")]
    OutOfMemory,
    /// An STBAR under TSO, which keeps the order of all stores without it.
    #[error("StbarInTso")]
    StbarInTso,
    /// A first value whose address isn't above that of the entry before.
    #[error("InitOrder")]
    InitOrder,
}

impl From<OutOfMemory> for ValueFault {
    ghost from_gives = { λ _ fault. fault ≡ OutOfMemory };

    fn from(_error: OutOfMemory) -> ValueFault {
        ValueFault::OutOfMemory
    }
}

impl<T: Drop> From<AllocFailed<T>> for ValueFault {
    ghost from_gives = { λ _ fault. fault ≡ OutOfMemory };

    fn from(_error: AllocFailed<T>) -> ValueFault {
        ValueFault::OutOfMemory
    }
}

/// Lists that were refused, and why. They are handed back as they came.
#[derive(Debug, Drop, Error)]
#[error_bound(T: std::fmt::Debug + Drop)]
#[error("{why}")]
pub struct Refused<T> {
    /// The refusal.
    pub why: ValueFault,
    /// The lists that were handed in, a list for each processor.
    pub lists: Vec<Vec<T>>,
}

/// First values and lists that were refused, and why. They are handed back as they came.
#[derive(Debug, Drop, Error)]
#[error_bound(T: std::fmt::Debug + Drop)]
#[error("{why}")]
pub struct RefusedFirst<T> {
    /// The refusal.
    pub why: ValueFault,
    /// The addresses and first values that were handed in.
    pub first: Vec<(u16, u64)>,
    /// The lists that were handed in, a list for each processor.
    pub lists: Vec<Vec<T>>,
}
