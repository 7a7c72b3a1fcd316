//! Why a run gave no record.
ghost use Rattle.std.specs.Prelude.{◌≡◌};
ghost use Rattle.issue_desk.specs.declared.faults.RunFault.TheVariants.{OutOfMemory as NoMemory};

use std::alloc::{AllocError, AllocFailed};
use thiserror::Error;

/// Why a run gave no record, in the order in which a fault is chosen.
#[derive(Clone, Copy, Debug, PartialEq, Eq, Error)]
pub enum RunFault {
    /// The unit answered it, or an allocation was refused.
    #[error("OutOfMemory")]
    OutOfMemory,
    /// The system refused a thread.
    #[error("NoThread")]
    NoThread,
    /// What processor `p` was answered, the unit's steps and the program's operations don't agree; they do for each
    /// processor before it.
    #[error("Torn {p}")]
    Torn { p: usize },
    /// The record isn't of the program that was handed in, or not of a unit as lawful as the one that was handed in.
    #[error("OtherProgram")]
    OtherProgram,
}

impl From<AllocError> for RunFault {
    ghost from_gives = { λ _ fault. fault ≡ NoMemory };

    fn from(_error: AllocError) -> RunFault {
        RunFault::OutOfMemory
    }
}

impl<T: Drop> From<AllocFailed<T>> for RunFault {
    ghost from_gives = { λ _ fault. fault ≡ NoMemory };

    fn from(_error: AllocFailed<T>) -> RunFault {
        RunFault::OutOfMemory
    }
}
