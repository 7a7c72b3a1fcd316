//! Why a call gave no answer.
ghost use Rattle.std.specs.Prelude.{◌≡◌};
ghost use Rattle.text_streams.specs.declared.faults.Fault.TheVariants.{OutOfMemory};

use std::alloc::{AllocError, AllocFailed};
use thiserror::Error;

/// Why a call gave no answer.
#[derive(Clone, Copy, Debug, PartialEq, Eq, Error)]
pub enum Fault {
    /// An allocation was refused.
    #[error("OutOfMemory")]
    OutOfMemory,
    /// A reader failed, gave neither its end nor the byte after the limit within 2,097,152 calls, or had a certificate of
    /// more than 67,108,864 bytes.
    #[error("Read")]
    Read,
    /// A writer failed, took no byte, or was interrupted more than 1,048,576 times.
    #[error("Write")]
    Write,
    /// The system refused a thread.
    #[error("NoThread")]
    NoThread,
    /// The run of this seed left no record.
    #[error("Missing {0}")]
    Missing(u64),
}

impl From<AllocError> for Fault {
    ghost from_gives = { λ _ fault. fault ≡ OutOfMemory };

    fn from(_error: AllocError) -> Fault {
        Fault::OutOfMemory
    }
}

impl<T: Drop> From<AllocFailed<T>> for Fault {
    ghost from_gives = { λ _ fault. fault ≡ OutOfMemory };

    fn from(_error: AllocFailed<T>) -> Fault {
        Fault::OutOfMemory
    }
}
