//! Why rounds were given up.
ghost use Rattle.std.specs.Prelude.{◌≡◌};
ghost use Rattle.round_pool.specs.declared.faults.PoolFault.TheVariants.{OutOfMemory as NoMemory};

use std::alloc::{AllocError, AllocFailed};
use thiserror::Error;

/// Why rounds were given up, in the order in which a fault is chosen.
#[derive(Clone, Copy, Debug, PartialEq, Eq, Error)]
pub enum PoolFault {
    /// An allocation was refused, the caller's or a worker's.
    #[error("OutOfMemory")]
    OutOfMemory,
    /// The system refused a thread.
    #[error("NoThread")]
    NoThread,
}

impl From<AllocError> for PoolFault {
    ghost from_gives = { λ _ fault. fault ≡ NoMemory };

    fn from(_error: AllocError) -> PoolFault {
        PoolFault::OutOfMemory
    }
}

impl<T: Drop> From<AllocFailed<T>> for PoolFault {
    ghost from_gives = { λ _ fault. fault ≡ NoMemory };

    fn from(_error: AllocFailed<T>) -> PoolFault {
        PoolFault::OutOfMemory
    }
}
