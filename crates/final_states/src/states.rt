//! What a run of a program leaves.

ghost use Rattle.std.specs.Prelude.{◌≡◌};
ghost use Rattle.final_states.specs.declared.states.StatesFault.TheVariants.{OutOfMemory};

use std::alloc::{AllocError, AllocFailed};
use thiserror::Error;
use tso_ops::Outcome;

/// What a complete run of a program leaves: what each processor was answered, and the last values of memory.
#[derive(Debug, Drop)]
pub struct FinalState {
    /// What each processor did and read, in program order.
    pub lists: Vec<Vec<Outcome>>,
    /// The addresses that the program stores to, in ascending order, with the values that memory has there at last.
    pub last: Vec<(u16, u64)>,
}

/// Why the final states of a program aren't found.
#[derive(Debug, Drop, Error)]
pub enum StatesFault {
    /// Runs of the program reach more states than the limit.
    #[error("runs of the program reach more states than the limit")]
    TooManyStates,
    /// An allocation was refused.
    #[error("an allocation was refused")]
    OutOfMemory,
}

impl From<AllocError> for StatesFault {
    ghost from_gives = { λ _ fault. fault ≡ OutOfMemory };

    fn from(_error: AllocError) -> StatesFault {
        StatesFault::OutOfMemory
    }
}

impl<T: Drop> From<AllocFailed<T>> for StatesFault {
    ghost from_gives = { λ _ fault. fault ≡ OutOfMemory };

    fn from(_error: AllocFailed<T>) -> StatesFault {
        StatesFault::OutOfMemory
    }
}
