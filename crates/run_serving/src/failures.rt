//! Why nothing was printed of a run, or not all.
ghost use Rattle.std.specs.Prelude.{◌≡◌};
ghost use Rattle.text_streams.specs.declared.faults.Fault.TheVariants.{OutOfMemory as NoMemory};
ghost use Rattle.run_serving.specs.Failures.{failure_of};
ghost use Rattle.run_serving.specs.declared.failures.RunFailure.TheVariants.{Fault as ByFault};

use issue_desk::RunFault;
use std::alloc::{AllocError, AllocFailed};
use text_streams::Fault;

/// Why nothing was printed of a run, or not all.
#[derive(Clone, Copy)]
pub enum RunFailure {
    /// A fault as of any other request.
    Fault(Fault),
    /// There is no record: what processor `p` was answered, its steps and its operations don't agree.
    Torn { p: usize },
    /// There is no record: it wasn't one of the program, or of the unit.
    OtherProgram,
}

impl From<Fault> for RunFailure {
    ghost from_gives = { λ fault failure. failure ≡ ByFault fault };

    fn from(fault: Fault) -> RunFailure {
        RunFailure::Fault(fault)
    }
}

impl From<AllocError> for RunFailure {
    ghost from_gives = { λ _ failure. failure ≡ ByFault NoMemory };

    fn from(_error: AllocError) -> RunFailure {
        RunFailure::Fault(Fault::OutOfMemory)
    }
}

impl<T: Drop> From<AllocFailed<T>> for RunFailure {
    ghost from_gives = { λ _ failure. failure ≡ ByFault NoMemory };

    fn from(_error: AllocFailed<T>) -> RunFailure {
        RunFailure::Fault(Fault::OutOfMemory)
    }
}

/// The failure of a run that gave no record.
pub fn failure_of(fault: RunFault) -> RunFailure
    ensures { result ≡ failure_of fault }
{
    match fault {
        RunFault::OutOfMemory => RunFailure::Fault(Fault::OutOfMemory),
        RunFault::NoThread => RunFailure::Fault(Fault::NoThread),
        RunFault::Torn { p } => RunFailure::Torn { p },
        RunFault::OtherProgram => RunFailure::OtherProgram,
    }
}
