//! What the workers of a round answered.
ghost use Rattle.std.specs.Prelude.{◌≡◌, Ok, Err, IfOk, IfErr};
ghost use Rattle.round_pool.specs.declared.faults.PoolFault.TheVariants.{OutOfMemory as NoMemory};

use crate::faults::PoolFault;
use tso_ops::OutOfMemory;

/// What a worker and those before it answered, or the one fault to report of both: OutOfMemory of the worker, else the
/// fault of those before it as it is.
///
/// `rounds` calls it for each worker of a round, from worker 1 up: so OutOfMemory of a worker comes before NoThread.
pub fn both_answers<T: Drop, U: Drop>(
    own: Result<T, OutOfMemory>,
    rest: Result<U, PoolFault>,
) -> Result<(T, U), PoolFault>
    ensures memory { IfErr own (λ _. result ≡ Err NoMemory) }
    ensures rest { IfOk own (λ _. IfErr rest (λ fault. result ≡ Err fault)) }
    ensures both { IfOk own (λ first. IfOk rest (λ second. result ≡ Ok (first, second))) }
{
    let own = own?;
    let rest = rest?;
    Ok((own, rest))
}
