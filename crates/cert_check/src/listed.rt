//! Whether the edges of paths and cycles are steps of a certificate.
ghost use Rattle.std.specs.Prelude.{◌↔◌, IsTrue};
ghost use Rattle.order_paths.specs.Paths.{Linked, IsCycle};
ghost use Rattle.tso_model.specs.Certs.{IsStep};
ghost use Rattle.cert_check.specs.Internal.Pairs.{ListsOf};

use crate::pairs::Pairs;
use tso_cert::CertStep;

/// Whether each number has a step to the next.
pub(crate) fn is_linked(pairs: &Pairs, steps: &[CertStep], numbers: &[u64]) -> bool
    requires { ListsOf pairs.now steps.now }
    ensures { IsTrue result ↔ Linked (λ x y. IsStep steps.now x y) numbers.now }
{
    let mut rest = numbers;
    while let [first, second, ..] = rest {
        if !pairs.lists(steps, *first, *second) {
            return false;
        }
        rest = &rest[1..];
    }
    true
}

/// Whether each number of the cycle has a step to the next, and the last one to the first.
pub(crate) fn is_cycle(pairs: &Pairs, steps: &[CertStep], cycle: &[u64]) -> bool
    requires { ListsOf pairs.now steps.now }
    ensures { IsTrue result ↔ IsCycle (λ x y. IsStep steps.now x y) cycle.now }
{
    match cycle {
        [] => false,
        [first, ..] => {
            is_linked(pairs, steps, cycle) && pairs.lists(steps, cycle[cycle.len() - 1], *first)
        },
    }
}
