//! Whether the edges of paths and cycles are pairs in force.
ghost use Rattle.std.specs.Prelude.{◌↔◌, IsTrue};
ghost use Rattle.order_paths.specs.Paths.{Linked, IsCycle};
ghost use Rattle.refutation_check.specs.Internal.Pairs.{InForce, IsTableOf};

use crate::pairs::PairsInForce;

/// Whether each number and the next are a pair in force.
pub(crate) fn is_linked(pairs: &PairsInForce, numbers: &[u64]) -> bool
    requires { IsTableOf pairs.now.table pairs.now.pairs.items }
    ensures { IsTrue result ↔ Linked (InForce pairs.now.pairs.items) numbers.now }
{
    let mut rest = numbers;
    while let [first, second, ..] = rest {
        if !pairs.has(*first as usize, *second as usize) {
            return false;
        }
        rest = &rest[1..];
    }
    true
}

/// Whether each number of the cycle and the next, and the last one and the first, are a pair in force.
pub(crate) fn is_cycle(pairs: &PairsInForce, cycle: &[u64]) -> bool
    requires { IsTableOf pairs.now.table pairs.now.pairs.items }
    ensures { IsTrue result ↔ IsCycle (InForce pairs.now.pairs.items) cycle.now }
{
    match cycle {
        [] => false,
        [first, ..] => {
            is_linked(pairs, cycle) && pairs.has(cycle[cycle.len() - 1] as usize, *first as usize)
        },
    }
}
