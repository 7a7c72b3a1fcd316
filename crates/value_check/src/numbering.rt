//! Numbers for pairs: equal pairs have one number.
ghost use Rattle.std.specs.Prelude.{◌<◌, ◌^◌, length, IfOk};
ghost use Rattle.value_check.specs.Internal.Numbering.{IsNumbering};

use std::alloc::Global;
use std::collections::HashMap;
use tso_ops::OutOfMemory;

/// The numbers of some pairs, in their order, and how many different ones there are.
#[derive(Drop)]
pub(crate) struct Numbering {
    pub(crate) numbers: Vec<u32>,
    pub(crate) count: usize,
}

/// Numbers pairs: two have one number exactly where they are equal. OutOfMemory where an allocation was refused.
pub(crate) fn number_pairs(alloc: Global, pairs: &[(u64, u64)]) -> Result<Numbering, OutOfMemory>
    requires few { length pairs.now < 2 ^ 32 }
    ensures { IfOk result (λ n. IsNumbering pairs.now n.numbers.items n.count) }
{
    let mut found = HashMap::new(alloc);
    let mut numbers = Vec::new(alloc);
    let mut count: usize = 0;
    for pair in pairs {
        let known = found.get(pair).copied();
        let number = match known {
            Some(number) => number,
            None => {
                let new = count as u32;
                found.insert(*pair, new)?;
                count += 1;
                new
            }
        };
        numbers.push(number)?;
    }
    Ok(Numbering { numbers, count })
}
