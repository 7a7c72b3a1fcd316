//! The stores of a log by address and value, and the first values by address.
ghost use Rattle.std.specs.Prelude.{◌≡◌, ℕ, length, IfOk, unwrap_or, nat_eq};
ghost use Rattle.std.specs.HashMap.{get};
ghost use Rattle.tso_ops.specs.Settings.{first_value};
ghost use Rattle.log_selections.specs.Internal.Writers.{FindsWriters, with_store};

use crate::accesses::Access;
use std::alloc::Global;
use std::collections::HashMap;
use tso_ops::OutOfMemory;

/// The stores that wrote a value to an address.
#[derive(Clone, Copy)]
pub(crate) enum Writers {
    /// One store, of this number.
    One(usize),
    /// Two or more.
    Several,
}

/// The stores among the accesses, by address and value.
pub(crate) fn find_writers(
    alloc: Global,
    accesses: &[Access],
) -> Result<HashMap<(u64, u64), Writers>, OutOfMemory>
    ensures { IfOk result (FindsWriters accesses.now (length accesses.now)) }
{
    let mut writers = HashMap::new(alloc);
    for (k, access) in accesses.iter().enumerate() {
        if !access.load {
            let written = (access.a, access.value);
            let found = with_store(writers.get(&written).copied(), k + 1);
            writers.insert(written, found)?;
        }
    }
    Ok(writers)
}

/// The stores that wrote a value, with this one after those found.
fn with_store(found: Option<Writers>, number: usize) -> Writers
    ensures { result ≡ with_store found number }
{
    match found {
        None => Writers::One(number),
        Some(_) => Writers::Several,
    }
}

/// The first values, by address: of two entries of one address the first counts.
pub(crate) fn find_first_values(
    alloc: Global,
    first: &[(u64, u64)],
) -> Result<HashMap<u64, u64>, OutOfMemory>
    ensures { IfOk result (λ values. (a : ℕ) → unwrap_or (get nat_eq values a) 0 ≡ first_value first.now a) }
{
    let mut values = HashMap::new(alloc);
    let mut left = first.len();
    while left > 0 {
        left -= 1;
        values.insert(first[left].0, first[left].1)?;
    }
    Ok(values)
}
