//! The loads and stores of a log, and their numbers: those of a trace's events.
ghost use Rattle.std.specs.Prelude.{◌≡◌, ◌++◌, suc, true, false, length, IfOk, OnOk};
ghost use Rattle.tso_ops.specs.Values.{rows};
ghost use Rattle.log_selections.specs.Internal.Accesses.{accesses_of, accesses_of_list, accesses_of_lists, numbers_from, numbers_of_lists};

use log_text::{LogOperation, LoggedOperation};
use std::alloc::Global;
use tso_ops::OutOfMemory;

/// A load or a store of a log, also that of a swap.
#[derive(Clone, Copy)]
pub(crate) struct Access {
    /// Whether it is a load; else it is a store.
    pub(crate) load: bool,
    /// The address.
    pub(crate) a: u64,
    /// The value that it read or stored.
    pub(crate) value: u64,
}

/// The accesses of a log, in the order of their numbers, and for each operation of each processor the number of its first
/// access, which a barrier shares with the next operation.
#[derive(Drop)]
pub(crate) struct NumberedAccesses {
    pub(crate) accesses: Vec<Access>,
    pub(crate) numbers: Vec<Vec<usize>>,
}

/// Numbers the accesses of a log with these lists.
pub(crate) fn number_accesses(
    alloc: Global,
    lists: &[Vec<LoggedOperation>],
) -> Result<NumberedAccesses, OutOfMemory>
    ensures accesses { IfOk result (λ n. n.accesses.items ≡ accesses_of_lists (rows lists.now)) }
    ensures numbers { IfOk result (λ n. rows n.numbers.items ≡ numbers_of_lists 1 (rows lists.now)) }
{
    let mut accesses = Vec::new(alloc);
    let mut numbers = Vec::new(alloc);
    for list in lists {
        numbers.push(number_list(alloc, list, &mut accesses)?)?;
    }
    Ok(NumberedAccesses { accesses, numbers })
}

/// Pushes the accesses of one processor: the number of the first one of each of its operations.
fn number_list(
    alloc: Global,
    list: &[LoggedOperation],
    accesses: &mut Vec<Access>,
) -> Result<Vec<usize>, OutOfMemory>
    ensures accesses { OnOk result (accesses.new.items ≡ accesses.old.items ++ accesses_of_list list.now) }
    ensures numbers { IfOk result (λ numbers. numbers.items ≡ numbers_from (suc (length accesses.old.items)) list.now) }
{
    let mut numbers = Vec::new(alloc);
    for logged in list {
        numbers.push(accesses.len() + 1)?;
        push_accesses(logged.operation, accesses)?;
    }
    Ok(numbers)
}

/// Pushes the accesses of an operation: a swap's load and then its store, of a barrier none.
fn push_accesses(operation: LogOperation, accesses: &mut Vec<Access>) -> Result<(), OutOfMemory>
    ensures { OnOk result (accesses.new.items ≡ accesses.old.items ++ accesses_of operation) }
{
    match operation {
        LogOperation::Ld { a, r } => accesses.push(load_of(a, r))?,
        LogOperation::St { a, v } => accesses.push(store_of(a, v))?,
        LogOperation::Sw { a, r, v } => {
            accesses.push(load_of(a, r))?;
            accesses.push(store_of(a, v))?;
        }
        LogOperation::Mb | LogOperation::Sb => {}
    }
    Ok(())
}

fn load_of(a: u64, value: u64) -> Access
    ensures { result ≡ record { load = true; a = a; value = value } }
{
    Access {
        load: true,
        a,
        value,
    }
}

fn store_of(a: u64, value: u64) -> Access
    ensures { result ≡ record { load = false; a = a; value = value } }
{
    Access {
        load: false,
        a,
        value,
    }
}
