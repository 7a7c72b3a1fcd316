//! The operations of a log of which something is known.
ghost use Rattle.std.specs.Prelude.{◌≡◌, ◌+◌, ℕ, List, IfOk, map, nat_eq};
ghost use Rattle.std.specs.HashSet.{contains};
ghost use Rattle.std.specs.List.{count_by, list_any, sum_by};
ghost use Rattle.tso_ops.specs.Values.{rows};
ghost use Rattle.log_text.specs.LogTexts.{is_at_one_of, is_operation_at, without_addresses};
ghost use Rattle.log_text.specs.LogValues.{log_value};

use crate::logs::{Log, LogOperation, LoggedOperation};
use std::alloc::Global;
use std::collections::HashSet;
use tso_ops::OutOfMemory;

/// The log without its operations at these addresses, and with how many they are.
pub(crate) fn leave_out(alloc: Global, log: Log, addresses: &[u64]) -> Result<Log, OutOfMemory>
    ensures { IfOk result (λ left. log_value left ≡ record (log_value log) {
      lists = map (without_addresses addresses.now) (rows log.lists.items);
      left_out = sum_by (count_by (is_operation_at addresses.now)) (rows log.lists.items);
    }) }
{
    let addresses = set_of(alloc, addresses)?;
    let mut lists = Vec::new(alloc);
    let mut left_out: usize = 0;
    for list in &log.lists {
        let count = count_at(list, &addresses);
        left_out = add(left_out, count)?;
        lists.push(operations_elsewhere(alloc, list, &addresses)?)?;
    }
    Ok(Log {
        order: log.order,
        first: log.first,
        lists,
        left_out,
    })
}

/// The sum of two numbers; OutOfMemory above 64 bits: no memory holds so many operations.
fn add(count: usize, more: usize) -> Result<usize, OutOfMemory>
    ensures { IfOk result (λ sum. sum ≡ count + more) }
{
    count.checked_add(more).ok_or(OutOfMemory)
}

/// The set of these addresses.
fn set_of(alloc: Global, addresses: &[u64]) -> Result<HashSet<u64>, OutOfMemory>
    ensures { IfOk result (λ found. (a : ℕ) → contains nat_eq found a ≡ list_any (nat_eq a) addresses.now) }
{
    let mut found = HashSet::new(alloc);
    for a in addresses {
        found.insert(*a)?;
    }
    Ok(found)
}

/// The operations of a processor that aren't at these addresses.
fn operations_elsewhere(
    alloc: Global,
    list: &[LoggedOperation],
    addresses: &HashSet<u64>,
) -> Result<Vec<LoggedOperation>, OutOfMemory>
    ensures { IfOk result (λ left. (all : List ℕ) → ((a : ℕ) → contains nat_eq addresses.now a ≡ list_any (nat_eq a) all) →
        left.items ≡ without_addresses all list.now) }
{
    let mut left = Vec::new(alloc);
    for logged in list {
        if !is_at_one_of(logged.operation, addresses) {
            left.push(*logged)?;
        }
    }
    Ok(left)
}

/// How many operations of a processor are at these addresses.
fn count_at(list: &[LoggedOperation], addresses: &HashSet<u64>) -> usize
    ensures { (all : List ℕ) → ((a : ℕ) → contains nat_eq addresses.now a ≡ list_any (nat_eq a) all) → result ≡ count_by (is_operation_at all) list.now }
{
    let mut count: usize = 0;
    for logged in list {
        if is_at_one_of(logged.operation, addresses) {
            count += 1;
        }
    }
    count
}

/// Whether an operation is at an address of these.
fn is_at_one_of(operation: LogOperation, addresses: &HashSet<u64>) -> bool
    ensures { (all : List ℕ) → ((a : ℕ) → contains nat_eq addresses.now a ≡ list_any (nat_eq a) all) → result ≡ is_at_one_of all operation }
{
    match operation {
        LogOperation::Ld { a, .. } | LogOperation::St { a, .. } | LogOperation::Sw { a, .. } =>
            addresses.contains(&a),
        LogOperation::Mb | LogOperation::Sb => false,
    }
}
