//! Allocations refused in turn: `rt try --test --fail-alloc N` refuses the Nth of each test.
//!
//! The call that meets it answers OutOfMemory, and the next call the ordinary answer.

use super::runs::{BUFFERING, Way, counted_unit, numbers_in, run_on};
use std::alloc::Global;
use std::sync::Arc;
use std::sync::atomic::Ordering;
use std::test::Fail;
use traces_for_tests::{expect_equal, program_of};
use tso_ops::Act::{Drain, Issue};
use tso_ops::{Order, OutOfMemory, Program, ValueFault};
use unit_core::{Account, MemoryUnit, Step};
use unit_kinds::{PartialOrderUnit, StoreBufferUnit};
use units_for_tests::{CallCounts, drops_of, new_counts};

/// Makes a call of the kind of this number on processor 0.
fn call<U: MemoryUnit>(unit: &mut U, kind: u8) -> Result<(), OutOfMemory> {
    match kind {
        0 => unit.load(0, 1).map(|_r| ()),
        1 => unit.store(0, 1, 5),
        2 => unit.swap(0, 1, 6).map(|_r| ()),
        3 => unit.membar(0),
        4 => unit.stbar(0),
        _ => unit.drain(0).map(|_some| ()),
    }
}

/// How many steps the unit has taken, and how many entries wait in the buffer of processor 0.
fn numbers_of<U: MemoryUnit>(unit: &U) -> (usize, usize) {
    (unit.steps().len(), unit.waiting(0))
}

/// Makes a call; where it is refused, sees that the unit is as it was, and makes it again.
fn call_again<U: MemoryUnit>(unit: &mut U, kind: u8) -> Result<(), Fail> {
    let before = numbers_of(unit);
    if call(unit, kind).is_err() {
        expect_equal("a refused call", numbers_of(unit), before)?;
        call(unit, kind)?;
    }
    Ok(())
}

/// What processor 1 loads from address 1, once more where it is refused: the last step.
fn last_load<U: MemoryUnit>(unit: &mut U) -> Result<Option<Step>, OutOfMemory> {
    if unit.load(1, 1).is_err() {
        unit.load(1, 1)?;
    }
    Ok(unit.steps().last().copied())
}

/// Makes two stores and a call of this kind eight times on a unit whose buffers hold more: how many steps it has taken then,
/// and what memory has at last.
fn refused_calls(
    unit: Box<dyn MemoryUnit + Send>,
    kind: u8,
) -> Result<(usize, Option<Step>), Fail> {
    let mut unit = unit;
    for _round in 0..8 {
        call_again(&mut unit, 1)?;
        call_again(&mut unit, 1)?;
        call_again(&mut unit, kind)?;
    }
    let (steps, _) = numbers_of(&unit);
    Ok((steps, last_load(&mut unit)?))
}

/// A lawful unit with buffers.
#[derive(Clone, Copy)]
enum Buffers {
    /// Of TSO: each processor's stores leave in order.
    InOrder,
    /// Of PSO: those to each address do.
    PerAddress,
}

/// A unit of this kind with the largest buffers, in a box.
fn unit_of(alloc: Global, buffers: Buffers) -> Result<Box<dyn MemoryUnit + Send>, OutOfMemory> {
    match buffers {
        Buffers::InOrder => Ok(Box::new(alloc, StoreBufferUnit::new(alloc, 64)?)?),
        Buffers::PerAddress => Ok(Box::new(alloc, PartialOrderUnit::new(alloc, 64)?)?),
    }
}

fn unit_again(alloc: Global, buffers: Buffers) -> Result<Box<dyn MemoryUnit + Send>, OutOfMemory> {
    match unit_of(alloc, buffers) {
        Ok(unit) => Ok(unit),
        Err(OutOfMemory) => unit_of(alloc, buffers),
    }
}

/// A unit, a kind of call, the steps of 16 stores and eight calls of it, and what memory has at last.
static CALLS: [(Buffers, u8, usize, u64); 12] = [
    (Buffers::InOrder, 0, 24, 0),
    (Buffers::InOrder, 1, 24, 0),
    (Buffers::InOrder, 2, 40, 6),
    (Buffers::InOrder, 3, 40, 5),
    (Buffers::InOrder, 4, 24, 0),
    (Buffers::InOrder, 5, 24, 5),
    (Buffers::PerAddress, 0, 24, 0),
    (Buffers::PerAddress, 1, 24, 0),
    (Buffers::PerAddress, 2, 40, 6),
    (Buffers::PerAddress, 3, 40, 5),
    (Buffers::PerAddress, 4, 24, 0),
    (Buffers::PerAddress, 5, 24, 5),
];

#[test]
fn refused_allocations_of_calls(rt: HostRuntime) -> Result<(), Fail> {
    for (buffers, kind, steps, r) in &CALLS {
        let found = refused_calls(unit_again(rt.alloc(), *buffers)?, *kind)?;
        let load = Step::Load { p: 1, a: 1, r: *r };
        expect_equal(*kind, found, (*steps, Some(load)))?;
    }
    Ok(())
}

fn buffering(alloc: Global) -> Result<Program, ValueFault> {
    match program_of(alloc, Order::Tso, &BUFFERING) {
        Ok(program) => Ok(program),
        Err(_) => program_of(alloc, Order::Tso, &BUFFERING),
    }
}

/// Numbers of calls, made once more where an allocation was refused.
fn counts_again(alloc: Global) -> Result<Arc<CallCounts, Global>, OutOfMemory> {
    match new_counts(alloc) {
        Ok(counts) => Ok(counts),
        Err(_) => new_counts(alloc),
    }
}

/// Whether the run on a serial unit that counts its calls gives a lawful record.
fn is_lawful(
    alloc: Global,
    way: Way,
    program: &Program,
    counts: &Arc<CallCounts, Global>,
    account: &mut Account,
) -> Result<bool, OutOfMemory> {
    let unit = counted_unit(alloc, false, 0, counts)?;
    Ok(run_on(alloc, way, unit, program, account)?.lawful())
}

/// Runs a program, once more where an allocation was refused; a unit whose end was refused has closed the account, with one
/// drop.
fn is_lawful_again(
    alloc: Global,
    way: Way,
    program: &Program,
    counts: &Arc<CallCounts, Global>,
    account: &mut Account,
) -> Result<bool, Fail> {
    if let Ok(lawful) = is_lawful(alloc, way, program, counts, account) {
        return Ok(lawful);
    }
    if account.closed {
        let expected = match way {
            Way::Concluded => ([2, 2, 1, 1, 2], true),
            Way::By(_) => numbers_in(account),
        };
        expect_equal("a refused end", numbers_in(account), expected)?;
        let is_balanced = account.drains == account.stores;
        expect_equal("a refused end", (is_balanced, drops_of(counts)), (true, 1))?;
    }
    counts.drops.store(0, Ordering::SeqCst);
    Ok(is_lawful(alloc, way, program, counts, account)?)
}

/// Compares how `BUFFERING` is run where an allocation is refused.
fn expect_run(alloc: Global, way: Way) -> Result<(), Fail> {
    let program = buffering(alloc)?;
    let counts = counts_again(alloc)?;
    let mut account = Account::new();
    let lawful = is_lawful_again(alloc, way, &program, &counts, &mut account)?;
    expect_equal("lawful", lawful, true)?;
    expect_equal("account", numbers_in(&account), ([2, 2, 1, 1, 2], true))?;
    expect_equal("drops", drops_of(&counts), 1)
}

#[test]
fn refused_allocations_close_the_account(rt: HostRuntime) -> Result<(), Fail> {
    expect_run(rt.alloc(), Way::Concluded)
}

#[test]
fn refused_allocations_close_the_account_of_a_replay(rt: HostRuntime) -> Result<(), Fail> {
    expect_run(rt.alloc(), Way::By(&[Issue(0), Issue(1), Drain(0)]))
}
