//! The calls of a unit that a run makes: how often an issuer drains, after which of its operations, and that the lock of the desk
//! is free between them.
//!
//! The expected numbers come from words of PCG64 that were computed without rand_pcg and rand_core, by a program that gives
//! the published words of PCG64 and PCG32.

use super::desk_runs::threads_at;
use issue_desk::{Gate, OpenGate, RunThreads, run_over};
use std::alloc::{AllocError, Global};
use std::sync::atomic::{AtomicUsize, Ordering};
use std::sync::{Arc, Wait};
use std::test::Fail;
use std::thread::{Threads, yield_now};
use traces_for_tests::{expect_equal, program_of};
use tso_ops::{Op, Order, OutOfMemory, Program};
use unit_kinds::StoreBufferUnit;
use units_for_tests::{Call, ForwardingUnit, OTHER_ACCOUNT, new_log};

/// The calls of a unit on which the program is run past this gate, by issuers with this drain seed; none where there is no
/// record.
fn calls_of<H: Threads + Wait + Sync, G: Gate + Sync>(
    rt: &H,
    alloc: Global,
    program: &Program,
    gate: &G,
    drain_seed: u64,
) -> Result<Vec<Call>, OutOfMemory> {
    let log = new_log(alloc, 128)?;
    let unit = ForwardingUnit::new(StoreBufferUnit::new(alloc, 64)?, Arc::try_clone(&log)?);
    let RunThreads { issuers, .. } = threads_at(gate, drain_seed, 0);
    let mut account = OTHER_ACCOUNT;
    match run_over(rt, alloc, program, unit, issuers, &mut account) {
        Ok(_) => log.calls(alloc),
        Err(_) => Ok(Vec::new(alloc)),
    }
}

/// How many calls of `drain` follow each other call.
fn drains_after_each(alloc: Global, calls: &[Call]) -> Result<Vec<u64>, AllocError> {
    let mut drains: Vec<u64> = Vec::new(alloc);
    for call in calls {
        if *call != Call::Drain {
            drains.push(0)?;
        } else if let Some(last) = drains.last_mut() {
            *last = last.wrapping_add(1);
        }
    }
    Ok(drains)
}

const STORES: [Op; 10] = [
    Op::St { a: 1, v: 1 },
    Op::St { a: 1, v: 2 },
    Op::St { a: 1, v: 3 },
    Op::St { a: 1, v: 4 },
    Op::St { a: 1, v: 5 },
    Op::St { a: 1, v: 6 },
    Op::St { a: 1, v: 7 },
    Op::St { a: 1, v: 8 },
    Op::St { a: 1, v: 9 },
    Op::St { a: 1, v: 10 },
];

const LOADS: [Op; 10] = [Op::Ld { a: 1 }; 10];

/// Operations, a drain seed, and how many calls of `drain` follow each operation of a run. After the last operation these are also
/// the calls that end the unit: for each processor, one for each entry that waits and one that finds none.
///
/// The words modulo 3 are 2 0 2 2 2 1 1 2 0 2 for seed 7, and no entry waits in the end; 1 2 2 1 1 1 1 0 1 1 for seed 42, and
/// one waits. Processor 1 is seeded by 6 and by 0, so the words are 2 2 0 2 0 0 1 2 2 0, of which one entry is left, and
/// 0 2 0 0 0 2 0 1 2 0, of which three are left; the unit's end drains processor 0 too. With loads alone each drain finds
/// nothing.
const DRAINS: [(&[&[Op]], u64, [u64; 10]); 5] = [
    (&[&STORES], 7, [2, 0, 2, 2, 2, 1, 1, 2, 0, 3]),
    (&[&STORES], 42, [1, 2, 2, 1, 1, 1, 1, 0, 1, 3]),
    (&[&[], &STORES], 5, [2, 2, 0, 2, 0, 0, 1, 2, 2, 3]),
    (&[&[], &STORES], u64::MAX, [0, 2, 0, 0, 0, 2, 0, 1, 2, 5]),
    (&[&LOADS], 7, [1, 0, 1, 1, 1, 1, 1, 1, 0, 2]),
];

#[test]
fn drains_are_those_of_the_seed(rt: HostRuntime) -> Result<(), Fail> {
    for (ops, seed, expected) in DRAINS {
        let program = program_of(rt.alloc(), Order::Tso, ops)?;
        let calls = calls_of(&rt, rt.alloc(), &program, &OpenGate, seed)?;
        let drains = drains_after_each(rt.alloc(), &calls)?;
        expect_equal(seed, drains.as_slice(), expected.as_slice())?;
    }
    Ok(())
}

/// How often processor 1 looks for processor 0.
const TURNS: u64 = 20_000;

/// A gate at which processor 1 waits until processor 0 has done so many operations.
#[derive(Drop)]
struct Behind {
    done: usize,
    /// How often it has.
    reached: AtomicUsize,
}

impl Gate for Behind {
    fn before(&self, p: usize, done: usize) {
        if p == 0 && done == self.done {
            self.reached.fetch_add(1, Ordering::SeqCst);
        }
        if p == 1 && done == 0 {
            wait_for(&self.reached);
        }
    }
}

/// Yields until this is more than 0, up to `TURNS` times.
fn wait_for(reached: &AtomicUsize) {
    for _ in 0..TURNS {
        if reached.load(Ordering::SeqCst) > 0 {
            return;
        }
        yield_now();
    }
}

/// 32 stores, and then a load of another processor.
fn stores_and_load(alloc: Global) -> Result<Program, Fail> {
    let mut stores = Vec::new(alloc);
    for v in 1..33u64 {
        stores.push(Op::St { a: 1, v })?;
    }
    Ok(program_of(alloc, Order::Tso, &[&stores, &[Op::Ld { a: 2 }]])?)
}

/// A drain seed by which processor 0 drains after many of its stores, and processor 1 never after its load.
const DRAINS_OF_0: u64 = 16;

/// Whether these three calls follow one another before some store; after the last one the end of the unit drains too.
fn has_before_a_store(calls: &[Call], three: [Call; 3]) -> bool {
    let mut is_there = false;
    for i in 0..calls.len() {
        if is_there && calls[i] == Call::Store {
            return true;
        }
        if calls[i..].starts_with(&three) {
            is_there = true;
        }
    }
    false
}

/// How many runs are tried.
const RUNS: usize = 40_000;

/// Whether these three calls follow one another in one of the runs that are tried.
fn is_seen<H: Threads + Wait + Sync>(
    rt: &H,
    alloc: Global,
    program: &Program,
    three: [Call; 3],
) -> Result<bool, OutOfMemory> {
    for run in 0..RUNS {
        let behind = Behind {
            done: run % 16,
            reached: AtomicUsize::new(0),
        };
        let calls = calls_of(rt, alloc, program, &behind, DRAINS_OF_0)?;
        if has_before_a_store(&calls, three) {
            return Ok(true);
        }
    }
    Ok(false)
}

/// A load after a store and before a drain of it: only processor 0 drains before the end. And a load between two drains of one
/// store, since no store stands between them.
const THREES: [[Call; 3]; 2] = [
    [Call::Store, Call::Load, Call::Drain],
    [Call::Drain, Call::Load, Call::Drain],
];

/// The lock is free between an operation and its drains, and between two of them: in one of many runs the operation of another
/// processor comes there.
#[test]
fn operation_comes_among_the_drains_of_another(rt: HostRuntime) -> Result<(), Fail> {
    let program = stores_and_load(rt.alloc())?;
    for three in THREES {
        let is_seen = is_seen(&rt, rt.alloc(), &program, three)?;
        expect_equal(three, is_seen, true)?;
    }
    Ok(())
}
