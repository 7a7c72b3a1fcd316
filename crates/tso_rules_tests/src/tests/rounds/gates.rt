//! What a gate sees of the workers.

use super::{expect, made};
use round_pool::PoolGate;
use std::alloc::{AllocGlobal, Global};
use std::sync::Wait;
use std::sync::atomic::{AtomicU64, Ordering};
use std::test::Fail;
use std::thread::{Threads, yield_now};
use traces_for_tests::{
    TWO_SWAPS_BOTH_FIRST, independent_reads, ld, st, store_buffering, trace_of,
};
use tso_ops::{Order, Trace, ValueFault};

/// The rounds number of the trace, by workers with this gate.
fn rounds_by<H: Threads + Wait + AllocGlobal, G: PoolGate + Sync>(
    rt: &H,
    trace: &Trace,
    workers: usize,
    gate: &G,
) -> Result<u64, Fail> {
    Ok(made(rt, rt.alloc(), trace, workers, gate)?.rounds())
}

fn seen(number: &AtomicU64) -> u64 {
    number.load(Ordering::SeqCst)
}

/// How often a call looks for the next.
const TURNS: u64 = 100_000;

/// A gate of which one call, after `before` others, waits for the next.
#[derive(Drop)]
struct Meeting {
    before: u64,
    calls: AtomicU64,
    met: AtomicU64,
}

impl PoolGate for Meeting {
    fn row(&self, _worker: usize, _row: usize) {
        let before = self.calls.fetch_add(1, Ordering::SeqCst);
        if before != self.before {
            return;
        }
        for _ in 0..TURNS {
            if self.calls.load(Ordering::SeqCst) > before.wrapping_add(1) {
                self.met.store(1, Ordering::SeqCst);
                return;
            }
            yield_now();
        }
    }
}

/// A gate that writes down the rows, each below 16, as the digits of a number.
#[derive(Drop)]
struct Rows {
    seen: AtomicU64,
}

impl PoolGate for Rows {
    fn row(&self, _worker: usize, row: usize) {
        let seen = self.seen.load(Ordering::SeqCst);
        self.seen.store(
            seen.wrapping_mul(16).wrapping_add(row as u64),
            Ordering::SeqCst,
        );
    }
}

/// The rows that one worker computes, in their order, as the digits of a number.
fn rows_of<H: Threads + Wait + AllocGlobal>(rt: &H, trace: &Trace) -> Result<u64, Fail> {
    let gate = Rows {
        seen: AtomicU64::new(0),
    };
    rounds_by(rt, trace, 1, &gate)?;
    Ok(seen(&gate.seen))
}

/// The first round adds edges from the loads 2 and 4. The next looks at their rows alone, and finds none.
#[test]
fn workset_of_store_buffering(rt: HostRuntime) -> Result<(), Fail> {
    let rows = rows_of(&rt, &store_buffering(rt.alloc())?)?;
    expect(&rt, "rows", rows, 0x1234_24);
    Ok(())
}

/// Two swaps that both read the first value, 1 and 2, 3 and 4, and a store to another address, 5.
fn two_swaps_and_a_store(alloc: Global) -> Result<Trace, ValueFault> {
    let store = [st(2, 3)];
    let mut rows = TWO_SWAPS_BOTH_FIRST.rows.to_vec(alloc)?;
    rows.push(&store)?;
    trace_of(alloc, Order::Tso, &rows)
}

/// The first round adds edges from load 1 to store 4 and from load 3 to store 2. The stores 2 and 4 reach nothing more by
/// them. Their rows are looked at again since the loads of their swaps reach more, and get an edge each. That of 5 isn't.
#[test]
fn rows_of_two_swaps(rt: HostRuntime) -> Result<(), Fail> {
    let rows = rows_of(&rt, &two_swaps_and_a_store(rt.alloc())?)?;
    expect(&rt, "rows", rows, 0x12345_1234);
    Ok(())
}

/// A gate that counts the calls of the first round by row and those of later rounds by worker, four bits for each row or
/// worker below 16.
#[derive(Drop)]
struct Calls {
    /// The rows of the first round.
    rows: u64,
    calls: AtomicU64,
    of_rows: AtomicU64,
    of_workers: AtomicU64,
}

impl PoolGate for Calls {
    fn row(&self, worker: usize, row: usize) {
        if self.calls.fetch_add(1, Ordering::SeqCst) < self.rows {
            self.of_rows
                .fetch_add(1 << (4 * (row % 16)), Ordering::SeqCst);
        } else {
            self.of_workers
                .fetch_add(1 << (4 * (worker % 16)), Ordering::SeqCst);
        }
    }
}

/// The calls of the first round, which has so many rows, and of later rounds.
fn calls_by<H: Threads + Wait + AllocGlobal>(
    rt: &H,
    trace: &Trace,
    workers: usize,
    rows: u64,
) -> Result<(u64, u64), Fail> {
    let gate = Calls {
        rows,
        calls: AtomicU64::new(0),
        of_rows: AtomicU64::new(0),
        of_workers: AtomicU64::new(0),
    };
    rounds_by(rt, trace, workers, &gate)?;
    Ok((seen(&gate.of_rows), seen(&gate.of_workers)))
}

/// Whether the next call came while one, after `before` others, waited: 1 or 0.
fn met_by<H: Threads + Wait + AllocGlobal>(
    rt: &H,
    trace: &Trace,
    workers: usize,
    before: u64,
) -> Result<u64, Fail> {
    let gate = Meeting {
        before,
        calls: AtomicU64::new(0),
        met: AtomicU64::new(0),
    };
    rounds_by(rt, trace, workers, &gate)?;
    Ok(seen(&gate.met))
}

/// Each of six rows is computed once, by workers that run at the same time. The one round ends with a cycle.
#[test]
fn workers_meet(rt: HostRuntime) -> Result<(), Fail> {
    let trace = independent_reads(rt.alloc())?;
    for workers in [2, 3, 64] {
        expect(&rt, "a second call", met_by(&rt, &trace, workers, 0)?, 1);
        let calls = calls_by(&rt, &trace, workers, 6)?;
        expect(&rt, "calls", calls, (0x111_1110, 0));
    }
    Ok(())
}

/// The two rows of the later round are all computed by worker 0.
#[test]
fn later_rounds_of_few_rows_start_no_thread(rt: HostRuntime) -> Result<(), Fail> {
    let trace = store_buffering(rt.alloc())?;
    for workers in [1, 2, 3, 4, 5, 64] {
        let calls = calls_by(&rt, &trace, workers, 4)?;
        expect(&rt, "calls", calls, (0x1_1110, 2));
    }
    Ok(())
}

/// How often each of two processors stores and then loads.
const TURNS_OF_A_PROCESSOR: u16 = 40;

/// Two processors store and load in turn, each at its own addresses and at those of the other. Each load reads the first
/// value.
fn loads_past_stores(alloc: Global) -> Result<Trace, ValueFault> {
    let mut one = Vec::new(alloc);
    let mut other = Vec::new(alloc);
    for a in 0..TURNS_OF_A_PROCESSOR {
        let b = a.wrapping_add(TURNS_OF_A_PROCESSOR);
        one.push(st(a, u64::from(a).wrapping_add(1)))?;
        one.push(ld(b, 0))?;
        other.push(st(b, u64::from(b).wrapping_add(1)))?;
        other.push(ld(a, 0))?;
    }
    let mut lists = Vec::new(alloc);
    lists.push(one)?;
    lists.push(other)?;
    Trace::new(alloc, lists).map_err(|refused| refused.why)
}

/// The first round, of 160 rows, puts each load before a store of the other processor. So the later round looks at the
/// rows of the 80 loads, which two workers share.
#[test]
fn workers_meet_in_a_later_round(rt: HostRuntime) -> Result<(), Fail> {
    let trace = loads_past_stores(rt.alloc())?;
    for workers in [2, 3] {
        expect(&rt, "the next call", met_by(&rt, &trace, workers, 160)?, 1);
    }
    expect(&rt, "one worker", met_by(&rt, &trace, 1, 160)?, 0);
    Ok(())
}
