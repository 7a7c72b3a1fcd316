//! Runs of a program of sixteen processors with sixty operations each.

use super::{Wanted, issuers_alone, run_program};
use std::alloc::{AllocError, Global};
use std::sync::Wait;
use std::test::Fail;
use std::thread::Threads;
use traces_for_tests::expect_equal;
use tso_ops::{Op, Order, Outcome, Program, ValueFault};
use unit_core::Recorded;

/// Operation `k` of processor `p`, whose stored value is no other's.
fn counted_op(p: u64, k: u64) -> Op {
    let v = p.wrapping_mul(60).wrapping_add(k).wrapping_add(1);
    let a = (v % 5) as u16;
    match k % 6 {
        0 | 3 => Op::St { a, v },
        1 | 4 => Op::Ld { a },
        2 => Op::Sw { a, v },
        _ => Op::Mb,
    }
}

/// The sixty operations of processor `p`.
fn counted_ops(alloc: Global, p: u64) -> Result<Vec<Op>, AllocError> {
    let mut ops = Vec::new(alloc);
    for k in 0..60u64 {
        ops.push(counted_op(p, k))?;
    }
    Ok(ops)
}

/// A program of sixteen processors with sixty operations each.
fn large_program(alloc: Global) -> Result<Program, ValueFault> {
    let mut lists = Vec::new(alloc);
    for p in 0..16u64 {
        lists.push(counted_ops(alloc, p)?)?;
    }
    Program::with_order(alloc, Order::Tso, lists).map_err(|refused| refused.why)
}

/// Whether these are outcomes of the operations, all, in order.
fn are_outcomes_of(outcomes: &[Outcome], ops: &[Op]) -> bool {
    for (outcome, op) in outcomes.iter().zip(ops) {
        if outcome.op() != *op {
            return false;
        }
    }
    outcomes.len() == ops.len()
}

/// Whether the record is lawful and has all operations of the program, and no others.
pub(super) fn is_whole(recorded: &Recorded, program: &Program) -> bool {
    let trace = recorded.trace();
    let processors = trace.processors();
    if processors != program.processors() {
        return false;
    }
    for p in 0..processors {
        if !are_outcomes_of(trace.ops(p), program.ops(p)) {
            return false;
        }
    }
    recorded.lawful()
}

/// Runs the large program, and compares how it ended.
fn expect_large<H: Threads + Wait + Sync>(
    rt: &H,
    alloc: Global,
    program: &Program,
    seed: u64,
) -> Result<(), Fail> {
    let free = issuers_alone(seed, Wanted::All(program));
    let ended = run_program(rt, alloc, program, free)?;
    let account = ([320, 320, 160, 160, 320], true);
    expect_equal(seed, (ended.answer, ended.account), (Ok(true), account))
}

#[test]
fn sixteen_processors_are_run(rt: HostRuntime) -> Result<(), Fail> {
    let program = large_program(rt.alloc())?;
    for seed in 0..20u64 {
        expect_large(&rt, rt.alloc(), &program, seed)?;
    }
    Ok(())
}
