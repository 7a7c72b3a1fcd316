//! What processors did, a row for each.

use crate::examples::{INDEPENDENT_READS, TWO_SWAPS_BOTH_FIRST};
use std::alloc::{AllocError, Global};
use tso_ops::{Op, Order, Outcome, Program, Trace, ValueFault};

/// A load from address `a` that read `r`.
pub fn ld(a: u16, r: u64) -> Outcome {
    Outcome::Ld { a, r }
}

/// A store of `v` to address `a`.
pub fn st(a: u16, v: u64) -> Outcome {
    Outcome::St { a, v }
}

/// A swap at address `a` that read `r` and stored `v`.
pub fn sw(a: u16, r: u64, v: u64) -> Outcome {
    Outcome::Sw { a, r, v }
}

/// So many empty lists. The error is that memory ran out.
pub fn empty_lists<T: Drop>(alloc: Global, count: usize) -> Result<Vec<Vec<T>>, AllocError> {
    let mut lists = Vec::new(alloc);
    for _ in 0..count {
        lists.push(Vec::new(alloc))?;
    }
    Ok(lists)
}

/// A list for each row. The error is that memory ran out.
pub fn lists_of<T: Copy>(alloc: Global, rows: &[&[T]]) -> Result<Vec<Vec<T>>, AllocError> {
    let mut lists = Vec::new(alloc);
    for row in rows {
        lists.push(row.to_vec(alloc)?)?;
    }
    Ok(lists)
}

/// The program, under this memory model, of processors that issue these operations. The error is that of
/// `Program::with_order`.
pub fn program_of(alloc: Global, order: Order, rows: &[&[Op]]) -> Result<Program, ValueFault> {
    Program::with_order(alloc, order, lists_of(alloc, rows)?).map_err(|refused| refused.why)
}

/// The trace, under this memory model, of processors that did this. The error is that of `Trace::with_order`.
pub fn trace_of(alloc: Global, order: Order, rows: &[&[Outcome]]) -> Result<Trace, ValueFault> {
    Trace::with_order(alloc, order, lists_of(alloc, rows)?).map_err(|refused| refused.why)
}

/// The trace, under TSO and from these first values, of processors that did this. The error is that of
/// `Trace::with_first`.
pub fn trace_from(
    alloc: Global,
    first: &[(u16, u64)],
    rows: &[&[Outcome]],
) -> Result<Trace, ValueFault> {
    let first = first.to_vec(alloc)?;
    Trace::with_first(alloc, Order::Tso, first, lists_of(alloc, rows)?).map_err(
        |refused| refused.why,
    )
}

/// Two processors, each of which stores and then loads what was at the other's address before.
pub const STORE_BUFFERING: [&[Outcome]; 2] = [
    &[Outcome::St { a: 1, v: 1 }, Outcome::Ld { a: 2, r: 0 }],
    &[Outcome::St { a: 2, v: 2 }, Outcome::Ld { a: 1, r: 0 }],
];

/// The trace of the example two_swaps_both_first.
pub fn two_swaps_both_first(alloc: Global) -> Result<Trace, ValueFault> {
    trace_of(alloc, Order::Tso, TWO_SWAPS_BOTH_FIRST.rows)
}

/// The trace of `STORE_BUFFERING`.
pub fn store_buffering(alloc: Global) -> Result<Trace, ValueFault> {
    trace_of(alloc, Order::Tso, &STORE_BUFFERING)
}

/// The trace of the example independent_reads.
pub fn independent_reads(alloc: Global) -> Result<Trace, ValueFault> {
    trace_of(alloc, Order::Tso, INDEPENDENT_READS.rows)
}
