//! Programs made again, by each call that makes one, of the lists of programs that were read.

use std::alloc::{AllocError, Global};
use std::test::Fail;
use traces_for_tests::expect_equal;
use tso_ops::{Op, Order, Program, ValueFault};
use tso_text::read_program;

/// Texts of programs, and their first values where they are of version 2.
static WRITTEN: [(&str, Option<&[(u16, u64)]>); 6] = [
    ("tso program 1\nend\n", None),
    (
        "tso program 1\nproc\nst 1 1\nld 2\nproc\nst 2 2\nld 1\nend\n",
        None,
    ),
    (
        "tso program 1\nmodel pso\nproc\nst 1 1\nstbar\nsw 2 2\nmb\nproc\nend\n",
        None,
    ),
    ("tso program 2\nproc\nst 1 1\nld 2\nend\n", Some(&[])),
    (
        "tso program 2\ninit 2 9\nproc\nst 1 1\nld 2\nend\n",
        Some(&[(2, 9)]),
    ),
    (
        "tso program 2\nmodel pso\ninit 0 7\ninit 255 8\nproc\nstbar\nend\n",
        Some(&[(0, 7), (255, 8)]),
    ),
];

/// The operations of each processor.
fn lists_of(alloc: Global, program: &Program) -> Result<Vec<Vec<Op>>, AllocError> {
    let mut lists = Vec::new(alloc);
    for p in 0..program.processors() {
        lists.push(program.ops(p).to_vec(alloc)?)?;
    }
    Ok(lists)
}

/// The program of the same lists under the same memory model, from these first values.
fn made_again(
    alloc: Global,
    program: &Program,
    first: Option<&[(u16, u64)]>,
) -> Result<Program, ValueFault> {
    let lists = lists_of(alloc, program)?;
    match (program.order(), first) {
        (Order::Tso, None) => Program::new(alloc, lists).map_err(|refused| refused.why),
        (order, None) => { Program::with_order(alloc, order, lists).map_err(|refused| refused.why) }
        (order, Some(first)) => {
            let first = first.to_vec(alloc)?;
            Program::with_first(alloc, order, first, lists).map_err(|refused| refused.why)
        }
    }
}

#[test]
fn programs_of_lists(rt: HostRuntime) -> Result<(), Fail> {
    let alloc = rt.alloc();
    for (text, first) in &WRITTEN {
        let read = read_program(alloc, text.as_bytes())?;
        let made = made_again(alloc, &read, *first)?;
        let same = [made.is_same(&read), made.copy()?.is_same(&read)];
        expect_equal(*text, same, [true; 2])?;
    }
    Ok(())
}
