//! The programs of seeds under both memory models.

use drawn_programs::Shape;
use std::alloc::Global;
use std::test::Fail;
use tso_ops::{Op, Order};
use tso_report::{seeded_program, seeded_program_with_order};

/// Seeds whose programs are compared.
const SEEDS: [u64; 4] = [0, 1, 2, u64::MAX];

/// How many membars of these operations under TSO are an STBAR in those under PSO; none where anything else differs.
fn replaced(under_tso: &[Op], under_pso: &[Op]) -> Option<u64> {
    if under_tso.len() != under_pso.len() {
        return None;
    }
    let mut count: u64 = 0;
    for (op, other) in under_tso.iter().zip(under_pso) {
        match (op, other) {
            (Op::Mb, Op::Sb) => count = count.saturating_add(1),
            (_, Op::Sb) => return None,
            _ if op == other => {}
            _ => return None,
        }
    }
    Some(count)
}

/// How many membars of the program of a seed under TSO are an STBAR in that under PSO; none where anything else differs, or
/// where the program is another one than that without a memory model.
fn replaced_in(alloc: Global, seed: u64, shape: Shape) -> Result<Option<u64>, Fail> {
    let program = seeded_program(alloc, seed, shape)?;
    let under_tso = seeded_program_with_order(alloc, Order::Tso, seed, shape)?;
    let under_pso = seeded_program_with_order(alloc, Order::Pso, seed, shape)?;
    let orders = (under_tso.order(), under_pso.order());
    let is_long = under_tso.processors() == under_pso.processors();
    if !program.is_same(&under_tso) || orders != (Order::Tso, Order::Pso) || !is_long {
        return Ok(None);
    }
    let mut count: u64 = 0;
    for p in 0..under_tso.processors().min(under_pso.processors()) {
        match replaced(under_tso.ops(p), under_pso.ops(p)) {
            Some(more) => count = count.saturating_add(more),
            None => return Ok(None),
        }
    }
    Ok(Some(count))
}

#[test]
fn seeded_programs_under_both_models(rt: HostRuntime) -> Result<(), Fail> {
    let shape = Shape::new(4, 100, 8).ok_or("a shape")?;
    for seed in SEEDS {
        let replaced = replaced_in(rt.alloc(), seed, shape)?;
        assert!(rt; replaced.is_some_and(|count| count > 0), "{seed}");
    }
    Ok(())
}
