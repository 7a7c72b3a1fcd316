//! The conditions of base rules and of inferred rules.

use std::alloc::Global;
use std::test::Fail;
use traces_for_tests::{expect_equal, two_swaps_both_first};
use tso_cert::BaseRule::{Init, LoadOp, Membar, Own, Read, Stbar, StoreStore};
use tso_cert::{BaseRule, InferredRule};
use tso_model::conditions::{Ends, first_base_rule, inferred_ends, is_base_pair};
use tso_text::read_trace;

/// The trace of one processor, two events of it, and the first base rule that gives the edge between them.
type Pair = (&'static str, (usize, usize), Option<BaseRule>);

static PAIRS: [Pair; 15] = [
    ("tso trace 1\nproc\nst 1 1\nend\n", (0, 1), Some(Init)),
    (
        "tso trace 1\nproc\nld 1 0\nld 2 0\nend\n",
        (1, 2),
        Some(LoadOp),
    ),
    ("tso trace 1\nproc\nst 1 1\nld 2 0\nend\n", (1, 2), None),
    (
        "tso trace 1\nproc\nst 1 1\nmb\nld 2 0\nend\n",
        (1, 2),
        Some(Membar),
    ),
    (
        "tso trace 1\nproc\nst 1 1\nld 1 0\nend\n",
        (1, 0),
        Some(Own),
    ),
    ("tso trace 1\nproc\nst 1 1\nld 1 1\nend\n", (1, 2), None),
    ("tso trace 1\nproc\nsw 1 5 5\nend\n", (2, 1), Some(Read)),
    (
        "tso trace 1\nproc\nld 1 1\nst 1 1\nend\n",
        (2, 1),
        Some(Read),
    ),
    (
        "tso trace 1\nproc\nst 1 1\nst 2 2\nend\n",
        (1, 2),
        Some(StoreStore),
    ),
    (
        "tso trace 1\nmodel pso\nproc\nst 1 1\nst 2 2\nend\n",
        (1, 2),
        None,
    ),
    (
        "tso trace 1\nmodel pso\nproc\nst 1 1\nst 1 2\nend\n",
        (1, 2),
        Some(StoreStore),
    ),
    (
        "tso trace 1\nmodel pso\nproc\nst 1 1\nstbar\nst 2 2\nend\n",
        (1, 2),
        Some(Stbar),
    ),
    (
        "tso trace 1\nmodel pso\nproc\nst 1 1\nstbar\nst 1 2\nend\n",
        (1, 2),
        Some(StoreStore),
    ),
    (
        "tso trace 1\nmodel pso\nproc\nst 1 1\nmb\nst 2 2\nend\n",
        (1, 2),
        None,
    ),
    (
        "tso trace 1\nmodel pso\nproc\nst 1 1\nstbar\nld 2 0\nend\n",
        (1, 2),
        None,
    ),
];

/// The first base rule of a pair gives the pair.
fn expect_pair(alloc: Global, pair: &Pair) -> Result<(), Fail> {
    let (text, (u, v), rule) = *pair;
    let trace = read_trace(alloc, text.as_bytes())?;
    expect_equal(text, first_base_rule(&trace, u, v), rule)?;
    if let Some(given) = rule {
        expect_equal(text, is_base_pair(&trace, given, u, v), true)?;
    }
    Ok(())
}

#[test]
fn base_rules(rt: HostRuntime) -> Result<(), Fail> {
    for pair in &PAIRS {
        expect_pair(rt.alloc(), pair)?;
    }
    Ok(())
}

/// A rule, its load, an edge, and the ends of the path that the rule asks for.
type Asked = (InferredRule, usize, (usize, usize), Option<Ends>);

/// Of two swaps that both read the first value: events 1 and 2, 3 and 4.
static ASKED: [Asked; 7] = [
    (
        InferredRule::LoadPast,
        3,
        (2, 0),
        Some(Ends { from: 2, to: 3 }),
    ),
    (InferredRule::LoadPast, 3, (2, 4), None),
    (
        InferredRule::StorePast,
        1,
        (1, 4),
        Some(Ends { from: 0, to: 4 }),
    ),
    (
        InferredRule::SwapBefore,
        3,
        (2, 3),
        Some(Ends { from: 2, to: 4 }),
    ),
    (InferredRule::SwapBefore, 3, (4, 3), None),
    (
        InferredRule::SwapAfter,
        1,
        (2, 4),
        Some(Ends { from: 1, to: 4 }),
    ),
    (InferredRule::SwapAfter, 1, (2, 2), None),
];

#[test]
fn ends_that_inferred_rules_ask_for(rt: HostRuntime) -> Result<(), Fail> {
    let trace = two_swaps_both_first(rt.alloc())?;
    for (rule, load, (u, v), ends) in &ASKED {
        let found = inferred_ends(&trace, *rule, *load, *u, *v);
        expect_equal((*rule, *u, *v), found, *ends)?;
    }
    Ok(())
}
