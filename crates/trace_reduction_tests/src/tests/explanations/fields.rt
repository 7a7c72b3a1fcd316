//! What the field calls edges, by the steps that they are.

use std::test::Fail;
use trace_explanation::{NumberedSteps, field_edge, field_name};
use traces_for_tests::Listed::{Base, Inferred};
use traces_for_tests::{Listed, expect_equal, step_of, trace_of};
use tso_cert::BaseRule::{LoadOp, Membar, Stbar};
use tso_cert::InferredRule::SwapBefore;
use tso_ops::Outcome::{Ld, Mb, Sb, St, Sw};
use tso_ops::{Order, Outcome};

/// What each processor did: events 1 to 6, of which 4 and 5 are a swap, and events 7 and 8.
const ROWS: [&[Outcome]; 2] = [
    &[
        St { a: 1, v: 1 },
        Sb,
        St { a: 2, v: 2 },
        Mb,
        Ld { a: 1, r: 3 },
        Sw { a: 3, r: 0, v: 4 },
        Ld { a: 2, r: 0 },
    ],
    &[St { a: 1, v: 3 }, Ld { a: 2, r: 2 }],
];

/// Steps over its events.
const STEPS: [Listed; 5] = [
    Base(1, 2, Stbar),
    Base(2, 3, Membar),
    Base(3, 4, LoadOp),
    Inferred(2, 4, SwapBefore, 4, &[2, 5]),
    Inferred(7, 4, SwapBefore, 4, &[7, 5]),
];

/// An edge, and what the field calls it: some are no step.
type Case = (u64, u64, &'static str);

const CASES: [Case; 11] = [
    (1, 2, "po [stbar]"),
    (2, 3, "po [mb]"),
    (3, 4, "po"),
    (3, 6, "po"),
    (2, 4, "po [swap]"),
    (4, 5, "swap"),
    (5, 4, "swap"),
    (7, 4, "swap"),
    (7, 3, "rf"),
    (6, 2, "fr"),
    (1, 7, "co"),
];

#[test]
fn names_of_edges(rt: HostRuntime) -> Result<(), Fail> {
    let alloc = rt.alloc();
    let trace = trace_of(alloc, Order::Pso, &ROWS)?;
    let mut steps = Vec::new(alloc);
    for step in STEPS {
        steps.push(step_of(alloc, step)?)?;
    }
    let numbered = NumberedSteps::new(alloc, &steps)?;
    for (u, v, name) in CASES {
        expect_equal(
            (u, v),
            field_name(field_edge(&trace, &numbered, (u, v))),
            name,
        )?;
    }
    Ok(())
}
