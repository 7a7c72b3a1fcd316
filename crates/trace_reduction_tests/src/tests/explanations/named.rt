//! Explanations of a trace that was selected from a log, with the log's names, lines and addresses.

use std::alloc::{AllocError, Global};
use std::test::Fail;
use trace_explanation::{EventNames, explain_named};
use traces_for_tests::Listed::{Base, Inferred};
use traces_for_tests::{Listed, cycle_of, step_of, trace_of};
use tso_cert::BaseRule::{Init, LoadOp, Read, StoreStore};
use tso_cert::Certificate;
use tso_cert::InferredRule::LoadPast;
use tso_ops::Outcome::{Ld, St};
use tso_ops::{Order, Outcome};

/// What the log calls the events.
const NAMES: [&str; 4] = [
    "P3 'st 94231678252672 5' (line 543507)",
    "P3 'st 94231678252680 7' (line 543508)",
    "P17 'ld 94231678252680 7' (line 543510)",
    "P17 'ld 94231678252672 0' (line 543511)",
];

/// Their processors in the log.
const PROCESSORS: [usize; 4] = [3, 3, 17, 17];

/// Their lines in the log.
const LINES: [usize; 4] = [543_507, 543_508, 543_510, 543_511];

/// Their addresses in the log.
const ADDRESSES: [u64; 4] = [
    94_231_678_252_672,
    94_231_678_252_680,
    94_231_678_252_680,
    94_231_678_252_672,
];

/// The steps of the cycle of the first values and the first store.
const STEPS: [Listed; 5] = [
    Base(0, 1, Init),
    Base(1, 2, StoreStore),
    Base(2, 3, Read),
    Base(3, 4, LoadOp),
    Inferred(1, 0, LoadPast, 4, &[1, 2, 3, 4]),
];

/// The explanation of the cycle, as the definition gives it with these names.
const OF_THE_CYCLE: &str =
    "\nP17 read address 94231678252672 from before P3's store (line 543507), though it had seen the later store (line 543508): message passing.\n\nTSO asks for one order of all loads and stores, the memory order.\nA load sees the stores to its address that come before it in that order or earlier on its own processor.\nIt reads the last of these in that order, or the first value of its address where there is none.\nNo memory order explains this log: it would have to put each of these before the next, and the last is the first again.\n\n  the first values\n    before P3 'st 94231678252672 5' (line 543507): they come before every event (step 1)\n    before the first values: P17 'ld 94231678252672 0' (line 543511) sees the former, yet it read the latter (step 5)\n\nWhy each step holds, the last step first. A step rests only on steps of smaller numbers.\n\n5. P3 'st 94231678252672 5' (line 543507) before the first values: a load sees the store, yet read something else.\n   P17 'ld 94231678252672 0' (line 543511) sees the store, which comes before it by steps 2, 3, 4, and it read the first value of address 94231678252672.\n   A load reads the last of the stores that it sees, so what it read comes after this store.\n4. P17 'ld 94231678252680 7' (line 543510) before P17 'ld 94231678252672 0' (line 543511): program order; a load comes before all that follows it on its processor.\n3. P3 'st 94231678252680 7' (line 543508) before P17 'ld 94231678252680 7' (line 543510): the load read this store.\n   It sees the store, which is not earlier on its own processor, so the store comes before it.\n2. P3 'st 94231678252672 5' (line 543507) before P3 'st 94231678252680 7' (line 543508): program order; a processor keeps its stores in order.\n1. the first values before P3 'st 94231678252672 5' (line 543507): they come before every event.\n\nThe events named above, by their lines in the log:\n\n  line 543507: P3 'st 94231678252672 5' (line 543507)\n  line 543508: P3 'st 94231678252680 7' (line 543508)\n  line 543510: P17 'ld 94231678252680 7' (line 543510) read P3 'st 94231678252680 7' (line 543508)\n  line 543511: P17 'ld 94231678252672 0' (line 543511) read the first value of address 94231678252672\n";

/// The names, the lines and the addresses that the log gives.
fn names_of_log(alloc: Global) -> Result<EventNames, AllocError> {
    let mut names = Vec::new(alloc);
    for name in NAMES {
        names.push(String::from_str(alloc, name)?)?;
    }
    let processors = PROCESSORS.to_vec(alloc)?;
    let lines = LINES.to_vec(alloc)?;
    Ok(EventNames::of_log(names, processors, lines, ADDRESSES.to_vec(alloc)?))
}

/// What a trace is shown to be by.
#[derive(Clone, Copy)]
enum Shown {
    /// The cycle of the steps.
    Cycle,
    /// The load of this number, which is unwritten.
    Unwritten(u64),
    /// Nothing.
    Nothing,
}

/// The certificate of it.
fn certificate(alloc: Global, shown: Shown) -> Result<Option<Certificate>, AllocError> {
    match shown {
        Shown::Cycle => {
            let mut steps = Vec::new(alloc);
            for step in STEPS {
                steps.push(step_of(alloc, step)?)?;
            }
            Ok(Some(cycle_of(alloc, steps, &[0, 1])?))
        }
        Shown::Unwritten(event) => Ok(Some(Certificate::Unwritten(event))),
        Shown::Nothing => Ok(None),
    }
}

/// A memory model, what each processor did, what that is shown to be by, and the explanation with the log's names.
type Case = (Order, &'static [&'static [Outcome]], Shown, &'static str);

const CASES: [Case; 3] = [
    (
        Order::Tso,
        &[
            &[St { a: 1, v: 1 }, St { a: 2, v: 2 }],
            &[Ld { a: 2, r: 2 }, Ld { a: 1, r: 0 }],
        ],
        Shown::Cycle,
        OF_THE_CYCLE,
    ),
    (
        Order::Tso,
        &[
            &[St { a: 1, v: 1 }, St { a: 2, v: 2 }],
            &[Ld { a: 2, r: 2 }, Ld { a: 1, r: 9 }],
        ],
        Shown::Unwritten(4),
        "\nA load read a value that nothing wrote to its address:\n\n  line 543511: P17 'ld 94231678252672 0' (line 543511) read 9\n\nThe first value of address 94231678252672 is 0.\nThe stores to address 94231678252672, 1 in all:\n\n  line 543507: P3 'st 94231678252672 5' (line 543507)\n",
    ),
    (
        Order::Pso,
        &[&[St { a: 1, v: 1 }], &[Ld { a: 1, r: 1 }]],
        Shown::Nothing,
        "\nThe rules found no contradiction in this log.\nThat does not show that it has a memory order that PSO allows.\n",
    ),
];

#[test]
fn explanations_with_names_of_a_log(rt: HostRuntime) -> Result<(), Fail> {
    let alloc = rt.alloc();
    for (order, rows, shown, expected) in CASES {
        let trace = trace_of(alloc, order, rows)?;
        let names = names_of_log(alloc)?;
        let found = certificate(alloc, shown)?;
        let mut text = String::new(alloc);
        explain_named(alloc, &mut text, &trace, &found, &names)?;
        assert_eq!(rt; text.as_str(), expected);
    }
    Ok(())
}
