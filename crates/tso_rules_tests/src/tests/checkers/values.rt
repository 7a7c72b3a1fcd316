//! Small logs with evidence that they have no order by their values, and with evidence that says too much.

use log_text::read_log;
use std::alloc::Global;
use std::test::Fail;
use traces_for_tests::expect_equal;
use value_check::{ValueRefusal, check_values};
use value_evidence::{ValueEnd, ValueEvidence, ValueStep};

/// A log, evidence, and why that is refused, if it is.
struct Case {
    log: &'static str,
    steps: &'static [ValueStep],
    end: ValueEnd,
    refused: Option<ValueRefusal>,
}

const MESSAGE: &str = "0 st 0 1\n0 st 1 1\n1 ld 1 1\n1 ld 0 0\n";

const MESSAGE_PSO: &str = "model pso\n0 st 0 1\n0 st 1 1\n1 ld 1 1\n1 ld 0 0\n";

const LOCK: &str = "0 sw 9 0 1\n1 sw 9 0 1\n";

const FORWARDED: &str = "0 st 0 1\n0 ld 0 1\n0 ld 1 0\n1 st 1 1\n1 mb\n1 ld 0 0\n";

const COHERENCE: &str = "0 st 0 1\n1 st 0 2\n2 ld 0 1\n2 ld 0 2\n3 ld 0 2\n3 ld 0 1\n";

const SWAP_AFTER: &str = "0 sw 0 0 1\n1 st 0 2\n2 ld 0 2\n2 ld 0 1\n";

const SWAP_BEFORE: &str = "0 sw 0 1 3\n1 st 0 1\n1 st 0 2\n2 ld 0 2\n2 ld 0 3\n";

const OWN: &str = "0 st 0 1\n0 st 0 0\n0 ld 0 1\n0 st 0 1\n";

const OWN_FIRST: &str = "0 st 0 1\n0 st 0 2\n0 ld 0 0\n0 st 0 0\n";

const SEEN: ValueStep = ValueStep::Read { load: 3, source: 2 };

const FLAG: ValueStep = ValueStep::In { from: 2, load: 3 };

static CASES: [Case; 18] = [
    // a processor sees its own last store, and not what it stores later
    Case {
        log: OWN,
        steps: &[],
        end: ValueEnd::NoSource(3),
        refused: None,
    },
    Case {
        log: OWN_FIRST,
        steps: &[],
        end: ValueEnd::NoSource(3),
        refused: None,
    },
    Case {
        log: OWN,
        steps: &[],
        end: ValueEnd::Cycle(3),
        refused: Some(ValueRefusal::EndRefused),
    },
    // a store may be forwarded to a load that comes before it
    Case {
        log: FORWARDED,
        steps: &[
            ValueStep::Out { load: 3, to: 4 },
            ValueStep::Out { load: 5, to: 1 },
        ],
        end: ValueEnd::NoSource(2),
        refused: Some(ValueRefusal::EndRefused),
    },
    Case {
        log: FORWARDED,
        steps: &[ValueStep::In { from: 1, load: 2 }],
        end: ValueEnd::NoSource(2),
        refused: Some(ValueRefusal::StepRefused(1)),
    },
    // two swaps don't read one value
    Case {
        log: LOCK,
        steps: &[ValueStep::Read { load: 1, source: 0 }],
        end: ValueEnd::NoSource(3),
        refused: None,
    },
    Case {
        log: LOCK,
        steps: &[],
        end: ValueEnd::NoSource(3),
        refused: Some(ValueRefusal::EndRefused),
    },
    // who sees a flag sees what was stored before it, but under PSO
    Case {
        log: MESSAGE,
        steps: &[SEEN, FLAG],
        end: ValueEnd::NoSource(4),
        refused: None,
    },
    Case {
        log: MESSAGE,
        steps: &[SEEN],
        end: ValueEnd::NoSource(4),
        refused: Some(ValueRefusal::EndRefused),
    },
    Case {
        log: MESSAGE_PSO,
        steps: &[SEEN, FLAG],
        end: ValueEnd::NoSource(4),
        refused: Some(ValueRefusal::EndRefused),
    },
    Case {
        log: MESSAGE,
        steps: &[SEEN, ValueStep::Read { load: 4, source: 1 }],
        end: ValueEnd::NoSource(4),
        refused: Some(ValueRefusal::StepRefused(2)),
    },
    Case {
        log: MESSAGE,
        steps: &[SEEN, ValueStep::Out { load: 4, to: 1 }, FLAG],
        end: ValueEnd::Cycle(1),
        refused: None,
    },
    // the stores of an address come in one order
    Case {
        log: COHERENCE,
        steps: &[
            ValueStep::Read { load: 3, source: 1 },
            ValueStep::In { from: 1, load: 3 },
            ValueStep::Over {
                from: 1,
                to: 2,
                load: 4,
            },
            ValueStep::In { from: 2, load: 5 },
            ValueStep::Over {
                from: 2,
                to: 1,
                load: 6,
            },
        ],
        end: ValueEnd::Cycle(1),
        refused: None,
    },
    Case {
        log: COHERENCE,
        steps: &[
            ValueStep::In { from: 1, load: 3 },
            ValueStep::Over {
                from: 2,
                to: 1,
                load: 6,
            },
        ],
        end: ValueEnd::Cycle(1),
        refused: Some(ValueRefusal::StepRefused(2)),
    },
    // no store comes between a swap's load and its store
    Case {
        log: SWAP_AFTER,
        steps: &[
            ValueStep::Out { load: 1, to: 3 },
            ValueStep::SwapAfter { swap: 1, to: 3 },
            ValueStep::In { from: 3, load: 4 },
            ValueStep::Over {
                from: 3,
                to: 2,
                load: 5,
            },
        ],
        end: ValueEnd::Cycle(2),
        refused: None,
    },
    Case {
        log: SWAP_BEFORE,
        steps: &[
            ValueStep::In { from: 4, load: 5 },
            ValueStep::Over {
                from: 4,
                to: 2,
                load: 6,
            },
            ValueStep::SwapBefore { from: 4, swap: 1 },
        ],
        end: ValueEnd::NoSource(1),
        refused: None,
    },
    // numbers of no event
    Case {
        log: LOCK,
        steps: &[ValueStep::Read { load: 5, source: 0 }],
        end: ValueEnd::NoSource(1),
        refused: Some(ValueRefusal::StepRefused(1)),
    },
    Case {
        log: LOCK,
        steps: &[],
        end: ValueEnd::Cycle(0),
        refused: Some(ValueRefusal::EndRefused),
    },
];

/// Why the evidence of a case is refused, if it is; None where its log is none.
fn answer_of(alloc: Global, case: &Case) -> Result<Option<Option<ValueRefusal>>, Fail> {
    let Ok(log) = read_log(alloc, case.log.as_bytes(), false) else {
        return Ok(None);
    };
    let evidence = ValueEvidence {
        steps: Vec::from_slice(alloc, case.steps)?,
        end: case.end,
    };
    match check_values(alloc, &log, &evidence)? {
        Ok(()) => Ok(Some(None)),
        Err(fault) => Ok(Some(Some(fault))),
    }
}

#[test]
fn evidence_by_values_is_checked(rt: HostRuntime) -> Result<(), Fail> {
    for (number, case) in CASES.iter().enumerate() {
        expect_equal(number, answer_of(rt.alloc(), case)?, Some(case.refused))?;
    }
    Ok(())
}
