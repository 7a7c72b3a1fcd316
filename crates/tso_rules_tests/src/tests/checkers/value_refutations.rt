//! Refutations by values with cases: some that are accepted, and each fault.

use log_text::read_log;
use std::alloc::Global;
use std::test::Fail;
use traces_for_tests::expect_equal;
use value_check::{ValueRefutationFault, check_value_refutation};
use value_evidence::ValueRefutationLine::{BeforeCase, Else, End, ReadCase, Step};
use value_evidence::{ValueEnd, ValueRefutationLine, ValueStep};

/// Each of two processors reads what the other stores later; one of the values is stored twice.
const BUFFERED: &str = "0 ld 0 1\n0 st 1 1\n1 ld 1 1\n1 st 0 1\n1 st 0 1\n";

/// The lines of a refutation, and why they are refused, if they are.
struct Case {
    lines: &'static [ValueRefutationLine],
    refused: Option<ValueRefutationFault>,
}

const FIRST: ValueRefutationLine = ReadCase { load: 1, source: 4 };

const SECOND: ValueRefutationLine = ReadCase { load: 1, source: 5 };

const LATER: ValueRefutationLine = Step(ValueStep::In { from: 3, load: 1 });

const FLAG: ValueRefutationLine = Step(ValueStep::In { from: 2, load: 3 });

const CYCLE: ValueRefutationLine = End(ValueEnd::Cycle(1));

const NOTHING: ValueRefutationLine = End(ValueEnd::NoSource(1));

const TURNED: ValueRefutationLine = BeforeCase {
    first: 5,
    second: 4,
};

const STORES: ValueRefutationLine = End(ValueEnd::Cycle(4));

static CASES: [Case; 13] = [
    // the load read one store or the other, and else nothing
    Case {
        lines: &[
            FIRST, LATER, FLAG, CYCLE, Else, SECOND, LATER, FLAG, CYCLE, Else, NOTHING,
        ],
        refused: None,
    },
    Case {
        lines: &[FIRST, LATER, FLAG, CYCLE, Else, NOTHING],
        refused: Some(ValueRefutationFault::EndRefused(6)),
    },
    // the stores of a processor stand in its order
    Case {
        lines: &[TURNED, STORES, Else, LATER, FLAG, CYCLE],
        refused: None,
    },
    // what the first part supposed isn't in force in the second
    Case {
        lines: &[TURNED, STORES, Else, STORES],
        refused: Some(ValueRefutationFault::EndRefused(4)),
    },
    Case {
        lines: &[
            FIRST,
            Step(ValueStep::Read { load: 1, source: 5 }),
            CYCLE,
            Else,
            CYCLE,
        ],
        refused: Some(ValueRefutationFault::StepRefused(2)),
    },
    // cases of no load, of one event and of none
    Case {
        lines: &[ReadCase { load: 2, source: 4 }, CYCLE, Else, CYCLE],
        refused: Some(ValueRefutationFault::CaseRefused(1)),
    },
    Case {
        lines: &[
            BeforeCase {
                first: 4,
                second: 4,
            },
            CYCLE,
            Else,
            CYCLE,
        ],
        refused: Some(ValueRefutationFault::CaseRefused(1)),
    },
    Case {
        lines: &[
            BeforeCase {
                first: 4,
                second: 6,
            },
            CYCLE,
            Else,
            CYCLE,
        ],
        refused: Some(ValueRefutationFault::CaseRefused(1)),
    },
    // the structure is looked at before all else
    Case {
        lines: &[STORES, STORES],
        refused: Some(ValueRefutationFault::Misplaced(2)),
    },
    Case {
        lines: &[FIRST, Else, CYCLE],
        refused: Some(ValueRefutationFault::Misplaced(2)),
    },
    Case {
        lines: &[FIRST, STORES, Else, STORES, Else, STORES],
        refused: Some(ValueRefutationFault::Misplaced(5)),
    },
    Case {
        lines: &[FIRST, STORES],
        refused: Some(ValueRefutationFault::Unfinished),
    },
    Case {
        lines: &[],
        refused: Some(ValueRefutationFault::Unfinished),
    },
];

/// Why the lines of a case are refused, if they are; None where the log is none.
fn answer_of(alloc: Global, case: &Case) -> Result<Option<Option<ValueRefutationFault>>, Fail> {
    let Ok(log) = read_log(alloc, BUFFERED.as_bytes(), false) else {
        return Ok(None);
    };
    match check_value_refutation(alloc, &log, case.lines)? {
        Ok(()) => Ok(Some(None)),
        Err(fault) => Ok(Some(Some(fault))),
    }
}

#[test]
fn refutations_by_values_are_checked(rt: HostRuntime) -> Result<(), Fail> {
    for (number, case) in CASES.iter().enumerate() {
        expect_equal(number, answer_of(rt.alloc(), case)?, Some(case.refused))?;
    }
    Ok(())
}
