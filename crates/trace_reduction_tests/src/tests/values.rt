//! Small logs in which values repeat: what the search by values finds, and whether its evidence is accepted.

use log_search::{ValueFound, ValueSearch};
use log_selections::KnownLog;
use log_text::read_log;
use progress_meters::NoMeter;
use std::alloc::Global;
use std::test::Fail;
use traces_for_tests::expect_equal;
use value_check::check_values;

/// A log, and whether it has no order of its memory model.
static LOGS: [(&str, bool); 9] = [
    // what was overwritten by its own processor, and what comes later
    ("0 st 0 1\n0 st 0 0\n0 ld 0 1\n0 st 0 1\n", true),
    ("0 st 0 1\n0 st 0 2\n0 ld 0 0\n0 st 0 0\n", true),
    ("0 st 0 1\n0 st 0 0\n0 ld 0 0\n0 st 0 1\n", false),
    // a lock that is released once and taken three times
    ("0 sw 9 0 1\n0 st 9 0\n0 sw 9 0 1\n1 sw 9 0 1\n", true),
    ("0 sw 9 0 1\n0 st 9 0\n1 sw 9 0 1\n1 st 9 0\n", false),
    (
        "0 sw 9 0 1\n0 st 9 0\n1 sw 9 0 1\n1 st 9 0\n0 sw 9 0 1\n",
        false,
    ),
    // a flag is seen that is raised twice, and not the data before it
    (
        "0 st 1 5\n0 st 2 1\n0 st 2 0\n0 st 2 1\n1 ld 2 1\n1 ld 1 0\n2 st 3 5\n",
        true,
    ),
    (
        "0 st 2 1\n0 st 1 5\n0 st 2 0\n0 st 2 1\n1 ld 2 1\n1 ld 1 0\n",
        false,
    ),
    // under PSO the flag says nothing of the data
    (
        "model pso\n0 st 1 5\n0 st 2 1\n0 st 2 0\n0 st 2 1\n1 ld 2 1\n1 ld 1 0\n",
        false,
    ),
];

/// Whether a violation is found whose evidence is accepted; None where the text is no log, or the evidence is refused.
fn is_found(alloc: Global, text: &str) -> Result<Option<bool>, Fail> {
    let (Ok(log), Ok(same)) = (
        read_log(alloc, text.as_bytes(), false),
        read_log(alloc, text.as_bytes(), false),
    ) else {
        return Ok(None);
    };
    let known = KnownLog::new(alloc, log)?;
    let mut search = ValueSearch::new(alloc, &known, 100)?;
    match search.run(alloc, &NoMeter)? {
        ValueFound::Violation(violation) => {
            let said = check_values(alloc, &same, &violation.evidence)?;
            Ok(if said.is_ok() { Some(true) } else { None })
        }
        ValueFound::End => Ok(Some(false)),
        ValueFound::BudgetEnd => Ok(None),
    }
}

#[test]
fn values_are_searched(rt: HostRuntime) -> Result<(), Fail> {
    for (text, is_violation) in &LOGS {
        expect_equal(*text, is_found(rt.alloc(), text)?, Some(*is_violation))?;
    }
    Ok(())
}
