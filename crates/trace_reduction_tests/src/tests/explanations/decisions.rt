//! Explanations of decisions, with the expected bytes of each.

mod orders;
mod refutations;

use decision_explanation::{explain_evidence, explain_undecided};
use std::alloc::Global;
use std::process::Abort;
use std::test::Fail;
use tso_evidence::read_evidence;
use tso_text::read_trace;

/// The texts of a trace and of evidence, and lines of what is written of them.
type Case = (&'static str, &'static str, &'static str);

/// What is written of evidence about a trace, from their texts.
fn explained(alloc: Global, trace: &str, evidence: &str) -> Result<String, Fail> {
    let trace = read_trace(alloc, trace.as_bytes())?;
    let evidence = read_evidence(alloc, evidence.as_bytes())?;
    let mut text = String::new(alloc);
    explain_evidence(alloc, &mut text, &trace, &evidence)?;
    Ok(text)
}

/// Compares what is written of each case: its lines after this head, or among others where there is none.
fn expect_cases<H: Abort>(
    rt: &H,
    alloc: Global,
    head: Option<&str>,
    cases: &[Case],
) -> Result<(), Fail> {
    for (trace, evidence, lines) in cases {
        let text = explained(alloc, trace, evidence)?;
        let is_as_expected = match head {
            Some(head) => text.strip_prefix(head) == Some(*lines),
            None => text.contains(*lines),
        };
        assert!(rt; is_as_expected, "{evidence}: {text}");
    }
    Ok(())
}

#[test]
fn evidence(rt: HostRuntime) -> Result<(), Fail> {
    let (tso, pso) = (Some(orders::TSO_HEAD), Some(orders::PSO_HEAD));
    expect_cases(&rt, rt.alloc(), tso, &orders::UNDER_TSO)?;
    expect_cases(&rt, rt.alloc(), pso, &orders::UNDER_PSO)?;
    let by_cases = Some(refutations::CASES_HEAD);
    expect_cases(&rt, rt.alloc(), by_cases, &refutations::BY_CASES)?;
    expect_cases(&rt, rt.alloc(), None, &refutations::LINES_OF_TWELVE_EVENTS)?;
    expect_cases(&rt, rt.alloc(), None, &refutations::LINES_OF_THIRTY_EVENTS)?;
    expect_cases(&rt, rt.alloc(), None, &refutations::OF_CERTIFICATES)
}

const UNDECIDED: &str =
    "\nThe search ended after 1000 steps, with neither a memory order of this trace nor a refutation.\nThat does not show whether there is a memory order. A greater --effort allows more steps.\n";

#[test]
fn undecided(rt: HostRuntime) -> Result<(), Fail> {
    let mut text = String::new(rt.alloc());
    explain_undecided(&mut text, 1000)?;
    assert!(rt; text.as_str() == UNDECIDED, "{text}");
    Ok(())
}
