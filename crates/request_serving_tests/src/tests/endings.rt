//! How runs, faults and arguments that can't be had end: the whole line of each, and the status.

use issue_desk::RunFault;
use request_serving::{end_by, end_run, end_without_arguments};
use run_serving::{RunFailure, failure_of};
use std::alloc::Global;
use std::io::ErrorKind;
use std::process::Abort;
use std::test::Fail;
use tso_report::Fault;

/// Compares a status, and what was written to the errors.
fn expect_end<H: Abort>(rt: &H, found: u8, errors: &[u8], status: u8, line: &str) {
    assert_eq!(rt; found, status, "{line}");
    assert_eq!(rt; errors, line.as_bytes(), "{line}");
}

const FAULTS: [(Fault, &str); 5] = [
    (Fault::OutOfMemory, "FAULT OutOfMemory\n"),
    (Fault::Read, "FAULT Read\n"),
    (Fault::Write, "FAULT Write\n"),
    (Fault::NoThread, "FAULT NoThread\n"),
    (Fault::Missing(18), "FAULT Missing 18\n"),
];

/// The status of the fault, and of a run that ended by it.
#[test]
fn faults_are_named(rt: HostRuntime) -> Result<(), Fail> {
    for (fault, line) in FAULTS {
        let mut errors = Vec::new(rt.alloc());
        let status = end_by(fault, &mut errors);
        expect_end(&rt, status, &errors, 4, line);
        expect_run(&rt, rt.alloc(), Err(RunFailure::Fault(fault)), 4, line);
    }
    Ok(())
}

/// Compares the status of a run's outcome, and what is written to the errors.
fn expect_run<H: Abort>(
    rt: &H,
    alloc: Global,
    outcome: Result<u8, RunFailure>,
    status: u8,
    line: &str,
) {
    let mut errors = Vec::new(alloc);
    let found = end_run(outcome, &mut errors);
    expect_end(rt, found, &errors, status, line);
}

/// Runs that print, and runs without a record.
const RUNS: [(Result<u8, RunFailure>, u8, &str); 7] = [
    (Ok(0), 0, ""),
    (Ok(2), 2, ""),
    (Ok(3), 3, ""),
    (Err(RunFailure::Torn { p: 0 }), 4, "FAULT Torn 0\n"),
    (Err(RunFailure::Torn { p: 3 }), 4, "FAULT Torn 3\n"),
    (Err(RunFailure::Torn { p: 15 }), 4, "FAULT Torn 15\n"),
    (Err(RunFailure::OtherProgram), 4, "FAULT OtherProgram\n"),
];

#[test]
fn ends_of_runs(rt: HostRuntime) -> Result<(), Fail> {
    for (outcome, status, line) in RUNS {
        expect_run(&rt, rt.alloc(), outcome, status, line);
    }
    Ok(())
}

/// From what a run answers in place of a record to the line that names it.
const UNRECORDED: [(RunFault, &str); 5] = [
    (RunFault::OutOfMemory, "FAULT OutOfMemory\n"),
    (RunFault::NoThread, "FAULT NoThread\n"),
    (RunFault::Torn { p: 3 }, "FAULT Torn 3\n"),
    (RunFault::Torn { p: 15 }, "FAULT Torn 15\n"),
    (RunFault::OtherProgram, "FAULT OtherProgram\n"),
];

#[test]
fn runs_without_a_record_are_named(rt: HostRuntime) -> Result<(), Fail> {
    for (fault, line) in UNRECORDED {
        expect_run(&rt, rt.alloc(), Err(failure_of(fault)), 4, line);
    }
    Ok(())
}

/// Why the arguments can't be had, the status and the line.
const WITHOUT_ARGUMENTS: [(ErrorKind, u8, &str); 2] = [
    (
        ErrorKind::InvalidData,
        2,
        "error: invalid UTF-8 was detected in one or more arguments\n",
    ),
    (ErrorKind::OutOfMemory, 4, "FAULT OutOfMemory\n"),
];

#[test]
fn arguments_that_cannot_be_had(rt: HostRuntime) -> Result<(), Fail> {
    for (kind, status, line) in WITHOUT_ARGUMENTS {
        let mut errors = Vec::new(rt.alloc());
        let found = end_without_arguments(kind, &mut errors);
        expect_end(&rt, found, &errors, status, line);
    }
    Ok(())
}
