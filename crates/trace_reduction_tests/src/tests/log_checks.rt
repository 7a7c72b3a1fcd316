//! Evidence that is checked against a log, from their texts, with the expected bytes of each line. All is worked out by hand from the
//! definitions.

use log_evidence::{check_log_evidence, report_log_evidence};
use std::alloc::Global;
use std::io::ErrorKind;
use std::test::Fail;
use text_streams::Fault;
use trace_reports::Answer;
use traces_for_tests::{TornReader, expect_equal};

/// The texts of a log and of evidence, and the line on both.
type Case = (&'static str, &'static str, &'static str);

/// A processor reads what it stored first, though it stored something else after that.
const OWN: &str = "0 st 0 1\n0 st 0 2\n0 ld 0 1\n";

/// Processor 1 sees a flag, and not what was stored before it.
const MESSAGE: &str = "0 st 1 5\n0 st 2 1\n1 ld 2 1\n1 ld 1 0\n";

/// The same as OWN, beside a swap that stores what it read: only as a swap it is a second store of 1.
const IDLE_SWAP: &str = "0 st 0 1\n0 st 0 2\n1 sw 0 1 1\n0 ld 0 1\n";

/// Under PSO the swap stays one, and the load can have read its store.
const IDLE_SWAP_PSO: &str = "model pso\n0 st 0 1\n0 st 0 2\n1 sw 0 1 1\n0 ld 0 1\n";

/// Processor 1 sees a flag, and what was stored before it.
const SEEN: &str = "0 st 1 5\n0 st 2 1\n1 ld 2 1\n1 ld 1 5\n";

/// Two processors store a value and then set a flag; a third one sees the flag of either, and no value.
const TWO_FLAGS: &str = "0 st 1 7\n0 st 0 1\n1 st 1 7\n1 st 0 1\n2 ld 0 1\n2 ld 1 0\n";

/// Two processors see two stores in different orders.
const TWO_ORDERS: &str = "0 st 1 1\n1 st 1 2\n2 ld 1 1\n2 ld 1 2\n3 ld 1 2\n3 ld 1 1\n";

/// Two swaps, one after the other.
const SWAPS: &str = "0 sw 5 0 1\n1 sw 5 1 2\n";

const HOLDS: &str = "REFUTATION HOLDS\n";

const ORDER_HOLDS: &str = "ORDER HOLDS\n";

/// Refutations without cases, and texts that are none.
static STEPS: [Case; 25] = [
    // evidence that holds: the load of line 3 sees the store of line 2, which comes after its only source
    (OWN, "nosource 3\n", HOLDS),
    (OWN, "over 1 2 3\nnosource 3\n", HOLDS),
    (MESSAGE, "in 2 3\nnosource 4\n", HOLDS),
    (MESSAGE, "read 3 2\nout 4 1\nin 2 3\ncycle 1\n", HOLDS),
    (IDLE_SWAP, "nosource 4\n", HOLDS),
    // the end doesn't follow: no load, another load, no cycle
    (
        OWN,
        "nosource 1\n",
        "REFUTATION REFUSED EndRefused line 1\n",
    ),
    (
        OWN,
        "over 1 2 3\ncycle 1\n",
        "REFUTATION REFUSED EndRefused line 2\n",
    ),
    (
        MESSAGE,
        "nosource 4\n",
        "REFUTATION REFUSED EndRefused line 1\n",
    ),
    (
        MESSAGE,
        "in 2 3\nnosource 3\n",
        "REFUTATION REFUSED EndRefused line 2\n",
    ),
    (
        IDLE_SWAP_PSO,
        "nosource 5\n",
        "REFUTATION REFUSED EndRefused line 1\n",
    ),
    (
        IDLE_SWAP_PSO,
        "cycle 4'\n",
        "REFUTATION REFUSED EndRefused line 1\n",
    ),
    // a step doesn't follow: the first value has nothing before it, and a store reads nothing
    (
        MESSAGE,
        "in 1 4\nnosource 4\n",
        "REFUTATION REFUSED StepRefused line 1\n",
    ),
    (
        MESSAGE,
        "in 2 3\nread 2 1\nread 1 2\nnosource 4\n",
        "REFUTATION REFUSED StepRefused line 2\n",
    ),
    // lines that are no refutation, and texts that are no evidence; the store of a swap that is read as a load has no name
    (OWN, "", "REFUTATION REFUSED Unfinished\n"),
    (OWN, "over 1 2 3\n", "REFUTATION REFUSED Unfinished\n"),
    (
        OWN,
        "nosource 3\nnosource 3\n",
        "REFUTATION REFUSED Misplaced line 2\n",
    ),
    (OWN, "nosource 3", "EVIDENCE REFUSED BadLine line 1\n"),
    (
        OWN,
        "over 1 2 3\nsource 3\n",
        "EVIDENCE REFUSED BadLine line 2\n",
    ),
    (OWN, "nosource 4\n", "EVIDENCE REFUSED NoEvent line 1\n"),
    (IDLE_SWAP, "cycle 3'\n", "EVIDENCE REFUSED NoEvent line 1\n"),
    (OWN, "nosource 3\n\n", "EVIDENCE REFUSED BadLine line 2\n"),
    // texts that are no log, whatever the evidence
    (
        "0 st 0 1\n0 st 0 2\nload 0 1\n",
        "nosource 3\n",
        "REFUSED BadLine line 3\n",
    ),
    ("0 st 0 1", "nosource 1\n", "REFUSED BadLine line 1\n"),
    ("4096 st 0 1\n", "", "REFUSED BadNumber line 1\n"),
    (
        "0 st 0 1\n0 ld 0/4 1\n",
        "cycle 1\n",
        "REFUSED Widths line 2\n",
    ),
];

/// Refutations with cases, and lines that are none.
static REFUTATIONS: [Case; 13] = [
    // of each source what comes before the flag is seen, and then there is no other source; of two stores each is the first
    (
        TWO_FLAGS,
        "case-read 5 2\nin 1 5\nnosource 6\nelse\ncase-read 5 4\nin 3 5\nnosource 6\nelse\nnosource 5\n",
        HOLDS,
    ),
    (
        TWO_ORDERS,
        "case-before 1 2\nin 2 5\nnosource 6\nelse\nin 1 3\nnosource 4\n",
        HOLDS,
    ),
    (
        MESSAGE,
        "case-read 3 2\nin 2 3\nnosource 4\nelse\nnosource 3\n",
        HOLDS,
    ),
    // a step that only what is supposed in the first part allows; a source that is set aside is one for steps
    (
        TWO_FLAGS,
        "case-read 5 2\nin 1 5\nnosource 6\nelse\nin 1 5\nnosource 6\n",
        "REFUTATION REFUSED StepRefused line 5\n",
    ),
    (
        TWO_FLAGS,
        "case-read 5 2\nin 1 5\nnosource 6\nelse\nin 3 5\nnosource 6\n",
        "REFUTATION REFUSED StepRefused line 5\n",
    ),
    // a store reads nothing, and an event doesn't come before itself
    (
        OWN,
        "case-read 1 3\nnosource 3\nelse\nnosource 3\n",
        "REFUTATION REFUSED CaseRefused line 1\n",
    ),
    (
        OWN,
        "case-before 1 1\nnosource 3\nelse\nnosource 3\n",
        "REFUTATION REFUSED CaseRefused line 1\n",
    ),
    // what is set aside of another load, and one of two sources
    (
        MESSAGE,
        "case-read 3 2\nin 2 3\nnosource 4\nelse\nnosource 4\n",
        "REFUTATION REFUSED EndRefused line 5\n",
    ),
    (
        TWO_FLAGS,
        "case-read 5 2\nin 1 5\nnosource 6\nelse\nnosource 5\n",
        "REFUTATION REFUSED EndRefused line 5\n",
    ),
    // lines in the wrong place, and lines that are missing
    (
        OWN,
        "nosource 3\nelse\nnosource 3\n",
        "REFUTATION REFUSED Misplaced line 2\n",
    ),
    (
        OWN,
        "case-read 3 1\nelse\nnosource 3\n",
        "REFUTATION REFUSED Misplaced line 2\n",
    ),
    (
        OWN,
        "case-read 3 1\nnosource 3\n",
        "REFUTATION REFUSED Unfinished\n",
    ),
    (
        OWN,
        "case-read 3 1\nnosource 3\nelse\n",
        "REFUTATION REFUSED Unfinished\n",
    ),
];

/// Orders, and lists that are none.
static ORDERS: [Case; 25] = [
    (SEEN, "order 1 2 3 4\n", ORDER_HOLDS),
    (SWAPS, "order 1 1' 2 2'\n", ORDER_HOLDS),
    // loads before stores of their processors, one of which is forwarded; no events
    (
        "0 st 1 1\n0 ld 2 0\n1 st 2 1\n1 ld 1 0\n",
        "order 2 4 1 3\n",
        ORDER_HOLDS,
    ),
    ("0 st 0 1\n0 ld 0 1\n", "order 2 1\n", ORDER_HOLDS),
    ("0 mb\n", "order\n", ORDER_HOLDS),
    // a swap that stores what it read is a load, but under PSO, which lets stores to two addresses change places
    ("0 st 0 1\n1 sw 0 1 1\n", "order 1 2\n", ORDER_HOLDS),
    (
        "model pso\n0 st 0 1\n1 sw 0 1 1\n",
        "order 2 3\n",
        "ORDER REFUSED Missing event 3'\n",
    ),
    (
        "model pso\n0 st 1 5\n0 st 2 1\n",
        "order 3 2\n",
        ORDER_HOLDS,
    ),
    // lists in which not each event stands once
    (
        SEEN,
        "order 1 2 1 3 4\n",
        "ORDER REFUSED Repeated place 3\n",
    ),
    (SEEN, "order 2 2\n", "ORDER REFUSED Repeated place 2\n"),
    (SEEN, "order 4 1\n", "ORDER REFUSED Missing event 2\n"),
    (SEEN, "order\n", "ORDER REFUSED Missing event 1\n"),
    (SWAPS, "order 1 2 2'\n", "ORDER REFUSED Missing event 1'\n"),
    // each axiom, and of two events the first in the list
    (SEEN, "order 1 2 4 3\n", "ORDER REFUSED LoadOp event 4\n"),
    (
        SEEN,
        "order 2 1 3 4\n",
        "ORDER REFUSED StoreStore event 2\n",
    ),
    (
        "0 st 5 1\n0 sw 6 0 2\n",
        "order 2 2' 1\n",
        "ORDER REFUSED StoreStore event 2'\n",
    ),
    (
        "model pso\n0 st 1 5\n0 stbar\n0 st 2 1\n",
        "order 4 2\n",
        "ORDER REFUSED Stbar event 4\n",
    ),
    (
        "0 st 1 1\n0 mb\n0 ld 2 0\n",
        "order 3 1\n",
        "ORDER REFUSED Membar event 3\n",
    ),
    (
        "0 sw 5 0 1\n1 st 6 3\n",
        "order 1 2 1'\n",
        "ORDER REFUSED Atomicity event 2\n",
    ),
    (MESSAGE, "order 1 2 3 4\n", "ORDER REFUSED Value event 4\n"),
    (
        "0 ld 1 5\n1 ld 1 6\n",
        "order 2 1\n",
        "ORDER REFUSED Value event 2\n",
    ),
    // texts that are no evidence
    (SEEN, "order 1 2 3 5\n", "EVIDENCE REFUSED NoEvent line 1\n"),
    (
        IDLE_SWAP,
        "order 1 2 3 3' 4\n",
        "EVIDENCE REFUSED NoEvent line 1\n",
    ),
    (
        SEEN,
        "in 2 3\norder 1 2 3 4\n",
        "EVIDENCE REFUSED BadLine line 2\n",
    ),
    (
        SEEN,
        "order 1 2 3 4\nelse\n",
        "EVIDENCE REFUSED AfterEnd line 2\n",
    ),
];

/// The answer that a line stands for.
fn answer_of(line: &str) -> Answer {
    match line {
        ORDER_HOLDS => Answer::Clear,
        HOLDS => Answer::Violation,
        _ => Answer::Refused,
    }
}

/// The room that a line gets.
const ROOM: usize = 64;

/// Checks evidence, into these bytes; how much of the room is left.
fn checked_into(
    alloc: Global,
    (log, evidence): (&str, &str),
    bytes: &mut [u8; ROOM],
) -> (Result<Answer, Fault>, usize) {
    let mut writer = bytes.as_mut_slice();
    let mut first = log.as_bytes();
    let mut second = evidence.as_bytes();
    let said = check_log_evidence(alloc, &mut first, &mut second, &mut writer);
    (said, writer.len())
}

/// Compares the line of a case, written once more where an allocation was refused: that call wrote nothing.
fn expect_line(alloc: Global, (log, evidence, line): Case) -> Result<(), Fail> {
    let mut bytes = [0u8; ROOM];
    let (mut said, mut left) = checked_into(alloc, (log, evidence), &mut bytes);
    if said == Err(Fault::OutOfMemory) {
        expect_equal("left", left, ROOM)?;
        (said, left) = checked_into(alloc, (log, evidence), &mut bytes);
    }
    expect_equal(line, said, Ok(answer_of(line)))?;
    let count = ROOM.saturating_sub(left);
    expect_equal(line, bytes.get(..count).unwrap_or(b""), line.as_bytes())
}

fn expect_lines(alloc: Global, cases: &[Case]) -> Result<(), Fail> {
    for case in cases {
        expect_line(alloc, *case)?;
    }
    Ok(())
}

#[test]
fn evidence_of_logs_is_checked(rt: HostRuntime) -> Result<(), Fail> {
    expect_lines(rt.alloc(), &STEPS)?;
    expect_lines(rt.alloc(), &REFUTATIONS)?;
    expect_lines(rt.alloc(), &ORDERS)
}

/// Compares the lines of cases as values.
fn expect_reports(alloc: Global, cases: &[Case]) -> Result<(), Fail> {
    for (log, evidence, line) in cases {
        let mut reader = evidence.as_bytes();
        let report = report_log_evidence(alloc, log.as_bytes(), &mut reader)?;
        expect_equal(*line, report.verdict, answer_of(line))?;
        expect_equal(*line, report.text.as_str(), *line)?;
    }
    Ok(())
}

#[test]
fn evidence_of_logs_is_reported_by_value(rt: HostRuntime) -> Result<(), Fail> {
    expect_reports(rt.alloc(), &STEPS)?;
    expect_reports(rt.alloc(), &REFUTATIONS)?;
    expect_reports(rt.alloc(), &ORDERS)
}

/// A reader that fails in mid-stream, of a log or of evidence, and a writer that is full after some bytes.
#[test]
fn failing_streams_of_log_checks(rt: HostRuntime) -> Result<(), Fail> {
    let mut bytes = [0u8; 10];
    let mut writer = bytes.as_mut_slice();
    let mut torn = TornReader::new(OWN.as_bytes(), ErrorKind::Other);
    let mut evidence = b"nosource 3\n".as_slice();
    let said = check_log_evidence(rt.alloc(), &mut torn, &mut evidence, &mut writer);
    expect_equal("log", said, Err(Fault::Read))?;
    let mut log = OWN.as_bytes();
    let mut torn = TornReader::new(b"nosource 3\n".as_slice(), ErrorKind::Other);
    let said = check_log_evidence(rt.alloc(), &mut log, &mut torn, &mut writer);
    expect_equal("evidence", said, Err(Fault::Read))?;
    expect_equal("left", writer.len(), 10)?;
    let mut log = OWN.as_bytes();
    let said = check_log_evidence(rt.alloc(), &mut log, &mut evidence, &mut writer);
    expect_equal("writer", said, Err(Fault::Write))?;
    expect_equal("written", bytes.as_slice(), b"REFUTATION".as_slice())
}
