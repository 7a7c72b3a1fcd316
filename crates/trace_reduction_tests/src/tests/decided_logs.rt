//! Logs that are decided on, from their texts. Where the decision can't be another, its bytes are expected, worked out by hand; else
//! its answer, and that its evidence holds.

use log_decisions::{LogQuestion, decide_log};
use log_evidence::report_log_evidence;
use std::alloc::Global;
use std::io::ErrorKind;
use std::test::Fail;
use text_streams::Fault;
use trace_reports::Answer;
use traces_for_tests::{TornReader, expect_equal};

/// By how many cases it is decided on a text, the text, whether it needs a line `end`, and what is written.
type Case = (usize, &'static str, bool, &'static str);

/// The room that a decision gets.
const ROOM: usize = 1_000;

/// A load reads a 0 that one of two processors stored, and then the 1 from before that.
const TWO_SOURCES: &str = "0 sw 1 0 1\n0 ld 1 0\n0 ld 1 1\n1 st 1 0\n2 st 1 0\n";

/// Logs that have an order or none, the latter of which some need cases.
static LOGS: [(&str, Answer); 8] = [
    (TWO_SOURCES, Answer::Violation),
    (
        "0 sw 1 0 1\n0 ld 1 0\n0 ld 1 0\n1 st 1 0\n2 st 1 0\n",
        Answer::Clear,
    ),
    // store buffering, without barriers and with them
    ("0 st 0 1\n0 ld 1 0\n1 st 1 1\n1 ld 0 0\n", Answer::Clear),
    (
        "0 st 0 1\n0 mb\n0 ld 1 0\n1 st 1 1\n1 mb\n1 ld 0 0\n",
        Answer::Violation,
    ),
    // message passing, under TSO and under PSO
    (
        "0 st 0 1\n0 st 1 1\n1 ld 1 1\n1 ld 0 0\n",
        Answer::Violation,
    ),
    (
        "model pso\n0 st 0 1\n0 st 1 1\n1 ld 1 1\n1 ld 0 0\n",
        Answer::Clear,
    ),
    // a lock that is taken twice, and one that is released between
    (
        "0 sw 9 0 1\n0 st 9 0\n0 sw 9 0 1\n1 sw 9 0 1\n",
        Answer::Violation,
    ),
    (
        "0 sw 9 0 1\n0 st 9 0\n1 sw 9 0 1\n1 st 9 0\n0 sw 9 0 1\n2 ld 9 1\n2 ld 9 1\n2 ld 9 1\n",
        Answer::Clear,
    ),
];

static DECISIONS: [Case; 15] = [
    // no case may be supposed
    (
        0,
        TWO_SOURCES,
        false,
        "TSO LOG DECISION 1\nprocessors 3 events 6 left 0\nUNDECIDED 0\n",
    ),
    // one order alone
    (
        100,
        "",
        false,
        "TSO LOG DECISION 1\nprocessors 0 events 0 left 0\nCONSISTENT\norder\n",
    ),
    (
        100,
        "0 st 0 1\n0 mb\n0 ld 0 1\n",
        false,
        "TSO LOG DECISION 1\nprocessors 1 events 2 left 0\nCONSISTENT\norder 1 3\n",
    ),
    (
        100,
        "0 st 0 1\n1 ld 0 1\n1 st 1 2\n0 ld 1 2\n",
        false,
        "TSO LOG DECISION 1\nprocessors 2 events 4 left 0\nCONSISTENT\norder 1 2 3 4\n",
    ),
    (
        0,
        "0 sw 0 0 1\n1 sw 0 1 0\n0 sw 0 0 1\n",
        false,
        "TSO LOG DECISION 1\nprocessors 2 events 6 left 0\nCONSISTENT\norder 1 1' 2 2' 3 3'\n",
    ),
    // a load between two that read the same comes where they do
    (
        100,
        "init 0 1\n0 ld 0 1\n0 ld 0 1\n0 ld 0 1\nend\n",
        true,
        "TSO LOG DECISION 1\nprocessors 1 events 3 left 0\nCONSISTENT\norder 2 3 4\n",
    ),
    // a swap that stores what it read is a load under TSO
    (
        100,
        "0 sw 0 0 0\n",
        false,
        "TSO LOG DECISION 1\nprocessors 1 events 1 left 0\nCONSISTENT\norder 1\n",
    ),
    (
        100,
        "model pso\n0 sw 0 0 0\n",
        false,
        "TSO LOG DECISION 1\nprocessors 1 events 2 left 0\nCONSISTENT\norder 2 2'\n",
    ),
    // operations that are left out
    (
        100,
        "0 un 5\n0 st 5 1\n1 ld 5 7\n",
        false,
        "TSO LOG DECISION 1\nprocessors 2 events 0 left 2\nCONSISTENT\norder\n",
    ),
    // nothing wrote what was read
    (
        0,
        "0 ld 0 7\n",
        false,
        "TSO LOG DECISION 1\nprocessors 1 events 1 left 0\nVIOLATION\nnosource 1\n",
    ),
    (
        100,
        "0 st 0 1\n0 st 0 2\n0 ld 0 1\n",
        false,
        "TSO LOG DECISION 1\nprocessors 1 events 3 left 0\nVIOLATION\nnosource 3\n",
    ),
    // refused
    (100, "0 ld 0\n", false, "REFUSED BadLine line 1\n"),
    (100, "0 mb\n", true, "REFUSED BadLine line 2\n"),
    (
        100,
        "0 mb\nend\n",
        true,
        "TSO LOG DECISION 1\nprocessors 1 events 0 left 0\nCONSISTENT\norder\n",
    ),
    (
        100,
        "# nothing\n",
        false,
        "TSO LOG DECISION 1\nprocessors 0 events 0 left 0\nCONSISTENT\norder\n",
    ),
];

/// What it said of a text by so many cases, and how much of the room for the decision was left.
fn decided_into(
    alloc: Global,
    question: LogQuestion,
    text: &str,
    bytes: &mut [u8],
) -> (Result<Answer, Fault>, usize) {
    let mut reader = text.as_bytes();
    let mut writer = bytes;
    let said = decide_log(alloc, question, &mut reader, &mut writer);
    (said, writer.len())
}

/// The answer of a decision.
fn answer_in(text: &str) -> Answer {
    match text.lines().nth(2) {
        Some("CONSISTENT") => Answer::Clear,
        Some("VIOLATION") => Answer::Violation,
        Some(_) => Answer::Undecided,
        None => Answer::Refused,
    }
}

/// Compares a decision, made once more where an allocation was refused: that call wrote nothing.
fn expect_decision(alloc: Global, (effort, text, needs_end, decision): Case) -> Result<(), Fail> {
    let question = LogQuestion { effort, needs_end };
    let mut bytes = [0u8; ROOM];
    let (mut said, mut left) = decided_into(alloc, question, text, &mut bytes);
    if said == Err(Fault::OutOfMemory) {
        expect_equal("left", left, ROOM)?;
        (said, left) = decided_into(alloc, question, text, &mut bytes);
    }
    expect_equal(text, said, Ok(answer_in(decision)))?;
    let count = ROOM.saturating_sub(left);
    expect_equal(text, bytes.get(..count).unwrap_or(b""), decision.as_bytes())
}

/// Decides on a log, and checks the evidence that follows the line of the answer.
fn expect_evidence(alloc: Global, text: &str, answer: Answer) -> Result<(), Fail> {
    let question = LogQuestion {
        effort: 100,
        needs_end: false,
    };
    let mut bytes = [0u8; ROOM];
    let (said, left) = decided_into(alloc, question, text, &mut bytes);
    expect_equal(text, said, Ok(answer))?;
    let written = bytes.get(..ROOM.saturating_sub(left)).unwrap_or(b"");
    let mut evidence = evidence_of(written);
    let report = report_log_evidence(alloc, text.as_bytes(), &mut evidence)?;
    expect_equal(text, report.verdict, answer)
}

/// What follows the third line end.
fn evidence_of(decision: &[u8]) -> &[u8] {
    let mut ends: usize = 0;
    for (place, byte) in decision.iter().enumerate() {
        if *byte == b'\n' {
            ends = ends.saturating_add(1);
        }
        if ends == 3 {
            return decision.get(place.saturating_add(1)..).unwrap_or(b"");
        }
    }
    b""
}

#[test]
fn evidence_of_decisions_holds(rt: HostRuntime) -> Result<(), Fail> {
    for (text, answer) in &LOGS {
        expect_evidence(rt.alloc(), text, *answer)?;
    }
    Ok(())
}

#[test]
fn logs_are_decided_on(rt: HostRuntime) -> Result<(), Fail> {
    for case in &DECISIONS {
        expect_decision(rt.alloc(), *case)?;
    }
    Ok(())
}

/// A reader that fails in mid-stream, and a writer that is full after some bytes.
#[test]
fn failing_streams_of_log_decisions(rt: HostRuntime) -> Result<(), Fail> {
    let question = LogQuestion {
        effort: 100,
        needs_end: false,
    };
    let mut bytes = [0u8; 10];
    let mut writer = bytes.as_mut_slice();
    let mut torn = TornReader::new(b"0 st 0 1\n".as_slice(), ErrorKind::Other);
    let said = decide_log(rt.alloc(), question, &mut torn, &mut writer);
    expect_equal("log", said, Err(Fault::Read))?;
    expect_equal("left", writer.len(), 10)?;
    let mut log = b"0 st 0 1\n".as_slice();
    let said = decide_log(rt.alloc(), question, &mut log, &mut writer);
    expect_equal("writer", said, Err(Fault::Write))?;
    expect_equal("written", bytes.as_slice(), b"TSO LOG DE".as_slice())
}
