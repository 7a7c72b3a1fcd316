//! Programs with their outcomes by hand, and refused allocations.

use outcome_reports::{count_seen, list_outcomes};
use request_options::{OutcomeForm, OutcomeOptions};
use std::alloc::Global;
use std::process::Abort;
use text_streams::Fault;
use trace_reports::Answer;

/// More states than runs of any of these programs reach.
const LIMIT: u64 = 1_000;

/// Two processors store to a location each and load the other's.
const STORE_BUFFERING: &str = "tso program 1\nproc\nst 0 1\nld 1\nproc\nst 1 2\nld 0\nend\n";

/// One processor stores to two locations, and the other loads from the second and then from the first.
const MESSAGE_PASSING: &str = "tso program 1\nproc\nst 0 1\nst 1 2\nproc\nld 1\nld 0\nend\n";

/// The same under PSO.
const MESSAGE_PASSING_UNDER_PSO: &str =
    "tso program 1\nmodel pso\nproc\nst 0 1\nst 1 2\nproc\nld 1\nld 0\nend\n";

/// Two processors store to two locations in opposite order, and nothing is loaded.
const TWO_PLUS_TWO_WRITES: &str =
    "tso program 1\nproc\nst 0 1\nst 1 2\nproc\nst 1 3\nst 0 4\nend\n";

/// Its trace.
const TRACE: &str = "tso trace 1\nproc\nst 0 1\nst 1 2\nproc\nst 1 3\nst 0 4\nend\n";

/// One trace of store buffering once and another twice, one that no run leaves, one of another program, and a broken one.
const STREAM: &str =
    "tso trace 1\nproc\nst 0 1\nld 1 2\nproc\nst 1 2\nld 0 1\nend\ntso trace 1\nproc\nst 0 1\nld 1 0\nproc\nst 1 2\nld 0 0\nend\ntso trace 1\nproc\nst 0 1\nld 1 9\nproc\nst 1 2\nld 0 0\nend\ntso trace 1\nproc\nst 0 1\nend\ntso trace 1\nproc\nst 0 1\nld 1 2\nproc\nst 1 2\nld 0 1\nend\ntso trace 1\nproc\nst 0 1\n";

/// What is asked about a program.
#[derive(Clone, Copy)]
enum Asked {
    /// Its outcomes in this form.
    Outcomes(OutcomeForm),
    /// How often a stream has its traces.
    Seen(&'static str),
}

const STATES: Asked = Asked::Outcomes(OutcomeForm::States);

const TRACES: Asked = Asked::Outcomes(OutcomeForm::Traces);

/// A program, what is asked about it, how many states its runs may reach, and the answer with its text.
type Case = (&'static str, Asked, u64, Answer, &'static str);

static CASES: [Case; 13] = [
    (
        STORE_BUFFERING,
        STATES,
        LIMIT,
        Answer::Clear,
        "States 4\n0:0=0; 1:0=0; [0]=1; [1]=2;\n0:0=0; 1:0=1; [0]=1; [1]=2;\n0:0=2; 1:0=0; [0]=1; [1]=2;\n0:0=2; 1:0=1; [0]=1; [1]=2;\n",
    ),
    // the second store is seen only after the first
    (
        MESSAGE_PASSING,
        STATES,
        LIMIT,
        Answer::Clear,
        "States 3\n1:0=0; 1:1=0; [0]=1; [1]=2;\n1:0=0; 1:1=1; [0]=1; [1]=2;\n1:0=2; 1:1=1; [0]=1; [1]=2;\n",
    ),
    // or before it
    (
        MESSAGE_PASSING_UNDER_PSO,
        STATES,
        LIMIT,
        Answer::Clear,
        "States 4\n1:0=0; 1:1=0; [0]=1; [1]=2;\n1:0=0; 1:1=1; [0]=1; [1]=2;\n1:0=2; 1:1=0; [0]=1; [1]=2;\n1:0=2; 1:1=1; [0]=1; [1]=2;\n",
    ),
    // not both first stores last
    (
        TWO_PLUS_TWO_WRITES,
        STATES,
        LIMIT,
        Answer::Clear,
        "States 3\n[0]=1; [1]=2;\n[0]=4; [1]=2;\n[0]=4; [1]=3;\n",
    ),
    (
        STORE_BUFFERING,
        TRACES,
        LIMIT,
        Answer::Clear,
        "tso trace 1\nproc\nst 0 1\nld 1 0\nproc\nst 1 2\nld 0 0\nend\ntso trace 1\nproc\nst 0 1\nld 1 0\nproc\nst 1 2\nld 0 1\nend\ntso trace 1\nproc\nst 0 1\nld 1 2\nproc\nst 1 2\nld 0 0\nend\ntso trace 1\nproc\nst 0 1\nld 1 2\nproc\nst 1 2\nld 0 1\nend\n",
    ),
    // three final states have one trace
    (TWO_PLUS_TWO_WRITES, TRACES, LIMIT, Answer::Clear, TRACE),
    (
        STORE_BUFFERING,
        STATES,
        1,
        Answer::Refused,
        "REFUSED States\n",
    ),
    (
        "tso trace 1\nend\n",
        STATES,
        LIMIT,
        Answer::Refused,
        "REFUSED BadHeader line 1\n",
    ),
    (
        STORE_BUFFERING,
        Asked::Seen(STREAM),
        LIMIT,
        Answer::Violation,
        "Traces 4\n1 0:0=0; 1:0=0;\n0 0:0=0; 1:0=1;\n0 0:0=2; 1:0=0;\n2 0:0=2; 1:0=1;\nSeen 2\nViolations 1\nRefused 2\n",
    ),
    // a trace of no run
    (
        MESSAGE_PASSING_UNDER_PSO,
        Asked::Seen("tso trace 1\nmodel pso\nproc\nst 0 1\nst 1 2\nproc\nld 1 2\nld 0 9\nend\n"),
        LIMIT,
        Answer::Undecided,
        "Traces 4\n0 1:0=0; 1:1=0;\n0 1:0=0; 1:1=1;\n0 1:0=2; 1:1=0;\n0 1:0=2; 1:1=1;\nSeen 0\nUndecided 1\nRefused 0\n",
    ),
    // a trace with no load has an empty line; a trace of another program is refused
    (
        TWO_PLUS_TWO_WRITES,
        Asked::Seen(
            "tso trace 1\nproc\nst 0 1\nst 1 2\nproc\nst 1 3\nst 0 4\nend\ntso trace 1\nend\n",
        ),
        LIMIT,
        Answer::Refused,
        "Traces 1\n1 \nSeen 1\nViolations 0\nRefused 1\n",
    ),
    (
        STORE_BUFFERING,
        Asked::Seen(STREAM),
        1,
        Answer::Refused,
        "REFUSED States\n",
    ),
    (
        "tso program 1\nx\n",
        Asked::Seen(STREAM),
        LIMIT,
        Answer::Refused,
        "REFUSED BadLine line 2\n",
    ),
];

/// The room that a text gets.
const ROOM: usize = 512;

/// Writes what is asked about a program into these bytes; how much of the room is left.
fn written_into(
    alloc: Global,
    (program, asked, limit, _, _): Case,
    bytes: &mut [u8; ROOM],
) -> (Result<Answer, Fault>, usize) {
    let mut writer = bytes.as_mut_slice();
    let mut program = program.as_bytes();
    let said = match asked {
        Asked::Outcomes(form) => {
            let options = OutcomeOptions { limit, form };
            list_outcomes(alloc, &mut program, &mut writer, options)
        }
        Asked::Seen(stream) => {
            count_seen(
                alloc,
                &mut program,
                &mut stream.as_bytes(),
                &mut writer,
                limit,
            )
        }
    };
    (said, writer.len())
}

/// Compares what is written in a case, written once more where an allocation was refused: the call that meets it answers OutOfMemory
/// and writes nothing.
fn expect_case<H: Abort>(rt: &H, alloc: Global, case: Case) {
    let (program, _, _, verdict, text) = case;
    let mut bytes = [0u8; ROOM];
    let (mut said, mut left) = written_into(alloc, case, &mut bytes);
    if said == Err(Fault::OutOfMemory) {
        assert!(rt; left == ROOM);
        (said, left) = written_into(alloc, case, &mut bytes);
    }
    assert!(rt; said == Ok(verdict), "{program}");
    let count = ROOM.saturating_sub(left);
    assert!(rt; bytes.get(..count) == Some(text.as_bytes()), "{program}");
}

#[test]
fn outcomes_by_hand(rt: HostRuntime) {
    for case in &CASES {
        expect_case(&rt, rt.alloc(), *case);
    }
}

/// Those of the program with the fewest states.
const SMALL: [Case; 3] = [
    (
        TWO_PLUS_TWO_WRITES,
        STATES,
        LIMIT,
        Answer::Clear,
        "States 3\n[0]=1; [1]=2;\n[0]=4; [1]=2;\n[0]=4; [1]=3;\n",
    ),
    (TWO_PLUS_TWO_WRITES, TRACES, LIMIT, Answer::Clear, TRACE),
    (
        TWO_PLUS_TWO_WRITES,
        Asked::Seen(TRACE),
        LIMIT,
        Answer::Clear,
        "Traces 1\n1 \nSeen 1\nViolations 0\nRefused 0\n",
    ),
];

/// Allocations refused in turn: `rt try --test --fail-alloc N` refuses the Nth.
#[test]
fn refused_allocations_of_outcomes(rt: HostRuntime) {
    for case in SMALL {
        expect_case(&rt, rt.alloc(), case);
    }
}
