//! Logs that are reported on, and readers, writers and allocations that fail.

mod notes;
mod progress;
mod reports;

use log_reports::{
    AsExplainedLog, AsLogEvidence, AsLogLines, AsLogTraces, LogReporting, report_log,
};
use progress_meters::NoMeter;
use request_options::{LogForm, LogOptions};
use std::io::{ErrorKind, Read, Write};
use std::process::Abort;
use std::sync::Wait;
use std::thread::Threads;
use text_streams::Fault;
use trace_reports::Answer;
use traces_for_tests::{Full, ShortWriter, SlowReader, TornReader};

/// How a log is reported on, its text, what is said of it, and what is written to the output and to the errors.
type Case = (LogOptions, &'static str, Answer, &'static str, &'static str);

/// How logs are reported on where nothing else is asked for.
const LINES: LogOptions = LogOptions {
    most: 10,
    effort: 100,
    max_unknown: 100,
    needs_end: false,
    form: LogForm::Lines,
};

const TRACES: LogOptions = LogOptions {
    most: 10,
    effort: 100,
    max_unknown: 100,
    needs_end: false,
    form: LogForm::Traces,
};

const EVIDENCE: LogOptions = LogOptions {
    most: 10,
    effort: 100,
    max_unknown: 100,
    needs_end: false,
    form: LogForm::Evidence,
};

/// Compares what is said of the log that a reader gives, and what is written of it, where the output and the errors have so much
/// room.
fn expect<H: Threads + Wait + AllocGlobal + Abort, R: Read>(
    rt: &H,
    reader: &mut R,
    options: LogOptions,
    (room, errors_room): (usize, usize),
    said: Result<Answer, Fault>,
    (report, notes): (&str, &str),
) {
    let mut written = ShortWriter::new(rt.alloc(), room, Full::TakesNothing);
    let mut errors = ShortWriter::new(rt.alloc(), errors_room, Full::TakesNothing);
    let given = write_report(rt, options, reader, &mut written, &mut errors);
    assert_eq!(rt; given, said, "{report}");
    assert_eq!(rt; written.taken.as_slice(), report.as_bytes());
    assert_eq!(rt; errors.taken.as_slice(), notes.as_bytes());
}

/// Reports on the log that a reader has, in the form that the options name.
fn write_report<H: Threads + Wait + AllocGlobal, R: Read, W: Write, E: Write>(
    rt: &H,
    options: LogOptions,
    reader: &mut R,
    writer: &mut W,
    errors: &mut E,
) -> Result<Answer, Fault> {
    match options.form {
        LogForm::Lines => {
            let rendering = &AsLogLines;
            let reporting = LogReporting { options, rendering };
            report_log(rt, &reporting, &NoMeter, reader, writer, errors)
        }
        LogForm::Explained => {
            let rendering = &AsExplainedLog;
            let reporting = LogReporting { options, rendering };
            report_log(rt, &reporting, &NoMeter, reader, writer, errors)
        }
        LogForm::Traces => {
            let rendering = &AsLogTraces;
            let reporting = LogReporting { options, rendering };
            report_log(rt, &reporting, &NoMeter, reader, writer, errors)
        }
        LogForm::Evidence => {
            let rendering = &AsLogEvidence;
            let reporting = LogReporting { options, rendering };
            report_log(rt, &reporting, &NoMeter, reader, writer, errors)
        }
    }
}

/// Room for all bytes.
const ALL: (usize, usize) = (usize::MAX, usize::MAX);

#[test]
fn reports_by_hand(rt: HostRuntime) {
    for (options, log, verdict, report, notes) in &reports::CASES {
        let mut reader = log.as_bytes();
        expect(
            &rt,
            &mut reader,
            *options,
            ALL,
            Ok(*verdict),
            (*report, *notes),
        );
    }
}

/// A log with a load of what nothing wrote.
const LOG: &[u8] = b"0 ld 1 1\n";

/// Its report.
const REPORT: &str =
    "TSO LOG 1\nprocessors 1 operations 1 loads 1 unknown 0 left 0\nVIOLATION\nviolation 1\nline 1 0 ld 1 1\nstored 0\nviolations 1\n";

#[test]
fn streams_that_fail_or_are_slow(rt: HostRuntime) {
    let violation = Ok(Answer::Violation);
    let mut torn = TornReader::new(LOG, ErrorKind::Other);
    expect(&rt, &mut torn, LINES, ALL, Err(Fault::Read), ("", ""));
    let mut slow = SlowReader::new(LOG, 1);
    expect(&rt, &mut slow, LINES, ALL, violation, (REPORT, ""));
    let room = (20, usize::MAX);
    let first = ("TSO LOG 1\nprocessors", "");
    let mut reader = LOG;
    expect(&rt, &mut reader, LINES, room, Err(Fault::Write), first);
    // what the errors don't take of the notes is lost, and that is no fault
    let unjudged = Ok(Answer::Undecided);
    let room = (usize::MAX, 10);
    let first = ("", "NOTHING JU");
    let mut reader = b"0 mb\n".as_slice();
    expect(&rt, &mut reader, TRACES, room, unjudged, first);
}

/// Message passing, and a load that no violation needs.
const MESSAGE_PASSING: &[u8] = b"0 st 1 1\n0 st 2 2\n1 ld 3 0\n1 ld 2 2\n1 ld 1 0\n";

/// Its report.
const MESSAGE_REPORT: &[u8] =
    b"TSO LOG 1\nprocessors 2 operations 5 loads 3 unknown 0 left 0\nVIOLATION\nviolation 1\nline 1 0 st 1 1\nline 2 0 st 2 2\nline 4 1 ld 2 2\nline 5 1 ld 1 0\nviolations 1\n";

/// The room that a report gets.
const ROOM: usize = 256;

/// Writes the report on the messages into these bytes; how much of the room is left.
fn reported_into<H: Threads + Wait + AllocGlobal>(
    rt: &H,
    bytes: &mut [u8; ROOM],
) -> (Result<Answer, Fault>, usize) {
    let mut writer = bytes.as_mut_slice();
    let mut reader = MESSAGE_PASSING;
    let mut room = [0u8; ROOM];
    let mut errors = room.as_mut_slice();
    let said = write_report(rt, LINES, &mut reader, &mut writer, &mut errors);
    (said, writer.len())
}

/// Allocations refused in turn: `rt try --test --fail-alloc N` refuses the Nth. The call that meets it answers OutOfMemory and wrote
/// nothing; the next call writes the report.
#[test]
fn refused_allocations_of_a_report(rt: HostRuntime) {
    let mut bytes = [0u8; ROOM];
    let (mut said, mut left) = reported_into(&rt, &mut bytes);
    if said == Err(Fault::OutOfMemory) {
        assert!(rt; left == ROOM);
        (said, left) = reported_into(&rt, &mut bytes);
    }
    assert!(rt; said == Ok(Answer::Violation));
    let count = ROOM.saturating_sub(left);
    assert!(rt; bytes.get(..count) == Some(MESSAGE_REPORT));
}
