//! Readers and writers that fail, are slow or stop short, refused allocations, and the meter of a batch.

use super::{
    Case, DOCUMENT, JUNIT, LINES, OTHER, QUIET, SIX, STREAM, TEXT, THREE, TWO_VIOLATIONS,
    VIOLATIONS, WORDS, expect, expect_batch, required, unread,
};
use progress_meters::{Meter, NoMeter};
use std::alloc::Global;
use std::cell::Cell;
use std::io::{ErrorKind, Read, Write};
use std::process::Abort;
use std::sync::Wait;
use std::test::Fail;
use std::thread::Threads;
use text_streams::Fault;
use trace_batches::{Batch, BatchOptions, judge_batch};
use trace_reports::Answer;
use traces_for_tests::{FlushedWriter, SlowReader, TornReader};

const VIOLATION: Answer = Answer::Violation;

/// The notes on six texts.
const NOTES: &str = "kept 1 trace 2\nkept 2 trace 5\ntraces 6 violations 2 refused 3\n";

/// The violations of six texts.
const VIOLATIONS_OF_SIX: Case = (&[(None, SIX)], VIOLATIONS, VIOLATION, TWO_VIOLATIONS, NOTES);

/// Batches whose writer stops at each byte.
const STOPPED: [Case; 5] = [
    (&[(None, STREAM)], WORDS, VIOLATION, TEXT, ""),
    (&[(None, STREAM)], JUNIT, VIOLATION, DOCUMENT, ""),
    (&THREE, WORDS, VIOLATION, LINES, ""),
    // a violation is noted after it was written
    VIOLATIONS_OF_SIX,
    unread::AMONG_OTHERS,
];

/// Compares what a batch of a case leads to whose writer stops at each byte.
fn expect_stopped<H: Threads + Wait + Sync + Abort>(rt: &H, alloc: Global, case: Case) {
    for room in 0..case.3.len() {
        expect_batch(rt, alloc, case, 1, room, usize::MAX);
    }
}

#[test]
fn writer_stops_at_each_byte(rt: HostRuntime) {
    for case in STOPPED {
        expect_stopped(&rt, rt.alloc(), case);
    }
    for case in required::FEW {
        expect_stopped(&rt, rt.alloc(), required::required(case));
    }
}

/// Compares what a batch of a case leads to whose errors stop at each byte.
fn expect_stopped_notes<H: Threads + Wait + Sync + Abort>(rt: &H, alloc: Global, case: Case) {
    for room in 0..case.4.len() {
        expect_batch(rt, alloc, case, 1, usize::MAX, room);
    }
}

/// Errors that stop at each byte have the first bytes of the notes, each after what it is about was written.
#[test]
fn notes_to_errors_that_stop(rt: HostRuntime) {
    expect_stopped_notes(&rt, rt.alloc(), VIOLATIONS_OF_SIX);
    expect_stopped_notes(&rt, rt.alloc(), unread::AMONG_OTHERS);
    for case in required::FEW {
        expect_stopped_notes(&rt, rt.alloc(), required::required(case));
    }
}

/// With one worker, and all lines.
const OPTIONS: BatchOptions = BatchOptions {
    workers: 1,
    printing: WORDS,
};

/// Judges a batch with one worker, and writes all lines. It answers Missing, which is no fault of batches, where something
/// was written to the errors.
fn judged<H: Threads + Wait + Sync, R: Read, W: Write>(
    rt: &H,
    alloc: Global,
    reader: &mut R,
    writer: &mut W,
) -> Result<Answer, Fault> {
    let mut errors = Vec::new(alloc);
    let said = judge_batch(rt, alloc, OPTIONS, reader, writer, &mut errors);
    if errors.is_empty() {
        said
    } else {
        Err(Fault::Missing(0))
    }
}

/// Each line `end` is read in two parts, at each place.
#[test]
fn reader_of_few_bytes_a_call(rt: HostRuntime) {
    for most in 1..STREAM.len() {
        let mut written = Vec::new(rt.alloc());
        let mut reader = SlowReader::new(STREAM.as_bytes(), most);
        let said = judged(&rt, rt.alloc(), &mut reader, &mut written);
        expect(&rt, "slow", said, Ok(VIOLATION), &written, TEXT);
    }
}

/// How many bytes of the text are written when so many bytes of the stream came: the lines of the trace texts that end in them.
fn written_after(count: usize) -> usize {
    match count {
        0..35 => 0,
        35..63 => 27,
        63..92 => 45,
        _ => 78,
    }
}

/// Lines are written before more is read, and the last line isn't written after a fault.
#[test]
fn reader_fails_at_each_byte(rt: HostRuntime) {
    for count in 0..93usize {
        let bytes = STREAM.get(..count).unwrap_or(STREAM).as_bytes();
        let text = TEXT.get(..written_after(count)).unwrap_or(TEXT);
        let torn = TornReader::new(bytes, ErrorKind::Other);
        let mut written = Vec::new(rt.alloc());
        let said = judged(
            &rt,
            rt.alloc(),
            &mut SlowReader::new(torn, 64),
            &mut written,
        );
        expect(&rt, "torn", said, Err(Fault::Read), &written, text);
        let torn = TornReader::new(bytes, ErrorKind::Other);
        let mut written = Vec::new(rt.alloc());
        let said = judged(&rt, rt.alloc(), &mut SlowReader::new(torn, 1), &mut written);
        expect(&rt, "slow", said, Err(Fault::Read), &written, text);
    }
}

/// How many flushes a writer allows, how often it is flushed, what the batch says, and how many bytes the writer took.
const FLUSHES: [(usize, usize, Result<Answer, Fault>, usize); 5] = [
    (0, 0, Err(Fault::Write), 27),
    (1, 1, Err(Fault::Write), 45),
    (2, 2, Err(Fault::Write), 78),
    (3, 3, Err(Fault::Write), 110),
    (usize::MAX, 4, Ok(VIOLATION), 110),
];

/// Each line is flushed before the next one is written.
#[test]
fn lines_are_flushed(rt: HostRuntime) {
    for (most, flushes, expected, count) in FLUSHES {
        let mut writer = FlushedWriter::new(rt.alloc(), most);
        let said = judged(&rt, rt.alloc(), &mut STREAM.as_bytes(), &mut writer);
        let text = TEXT.get(..count).unwrap_or(STREAM);
        expect(&rt, "flushed", said, expected, &writer.taken, text);
        assert!(rt; writer.flushes == flushes);
    }
}

/// What is written of two texts of which the second fails.
const TORN: &str =
    "a: trace 1 REFUSED BeforeProc line 2\na: trace 2 VIOLATION\nb: trace 1 NO VIOLATION FOUND\nb: trace 2 VIOLATION\nb: trace 3 REFUSED BadNumber line 3\n";

/// Judges a text and then one that fails.
fn judged_both<H: Threads + Wait + Sync>(
    rt: &H,
    alloc: Global,
    output: &mut Vec<u8>,
) -> Result<Answer, Fault> {
    let mut errors = Vec::new(alloc);
    let mut batch = Batch::begin(alloc, OPTIONS, output)?;
    let mut other = OTHER.as_bytes();
    batch.judge(rt, &NoMeter, Some("a"), &mut other, output, &mut errors)?;
    let mut torn = TornReader::new(STREAM.as_bytes(), ErrorKind::Other);
    batch.judge(rt, &NoMeter, Some("b"), &mut torn, output, &mut errors)?;
    batch.end(output, &mut errors)
}

/// A fault in the second text comes after all lines before it, and no last line is written.
#[test]
fn second_text_fails(rt: HostRuntime) {
    let mut output = Vec::new(rt.alloc());
    let said = judged_both(&rt, rt.alloc(), &mut output);
    expect(&rt, "two texts", said, Err(Fault::Read), &output, TORN);
}

/// Counts the traces of which a batch's meter hears.
#[derive(Drop)]
struct TraceCount(Cell<u64>);

impl Meter for TraceCount {
    fn advance(&self, count: u64) {
        self.0.set(self.0.get().saturating_add(count));
    }
}

/// The meter hears of each trace of all texts, of refused ones too.
#[test]
fn meter_hears_of_each_trace(rt: HostRuntime) -> Result<(), Fail> {
    let meter = TraceCount(Cell::new(0));
    let mut output = Vec::new(rt.alloc());
    let mut errors = Vec::new(rt.alloc());
    let options = BatchOptions {
        workers: 2,
        printing: QUIET,
    };
    let mut batch = Batch::begin(rt.alloc(), options, &mut output)?;
    for text in [OTHER, STREAM] {
        let mut bytes = text.as_bytes();
        batch.judge(&rt, &meter, None, &mut bytes, &mut output, &mut errors)?;
    }
    assert!(rt; meter.0.get() == 5);
    Ok(())
}

/// The room that a text gets.
const ROOM: usize = 128;

/// Judges the stream, and writes the text into these bytes; how many were written.
fn judged_into<H: Threads + Wait + Sync>(
    rt: &H,
    alloc: Global,
    bytes: &mut [u8; ROOM],
) -> (Result<Answer, Fault>, usize) {
    let mut writer = bytes.as_mut_slice();
    let said = judged(rt, alloc, &mut STREAM.as_bytes(), &mut writer);
    (said, ROOM.saturating_sub(writer.len()))
}

/// Allocations refused in turn: `rt try --test --fail-alloc N` refuses the Nth. The batch that meets it answers OutOfMemory and
/// wrote the first bytes of its text; the next batch writes the whole text.
#[test]
fn refused_allocations_of_a_batch(rt: HostRuntime) {
    let mut bytes = [0u8; ROOM];
    let (mut said, mut count) = judged_into(&rt, rt.alloc(), &mut bytes);
    if said == Err(Fault::OutOfMemory) {
        let text = TEXT.get(..count).unwrap_or(TEXT);
        assert!(rt; bytes.get(..count) == Some(text.as_bytes()));
        (said, count) = judged_into(&rt, rt.alloc(), &mut bytes);
    }
    let written = bytes.get(..count).unwrap_or(b"no bytes");
    expect(&rt, "whole", said, Ok(VIOLATION), written, TEXT);
}
