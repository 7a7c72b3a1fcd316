//! Writers that fail, are slow or are interrupted.

use super::readers::{CASES, HOLDS};
use super::{Ended, expect, expect_bytes, expect_count};
use std::alloc::Global;
use std::io::{ErrorKind, Write};
use std::process::Abort;
use std::sync::Wait;
use std::thread::Threads;
use traces_for_tests::{
    Example, Full, INDEPENDENT_READS, InterruptedWriter, ShortWriter, SlowWriter,
};
use tso_report::{Fault, Verdict, check_texts, judge, write_text};

/// The report on a violation, or on its certificate, and what writes it.
#[derive(Clone, Copy)]
struct Writing {
    example: Example,
    is_check: bool,
    text: &'static str,
}

/// The report of an example.
fn judging(example: Example) -> Writing {
    Writing {
        example,
        is_check: false,
        text: example.report,
    }
}

/// The report on the certificate of the example `independent_reads`.
fn checking() -> Writing {
    Writing {
        example: INDEPENDENT_READS,
        is_check: true,
        text: HOLDS,
    }
}

/// Judges the trace of an example, or checks its certificate, and writes to this writer.
fn written_to<H: Threads + Wait + Sync, W: Write>(
    rt: &H,
    alloc: Global,
    writing: Writing,
    writer: &mut W,
) -> Result<Verdict, Fault> {
    let Example {
        trace,
        certificate,
        ..
    } = writing.example;
    let mut trace = trace.as_bytes();
    if writing.is_check {
        return check_texts(alloc, &mut trace, &mut certificate.as_bytes(), writer);
    }
    judge(rt, alloc, &mut trace, writer, 1)
}

/// Compares what a writer with so much room, less than the text needs, leads to.
fn expect_short<H: Threads + Wait + Sync + Abort>(
    rt: &H,
    alloc: Global,
    writing: Writing,
    room: usize,
    full: Full,
) {
    let mut writer = ShortWriter::new(alloc, room, full);
    let said = written_to(rt, alloc, writing, &mut writer);
    // one call fills the room, and the next one is the last
    expect_count(rt, "calls", writer.calls, room.min(1).saturating_add(1));
    let written = writer.taken;
    let text = writing.text.get(..room).unwrap_or("no text");
    expect(rt, text, &Ended { said, written }, Err(Fault::Write), text);
}

/// Compares what each room that is too small for a text leads to, the room that it fills, and a writer of one byte a call.
fn expect_each_room<H: Threads + Wait + Sync + Abort>(rt: &H, alloc: Global, writing: Writing) {
    let text = writing.text;
    for room in 0..text.len() {
        expect_short(rt, alloc, writing, room, Full::Fails(ErrorKind::Other));
        expect_short(rt, alloc, writing, room, Full::TakesNothing);
    }
    let mut writer = ShortWriter::new(alloc, text.len(), Full::TakesNothing);
    let said = written_to(rt, alloc, writing, &mut writer);
    let written = writer.taken;
    expect(
        rt,
        text,
        &Ended { said, written },
        Ok(Verdict::Violation),
        text,
    );
    let mut writer = SlowWriter::new(alloc);
    let said = written_to(rt, alloc, writing, &mut writer);
    let written = writer.taken;
    expect(
        rt,
        text,
        &Ended { said, written },
        Ok(Verdict::Violation),
        text,
    );
}

#[test]
fn writer_stops_short_or_is_slow(rt: HostRuntime) {
    for example in CASES {
        expect_each_room(&rt, rt.alloc(), judging(example));
    }
    expect_each_room(&rt, rt.alloc(), checking());
}

/// Compares the fault of a text to a writer, if there is one.
fn expect_fault<H: Abort, W: Write>(
    rt: &H,
    writer: &mut W,
    text: &[u8],
    expected: Result<(), Fault>,
) {
    assert_eq!(rt; write_text(writer, text), expected);
}

/// Kinds of errors, and how often a writer is called that has no room and fails with each: no call but an interrupted one is
/// tried again, and the 1,048,577th interruption of one text is a fault.
const FAILURES: [(ErrorKind, usize); 7] = [
    (ErrorKind::Other, 1),
    (ErrorKind::OutOfMemory, 1),
    (ErrorKind::WouldBlock, 1),
    (ErrorKind::TimedOut, 1),
    (ErrorKind::UnexpectedEof, 1),
    (ErrorKind::BrokenPipe, 1),
    (ErrorKind::Interrupted, 1_048_577),
];

#[test]
fn writer_fails(rt: HostRuntime) {
    for (kind, calls) in FAILURES {
        let mut writer = ShortWriter::new(rt.alloc(), 0, Full::Fails(kind));
        expect_fault(&rt, &mut writer, HOLDS.as_bytes(), Err(Fault::Write));
        expect_count(&rt, "no room", writer.calls, calls);
        let mut writer = ShortWriter::new(rt.alloc(), 3, Full::Fails(kind));
        expect_fault(&rt, &mut writer, b"12345", Err(Fault::Write));
        expect_bytes(&rt, "room for 3", &writer.taken, b"123");
        expect_count(&rt, "room for 3", writer.calls, calls.saturating_add(1));
    }
}

/// How often a writer is interrupted before it takes a text, whether it takes it then, and what it took. It is called 1,048,577
/// times.
const INTERRUPTS: [(usize, Result<(), Fault>, &str); 2] = [
    (1_048_576, Ok(()), HOLDS),
    (1_048_577, Err(Fault::Write), ""),
];

/// 1,048,576 interruptions of one text are not too many, and one more is.
#[test]
fn writer_interrupted_up_to_the_limit(rt: HostRuntime) {
    for (interrupts, expected, taken) in INTERRUPTS {
        let mut writer = InterruptedWriter::new(rt.alloc(), interrupts);
        expect_fault(&rt, &mut writer, HOLDS.as_bytes(), expected);
        expect_bytes(&rt, "interrupted", &writer.taken, taken.as_bytes());
        expect_count(&rt, "interrupted", writer.calls, 1_048_577);
    }
}

/// A writer of one byte a call, interrupted once before each.
#[test]
fn text_to_a_slow_writer(rt: HostRuntime) {
    let mut writer = SlowWriter::new(rt.alloc());
    expect_fault(&rt, &mut writer, HOLDS.as_bytes(), Ok(()));
    expect_bytes(&rt, "slow", &writer.taken, HOLDS.as_bytes());
}
