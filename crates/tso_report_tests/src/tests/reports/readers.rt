//! Readers that fail, are slow or have too many bytes.

use super::{Ended, expect, expect_bytes, expect_count};
use std::alloc::Global;
use std::io;
use std::io::{ErrorKind, Read};
use std::process::Abort;
use std::sync::Wait;
use std::test::Fail;
use std::thread::Threads;
use traces_for_tests::{
    EndedReader, Example, FailingReader, INDEPENDENT_READS, STORE_BUFFERING_WITH_BARRIERS,
    SlowReader, TWO_SWAPS_BOTH_FIRST, TornReader, UNWRITTEN_LOAD,
};
use tso_report::{Fault, Verdict, check_texts, judge, read_all};

/// The report on a certificate that holds.
pub(super) const HOLDS: &str = "CERTIFICATE HOLDS\n";

/// The traces whose readers and writers fail at each place.
pub(super) const CASES: [Example; 3] = [
    UNWRITTEN_LOAD,
    STORE_BUFFERING_WITH_BARRIERS,
    TWO_SWAPS_BOTH_FIRST,
];

/// Judges what a reader gives.
fn judged<H: Threads + Wait + Sync, R: Read>(rt: &H, alloc: Global, reader: &mut R) -> Ended {
    let mut written = Vec::new(alloc);
    let said = judge(rt, alloc, reader, &mut written, 1);
    Ended { said, written }
}

/// Checks the certificate of one reader against the trace of another.
fn checked<T: Read, C: Read>(alloc: Global, trace: &mut T, certificate: &mut C) -> Ended {
    let mut written = Vec::new(alloc);
    let said = check_texts(alloc, trace, certificate, &mut written);
    Ended { said, written }
}

/// Kinds of errors, and how often a reader is called that fails with each: no call but an interrupted one is tried again.
const FAILURES: [(ErrorKind, usize); 7] = [
    (ErrorKind::Other, 1),
    (ErrorKind::OutOfMemory, 1),
    (ErrorKind::WouldBlock, 1),
    (ErrorKind::TimedOut, 1),
    (ErrorKind::UnexpectedEof, 1),
    (ErrorKind::BrokenPipe, 1),
    (ErrorKind::Interrupted, 2_097_152),
];

#[test]
fn reader_fails(rt: HostRuntime) {
    for (kind, calls) in FAILURES {
        let mut reader = FailingReader::new(kind);
        let ended = judged(&rt, rt.alloc(), &mut reader);
        expect(&rt, "failing", &ended, Err(Fault::Read), "");
        expect_count(&rt, "calls", reader.calls, calls);
    }
}

/// Compares what readers lead to that fail after each number of bytes of this trace, which come at once or one a call.
fn expect_torn<H: Threads + Wait + Sync + Abort>(rt: &H, alloc: Global, trace: &str) {
    for count in 0..trace.len().saturating_add(1) {
        let rest = trace.as_bytes().get(..count).unwrap_or(b"no bytes");
        let mut torn = TornReader::new(rest, ErrorKind::UnexpectedEof);
        let ended = judged(rt, alloc, &mut torn);
        expect(rt, trace, &ended, Err(Fault::Read), "");
        let torn = TornReader::new(rest, ErrorKind::UnexpectedEof);
        let ended = judged(rt, alloc, &mut SlowReader::new(torn, 1));
        expect(rt, trace, &ended, Err(Fault::Read), "");
    }
}

#[test]
fn reader_fails_at_each_byte(rt: HostRuntime) {
    for example in CASES {
        expect_torn(&rt, rt.alloc(), example.trace);
    }
}

/// Of two readers the first and the second fail.
#[test]
fn either_reader_fails(rt: HostRuntime) {
    let Example {
        trace,
        certificate,
        ..
    } = INDEPENDENT_READS;
    let mut failing = FailingReader::new(ErrorKind::Other);
    let ended = checked(rt.alloc(), &mut failing, &mut certificate.as_bytes());
    expect(&rt, "trace", &ended, Err(Fault::Read), "");
    let ended = checked(rt.alloc(), &mut trace.as_bytes(), &mut failing);
    expect(&rt, "certificate", &ended, Err(Fault::Read), "");
}

/// Readers of one byte a call, each interrupted once before it.
#[test]
fn slow_readers(rt: HostRuntime) {
    let Example { trace, report, .. } = UNWRITTEN_LOAD;
    let ended = judged(&rt, rt.alloc(), &mut SlowReader::new(trace.as_bytes(), 1));
    expect(&rt, trace, &ended, Ok(Verdict::Violation), report);
    let Example {
        trace,
        certificate,
        ..
    } = INDEPENDENT_READS;
    let ended = checked(
        rt.alloc(),
        &mut SlowReader::new(trace.as_bytes(), 1),
        &mut SlowReader::new(certificate.as_bytes(), 1),
    );
    expect(&rt, trace, &ended, Ok(Verdict::Violation), HOLDS);
}

/// The end of a reader is seen once, and nothing is read after it.
#[test]
fn nothing_read_after_the_end(rt: HostRuntime) -> Result<(), Fail> {
    let Example {
        trace,
        certificate,
        report,
        ..
    } = UNWRITTEN_LOAD;
    let mut reader = EndedReader::new(trace.as_bytes());
    let bytes = read_all(rt.alloc(), &mut reader, 1_048_576)?;
    expect_bytes(&rt, "read", &bytes, trace.as_bytes());
    expect_count(&rt, "read", reader.calls, 2);
    let mut reader = EndedReader::new(trace.as_bytes());
    let ended = judged(&rt, rt.alloc(), &mut reader);
    expect(&rt, "judged", &ended, Ok(Verdict::Violation), report);
    expect_count(&rt, "judged", reader.calls, 2);
    let mut first = EndedReader::new(trace.as_bytes());
    let mut second = EndedReader::new(certificate.as_bytes());
    let ended = checked(rt.alloc(), &mut first, &mut second);
    expect(&rt, "checked", &ended, Ok(Verdict::Violation), HOLDS);
    expect_count(&rt, "checked", first.calls, 2);
    expect_count(&rt, "checked", second.calls, 2);
    Ok(())
}

/// A text that is followed by so many of one byte, and its report: its last byte is the last that a text has at most, or one more.
const LONG: [(&str, u8, usize, &str); 10] = [
    ("", 0, 1_048_577, TOO_LONG),
    ("", 0, 1_048_576, BAD_HEADER),
    ("", 10, 1_048_577, TOO_LONG),
    ("", 10, 1_048_576, BAD_HEADER),
    ("", b'x', 1_048_577, TOO_LONG),
    ("", b'x', 1_048_576, BAD_HEADER),
    ("", 255, 1_048_577, TOO_LONG),
    ("", 255, 1_048_576, BAD_HEADER),
    (
        "tso trace 1\nend\n",
        b'x',
        1_048_560,
        "REFUSED AfterEnd line 3\n",
    ),
    // whatever the bytes are, a good trace before them included
    ("tso trace 1\nend\n", b'x', 1_048_561, TOO_LONG),
];

const TOO_LONG: &str = "REFUSED TooLong line 0\n";

const BAD_HEADER: &str = "REFUSED BadHeader line 1\n";

#[test]
fn bytes_at_their_limit(rt: HostRuntime) -> Result<(), Fail> {
    for (front, byte, count, report) in LONG {
        let bytes = vec![in rt.alloc(); byte; count]?;
        let mut reader = front.as_bytes().chain(bytes.as_slice());
        let ended = judged(&rt, rt.alloc(), &mut reader);
        expect(&rt, front, &ended, Ok(Verdict::Refused), report);
    }
    Ok(())
}

/// A reader that fails after the byte that shows a text to be too long is read that far and no further, and a certificate isn't
/// read then.
#[test]
fn reader_fails_after_the_limit(rt: HostRuntime) -> Result<(), Fail> {
    let long = vec![in rt.alloc(); b'x'; 1_048_577]?;
    let mut torn = TornReader::new(&long, ErrorKind::UnexpectedEof);
    let ended = judged(&rt, rt.alloc(), &mut torn);
    expect(&rt, "judged", &ended, Ok(Verdict::Refused), TOO_LONG);
    let mut torn = TornReader::new(&long, ErrorKind::UnexpectedEof);
    let mut unread = FailingReader::new(ErrorKind::Other);
    let ended = checked(rt.alloc(), &mut torn, &mut unread);
    expect(&rt, "checked", &ended, Ok(Verdict::Refused), TOO_LONG);
    expect_count(&rt, "checked", unread.calls, 0);
    Ok(())
}

/// How many bytes come, one a call, the limit, and how many are read.
const CALLS: [(u64, usize, Result<usize, Fault>); 3] = [
    (1_048_575, usize::MAX, Ok(1_048_575)),
    (1_048_576, usize::MAX, Err(Fault::Read)),
    // the byte after the limit, at the last call that is allowed
    (1_048_577, 1_048_575, Ok(1_048_576)),
];

/// 1,048,575 bytes and the end take 2,097,152 calls, and one byte more is a call too many.
#[test]
fn calls_of_read_at_their_limit(rt: HostRuntime) {
    for (count, limit, expected) in CALLS {
        let mut reader = SlowReader::new(io::repeat(b'x').take(count), 1);
        let found = read_all(rt.alloc(), &mut reader, limit).map(|bytes| bytes.len());
        assert_eq!(rt; found, expected, "{count}");
    }
}

/// What is read of these bytes up to a limit, and what is left.
#[test]
fn bytes_up_to_the_limit(rt: HostRuntime) -> Result<(), Fail> {
    let bytes = b"0123456789".as_slice();
    for limit in 0..12usize {
        let mut reader = bytes;
        let found = read_all(rt.alloc(), &mut reader, limit)?;
        let count = (limit + 1).min(10);
        expect_bytes(&rt, "read", &found, &bytes[..count]);
        expect_bytes(&rt, "left", reader, &bytes[count..]);
    }
    Ok(())
}
