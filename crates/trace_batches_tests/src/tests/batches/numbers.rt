//! The trace text of a number in a stream.

use super::STREAM;
use std::alloc::Global;
use std::io::{ErrorKind, Read};
use std::process::Abort;
use std::test::Fail;
use text_streams::Fault;
use trace_streams::read_trace_text;
use traces_for_tests::{SlowReader, TornReader};

/// The three trace texts of the stream.
const FIRST: &str = "tso trace 1\nproc\nst 1 1\nld 1 1\nend\n";

const SECOND: &str = "tso trace 1\nproc\nld 1 9\nend\n";

const THIRD: &str = "tso trace 1\nproc\nld 01 0\nend\n";

/// Their numbers, and where each ends in the stream.
const TRACE_TEXTS: [(u64, usize, &str); 3] = [(1, 35, FIRST), (2, 63, SECOND), (3, 92, THIRD)];

/// Compares what is read of the trace text of this number.
fn expect_trace_text<H: Abort, R: Read>(
    rt: &H,
    alloc: Global,
    number: u64,
    reader: &mut R,
    expected: Result<Option<&[u8]>, Fault>,
) {
    let read = read_trace_text(alloc, number, reader);
    let said = match &read {
        Ok(Some(piece)) => Ok(Some(piece.as_slice())),
        Ok(None) => Ok(None),
        Err(fault) => Err(*fault),
    };
    assert_eq!(rt; said, expected, "{number}");
}

/// A number, a stream and its trace text of that number.
type Case = (u64, &'static str, Option<&'static str>);

const CASES: [Case; 14] = [
    (1, STREAM, Some(FIRST)),
    (2, STREAM, Some(SECOND)),
    (3, STREAM, Some(THIRD)),
    (4, STREAM, None),
    (u64::MAX, STREAM, None),
    (0, STREAM, Some(FIRST)),
    // empty
    (1, "", None),
    // no_last_end
    (1, "tso trace 1\nproc\n", Some("tso trace 1\nproc\n")),
    (2, "tso trace 1\nproc\n", None),
    (2, "end\ntso trace 1\nend", Some("tso trace 1\nend")),
    (3, "end\ntso trace 1\nend", None),
    // lone_ends
    (2, "end\nend\n", Some("end\n")),
    (3, "end\nend\n", None),
    // other_lines
    (
        1,
        "end \nends\nxend\nend\nend\n",
        Some("end \nends\nxend\nend\n"),
    ),
];

/// Compares the trace text of a case however many bytes a call reads, so that each line `end` is read in two parts, at each
/// place.
fn expect_case<H: Abort>(rt: &H, alloc: Global, (number, stream, piece): Case) {
    let expected = Ok(piece.map(|piece| piece.as_bytes()));
    expect_trace_text(rt, alloc, number, &mut stream.as_bytes(), expected);
    for most in 1..stream.len().max(2) {
        let mut slow = SlowReader::new(stream.as_bytes(), most);
        expect_trace_text(rt, alloc, number, &mut slow, expected);
    }
}

#[test]
fn trace_texts_by_their_numbers(rt: HostRuntime) {
    for case in CASES {
        expect_case(&rt, rt.alloc(), case);
    }
}

/// After how many bytes of the stream a reader fails.
const COUNTS: [usize; 9] = [0, 34, 35, 36, 62, 63, 64, 91, 92];

/// Compares the trace texts of readers that fail after so many bytes of the stream.
fn expect_torn<H: Abort>(rt: &H, alloc: Global, count: usize) {
    let bytes = STREAM.get(..count).unwrap_or(STREAM).as_bytes();
    for (number, end, piece) in TRACE_TEXTS {
        let expected = if count < end {
            Err(Fault::Read)
        } else {
            Ok(Some(piece.as_bytes()))
        };
        let mut whole = TornReader::new(bytes, ErrorKind::Other);
        expect_trace_text(rt, alloc, number, &mut whole, expected);
        let torn = TornReader::new(bytes, ErrorKind::Other);
        expect_trace_text(rt, alloc, number, &mut SlowReader::new(torn, 1), expected);
    }
}

/// A reader isn't called again after it gave the end of the trace text, and where it fails before that no trace text is said.
#[test]
fn reader_fails_before_and_after_a_trace_text(rt: HostRuntime) {
    for count in COUNTS {
        expect_torn(&rt, rt.alloc(), count);
    }
    let mut torn = TornReader::new(STREAM.as_bytes(), ErrorKind::Other);
    expect_trace_text(&rt, rt.alloc(), 4, &mut torn, Err(Fault::Read));
}

/// What is left of a reader is what no call asked for.
#[test]
fn later_bytes_are_left(rt: HostRuntime) {
    let mut stream = STREAM.as_bytes();
    let mut slow = SlowReader::new(&mut stream, 40);
    let first = Ok(Some(FIRST.as_bytes()));
    expect_trace_text(&rt, rt.alloc(), 1, &mut slow, first);
    assert!(rt; stream.len() == 52);
}

/// Of a trace text of 1,100,004 bytes the first 1,048,577 are kept, and the next trace text begins after its line `end`.
#[test]
fn long_trace_text(rt: HostRuntime) -> Result<(), Fail> {
    let alloc = rt.alloc();
    let mut stream = vec![in alloc; b'x'; 1_099_999]?;
    stream.extend_from_slice(b"\nend\nnext\nend\n")?;
    let kept = vec![in alloc; b'x'; 1_048_577]?;
    let mut reader = stream.as_slice();
    expect_trace_text(&rt, alloc, 1, &mut reader, Ok(Some(kept.as_slice())));
    let mut reader = stream.as_slice();
    expect_trace_text(&rt, alloc, 2, &mut reader, Ok(Some(b"next\nend\n")));
    Ok(())
}

/// Where an allocation is refused, the trace text isn't said; the next call says it.
#[test]
fn refused_allocations_of_a_trace_text(rt: HostRuntime) {
    let mut read = read_trace_text(rt.alloc(), 2, &mut STREAM.as_bytes());
    if let Err(fault) = read {
        assert!(rt; fault == Fault::OutOfMemory);
        read = read_trace_text(rt.alloc(), 2, &mut STREAM.as_bytes());
    }
    let is_second = match read {
        Ok(Some(piece)) => piece.as_slice() == SECOND.as_bytes(),
        Ok(None) | Err(_) => false,
    };
    assert!(rt; is_second);
}
