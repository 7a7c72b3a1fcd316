//! Batches, and what the tests of them share.
ghost use Rattle.std.specs.Prelude.{◌≤◌};

mod decided;
mod faults;
mod names;
mod numbers;
mod outcomes;
mod required;
mod several;
mod streams;
mod unread;

use progress_meters::NoMeter;
use request_options::{BatchFormat, BatchMethod, BatchPrinting};
use std::alloc::Global;
use std::io::Write;
use std::process::Abort;
use std::sync::Wait;
use std::thread::Threads;
use text_streams::Fault;
use trace_batches::{Batch, BatchOptions, judge_batch};
use trace_reports::Answer;
use traces_for_tests::{Full, ShortWriter};

/// A text of a batch, and its name where lines have one.
type NamedText = (Option<&'static str>, &'static str);

/// Texts, what is printed of them, what the batch says, and what it writes to the output and to the errors.
type Case = (
    &'static [NamedText],
    BatchPrinting,
    Answer,
    &'static str,
    &'static str,
);

const WORDS: BatchPrinting = BatchPrinting {
    method: BatchMethod::Judge,
    format: BatchFormat::Words,
    quiet: false,
    violations: false,
    required: None,
};

const QUIET: BatchPrinting = BatchPrinting {
    method: BatchMethod::Judge,
    format: BatchFormat::Words,
    quiet: true,
    violations: false,
    required: None,
};

const VIOLATIONS: BatchPrinting = BatchPrinting {
    method: BatchMethod::Judge,
    format: BatchFormat::Words,
    quiet: false,
    violations: true,
    required: None,
};

const JSON: BatchPrinting = BatchPrinting {
    method: BatchMethod::Judge,
    format: BatchFormat::Json,
    quiet: false,
    violations: false,
    required: None,
};

const JUNIT: BatchPrinting = BatchPrinting {
    method: BatchMethod::Judge,
    format: BatchFormat::Junit,
    quiet: false,
    violations: false,
    required: None,
};

/// A trace without a violation, a violation and a refused text.
const STREAM: &str =
    "tso trace 1\nproc\nst 1 1\nld 1 1\nend\ntso trace 1\nproc\nld 1 9\nend\ntso trace 1\nproc\nld 01 0\nend\n";

/// What its batch writes.
const TEXT: &str =
    "trace 1 NO VIOLATION FOUND\ntrace 2 VIOLATION\ntrace 3 REFUSED BadNumber line 3\ntraces 3 violations 1 refused 1\n";

/// Its document.
const DOCUMENT: &str =
    "<?xml version=\"1.0\" encoding=\"UTF-8\"?>\n<testsuites>\n<testsuite name=\"batch trace 1\" tests=\"1\" failures=\"0\" errors=\"0\" skipped=\"0\"><testcase classname=\"batch\" name=\"trace 1\"/></testsuite>\n<testsuite name=\"batch trace 2\" tests=\"1\" failures=\"1\" errors=\"0\" skipped=\"0\"><testcase classname=\"batch\" name=\"trace 2\"><failure message=\"VIOLATION\">TSO REPORT 1&#10;processors 1 events 1 rounds 0&#10;VIOLATION&#10;&#10;A load read a value that nothing wrote to its address:&#10;&#10;  line 3: P0 'ld 1 9' (1) read 9&#10;&#10;The first value of address 1 is 0.&#10;No operation stores to address 1.&#10;</failure></testcase></testsuite>\n<testsuite name=\"batch trace 3\" tests=\"1\" failures=\"0\" errors=\"1\" skipped=\"0\"><testcase classname=\"batch\" name=\"trace 3\"><error message=\"REFUSED BadNumber line 3\"/></testcase></testsuite>\n<testsuite name=\"tsobench batch\" tests=\"0\" failures=\"0\" errors=\"0\" skipped=\"0\"><system-out>traces 3 violations 1 refused 1</system-out></testsuite>\n</testsuites>\n";

/// A refused text, and one that is a violation.
const OTHER: &str = "tso trace 1\nld 1 9\nend\ntso trace 1\nproc\nld 2 7\nmb\nend\n";

/// Three texts, of which the second has no trace.
const THREE: [NamedText; 3] = [
    (Some("a"), STREAM),
    (Some("none"), ""),
    (Some("b/c.trace"), OTHER),
];

/// What their batch writes.
const LINES: &str =
    "a: trace 1 NO VIOLATION FOUND\na: trace 2 VIOLATION\na: trace 3 REFUSED BadNumber line 3\nb/c.trace: trace 1 REFUSED BeforeProc line 2\nb/c.trace: trace 2 VIOLATION\ntraces 5 violations 2 refused 2\n";

/// Two violations, and before, between and after them a trace that is none and refused texts, each of which has a load of a
/// value that nothing wrote.
const SIX: &str =
    "tso trace 1\nproc\nld 01 9\nend\ntso trace 1\nproc\nld 1 9\nend\ntso trace 1\nproc\nst 1 1\nld 1 1\nend\ntso trace 1\nld 1 9\nend\ntso trace 1\nproc\nld 2 7\nmb\nend\ntso trace 1\nproc\nld 1 9\n";

/// Stands for a text that can't be read.
const UNREAD: &str = "no text";

/// The texts of its violations, and of those of the three texts.
const TWO_VIOLATIONS: &str = "tso trace 1\nproc\nld 1 9\nend\ntso trace 1\nproc\nld 2 7\nmb\nend\n";

/// Judges texts, one after the other, or a single one without a name as it is judged by itself.
fn judged<H: Threads + Wait + Sync, W: Write, E: Write>(
    rt: &H,
    alloc: Global,
    options: BatchOptions,
    texts: &[NamedText],
    writer: &mut W,
    errors: &mut E,
) -> Result<Answer, Fault>
    requires { 1 ≤ options.workers }
{
    match texts {
        [(None, text)] if *text != UNREAD => {
            judge_batch(rt, alloc, options, &mut text.as_bytes(), writer, errors)
        }
        _ => judged_each(rt, alloc, options, texts, writer, errors),
    }
}

/// Judges texts, one after the other; one stands for a text that can't be read.
fn judged_each<H: Threads + Wait + Sync, W: Write, E: Write>(
    rt: &H,
    alloc: Global,
    options: BatchOptions,
    texts: &[NamedText],
    writer: &mut W,
    errors: &mut E,
) -> Result<Answer, Fault>
    requires { 1 ≤ options.workers }
{
    let mut batch = Batch::begin(alloc, options, writer)?;
    for (name, text) in texts {
        if *text == UNREAD {
            batch.leave_out(*name, writer, errors)?;
        } else {
            batch.judge(rt, &NoMeter, *name, &mut text.as_bytes(), writer, errors)?;
        }
    }
    batch.end(writer, errors)
}

/// Compares what a batch said, and what it wrote.
fn expect<H: Abort>(
    rt: &H,
    case: &str,
    said: Result<Answer, Fault>,
    expected: Result<Answer, Fault>,
    written: &[u8],
    text: &str,
) {
    assert_eq!(rt; said, expected, "{case}");
    assert_eq!(rt; written, text.as_bytes(), "{case}");
}

/// Compares what a batch of a case comes to with so many workers, where the output and the errors have so much room. Where
/// either is less than is to be written, that fails.
fn expect_batch<H: Threads + Wait + Sync + Abort>(
    rt: &H,
    alloc: Global,
    case: Case,
    workers: usize,
    room: usize,
    errors_room: usize,
) {
    let (texts, printing, verdict, text, notes) = case;
    let mut writer = ShortWriter::new(alloc, room, Full::TakesNothing);
    let mut errors = ShortWriter::new(alloc, errors_room, Full::TakesNothing);
    let workers = workers.max(1);
    let options = BatchOptions { workers, printing };
    let said = judged(rt, alloc, options, texts, &mut writer, &mut errors);
    let written = text
        .get(..written_of(case, room, errors_room))
        .unwrap_or(text);
    let is_whole = room >= text.len() && errors_room >= notes.len();
    let expected = if is_whole {
        Ok(verdict)
    } else {
        Err(Fault::Write)
    };
    expect(rt, text, said, expected, &writer.taken, written);
    let told = notes
        .get(..noted_of(case, room, errors_room))
        .unwrap_or(notes);
    assert_eq!(rt; errors.taken.as_slice(), told.as_bytes(), "{text}");
}

/// The bytes of the first violation of six texts, and of the note on it.
const FIRST_VIOLATION: usize = 28;

const FIRST_NOTE: usize = 15;

/// How many bytes of the text are written where the output and the errors have so much room: the next violation comes after the
/// note on the first one.
fn written_of(case: Case, room: usize, errors_room: usize) -> usize {
    let (_, printing, _, text, _) = case;
    if printing.violations && errors_room < FIRST_NOTE {
        room.min(FIRST_VIOLATION)
    } else {
        room.min(text.len())
    }
}

/// How many bytes of the notes: the last ones come after all of the text.
fn noted_of(case: Case, room: usize, errors_room: usize) -> usize {
    let (_, printing, _, text, notes) = case;
    if room >= text.len() {
        errors_room.min(notes.len())
    } else if printing.violations && room >= FIRST_VIOLATION {
        errors_room.min(FIRST_NOTE)
    } else {
        0
    }
}

/// Compares what batches of these cases come to with each of several numbers of workers.
fn expect_cases<H: Threads + Wait + Sync + Abort>(rt: &H, alloc: Global, cases: &[Case]) {
    for case in cases {
        expect_batch(rt, alloc, *case, 1, usize::MAX, usize::MAX);
        expect_batch(rt, alloc, *case, 2, usize::MAX, usize::MAX);
        expect_batch(rt, alloc, *case, 7, usize::MAX, usize::MAX);
        expect_batch(rt, alloc, *case, 64, usize::MAX, usize::MAX);
    }
}

#[test]
fn batches(rt: HostRuntime) {
    expect_cases(&rt, rt.alloc(), &streams::CASES);
    expect_cases(&rt, rt.alloc(), &several::CASES);
    expect_cases(&rt, rt.alloc(), &decided::CASES);
    expect_cases(&rt, rt.alloc(), &names::CASES);
    expect_cases(&rt, rt.alloc(), &unread::CASES);
}

/// Batches of which so many traces have to be judged.
#[test]
fn required_batches(rt: HostRuntime) {
    for case in required::CASES {
        expect_cases(&rt, rt.alloc(), &[required::required(case)]);
    }
    for case in required::FEW {
        expect_cases(&rt, rt.alloc(), &[required::required(case)]);
    }
    for case in unread::FEW {
        expect_cases(&rt, rt.alloc(), &[required::required(case)]);
    }
}
