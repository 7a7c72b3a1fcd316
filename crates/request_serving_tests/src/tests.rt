//! Requests over files in memory, from the arguments on, and what else the tests of this crate share.

mod calls;
mod checks;
mod decisions;
mod endings;
mod logs;
mod refused_allocations;
mod replays;
mod traces;

use command_line::Notes;
use evidence_for_tests::{BUFFERING, BUFFERING_ORDER, TWELVE_EVENTS, TWELVE_REFUTED};
use progress_meters::NoMeter;
use request_serving::drive_over;
use request_texts::Environment;
use std::alloc::{AllocError, Global};
use std::io;
use std::io::{Error, ErrorKind, Read, Write};
use std::process::Abort;
use std::sync::Wait;
use std::test::Fail;
use std::thread::Threads;

/// A reader of these bytes, or one that fails.
#[derive(Drop)]
struct Input {
    rest: &'static [u8],
    fails: bool,
}

impl Read for Input {
    fn read(&mut self, buf: &mut [u8]) -> io::Result<usize> {
        if self.fails {
            return Err(Error::from(ErrorKind::Other));
        }
        self.rest.read(buf)
    }
}

/// A writer that takes all bytes, or one that fails.
#[derive(Drop)]
struct Output {
    taken: Vec<u8>,
    fails: bool,
}

impl Output {
    /// One that takes so many bytes without an allocation, and then more.
    fn with_room(alloc: Global, room: usize) -> Result<Output, AllocError> {
        Ok(Output {
            taken: Vec::with_capacity(alloc, room)?,
            fails: false,
        })
    }
}

impl Write for Output {
    fn write(&mut self, buf: &[u8]) -> io::Result<usize> {
        if self.fails {
            return Err(Error::from(ErrorKind::BrokenPipe));
        }
        self.taken.extend_from_slice(buf)?;
        Ok(buf.len())
    }

    fn flush(&mut self) -> io::Result<()> {
        Ok(())
    }
}

/// The files below, and the names that were to be opened, each with a semicolon after it.
#[derive(Drop)]
struct MemoryFiles {
    opened: String,
}

impl Environment for MemoryFiles {
    type File = Input;

    type Meter = NoMeter;

    fn open(&mut self, name: &str) -> io::Result<Input> {
        self.opened.push_str(name)?;
        self.opened.push_str(";")?;
        for (known, text) in &TEXTS {
            if *known == name {
                return Ok(Input {
                    rest: text.as_bytes(),
                    fails: false,
                });
            }
        }
        Err(Error::from(ErrorKind::NotFound))
    }

    fn begin(&self, _notes: Notes) {}

    fn meter(&self, _parts: &'static str, _total: Option<u64>) -> NoMeter {
        NoMeter
    }

    fn note_limits(&self, _limits: &'static str) {}

    fn finish(&self) {}
}

/// A trace without a violation, a violation, a refused text and what is no whole text.
const STREAM: &str =
    "tso trace 1\nproc\nst 1 1\nld 1 1\nend\ntso trace 1\nproc\nld 1 9\nend\n\nend\ntso trace 1\n";

/// Message passing: the load of the flag is new, that of the data old.
const MESSAGE_PASSING: &str = "0 st 4096 7\n0 st 8192 1\n1 ld 8192 1\n1 ld 4096 0\n";

/// The texts of files, each with its name before it.
static TEXTS: [(&str, &str); 15] = [
    ("trace", "tso trace 1\nproc\nld 1 9\nend\n"),
    ("certificate", "unwritten 1\n"),
    ("program", "tso program 1\nproc\nst 1 1\nld 1\nend\n"),
    ("schedule", "tso schedule 1\nend\n"),
    ("log", "0 st 1 1\n1 ld 1 1\n"),
    ("message_passing", MESSAGE_PASSING),
    (
        "pso_stores",
        "tso program 1\nmodel pso\nproc\nst 1 1\nst 2 2\nproc\nld 2\nld 1\nend\n",
    ),
    (
        "tso_stores",
        "tso program 1\nproc\nst 1 1\nst 2 2\nproc\nld 2\nld 1\nend\n",
    ),
    (
        "one_drain",
        "tso schedule 1\ni 0\ni 0\nd 0\ni 1\ni 1\nend\n",
    ),
    ("stream", STREAM),
    // a trace without a violation, a violation and a text that is refused
    (
        "two_stores",
        "tso trace 1\nproc\nst 1 1\nst 1 2\nend\ntso trace 1\nproc\nld 1 9\nend\n\nend\n",
    ),
    // order_of_store_buffering
    ("buffering", BUFFERING),
    ("order", BUFFERING_ORDER),
    // refutation_of_twelve_events
    ("twelve", TWELVE_EVENTS),
    ("refutation", TWELVE_REFUTED),
];

/// Arguments, between which stand blanks; the text on standard input, None where it fails; the names of the files that are
/// opened, each with a semicolon after it; the status; and what is written to the output and to the errors.
type Case = (
    &'static str,
    Option<&'static str>,
    &'static str,
    u8,
    &'static str,
    &'static str,
);

const READ: &str = "FAULT Read\n";

const BAD_HEADER: &str = "REFUSED BadHeader line 1\n";

/// There are fewer traces than the number that was asked for.
const FEWER: &str = "REFUSED Nth\n";

/// The words of a text.
fn words(alloc: Global, text: &str) -> Result<Vec<String>, AllocError> {
    let mut owned = Vec::new(alloc);
    for word in text.split_whitespace() {
        owned.push(String::from_str(alloc, word)?)?;
    }
    Ok(owned)
}

/// Compares what the arguments of a case come to, where the output or the errors can't be written if these say so.
fn expect_case<H: Threads + Wait + Sync + AllocGlobal + Abort>(
    rt: &H,
    case: Case,
    output_fails: bool,
    errors_fail: bool,
) -> Result<(), Fail> {
    let (arguments, input, opened, status, written, told) = case;
    let alloc = rt.alloc();
    let mut files = MemoryFiles {
        opened: String::new(alloc),
    };
    let mut reader = Input {
        rest: input.unwrap_or("").as_bytes(),
        fails: input.is_none(),
    };
    let mut output = Output {
        taken: Vec::new(alloc),
        fails: output_fails,
    };
    let mut errors = Output {
        taken: Vec::new(alloc),
        fails: errors_fail,
    };
    let owned = words(alloc, arguments)?;
    let ended = drive_over(
        rt,
        &owned,
        &mut files,
        &mut reader,
        &mut output,
        &mut errors,
    );
    assert_eq!(rt; ended, status, "{arguments}");
    assert_eq!(rt; files.opened.as_str(), opened, "{arguments}");
    assert_eq!(rt; output.taken.as_slice(), written.as_bytes(), "{arguments}");
    assert_eq!(rt; errors.taken.as_slice(), told.as_bytes(), "{arguments}");
    Ok(())
}

/// Compares what the arguments of each case come to.
fn expect_cases<H: Threads + Wait + Sync + AllocGlobal + Abort>(
    rt: &H,
    cases: &[Case],
) -> Result<(), Fail> {
    for case in cases {
        expect_case(rt, *case, false, false)?;
    }
    Ok(())
}

#[test]
fn requests(rt: HostRuntime) -> Result<(), Fail> {
    expect_cases(&rt, &traces::CASES)?;
    expect_cases(&rt, &checks::CASES)?;
    expect_cases(&rt, &decisions::CASES)?;
    expect_cases(&rt, &logs::CASES)?;
    expect_cases(&rt, &replays::CASES)
}

/// Whether the output can't be written, whether the errors can't, and what the arguments then come to.
const UNWRITTEN: [(bool, bool, Case); 4] = [
    (
        true,
        false,
        ("", Some("tso trace 1\nend\n"), "", 4, "", "FAULT Write\n"),
    ),
    (true, false, ("--version", None, "", 4, "", "FAULT Write\n")),
    // the line of a fault, and a refusal
    (true, true, ("", None, "", 4, "", "")),
    (false, true, ("judge a b", None, "", 2, "", "")),
];

#[test]
fn texts_that_cannot_be_written(rt: HostRuntime) -> Result<(), Fail> {
    for (output_fails, errors_fail, case) in UNWRITTEN {
        expect_case(&rt, case, output_fails, errors_fail)?;
    }
    Ok(())
}
