//! Requests about traces: to judge, to explain, to draw, to reduce, and batches; and requests that end with a text.

use super::{BAD_HEADER, Case, FEWER, READ, STREAM};

/// The report of a trace without a violation, which two of the tests' files have.
const FIRST: &str = "TSO REPORT 1\nprocessors 1 events 2 rounds 0\nNO VIOLATION FOUND\n";

/// The report of an unwritten load.
const UNWRITTEN: &str = "TSO REPORT 1\nprocessors 1 events 1 rounds 0\nVIOLATION\nunwritten 1\n";

/// What is printed of the trace when it is reduced, and where its operation stands in it.
const REDUCED: &str = "tso trace 2\nproc\nld 0 1\nend\n";

const STANDS: &str = "line 3 P0 'ld 0 1'\n";

/// What a batch of the trace, of a text that is none and of the trace prints.
const BATCHED: &str =
    "trace: trace 1 VIOLATION\nlog: trace 1 REFUSED BadHeader line 1\ntrace: trace 1 VIOLATION\ntraces 3 violations 2 refused 1\n";

/// What it prints of the trace alone, and of the trace before another text.
const BATCHED_ALONE: &str = "trace 1 VIOLATION\ntraces 1 violations 1 refused 0\n";

const BATCHED_FIRST: &str = "trace: trace 1 VIOLATION\n";

/// What it prints of the trace, of a file that can't be opened and of a text that is none.
const BATCHED_OPENED: &str =
    "trace: trace 1 VIOLATION\nother: FAULT Read\nlog: trace 1 REFUSED BadHeader line 1\ntraces 2 violations 1 refused 1\n";

/// The violations of the trace, twice, and the notes beside them where another file between can't be opened.
const VIOLATIONS: &str = "tso trace 1\nproc\nld 1 9\nend\ntso trace 1\nproc\nld 1 9\nend\n";

const NOTES: &str =
    "trace: kept 1 trace 1\nother: FAULT Read\ntrace: kept 2 trace 1\ntraces 2 violations 2 refused 0\nFAULT Read\n";

/// The refusal of two files to judge.
const SECOND_FILE: &str =
    "error: unexpected argument 'b' found\n\nUsage: tsobench judge [OPTIONS] [FILE]\n\nFor more information, try '--help'.\n";

pub(super) static CASES: [Case; 33] = [
    // store_forwarded, missing_end and unwritten_load on standard input
    (
        "",
        Some("tso trace 1\nproc\nst 1 1\nld 1 1\nend\n"),
        "",
        0,
        FIRST,
        "",
    ),
    (
        "",
        Some("tso trace 1\nproc\n"),
        "",
        2,
        "REFUSED MissingEnd line 3\n",
        "",
    ),
    (
        "",
        Some("tso trace 1\nproc\nld 1 9\nend\n"),
        "",
        3,
        UNWRITTEN,
        "",
    ),
    ("", None, "", 4, "", READ),
    // files
    ("judge --workers 2 trace", None, "trace;", 3, UNWRITTEN, ""),
    ("judge other", None, "other;", 4, "", READ),
    ("judge --workers 64", None, "", 4, "", READ),
    // traces of numbers
    ("judge --nth 1", Some(STREAM), "", 0, FIRST, ""),
    (
        "judge --nth=2 --workers 3",
        Some(STREAM),
        "",
        3,
        UNWRITTEN,
        "",
    ),
    ("judge --nth 3 -", Some(STREAM), "", 2, BAD_HEADER, ""),
    (
        "judge --nth 4",
        Some(STREAM),
        "",
        2,
        "REFUSED MissingEnd line 2\n",
        "",
    ),
    ("judge --nth 5", Some(STREAM), "", 2, FEWER, ""),
    (
        "judge --nth 18446744073709551615",
        Some(STREAM),
        "",
        2,
        FEWER,
        "",
    ),
    ("explain --nth 5", Some(STREAM), "", 2, FEWER, ""),
    ("draw --nth 5", Some(STREAM), "", 2, FEWER, ""),
    ("draw --nth 3", Some(STREAM), "", 2, BAD_HEADER, ""),
    ("judge stream --nth 2", None, "stream;", 3, UNWRITTEN, ""),
    // without a number the stream is no trace
    (
        "judge",
        Some(STREAM),
        "",
        2,
        "REFUSED AfterEnd line 6\n",
        "",
    ),
    ("reduce trace", None, "trace;", 3, REDUCED, STANDS),
    ("reduce --nth 1 trace", None, "trace;", 3, REDUCED, STANDS),
    ("reduce --nth 2 trace", None, "trace;", 2, FEWER, ""),
    ("reduce --nth 2", None, "", 4, "", READ),
    // Each file of a batch is opened when its turn comes, after one that can't be too, but not after standard input that fails.
    ("batch trace", None, "trace;", 3, BATCHED_ALONE, ""),
    (
        "batch trace log trace",
        None,
        "trace;log;trace;",
        3,
        BATCHED,
        "",
    ),
    (
        "batch trace other log",
        None,
        "trace;other;log;",
        4,
        BATCHED_OPENED,
        READ,
    ),
    (
        "batch other",
        None,
        "other;",
        4,
        "FAULT Read\ntraces 0 violations 0 refused 0\n",
        READ,
    ),
    (
        "batch --violations trace other trace",
        None,
        "trace;other;trace;",
        4,
        VIOLATIONS,
        NOTES,
    ),
    ("batch trace - log", None, "trace;", 4, BATCHED_FIRST, READ),
    // so many traces have to be judged; a violation is worse
    (
        "batch --require 1 trace",
        None,
        "trace;",
        3,
        BATCHED_ALONE,
        "",
    ),
    (
        "batch --require 2 trace",
        None,
        "trace;",
        3,
        BATCHED_ALONE,
        "TOO FEW JUDGED 1 required 2\n",
    ),
    (
        "batch --require 1",
        Some("tso trace 1\nend\n"),
        "",
        0,
        "trace 1 NO VIOLATION FOUND\ntraces 1 violations 0 refused 0\n",
        "",
    ),
    (
        "batch --require 1",
        Some(""),
        "",
        1,
        "traces 0 violations 0 refused 0\n",
        "TOO FEW JUDGED 0 required 1\n",
    ),
    // the text of a refusal; texts of help and the version are in program-cases/
    ("judge a b", None, "", 2, "", SECOND_FILE),
];
