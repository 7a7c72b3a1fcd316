//! Requests about logs.

use super::{Case, MESSAGE_PASSING, READ};

/// The report of the messages.
pub(super) const REPORT: &str =
    "TSO LOG 1\nprocessors 2 operations 4 loads 2 unknown 0 left 0\nVIOLATION\nviolation 1\nline 1 0 st 4096 7\nline 2 0 st 8192 1\nline 3 1 ld 8192 1\nline 4 1 ld 4096 0\nviolations 1\n";

/// Their trace.
const TRACE: &str = "tso trace 2\nproc\nst 0 1\nst 1 2\nproc\nld 1 2\nld 0 0\nend\n";

/// Two loads of what nothing wrote.
const UNWRITTEN: &str = "0 ld 1 9\n0 st 2 5\n0 ld 2 9\n";

pub(super) static CASES: [Case; 12] = [
    ("log", Some(MESSAGE_PASSING), "", 3, REPORT, ""),
    (
        "log --trace -",
        Some(MESSAGE_PASSING),
        "",
        3,
        TRACE,
        "trace 1 line 1 2 3 4\n",
    ),
    (
        "log",
        Some(UNWRITTEN),
        "",
        3,
        "TSO LOG 1\nprocessors 1 operations 3 loads 2 unknown 0 left 0\nVIOLATION\nviolation 1\nline 1 0 ld 1 9\nstored 0\nviolation 2\nline 3 0 ld 2 9\nstored 1 first 5 line 2 last 5 line 2\nviolations 2\n",
        "",
    ),
    (
        "log --most 1",
        Some(UNWRITTEN),
        "",
        3,
        "TSO LOG 1\nprocessors 1 operations 3 loads 2 unknown 0 left 0\nVIOLATION\nviolation 1\nline 1 0 ld 1 9\nstored 0\nviolations 1 of more\n",
        "",
    ),
    // such loads alone
    (
        "log --trace",
        Some(UNWRITTEN),
        "",
        3,
        "tso trace 2\nproc\nld 0 1\nend\ntso trace 2\nproc\nld 0 1\nend\n",
        "trace 1 line 1\ntrace 2 line 3\n",
    ),
    (
        "log",
        Some("0 st 4096 7\n1 ld 4096 0\n"),
        "",
        0,
        "TSO LOG 1\nprocessors 2 operations 2 loads 1 unknown 0 left 0\nNO VIOLATION FOUND\n",
        "",
    ),
    (
        "log",
        Some("0 mb\n0 ld 1\n"),
        "",
        2,
        "REFUSED BadLine line 2\n",
        "",
    ),
    // nothing may be searched
    (
        "log --effort 0",
        Some(MESSAGE_PASSING),
        "",
        1,
        "TSO LOG 1\nprocessors 2 operations 4 loads 2 unknown 0 left 0\nNO VIOLATION FOUND\nSEARCH ENDED EARLY\n",
        "",
    ),
    (
        "log message_passing",
        None,
        "message_passing;",
        3,
        REPORT,
        "",
    ),
    (
        "log log",
        None,
        "log;",
        0,
        "TSO LOG 1\nprocessors 2 operations 2 loads 1 unknown 0 left 0\nNO VIOLATION FOUND\n",
        "",
    ),
    ("log other", None, "other;", 4, "", READ),
    ("log", None, "", 4, "", READ),
];
