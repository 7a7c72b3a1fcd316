//! Requests to check certificates against traces.

use super::{BAD_HEADER, Case, FEWER, READ};

const HOLDS: &str = "CERTIFICATE HOLDS\n";

pub(super) static CASES: [Case; 14] = [
    (
        "check trace certificate",
        None,
        "trace;certificate;",
        3,
        HOLDS,
        "",
    ),
    ("check other certificate", None, "other;", 4, "", READ),
    // both files are opened before one is read
    (
        "check certificate other",
        None,
        "certificate;other;",
        4,
        "",
        READ,
    ),
    ("check trace none", None, "trace;none;", 4, "", READ),
    // a certificate on standard input isn't read where the trace is refused; a trace is read first
    (
        "check certificate -",
        None,
        "certificate;",
        2,
        BAD_HEADER,
        "",
    ),
    ("check trace -", None, "trace;", 4, "", READ),
    ("check - certificate", None, "certificate;", 4, "", READ),
    // traces of numbers
    (
        "check --nth 2 stream certificate",
        None,
        "stream;certificate;",
        3,
        HOLDS,
        "",
    ),
    (
        "check --nth 1 stream certificate",
        None,
        "stream;certificate;",
        2,
        "CERTIFICATE REFUSED NotUnwritten\n",
        "",
    ),
    (
        "check --nth 3 stream certificate",
        None,
        "stream;certificate;",
        2,
        BAD_HEADER,
        "",
    ),
    (
        "check --nth 5 stream certificate",
        None,
        "stream;certificate;",
        2,
        FEWER,
        "",
    ),
    // a certificate isn't read where there is no trace for it
    ("check --nth 3 stream -", None, "stream;", 2, BAD_HEADER, ""),
    ("check --nth 5 stream -", None, "stream;", 2, FEWER, ""),
    ("check --nth 2 stream -", None, "stream;", 4, "", READ),
];
