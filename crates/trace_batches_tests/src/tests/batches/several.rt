//! Batches of several texts, judged one after the other, and texts of violations.

use super::{
    Case, JSON, LINES, OTHER, QUIET, SIX, STREAM, THREE, TWO_VIOLATIONS, VIOLATIONS, WORDS,
};
use request_options::{BatchFormat, BatchMethod, BatchPrinting};
use trace_reports::Answer;

const QUIET_VIOLATIONS: BatchPrinting = BatchPrinting {
    method: BatchMethod::Judge,
    format: BatchFormat::Words,
    quiet: true,
    violations: true,
    required: None,
};

pub(super) const VIOLATIONS_JSON: BatchPrinting = BatchPrinting {
    method: BatchMethod::Judge,
    format: BatchFormat::Json,
    quiet: false,
    violations: true,
    required: None,
};

/// Texts with names, and of violations.
pub(super) static CASES: [Case; 10] = [
    // lines have names, numbers begin anew in each text, and the last line counts all
    (&THREE, WORDS, Answer::Violation, LINES, ""),
    (
        &THREE,
        JSON,
        Answer::Violation,
        "{\"file\":\"a\",\"trace\":1,\"verdict\":\"no_violation_found\"}\n{\"file\":\"a\",\"trace\":2,\"verdict\":\"violation\"}\n{\"file\":\"a\",\"trace\":3,\"verdict\":\"refused\",\"name\":\"BadNumber\",\"line\":3}\n{\"file\":\"b/c.trace\",\"trace\":1,\"verdict\":\"refused\",\"name\":\"BeforeProc\",\"line\":2}\n{\"file\":\"b/c.trace\",\"trace\":2,\"verdict\":\"violation\"}\n{\"traces\":5,\"violations\":2,\"refused\":2}\n",
        "",
    ),
    // a text without a name among others
    (
        &[(None, STREAM), (Some("-"), OTHER)],
        WORDS,
        Answer::Violation,
        "trace 1 NO VIOLATION FOUND\ntrace 2 VIOLATION\ntrace 3 REFUSED BadNumber line 3\n-: trace 1 REFUSED BeforeProc line 2\n-: trace 2 VIOLATION\ntraces 5 violations 2 refused 2\n",
        "",
    ),
    (
        &THREE,
        QUIET,
        Answer::Violation,
        "a: trace 2 VIOLATION\na: trace 3 REFUSED BadNumber line 3\nb/c.trace: trace 1 REFUSED BeforeProc line 2\nb/c.trace: trace 2 VIOLATION\ntraces 5 violations 2 refused 2\n",
        "",
    ),
    // texts of violations have no names, but the notes on them
    (
        &THREE,
        VIOLATIONS,
        Answer::Violation,
        TWO_VIOLATIONS,
        "a: kept 1 trace 2\nb/c.trace: kept 2 trace 2\ntraces 5 violations 2 refused 2\n",
    ),
    (
        &THREE,
        VIOLATIONS_JSON,
        Answer::Violation,
        TWO_VIOLATIONS,
        "{\"file\":\"a\",\"kept\":1,\"trace\":2}\n{\"file\":\"b/c.trace\",\"kept\":2,\"trace\":2}\n{\"traces\":5,\"violations\":2,\"refused\":2}\n",
    ),
    // what ends with one text isn't joined with the next: a text without a last line `end` has a last trace text
    (
        &[
            (Some("a"), "tso trace 1\nproc\nld 1 9\n"),
            (Some("b"), "end\ntso trace 1\nproc\nld 1 9\nend\n"),
        ],
        WORDS,
        Answer::Violation,
        "a: trace 1 REFUSED MissingEnd line 4\nb: trace 1 REFUSED BadHeader line 1\nb: trace 2 VIOLATION\ntraces 3 violations 1 refused 2\n",
        "",
    ),
    (
        &[(None, SIX)],
        VIOLATIONS,
        Answer::Violation,
        TWO_VIOLATIONS,
        "kept 1 trace 2\nkept 2 trace 5\ntraces 6 violations 2 refused 3\n",
    ),
    (
        &[(None, SIX)],
        QUIET_VIOLATIONS,
        Answer::Violation,
        TWO_VIOLATIONS,
        "kept 1 trace 2\nkept 2 trace 5\ntraces 6 violations 2 refused 3\n",
    ),
    // each text that was printed is a violation by itself
    (
        &[(None, TWO_VIOLATIONS)],
        WORDS,
        Answer::Violation,
        "trace 1 VIOLATION\ntrace 2 VIOLATION\ntraces 2 violations 2 refused 0\n",
        "",
    ),
];
