//! Batches with texts that can't be read, as files that can't be opened.

use super::required::RequiredCase;
use super::several::VIOLATIONS_JSON;
use super::streams::VIOLATIONS_JUNIT;
use super::{Case, JSON, JUNIT, OTHER, QUIET, STREAM, UNREAD, VIOLATIONS, WORDS};
use trace_reports::Answer;

/// A trace without a violation.
const TRACE: &str = "tso trace 1\nproc\nst 1 1\nld 1 1\nend\n";

/// One between two others.
pub(super) const AMONG_OTHERS: Case = (
    &[(Some("a"), TRACE), (Some("b"), UNREAD), (Some("c"), TRACE)],
    WORDS,
    Answer::Unread,
    "a: trace 1 NO VIOLATION FOUND\nb: FAULT Read\nc: trace 1 NO VIOLATION FOUND\ntraces 2 violations 0 refused 0\n",
    "FAULT Read\n",
);

/// Their lines stand in the place of those of their traces, the others are judged, and the last line counts these.
pub(super) static CASES: [Case; 10] = [
    AMONG_OTHERS,
    // one without a name, alone
    (
        &[(None, UNREAD)],
        WORDS,
        Answer::Unread,
        "FAULT Read\ntraces 0 violations 0 refused 0\n",
        "FAULT Read\n",
    ),
    (
        &[(None, UNREAD)],
        JSON,
        Answer::Unread,
        "{\"fault\":\"Read\"}\n{\"traces\":0,\"violations\":0,\"refused\":0}\n",
        "FAULT Read\n",
    ),
    // names are escaped, and the note of the fault comes once
    (
        &[
            (Some("a\"b"), UNREAD),
            (Some("c\nd"), UNREAD),
            (Some("e"), TRACE),
        ],
        JSON,
        Answer::Unread,
        "{\"file\":\"a\\\"b\",\"fault\":\"Read\"}\n{\"file\":\"c\\u000ad\",\"fault\":\"Read\"}\n{\"file\":\"e\",\"trace\":1,\"verdict\":\"no_violation_found\"}\n{\"traces\":1,\"violations\":0,\"refused\":0}\n",
        "FAULT Read\n",
    ),
    (
        &[(Some("a&b"), UNREAD), (Some("e"), TRACE)],
        JUNIT,
        Answer::Unread,
        "<?xml version=\"1.0\" encoding=\"UTF-8\"?>\n<testsuites>\n<testsuite name=\"a&amp;b text\" tests=\"1\" failures=\"0\" errors=\"1\" skipped=\"0\"><testcase classname=\"a&amp;b\" name=\"text\"><error message=\"FAULT Read\"/></testcase></testsuite>\n<testsuite name=\"e trace 1\" tests=\"1\" failures=\"0\" errors=\"0\" skipped=\"0\"><testcase classname=\"e\" name=\"trace 1\"/></testsuite>\n<testsuite name=\"tsobench batch\" tests=\"0\" failures=\"0\" errors=\"0\" skipped=\"0\"><system-out>traces 1 violations 0 refused 0</system-out></testsuite>\n</testsuites>\n",
        "FAULT Read\n",
    ),
    // it comes before a violation, and a quiet batch doesn't leave it out
    (
        &[(Some("a"), STREAM), (Some("b"), UNREAD)],
        QUIET,
        Answer::Unread,
        "a: trace 2 VIOLATION\na: trace 3 REFUSED BadNumber line 3\nb: FAULT Read\ntraces 3 violations 1 refused 1\n",
        "FAULT Read\n",
    ),
    // beside texts of violations its line is a note, in its turn; the numbers of printed texts go on after it
    (
        &[(Some("a"), STREAM), (Some("b"), UNREAD), (Some("c"), OTHER)],
        VIOLATIONS,
        Answer::Unread,
        "tso trace 1\nproc\nld 1 9\nend\ntso trace 1\nproc\nld 2 7\nmb\nend\n",
        "a: kept 1 trace 2\nb: FAULT Read\nc: kept 2 trace 2\ntraces 5 violations 2 refused 2\nFAULT Read\n",
    ),
    (
        &[(Some("b"), UNREAD), (Some("c"), OTHER)],
        VIOLATIONS_JSON,
        Answer::Unread,
        "tso trace 1\nproc\nld 2 7\nmb\nend\n",
        "{\"file\":\"b\",\"fault\":\"Read\"}\n{\"file\":\"c\",\"kept\":1,\"trace\":2}\n{\"traces\":2,\"violations\":1,\"refused\":1}\nFAULT Read\n",
    ),
    (
        &[(Some("b&"), UNREAD), (Some("c"), OTHER)],
        VIOLATIONS_JUNIT,
        Answer::Unread,
        "tso trace 1\nproc\nld 2 7\nmb\nend\n",
        "b&: FAULT Read\nc: kept 1 trace 2\ntraces 2 violations 1 refused 1\nFAULT Read\n",
    ),
    (
        &[(None, UNREAD)],
        VIOLATIONS,
        Answer::Unread,
        "",
        "FAULT Read\ntraces 0 violations 0 refused 0\nFAULT Read\n",
    ),
];

/// That too few were judged is told before the fault.
pub(super) const FEW: [RequiredCase; 1] = [(
    2,
    (
        &[(Some("a"), TRACE), (Some("b"), UNREAD)],
        WORDS,
        Answer::Unread,
        "a: trace 1 NO VIOLATION FOUND\nb: FAULT Read\ntraces 1 violations 0 refused 0\n",
        "TOO FEW JUDGED 1 required 2\nFAULT Read\n",
    ),
)];
