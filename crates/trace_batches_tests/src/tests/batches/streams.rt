//! Streams, how they are cut, and what is written of their trace texts.

use super::{Case, DOCUMENT, JSON, JUNIT, QUIET, STREAM, TEXT, WORDS};
use request_options::{BatchFormat, BatchMethod, BatchPrinting};
use trace_reports::Answer;

const QUIET_JSON: BatchPrinting = BatchPrinting {
    method: BatchMethod::Judge,
    format: BatchFormat::Json,
    quiet: true,
    violations: false,
    required: None,
};

const VIOLATIONS_JSON: BatchPrinting = BatchPrinting {
    method: BatchMethod::Judge,
    format: BatchFormat::Json,
    quiet: false,
    violations: true,
    required: None,
};

const QUIET_JUNIT: BatchPrinting = BatchPrinting {
    method: BatchMethod::Judge,
    format: BatchFormat::Junit,
    quiet: true,
    violations: false,
    required: None,
};

pub(super) const VIOLATIONS_JUNIT: BatchPrinting = BatchPrinting {
    method: BatchMethod::Judge,
    format: BatchFormat::Junit,
    quiet: false,
    violations: true,
    required: None,
};

/// Streams without a name.
pub(super) static CASES: [Case; 19] = [
    // empty
    (
        &[(None, "")],
        WORDS,
        Answer::Clear,
        "traces 0 violations 0 refused 0\n",
        "",
    ),
    // lone_end
    (
        &[(None, "end\n")],
        WORDS,
        Answer::Refused,
        "trace 1 REFUSED BadHeader line 1\ntraces 1 violations 0 refused 1\n",
        "",
    ),
    // end_with_a_space
    (
        &[(None, "tso trace 1\nend \nend\n")],
        WORDS,
        Answer::Refused,
        "trace 1 REFUSED BadLine line 2\ntraces 1 violations 0 refused 1\n",
        "",
    ),
    // longer_line
    (
        &[(None, "tso trace 1\nends\nend\n")],
        WORDS,
        Answer::Refused,
        "trace 1 REFUSED BadLine line 2\ntraces 1 violations 0 refused 1\n",
        "",
    ),
    // line_that_ends_with_end
    (
        &[(None, "tso trace 1\nxend\nend\n")],
        WORDS,
        Answer::Refused,
        "trace 1 REFUSED BadLine line 2\ntraces 1 violations 0 refused 1\n",
        "",
    ),
    // no_last_end
    (
        &[(None, "tso trace 1\nend\ntso trace 1\nproc\n")],
        WORDS,
        Answer::Refused,
        "trace 1 NO VIOLATION FOUND\ntrace 2 REFUSED MissingEnd line 3\ntraces 2 violations 0 refused 1\n",
        "",
    ),
    // no_last_line_end
    (
        &[(None, "tso trace 1\nend\ntso trace 1\nend")],
        WORDS,
        Answer::Refused,
        "trace 1 NO VIOLATION FOUND\ntrace 2 REFUSED BadLine line 2\ntraces 2 violations 0 refused 1\n",
        "",
    ),
    // empty_line_between
    (
        &[(
            None,
            "tso trace 1\nend\n\ntso trace 1\nend\ntso trace 1\nend\n",
        )],
        WORDS,
        Answer::Refused,
        "trace 1 NO VIOLATION FOUND\ntrace 2 REFUSED BadHeader line 1\ntrace 3 NO VIOLATION FOUND\ntraces 3 violations 0 refused 1\n",
        "",
    ),
    // violation_after_a_refusal
    (
        &[(None, "\nend\ntso trace 1\nproc\nld 1 9\nend\n")],
        WORDS,
        Answer::Violation,
        "trace 1 REFUSED BadHeader line 1\ntrace 2 VIOLATION\ntraces 2 violations 1 refused 1\n",
        "",
    ),
    (
        &[(
            None,
            "tso trace 1\nend\ntso trace 1\nproc\nld 1 9\nend\ntso trace 1\nend\nend\n",
        )],
        QUIET,
        Answer::Violation,
        "trace 2 VIOLATION\ntrace 4 REFUSED BadHeader line 1\ntraces 4 violations 1 refused 1\n",
        "",
    ),
    (
        &[(None, "tso trace 1\nend\ntso trace 1\nend\n")],
        QUIET,
        Answer::Clear,
        "traces 2 violations 0 refused 0\n",
        "",
    ),
    (&[(None, STREAM)], WORDS, Answer::Violation, TEXT, ""),
    (
        &[(None, STREAM)],
        JSON,
        Answer::Violation,
        "{\"trace\":1,\"verdict\":\"no_violation_found\"}\n{\"trace\":2,\"verdict\":\"violation\"}\n{\"trace\":3,\"verdict\":\"refused\",\"name\":\"BadNumber\",\"line\":3}\n{\"traces\":3,\"violations\":1,\"refused\":1}\n",
        "",
    ),
    (
        &[(None, STREAM)],
        QUIET_JSON,
        Answer::Violation,
        "{\"trace\":2,\"verdict\":\"violation\"}\n{\"trace\":3,\"verdict\":\"refused\",\"name\":\"BadNumber\",\"line\":3}\n{\"traces\":3,\"violations\":1,\"refused\":1}\n",
        "",
    ),
    // texts of violations stay as they are, and their numbers are written in JSON
    (
        &[(None, STREAM)],
        VIOLATIONS_JSON,
        Answer::Violation,
        "tso trace 1\nproc\nld 1 9\nend\n",
        "{\"kept\":1,\"trace\":2}\n{\"traces\":3,\"violations\":1,\"refused\":1}\n",
    ),
    (&[(None, STREAM)], JUNIT, Answer::Violation, DOCUMENT, ""),
    (
        &[(None, STREAM)],
        QUIET_JUNIT,
        Answer::Violation,
        "<?xml version=\"1.0\" encoding=\"UTF-8\"?>\n<testsuites>\n<testsuite name=\"batch trace 2\" tests=\"1\" failures=\"1\" errors=\"0\" skipped=\"0\"><testcase classname=\"batch\" name=\"trace 2\"><failure message=\"VIOLATION\">TSO REPORT 1&#10;processors 1 events 1 rounds 0&#10;VIOLATION&#10;&#10;A load read a value that nothing wrote to its address:&#10;&#10;  line 3: P0 'ld 1 9' (1) read 9&#10;&#10;The first value of address 1 is 0.&#10;No operation stores to address 1.&#10;</failure></testcase></testsuite>\n<testsuite name=\"batch trace 3\" tests=\"1\" failures=\"0\" errors=\"1\" skipped=\"0\"><testcase classname=\"batch\" name=\"trace 3\"><error message=\"REFUSED BadNumber line 3\"/></testcase></testsuite>\n<testsuite name=\"tsobench batch\" tests=\"0\" failures=\"0\" errors=\"0\" skipped=\"0\"><system-out>traces 3 violations 1 refused 1</system-out></testsuite>\n</testsuites>\n",
        "",
    ),
    // beside texts of violations there is no document, and their numbers are in words
    (
        &[(None, STREAM)],
        VIOLATIONS_JUNIT,
        Answer::Violation,
        "tso trace 1\nproc\nld 1 9\nend\n",
        "kept 1 trace 2\ntraces 3 violations 1 refused 1\n",
    ),
    (
        &[(None, "")],
        JUNIT,
        Answer::Clear,
        "<?xml version=\"1.0\" encoding=\"UTF-8\"?>\n<testsuites>\n<testsuite name=\"tsobench batch\" tests=\"0\" failures=\"0\" errors=\"0\" skipped=\"0\"><system-out>traces 0 violations 0 refused 0</system-out></testsuite>\n</testsuites>\n",
        "",
    ),
];
