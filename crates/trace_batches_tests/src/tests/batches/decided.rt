//! Batches of decided traces: where no case is looked at, and where enough are.

use super::Case;
use request_options::{BatchFormat, BatchMethod, BatchPrinting};
use trace_reports::Answer;

/// A consistent trace, one with an unwritten load, one without an order or a derived cycle, and a refused text.
pub(super) const STREAM: &str =
    "tso trace 1\nproc\nst 1 1\nld 1 1\nend\ntso trace 1\nproc\nld 1 9\nend\ntso trace 1\nproc\nst 1 1\nmb\nld 2 3\nld 1 1\nproc\nst 1 2\nmb\nld 2 4\nld 1 2\nproc\nst 2 3\nmb\nld 1 2\nld 2 3\nproc\nst 2 4\nmb\nld 1 1\nld 2 4\nend\ntso trace 1\nproc\nld 01 0\nend\n";

const UNDECIDED_WORDS: BatchPrinting = BatchPrinting {
    method: BatchMethod::Decide { effort: 0 },
    format: BatchFormat::Words,
    quiet: false,
    violations: false,
    required: None,
};

const DECIDED_WORDS: BatchPrinting = BatchPrinting {
    method: BatchMethod::Decide { effort: 100 },
    format: BatchFormat::Words,
    quiet: false,
    violations: false,
    required: None,
};

pub(super) const UNDECIDED_QUIET: BatchPrinting = BatchPrinting {
    method: BatchMethod::Decide { effort: 0 },
    format: BatchFormat::Words,
    quiet: true,
    violations: false,
    required: None,
};

const UNDECIDED_JSON: BatchPrinting = BatchPrinting {
    method: BatchMethod::Decide { effort: 0 },
    format: BatchFormat::Json,
    quiet: false,
    violations: false,
    required: None,
};

const UNDECIDED_JUNIT: BatchPrinting = BatchPrinting {
    method: BatchMethod::Decide { effort: 0 },
    format: BatchFormat::Junit,
    quiet: false,
    violations: false,
    required: None,
};

/// Streams of which it is decided what they are.
pub(super) static CASES: [Case; 8] = [
    (
        &[(None, STREAM)],
        UNDECIDED_WORDS,
        Answer::Violation,
        "trace 1 CONSISTENT\ntrace 2 VIOLATION\ntrace 3 UNDECIDED 0\ntrace 4 REFUSED BadNumber line 3\ntraces 4 consistent 1 violations 1 undecided 1 refused 1\n",
        "",
    ),
    (
        &[(None, STREAM)],
        DECIDED_WORDS,
        Answer::Violation,
        "trace 1 CONSISTENT\ntrace 2 VIOLATION\ntrace 3 VIOLATION\ntrace 4 REFUSED BadNumber line 3\ntraces 4 consistent 1 violations 2 undecided 0 refused 1\n",
        "",
    ),
    (
        &[(None, STREAM)],
        UNDECIDED_QUIET,
        Answer::Violation,
        "trace 2 VIOLATION\ntrace 3 UNDECIDED 0\ntrace 4 REFUSED BadNumber line 3\ntraces 4 consistent 1 violations 1 undecided 1 refused 1\n",
        "",
    ),
    (
        &[(None, STREAM)],
        UNDECIDED_JSON,
        Answer::Violation,
        "{\"trace\":1,\"verdict\":\"consistent\"}\n{\"trace\":2,\"verdict\":\"violation\"}\n{\"trace\":3,\"verdict\":\"undecided\",\"steps\":0}\n{\"trace\":4,\"verdict\":\"refused\",\"name\":\"BadNumber\",\"line\":3}\n{\"traces\":4,\"consistent\":1,\"violations\":1,\"undecided\":1,\"refused\":1}\n",
        "",
    ),
    (
        &[(None, STREAM)],
        UNDECIDED_JUNIT,
        Answer::Violation,
        "<?xml version=\"1.0\" encoding=\"UTF-8\"?>\n<testsuites>\n<testsuite name=\"batch trace 1\" tests=\"1\" failures=\"0\" errors=\"0\" skipped=\"0\"><testcase classname=\"batch\" name=\"trace 1\"/></testsuite>\n<testsuite name=\"batch trace 2\" tests=\"1\" failures=\"1\" errors=\"0\" skipped=\"0\"><testcase classname=\"batch\" name=\"trace 2\"><failure message=\"VIOLATION\">TSO DECISION 1&#10;processors 1 events 1&#10;VIOLATION&#10;&#10;A load read a value that nothing wrote to its address:&#10;&#10;  line 3: P0 'ld 1 9' (1) read 9&#10;&#10;The first value of address 1 is 0.&#10;No operation stores to address 1.&#10;</failure></testcase></testsuite>\n<testsuite name=\"batch trace 3\" tests=\"1\" failures=\"0\" errors=\"0\" skipped=\"1\"><testcase classname=\"batch\" name=\"trace 3\"><skipped message=\"UNDECIDED 0\"/></testcase></testsuite>\n<testsuite name=\"batch trace 4\" tests=\"1\" failures=\"0\" errors=\"1\" skipped=\"0\"><testcase classname=\"batch\" name=\"trace 4\"><error message=\"REFUSED BadNumber line 3\"/></testcase></testsuite>\n<testsuite name=\"tsobench batch\" tests=\"0\" failures=\"0\" errors=\"0\" skipped=\"0\"><system-out>traces 4 consistent 1 violations 1 undecided 1 refused 1</system-out></testsuite>\n</testsuites>\n",
        "",
    ),
    // what a batch says of all its traces: the worst, where an undecided trace is better than a refused text
    (
        &[(None, "tso trace 1\nproc\nst 1 1\nld 1 1\nend\n")],
        UNDECIDED_QUIET,
        Answer::Clear,
        "traces 1 consistent 1 violations 0 undecided 0 refused 0\n",
        "",
    ),
    (
        &[(
            None,
            "tso trace 1\nproc\nst 1 1\nmb\nld 2 3\nld 1 1\nproc\nst 1 2\nmb\nld 2 4\nld 1 2\nproc\nst 2 3\nmb\nld 1 2\nld 2 3\nproc\nst 2 4\nmb\nld 1 1\nld 2 4\nend\n",
        )],
        UNDECIDED_QUIET,
        Answer::Undecided,
        "trace 1 UNDECIDED 0\ntraces 1 consistent 0 violations 0 undecided 1 refused 0\n",
        "",
    ),
    (
        &[(
            None,
            "tso trace 1\nproc\nst 1 1\nmb\nld 2 3\nld 1 1\nproc\nst 1 2\nmb\nld 2 4\nld 1 2\nproc\nst 2 3\nmb\nld 1 2\nld 2 3\nproc\nst 2 4\nmb\nld 1 1\nld 2 4\nend\ntso trace 1\nproc\nld 01 0\nend\n",
        )],
        UNDECIDED_QUIET,
        Answer::Refused,
        "trace 1 UNDECIDED 0\ntrace 2 REFUSED BadNumber line 3\ntraces 2 consistent 0 violations 0 undecided 1 refused 1\n",
        "",
    ),
];
