//! Batches of which so many traces have to be judged.

use super::decided::{self, UNDECIDED_QUIET};
use super::several::VIOLATIONS_JSON;
use super::{
    Case, JSON, JUNIT, LINES, SIX, STREAM, TEXT, THREE, TWO_VIOLATIONS, VIOLATIONS, WORDS,
};
use trace_reports::Answer;

/// How many traces have to be judged, and what the batch comes to then.
pub(super) type RequiredCase = (u64, Case);

/// A trace without a violation, which is consistent, and what its batch writes.
const TRACE: &str = "tso trace 1\nproc\nst 1 1\nld 1 1\nend\n";

const LINE: &str = "trace 1 NO VIOLATION FOUND\ntraces 1 violations 0 refused 0\n";

const DECIDED_LINE: &str = "traces 1 consistent 1 violations 0 undecided 0 refused 0\n";

/// A trace without an order or a derived cycle.
const UNORDERED: &str =
    "tso trace 1\nproc\nst 1 1\nmb\nld 2 3\nld 1 1\nproc\nst 1 2\nmb\nld 2 4\nld 1 2\nproc\nst 2 3\nmb\nld 1 2\nld 2 3\nproc\nst 2 4\nmb\nld 1 1\nld 2 4\nend\n";

/// What a quiet batch writes of the decided stream, of whose traces two are decided.
const DECIDED_LINES: &str =
    "trace 2 VIOLATION\ntrace 3 UNDECIDED 0\ntrace 4 REFUSED BadNumber line 3\ntraces 4 consistent 1 violations 1 undecided 1 refused 1\n";

/// One trace where two have to be judged, and texts of violations of six texts, where four have to be judged and three are.
pub(super) const FEW: [RequiredCase; 2] = [
    (
        2,
        (
            &[(None, TRACE)],
            WORDS,
            Answer::Undecided,
            LINE,
            "TOO FEW JUDGED 1 required 2\n",
        ),
    ),
    (
        4,
        (
            &[(None, SIX)],
            VIOLATIONS,
            Answer::Violation,
            TWO_VIOLATIONS,
            "kept 1 trace 2\nkept 2 trace 5\ntraces 6 violations 2 refused 3\nTOO FEW JUDGED 3 required 4\n",
        ),
    ),
];

/// Numbers that are just met, and numbers that are just not met.
pub(super) const CASES: [RequiredCase; 16] = [
    (1, (&[(None, TRACE)], WORDS, Answer::Clear, LINE, "")),
    // no trace at all
    (
        1,
        (
            &[(None, "")],
            WORDS,
            Answer::Undecided,
            "traces 0 violations 0 refused 0\n",
            "TOO FEW JUDGED 0 required 1\n",
        ),
    ),
    // a refused text wasn't judged, and a refusal is worse
    (
        1,
        (
            &[(None, "end\n")],
            WORDS,
            Answer::Refused,
            "trace 1 REFUSED BadHeader line 1\ntraces 1 violations 0 refused 1\n",
            "TOO FEW JUDGED 0 required 1\n",
        ),
    ),
    // a violation was judged, and is worse
    (2, (&[(None, STREAM)], WORDS, Answer::Violation, TEXT, "")),
    (
        3,
        (
            &[(None, STREAM)],
            WORDS,
            Answer::Violation,
            TEXT,
            "TOO FEW JUDGED 2 required 3\n",
        ),
    ),
    // those of all texts count
    (3, (&THREE, WORDS, Answer::Violation, LINES, "")),
    (
        4,
        (
            &THREE,
            WORDS,
            Answer::Violation,
            LINES,
            "TOO FEW JUDGED 3 required 4\n",
        ),
    ),
    // an undecided trace wasn't judged
    (
        1,
        (
            &[(None, UNORDERED)],
            UNDECIDED_QUIET,
            Answer::Undecided,
            "trace 1 UNDECIDED 0\ntraces 1 consistent 0 violations 0 undecided 1 refused 0\n",
            "TOO FEW JUDGED 0 required 1\n",
        ),
    ),
    (
        1,
        (
            &[(None, TRACE)],
            UNDECIDED_QUIET,
            Answer::Clear,
            DECIDED_LINE,
            "",
        ),
    ),
    (
        2,
        (
            &[(None, TRACE)],
            UNDECIDED_QUIET,
            Answer::Undecided,
            DECIDED_LINE,
            "TOO FEW JUDGED 1 required 2\n",
        ),
    ),
    (
        2,
        (
            &[(None, decided::STREAM)],
            UNDECIDED_QUIET,
            Answer::Violation,
            DECIDED_LINES,
            "",
        ),
    ),
    (
        3,
        (
            &[(None, decided::STREAM)],
            UNDECIDED_QUIET,
            Answer::Violation,
            DECIDED_LINES,
            "TOO FEW JUDGED 2 required 3\n",
        ),
    ),
    // beside texts of violations the line follows the numbers, and it is in words in each format
    (
        3,
        (
            &[(None, SIX)],
            VIOLATIONS,
            Answer::Violation,
            TWO_VIOLATIONS,
            "kept 1 trace 2\nkept 2 trace 5\ntraces 6 violations 2 refused 3\n",
        ),
    ),
    (
        4,
        (
            &[(None, SIX)],
            VIOLATIONS_JSON,
            Answer::Violation,
            TWO_VIOLATIONS,
            "{\"kept\":1,\"trace\":2}\n{\"kept\":2,\"trace\":5}\n{\"traces\":6,\"violations\":2,\"refused\":3}\nTOO FEW JUDGED 3 required 4\n",
        ),
    ),
    (
        u64::MAX,
        (
            &[(None, TRACE)],
            JSON,
            Answer::Undecided,
            "{\"trace\":1,\"verdict\":\"no_violation_found\"}\n{\"traces\":1,\"violations\":0,\"refused\":0}\n",
            "TOO FEW JUDGED 1 required 18446744073709551615\n",
        ),
    ),
    (
        1,
        (
            &[(None, "")],
            JUNIT,
            Answer::Undecided,
            "<?xml version=\"1.0\" encoding=\"UTF-8\"?>\n<testsuites>\n<testsuite name=\"tsobench batch\" tests=\"0\" failures=\"0\" errors=\"0\" skipped=\"0\"><system-out>traces 0 violations 0 refused 0</system-out></testsuite>\n</testsuites>\n",
            "TOO FEW JUDGED 0 required 1\n",
        ),
    ),
];

/// The case where so many traces have to be judged.
pub(super) fn required((number, case): RequiredCase) -> Case {
    let (texts, mut printing, verdict, text, notes) = case;
    printing.required = Some(number);
    (texts, printing, verdict, text, notes)
}
