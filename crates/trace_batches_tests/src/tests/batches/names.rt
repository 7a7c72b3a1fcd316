//! Names of texts, as they stand in lines.

use super::{Case, JSON, JUNIT, WORDS};
use trace_reports::Answer;

/// A trace that is a violation.
const VIOLATION: &str = "tso trace 1\nproc\nld 1 9\nend\n";

/// The line of a violation in a text of each name.
pub(super) static CASES: [Case; 14] = [
    // in words just control characters are escaped
    (
        &[(Some(""), VIOLATION)],
        WORDS,
        Answer::Violation,
        ": trace 1 VIOLATION\ntraces 1 violations 1 refused 0\n",
        "",
    ),
    (
        &[(Some("my trace"), VIOLATION)],
        WORDS,
        Answer::Violation,
        "my trace: trace 1 VIOLATION\ntraces 1 violations 1 refused 0\n",
        "",
    ),
    (
        &[(Some("a\nb"), VIOLATION)],
        WORDS,
        Answer::Violation,
        "a\\u000ab: trace 1 VIOLATION\ntraces 1 violations 1 refused 0\n",
        "",
    ),
    (
        &[(Some("\t\u{1f}\0"), VIOLATION)],
        WORDS,
        Answer::Violation,
        "\\u0009\\u001f\\u0000: trace 1 VIOLATION\ntraces 1 violations 1 refused 0\n",
        "",
    ),
    (
        &[(Some("\"&<>'\\"), VIOLATION)],
        WORDS,
        Answer::Violation,
        "\"&<>'\\: trace 1 VIOLATION\ntraces 1 violations 1 refused 0\n",
        "",
    ),
    (
        &[(Some("Spur.größe"), VIOLATION)],
        WORDS,
        Answer::Violation,
        "Spur.größe: trace 1 VIOLATION\ntraces 1 violations 1 refused 0\n",
        "",
    ),
    // in JSON quotes and backslashes too
    (
        &[(Some("my trace"), VIOLATION)],
        JSON,
        Answer::Violation,
        "{\"file\":\"my trace\",\"trace\":1,\"verdict\":\"violation\"}\n{\"traces\":1,\"violations\":1,\"refused\":0}\n",
        "",
    ),
    (
        &[(Some("a\"b\\c"), VIOLATION)],
        JSON,
        Answer::Violation,
        "{\"file\":\"a\\\"b\\\\c\",\"trace\":1,\"verdict\":\"violation\"}\n{\"traces\":1,\"violations\":1,\"refused\":0}\n",
        "",
    ),
    (
        &[(Some("a\nb\r"), VIOLATION)],
        JSON,
        Answer::Violation,
        "{\"file\":\"a\\u000ab\\u000d\",\"trace\":1,\"verdict\":\"violation\"}\n{\"traces\":1,\"violations\":1,\"refused\":0}\n",
        "",
    ),
    (
        &[(Some("&<>'größe"), VIOLATION)],
        JSON,
        Answer::Violation,
        "{\"file\":\"&<>'größe\",\"trace\":1,\"verdict\":\"violation\"}\n{\"traces\":1,\"violations\":1,\"refused\":0}\n",
        "",
    ),
    // in XML what has a meaning there is escaped, and what XML 1.0 forbids is replaced
    (
        &[(Some("a&b<c>d\"e'"), VIOLATION)],
        JUNIT,
        Answer::Violation,
        "<?xml version=\"1.0\" encoding=\"UTF-8\"?>\n<testsuites>\n<testsuite name=\"a&amp;b&lt;c&gt;d&quot;e' trace 1\" tests=\"1\" failures=\"1\" errors=\"0\" skipped=\"0\"><testcase classname=\"a&amp;b&lt;c&gt;d&quot;e'\" name=\"trace 1\"><failure message=\"VIOLATION\">TSO REPORT 1&#10;processors 1 events 1 rounds 0&#10;VIOLATION&#10;&#10;A load read a value that nothing wrote to its address:&#10;&#10;  line 3: P0 'ld 1 9' (1) read 9&#10;&#10;The first value of address 1 is 0.&#10;No operation stores to address 1.&#10;</failure></testcase></testsuite>\n<testsuite name=\"tsobench batch\" tests=\"0\" failures=\"0\" errors=\"0\" skipped=\"0\"><system-out>traces 1 violations 1 refused 0</system-out></testsuite>\n</testsuites>\n",
        "",
    ),
    (
        &[(Some("a b\tc\nd\r"), VIOLATION)],
        JUNIT,
        Answer::Violation,
        "<?xml version=\"1.0\" encoding=\"UTF-8\"?>\n<testsuites>\n<testsuite name=\"a b&#9;c&#10;d&#13; trace 1\" tests=\"1\" failures=\"1\" errors=\"0\" skipped=\"0\"><testcase classname=\"a b&#9;c&#10;d&#13;\" name=\"trace 1\"><failure message=\"VIOLATION\">TSO REPORT 1&#10;processors 1 events 1 rounds 0&#10;VIOLATION&#10;&#10;A load read a value that nothing wrote to its address:&#10;&#10;  line 3: P0 'ld 1 9' (1) read 9&#10;&#10;The first value of address 1 is 0.&#10;No operation stores to address 1.&#10;</failure></testcase></testsuite>\n<testsuite name=\"tsobench batch\" tests=\"0\" failures=\"0\" errors=\"0\" skipped=\"0\"><system-out>traces 1 violations 1 refused 0</system-out></testsuite>\n</testsuites>\n",
        "",
    ),
    (
        &[(Some("a\0b\u{1f}c\u{FFFE}d\u{FFFF}"), VIOLATION)],
        JUNIT,
        Answer::Violation,
        "<?xml version=\"1.0\" encoding=\"UTF-8\"?>\n<testsuites>\n<testsuite name=\"a\u{FFFD}b\u{FFFD}c\u{FFFD}d\u{FFFD} trace 1\" tests=\"1\" failures=\"1\" errors=\"0\" skipped=\"0\"><testcase classname=\"a\u{FFFD}b\u{FFFD}c\u{FFFD}d\u{FFFD}\" name=\"trace 1\"><failure message=\"VIOLATION\">TSO REPORT 1&#10;processors 1 events 1 rounds 0&#10;VIOLATION&#10;&#10;A load read a value that nothing wrote to its address:&#10;&#10;  line 3: P0 'ld 1 9' (1) read 9&#10;&#10;The first value of address 1 is 0.&#10;No operation stores to address 1.&#10;</failure></testcase></testsuite>\n<testsuite name=\"tsobench batch\" tests=\"0\" failures=\"0\" errors=\"0\" skipped=\"0\"><system-out>traces 1 violations 1 refused 0</system-out></testsuite>\n</testsuites>\n",
        "",
    ),
    (
        &[(Some("größe\u{FFFD}\u{1F600}"), VIOLATION)],
        JUNIT,
        Answer::Violation,
        "<?xml version=\"1.0\" encoding=\"UTF-8\"?>\n<testsuites>\n<testsuite name=\"größe\u{FFFD}\u{1F600} trace 1\" tests=\"1\" failures=\"1\" errors=\"0\" skipped=\"0\"><testcase classname=\"größe\u{FFFD}\u{1F600}\" name=\"trace 1\"><failure message=\"VIOLATION\">TSO REPORT 1&#10;processors 1 events 1 rounds 0&#10;VIOLATION&#10;&#10;A load read a value that nothing wrote to its address:&#10;&#10;  line 3: P0 'ld 1 9' (1) read 9&#10;&#10;The first value of address 1 is 0.&#10;No operation stores to address 1.&#10;</failure></testcase></testsuite>\n<testsuite name=\"tsobench batch\" tests=\"0\" failures=\"0\" errors=\"0\" skipped=\"0\"><system-out>traces 1 violations 1 refused 0</system-out></testsuite>\n</testsuites>\n",
        "",
    ),
];
