//! The suites of a document in JUnit's XML. A suite's numbers come before its tests, so that each trace has a suite of its own.
ghost use Rattle.std.specs.Prelude.{◌≡◌, IfOk, option_map, string_bytes};
ghost use Rattle.trace_batches.specs.BatchLines.{junit_error, junit_failure, junit_line, junit_skipped, junit_suite, junit_trace, suite_case, suite_start, total_suite, unread_suite};

use crate::judgments::Judgment;
use crate::names::escaped_text;
use request_options::BatchFormat;
use std::alloc::Global;
use tso_ops::OutOfMemory;
use tso_text::TextFault;

/// What stands before the suites of a document.
pub(crate) const JUNIT_HEAD: &str = "\
<?xml version=\"1.0\" encoding=\"UTF-8\"?>
<testsuites>
";

/// The numbers of a suite whose one test passes.
const ONE_PASSED: &str = "tests=\"1\" failures=\"0\" errors=\"0\" skipped=\"0\"";

/// Those where it fails.
const ONE_FAILED: &str = "tests=\"1\" failures=\"1\" errors=\"0\" skipped=\"0\"";

/// Those where it ends with an error.
const ONE_ERROR: &str = "tests=\"1\" failures=\"0\" errors=\"1\" skipped=\"0\"";

/// Those where it is skipped.
const ONE_SKIPPED: &str = "tests=\"1\" failures=\"0\" errors=\"0\" skipped=\"1\"";

/// The suite of the trace of this number.
pub(crate) fn junit_line(
    alloc: Global,
    label: &str,
    number: u64,
    judgment: &Judgment,
) -> Result<String, OutOfMemory>
    ensures { IfOk result (λ line. string_bytes line ≡ junit_line label.now number judgment.now) }
{
    match judgment {
        Judgment::NoViolation | Judgment::Consistent => {
            junit_trace(alloc, label, number, ONE_PASSED, "/>")
        }
        Judgment::Undecided(steps) => {
            let end = junit_skipped(alloc, *steps)?;
            junit_trace(alloc, label, number, ONE_SKIPPED, end.as_str())
        }
        Judgment::Violation(body) => {
            let end = junit_failure(alloc, body.text())?;
            junit_trace(alloc, label, number, ONE_FAILED, end.as_str())
        }
        Judgment::Refused(fault) => {
            let end = junit_error(alloc, *fault)?;
            junit_trace(alloc, label, number, ONE_ERROR, end.as_str())
        }
    }
}

/// The suite with these numbers of the trace of this number, whose test case has this end.
fn junit_trace(
    alloc: Global,
    label: &str,
    number: u64,
    numbers: &str,
    end: &str,
) -> Result<String, OutOfMemory>
    ensures { IfOk result (λ line. string_bytes line ≡ junit_trace label.now number numbers.now end.now) }
{
    let name = format!(in alloc; "trace {number}")?;
    junit_suite(alloc, label, name.as_str(), numbers, end)
}

/// The suite with these numbers whose one test has this name and this end.
#[tactic(auto, unfolding(crate::specs::BatchLines::junit_suite))]
fn junit_suite(
    alloc: Global,
    label: &str,
    name: &str,
    numbers: &str,
    end: &str,
) -> Result<String, OutOfMemory>
    ensures { IfOk result (λ line. string_bytes line ≡ junit_suite label.now name.now numbers.now end.now) }
{
    let mut suite = suite_start(alloc, label, name, numbers)?;
    let rest = suite_case(alloc, label, name, end)?;
    suite.push_str(rest.as_str())?;
    Ok(suite)
}

/// The start of the suite with these numbers whose one test has this name.
#[tactic(auto, unfolding(crate::specs::BatchLines::suite_start))]
fn suite_start(alloc: Global, label: &str, name: &str, numbers: &str) -> Result<String, OutOfMemory>
    ensures { IfOk result (λ text. string_bytes text ≡ suite_start label.now name.now numbers.now) }
{
    format!(in alloc; "<testsuite name=\"{label} {name}\" {numbers}>")
}

/// The test case that has this name and this end, and the end of its suite.
#[tactic(auto, unfolding(crate::specs::BatchLines::suite_case))]
fn suite_case(alloc: Global, label: &str, name: &str, end: &str) -> Result<String, OutOfMemory>
    ensures { IfOk result (λ text. string_bytes text ≡ suite_case label.now name.now end.now) }
{
    format!(in alloc; "<testcase classname=\"{label}\" name=\"{name}\"{end}</testsuite>\n")
}

/// The end of the test case of a violation, with what explains it where that is asked for.
fn junit_failure(alloc: Global, body: Option<&str>) -> Result<String, OutOfMemory>
    ensures { IfOk result (λ end. string_bytes end ≡ junit_failure (option_map (λ text. text.now) body.entry)) }
{
    match body {
        Some(text) => {
            let text = escaped_text(alloc, BatchFormat::Junit, text)?;
            format!(in alloc; "><failure message=\"VIOLATION\">{text}</failure></testcase>")
        }
        None => Ok(String::from_str(alloc, "><failure message=\"VIOLATION\"/></testcase>")?),
    }
}

/// The end of the test case of a text that is refused for this fault.
#[tactic(auto, unfolding(crate::specs::BatchLines::junit_error))]
fn junit_error(alloc: Global, fault: TextFault) -> Result<String, OutOfMemory>
    ensures { IfOk result (λ end. string_bytes end ≡ junit_error fault) }
{
    let why = fault.why.name();
    let line = fault.line;
    format!(in alloc; "><error message=\"REFUSED {why} line {line}\"/></testcase>")
}

/// The end of the test case of a trace that is undecided after so many steps.
#[tactic(auto, unfolding(crate::specs::BatchLines::junit_skipped))]
fn junit_skipped(alloc: Global, steps: u64) -> Result<String, OutOfMemory>
    ensures { IfOk result (λ end. string_bytes end ≡ junit_skipped steps) }
{
    format!(in alloc; "><skipped message=\"UNDECIDED {steps}\"/></testcase>")
}

/// The suite of a text of this label that can't be read: its one test ends with an error.
pub(crate) fn unread_suite(alloc: Global, label: &str) -> Result<String, OutOfMemory>
    ensures { IfOk result (λ line. string_bytes line ≡ unread_suite label.now) }
{
    junit_suite(
        alloc,
        label,
        "text",
        ONE_ERROR,
        "><error message=\"FAULT Read\"/></testcase>",
    )
}

/// The last suite, which has the numbers of all traces in words, and the end of the document.
pub(crate) fn total_suite(alloc: Global, words: &str) -> Result<String, OutOfMemory>
    ensures { IfOk result (λ line. string_bytes line ≡ total_suite words.now) }
{
    format!(in alloc;
        "<testsuite name=\"tsobench batch\" tests=\"0\" failures=\"0\" errors=\"0\" skipped=\"0\"><system-out>{words}</system-out></testsuite>\n</testsuites>\n"
    )
}
