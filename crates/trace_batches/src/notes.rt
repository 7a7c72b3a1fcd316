//! The line of a text that can't be read, and the note on a violation that is printed.
ghost use Rattle.std.specs.Prelude.{◌≡◌, IfOk, string_bytes};
ghost use Rattle.trace_batches.specs.BatchLines.{kept_json, kept_line, kept_words, unread_json, unread_line};
ghost use Rattle.trace_batches.specs.Batches.{last_format};

use crate::batches::TextJudging;
use crate::lines::last_format;
use crate::suites::unread_suite;
use request_options::BatchFormat;
use std::alloc::Global;
use tso_ops::OutOfMemory;

/// The note on the violation that is printed as the text of the first number: it is the trace of the other number in its text.
pub(crate) fn kept_line(
    judging: &TextJudging<'_>,
    kept: u64,
    number: u64,
) -> Result<String, OutOfMemory>
    ensures { IfOk result (λ line. string_bytes line ≡ kept_line (last_format judging.now.options.printing) judging.now.label.now kept number) }
{
    match last_format(judging.options.printing) {
        BatchFormat::Words | BatchFormat::Junit => {
            kept_words(judging.alloc, judging.label, kept, number)
        }
        BatchFormat::Json => kept_json(judging.alloc, judging.label, kept, number),
    }
}

/// That note in words.
#[tactic(auto, unfolding(crate::specs::BatchLines::kept_words))]
fn kept_words(alloc: Global, label: &str, kept: u64, number: u64) -> Result<String, OutOfMemory>
    ensures { IfOk result (λ line. string_bytes line ≡ kept_words label.now kept number) }
{
    format!(in alloc; "{label}kept {kept} trace {number}\n")
}

/// That note in JSON.
#[tactic(auto, unfolding(crate::specs::BatchLines::kept_json))]
fn kept_json(alloc: Global, label: &str, kept: u64, number: u64) -> Result<String, OutOfMemory>
    ensures { IfOk result (λ line. string_bytes line ≡ kept_json label.now kept number) }
{
    format!(in alloc; "{{{label}\"kept\":{kept},\"trace\":{number}}}\n")
}

/// What stands in place of the lines of a text of this label that can't be read.
pub(crate) fn unread_line(
    alloc: Global,
    format: BatchFormat,
    label: &str,
) -> Result<String, OutOfMemory>
    ensures { IfOk result (λ line. string_bytes line ≡ unread_line format label.now) }
{
    match format {
        BatchFormat::Words => format!(in alloc; "{label}FAULT Read\n"),
        BatchFormat::Json => unread_json(alloc, label),
        BatchFormat::Junit => unread_suite(alloc, label),
    }
}

/// That in JSON.
#[tactic(auto, unfolding(crate::specs::BatchLines::unread_json))]
fn unread_json(alloc: Global, label: &str) -> Result<String, OutOfMemory>
    ensures { IfOk result (λ line. string_bytes line ≡ unread_json label.now) }
{
    format!(in alloc; "{{{label}\"fault\":\"Read\"}}\n")
}
