//! The last line of a batch, in words, in JSON and in JUnit's XML, and the line that says that too few traces were judged.
ghost use Rattle.std.specs.Prelude.{◌≡◌, IfOk, string_bytes};
ghost use Rattle.trace_batches.specs.BatchLines.{batch_total_text, decided_json, decided_words, few_line, judged_json, judged_words, total_json, total_words};

use crate::suites::total_suite;
use crate::tallies::Tally;
use request_options::{BatchFormat, BatchMethod};
use std::alloc::Global;
use tso_ops::OutOfMemory;

/// The last line.
pub(crate) fn total_line(
    alloc: Global,
    format: BatchFormat,
    method: BatchMethod,
    tally: &Tally,
) -> Result<String, OutOfMemory>
    ensures { IfOk result (λ line. string_bytes line ≡ batch_total_text format method tally.now) }
{
    match format {
        BatchFormat::Words => {
            let words = total_words(alloc, method, tally)?;
            format!(in alloc; "{words}\n")
        }
        BatchFormat::Json => total_json(alloc, method, tally),
        BatchFormat::Junit => {
            let words = total_words(alloc, method, tally)?;
            total_suite(alloc, words.as_str())
        }
    }
}

/// The numbers, in words.
fn total_words(alloc: Global, method: BatchMethod, tally: &Tally) -> Result<String, OutOfMemory>
    ensures { IfOk result (λ words. string_bytes words ≡ total_words method tally.now) }
{
    match method {
        BatchMethod::Judge => judged_words(alloc, tally),
        BatchMethod::Decide { .. } => decided_words(alloc, tally),
    }
}

/// The numbers of judged traces, in words.
#[tactic(auto, unfolding(crate::specs::BatchLines::judged_words))]
fn judged_words(alloc: Global, tally: &Tally) -> Result<String, OutOfMemory>
    ensures { IfOk result (λ words. string_bytes words ≡ judged_words tally.now) }
{
    let traces = tally.traces;
    let violations = tally.violations;
    let refused = tally.refused;
    format!(in alloc; "traces {traces} violations {violations} refused {refused}")
}

/// The numbers of decided traces, in words.
#[tactic(auto, unfolding(crate::specs::BatchLines::decided_words))]
fn decided_words(alloc: Global, tally: &Tally) -> Result<String, OutOfMemory>
    ensures { IfOk result (λ words. string_bytes words ≡ decided_words tally.now) }
{
    let traces = tally.traces;
    let consistent = tally.consistent;
    let violations = tally.violations;
    let undecided = tally.undecided;
    let refused = tally.refused;
    format!(in alloc;
        "traces {traces} consistent {consistent} violations {violations} undecided {undecided} refused {refused}"
    )
}

/// The numbers, in JSON.
fn total_json(alloc: Global, method: BatchMethod, tally: &Tally) -> Result<String, OutOfMemory>
    ensures { IfOk result (λ line. string_bytes line ≡ total_json method tally.now) }
{
    match method {
        BatchMethod::Judge => judged_json(alloc, tally),
        BatchMethod::Decide { .. } => decided_json(alloc, tally),
    }
}

/// The numbers of judged traces, in JSON.
#[tactic(auto, unfolding(crate::specs::BatchLines::judged_json))]
fn judged_json(alloc: Global, tally: &Tally) -> Result<String, OutOfMemory>
    ensures { IfOk result (λ line. string_bytes line ≡ judged_json tally.now) }
{
    let traces = tally.traces;
    let violations = tally.violations;
    let refused = tally.refused;
    format!(in alloc; "{{\"traces\":{traces},\"violations\":{violations},\"refused\":{refused}}}\n")
}

/// The numbers of decided traces, in JSON.
#[tactic(auto, unfolding(crate::specs::BatchLines::decided_json))]
fn decided_json(alloc: Global, tally: &Tally) -> Result<String, OutOfMemory>
    ensures { IfOk result (λ line. string_bytes line ≡ decided_json tally.now) }
{
    let traces = tally.traces;
    let consistent = tally.consistent;
    let violations = tally.violations;
    let undecided = tally.undecided;
    let refused = tally.refused;
    format!(in alloc;
        "{{\"traces\":{traces},\"consistent\":{consistent},\"violations\":{violations},\"undecided\":{undecided},\"refused\":{refused}}}\n"
    )
}

/// The line that says how many traces were judged, where more have to be.
#[tactic(auto, unfolding(crate::specs::BatchLines::few_line))]
pub(crate) fn few_line(alloc: Global, count: u64, required: u64) -> Result<String, OutOfMemory>
    ensures { IfOk result (λ line. string_bytes line ≡ few_line count required) }
{
    format!(in alloc; "TOO FEW JUDGED {count} required {required}\n")
}
