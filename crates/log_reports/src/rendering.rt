//! The text of what is found in a log.
ghost use Rattle.std.specs.Prelude.{◌≡◌, ◌++◌, [], IfOk, OnOk, codes, string_bytes};
ghost use Rattle.std.specs.Option.{option_map_or};
ghost use Rattle.log_reports.specs.Lines.{log_lines_text};
ghost use Rattle.log_reports.specs.LogTexts.{count_text, counts_text, found_text, gaps_text, numbered_from, repeated_text, report_text, selection_explained, sizes_text, split_text, store_text, stored_text, total_text, unknown_text, unsearched_text, verdict_text, violation_text, violation_trace_text, violation_traces_text, words_if};

use crate::counts::LogCounts;
use crate::findings::{LogFindings, LogViolation};
use crate::forms::LogFound;
use crate::lines::{push_line, push_lines};
use crate::naming::name_events;
use crate::value_rendering::{push_evidence_lines, push_evidence_sentences};
use log_selections::{LoggedStore, Selected, Shown, UnwrittenLoad, lone_load};
use log_text::LineTags;
use std::alloc::{AllocError, Global};
use std::fmt::Write;
use trace_explanation::explain_named;
use trace_reports::Finding;
use tso_ops::{Order, OutOfMemory};
use tso_text::print_trace;

/// The report, with explanations or without. OutOfMemory where an allocation was refused.
pub(crate) fn render_report(
    alloc: Global,
    explains: bool,
    found: &LogFound,
) -> Result<String, OutOfMemory>
    ensures { IfOk result (λ text. string_bytes text ≡ report_text explains found.now) }
{
    let findings = &found.findings;
    let processors = found.counts.processors;
    let mut text = render_counts(alloc, &found.tags, found.counts)?;
    push_verdict(&mut text, found)?;
    push_numbered(
        alloc,
        &mut text,
        explains,
        &found.tags,
        processors,
        &findings.violations,
    )?;
    push_total(&mut text, findings)?;
    push_unjudged(&mut text, &found.tags, &findings.unjudged)?;
    Ok(text)
}

/// The first lines.
fn render_counts(alloc: Global, tags: &LineTags, counts: LogCounts) -> Result<String, AllocError>
    ensures { IfOk result (λ text. string_bytes text ≡ counts_text tags.now counts) }
{
    let mut text = render_sizes(alloc, counts)?;
    push_split(&mut text, tags.origins.cut_lines())?;
    push_repeated(&mut text, counts.repeated)?;
    Ok(text)
}

/// What the log has.
#[tactic(auto, unfolding(crate::specs::LogTexts::sizes_text))]
fn render_sizes(alloc: Global, counts: LogCounts) -> Result<String, AllocError>
    ensures { IfOk result (λ text. string_bytes text ≡ sizes_text counts) }
{
    let LogCounts {
        processors,
        operations,
        loads,
        unknown,
        left_out,
        ..
    } = counts;
    let mut text = String::new(alloc);
    write!(
        text,
        "TSO LOG 1\nprocessors {processors} operations {operations} loads {loads} unknown {unknown} left {left_out}\n"
    )?;
    Ok(text)
}

/// Appends how many lines were split into several pieces, where some were.
fn push_split(text: &mut String, split: usize) -> Result<(), AllocError>
    ensures { OnOk result (string_bytes text.new ≡ string_bytes text.old ++ split_text split) }
{
    if split == 0 {
        return Ok(());
    }
    write!(text, "split {split}\n")
}

/// Appends how many loads were passed over, where some were.
fn push_repeated(text: &mut String, repeated: usize) -> Result<(), AllocError>
    ensures { OnOk result (string_bytes text.new ≡ string_bytes text.old ++ repeated_text repeated) }
{
    if repeated == 0 {
        return Ok(());
    }
    write!(text, "repeated {repeated}\n")
}

/// Appends the verdict, and what wasn't judged.
fn push_verdict(text: &mut String, found: &LogFound) -> Result<(), OutOfMemory>
    ensures { OnOk result (string_bytes text.new ≡ string_bytes text.old ++ verdict_text found.now) }
{
    push_found(text, &found.findings)?;
    push_gaps(text, found)?;
    Ok(())
}

/// Appends whether a violation is listed.
fn push_found(text: &mut String, findings: &LogFindings) -> Result<(), AllocError>
    ensures { OnOk result (string_bytes text.new ≡ string_bytes text.old ++ found_text findings.now) }
{
    if findings.violations.is_empty() {
        text.push_str("NO VIOLATION FOUND\n")
    } else {
        text.push_str("VIOLATION\n")
    }
}

/// Appends what wasn't judged: the rest of the log, what is no trace, all loads, or too many of them.
pub(crate) fn push_gaps(text: &mut String, found: &LogFound) -> Result<(), OutOfMemory>
    ensures { OnOk result (string_bytes text.new ≡ string_bytes text.old ++ gaps_text found.now) }
{
    push_unsearched(text, &found.findings)?;
    push_unknown(text, found.options.max_unknown, found.counts)?;
    Ok(())
}

/// Appends that the rest of the log wasn't judged, or what is no trace.
fn push_unsearched(text: &mut String, findings: &LogFindings) -> Result<(), AllocError>
    ensures { OnOk result (string_bytes text.new ≡ string_bytes text.old ++ unsearched_text findings.now) }
{
    push_if(text, findings.is_early, "SEARCH ENDED EARLY\n")?;
    push_if(text, findings.has_unjudged(), "NOT ALL JUDGED\n")
}

/// Appends that no load was judged, or that of a hundred more are unknown than so many.
fn push_unknown(text: &mut String, percent: usize, counts: LogCounts) -> Result<(), OutOfMemory>
    ensures { OnOk result (string_bytes text.new ≡ string_bytes text.old ++ unknown_text percent counts) }
{
    let is_too_unknown = counts.is_too_unknown(percent)?;
    push_if(text, counts.is_nothing_judged(), "NOTHING JUDGED\n")?;
    push_if(text, is_too_unknown, "TOO MANY UNKNOWN\n")?;
    Ok(())
}

/// Appends these words where something is so.
fn push_if(text: &mut String, is: bool, words: &str) -> Result<(), AllocError>
    ensures { OnOk result (string_bytes text.new ≡ string_bytes text.old ++ words_if is words.now) }
{
    if is {
        text.push_str(words)?;
    }
    Ok(())
}

/// Appends how many violations are listed, where some are, and whether there are more.
fn push_total(text: &mut String, findings: &LogFindings) -> Result<(), AllocError>
    ensures { OnOk result (string_bytes text.new ≡ string_bytes text.old ++ total_text findings.now) }
{
    if findings.violations.is_empty() {
        return Ok(());
    }
    push_count(text, findings.violations.len(), findings.has_more)
}

/// Appends a number of violations, and whether there are more.
fn push_count(text: &mut String, count: usize, has_more: bool) -> Result<(), AllocError>
    ensures { OnOk result (string_bytes text.new ≡ string_bytes text.old ++ count_text count has_more) }
{
    let more = more_words(has_more);
    write!(text, "violations {count}{more}\n")?;
    Ok(())
}

/// What follows a number that isn't that of all.
fn more_words(has_more: bool) -> &'static str
    ensures { result.now ≡ words_if has_more (codes " of more") }
{
    if has_more { " of more" } else { "" }
}

/// Appends the violations, each after a line with its number.
fn push_numbered(
    alloc: Global,
    text: &mut String,
    explains: bool,
    tags: &LineTags,
    processors: usize,
    violations: &[LogViolation],
) -> Result<(), AllocError>
    ensures { OnOk result (string_bytes text.new ≡ string_bytes text.old ++ numbered_from (violation_text explains tags.now processors)
        (codes "violation ") 1 violations.now) }
{
    for (k, violation) in violations.iter().enumerate() {
        let number = k + 1;
        write!(text, "violation {number}\n")?;
        push_violation(alloc, text, explains, tags, processors, violation)?;
    }
    Ok(())
}

/// Appends the lines of a violation, and its explanation where one is asked for.
fn push_violation(
    alloc: Global,
    text: &mut String,
    explains: bool,
    tags: &LineTags,
    processors: usize,
    violation: &LogViolation,
) -> Result<(), AllocError>
    ensures { OnOk result (string_bytes text.new ≡ string_bytes text.old ++ violation_text explains tags.now processors violation.now) }
{
    match violation {
        LogViolation::Selection { selected, finding } => {
            push_lines(text, tags, &selected.shown)?;
            if explains {
                push_explanation(alloc, text, tags, processors, selected, finding)?;
            }
            Ok(())
        }
        LogViolation::Unwritten(load) => {
            push_line(text, tags, &load.shown)?;
            push_stored(text, tags, load)
        }
        LogViolation::ByValues(shown) => {
            push_evidence_lines(text, tags, shown)?;
            if explains {
                push_evidence_sentences(text, tags, shown)?;
            }
            Ok(())
        }
    }
}

/// Appends why the lines have no order, and an empty line.
fn push_explanation(
    alloc: Global,
    text: &mut String,
    tags: &LineTags,
    processors: usize,
    selected: &Selected,
    finding: &Finding,
) -> Result<(), AllocError>
    ensures { OnOk result (string_bytes text.new ≡ string_bytes text.old ++ selection_explained tags.now processors selected.now finding.now) }
{
    let names = name_events(alloc, tags, processors, &selected.shown)?;
    explain_named(alloc, text, &selected.trace, &finding.certificate, &names)?;
    text.push_str("\n")
}

/// Appends what was stored to the address of an unwritten load.
fn push_stored(text: &mut String, tags: &LineTags, load: &UnwrittenLoad) -> Result<(), AllocError>
    ensures { OnOk result (string_bytes text.new ≡ string_bytes text.old ++ stored_text tags.now load.now) }
{
    let stores = load.stores;
    write!(text, "stored {stores}")?;
    push_store(text, tags, " first ", load.first)?;
    push_store(text, tags, " last ", load.last)?;
    text.push_str("\n")
}

/// Appends the value and the line of a store, where there is one, after a word.
fn push_store(
    text: &mut String,
    tags: &LineTags,
    word: &str,
    store: Option<LoggedStore>,
) -> Result<(), AllocError>
    ensures { OnOk result (string_bytes text.new ≡ string_bytes text.old ++ option_map_or (store_text tags.now word.now) store []) }
{
    if let Some(store) = store {
        let value = store.value;
        let line = tags.origins.line(store.line);
        write!(text, "{word}{value} line {line}")?;
    }
    Ok(())
}

/// Appends the lines that couldn't be judged, each group after a line with its number.
fn push_unjudged(
    text: &mut String,
    tags: &LineTags,
    unjudged: &[Vec<Shown>],
) -> Result<(), AllocError>
    ensures { OnOk result (string_bytes text.new ≡ string_bytes text.old ++ numbered_from (λ shown. log_lines_text tags.now shown.items)
        (codes "unjudged ") 1 unjudged.now) }
{
    for (k, shown) in unjudged.iter().enumerate() {
        let number = k + 1;
        write!(text, "unjudged {number}\n")?;
        push_lines(text, tags, shown)?;
    }
    Ok(())
}

/// The texts of the violations' traces, under this memory model. OutOfMemory where an allocation was refused.
pub(crate) fn render_traces(
    alloc: Global,
    order: Order,
    findings: &LogFindings,
) -> Result<String, OutOfMemory>
    ensures { IfOk result (λ text. string_bytes text ≡ violation_traces_text order findings.now) }
{
    let mut text = String::new(alloc);
    for violation in &findings.violations {
        push_trace(alloc, &mut text, order, violation)?;
    }
    Ok(text)
}

/// Appends the text of a violation's trace: of a load of what nothing wrote it is such a load alone; a violation by values has none.
fn push_trace(
    alloc: Global,
    text: &mut String,
    order: Order,
    violation: &LogViolation,
) -> Result<(), OutOfMemory>
    ensures { OnOk result (string_bytes text.new ≡ string_bytes text.old ++ violation_trace_text order violation.now) }
{
    match violation {
        LogViolation::Selection { selected, .. } => {
            text.push_str(&print_trace(alloc, &selected.trace)?)?;
        }
        LogViolation::Unwritten(_) => {
            let trace = lone_load(alloc, order)?;
            text.push_str(&print_trace(alloc, &trace)?)?;
        }
        LogViolation::ByValues(_) => {}
    }
    Ok(())
}
