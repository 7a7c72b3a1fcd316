//! The texts of violations by values: their lines, with sentences, or their evidence.
ghost use Rattle.std.specs.Prelude.{◌≡◌, ◌++◌, IfOk, OnOk, string_bytes};
ghost use Rattle.std.specs.List.{flat_map};
ghost use Rattle.log_text.specs.LogValues.{log_value};
ghost use Rattle.log_reports.specs.LogTexts.{violation_evidence_text, violation_evidence_texts};
ghost use Rattle.log_reports.specs.ValueTexts.{cycle_sentence, eliminated_text, elimination_words, evidence_lines_text, evidence_sentences, value_read_words, source_found_text, source_words, sources_sentence, sources_text};

use crate::findings::LogViolation;
use crate::lines::{push_line, push_lines};
use crate::value_violations::{ShownEvidence, ShownSource, ShownSources};
use log_text::{LineTags, Log};
use log_thinning::read_idle_swaps;
use std::alloc::{AllocError, Global};
use std::fmt::Write;
use tso_ops::OutOfMemory;
use value_texts::{EventName, names_of, print_value_evidence};

/// Appends what kind of violation one by values is, its lines, and what eliminates the sources of its loads.
pub(crate) fn push_evidence_lines(
    text: &mut String,
    tags: &LineTags,
    shown: &ShownEvidence,
) -> Result<(), AllocError>
    ensures { OnOk result (string_bytes text.new ≡ string_bytes text.old ++ evidence_lines_text tags.now shown.now) }
{
    text.push_str("by values\n")?;
    push_lines(text, tags, &shown.cycle)?;
    push_loads(text, tags, &shown.loads)
}

/// Appends loads with what eliminates their sources.
fn push_loads(text: &mut String, tags: &LineTags, loads: &[ShownSources]) -> Result<(), AllocError>
    ensures { OnOk result (string_bytes text.new ≡ string_bytes text.old ++ flat_map (sources_text tags.now) loads.now) }
{
    for sources in loads {
        push_sources(text, tags, sources)?;
    }
    Ok(())
}

/// Appends a load with what eliminates its sources.
fn push_sources(
    text: &mut String,
    tags: &LineTags,
    sources: &ShownSources,
) -> Result<(), AllocError>
    ensures { OnOk result (string_bytes text.new ≡ string_bytes text.old ++ sources_text tags.now sources.now) }
{
    push_line(text, tags, &sources.load)?;
    push_eliminated(text, sources)?;
    push_source(text, tags, sources.source)?;
    push_lines(text, tags, &sources.before)?;
    push_lines(text, tags, &sources.after)
}

/// Appends of how many stores a load can't have read how many.
#[tactic(auto, unfolding(crate::specs::ValueTexts::eliminated_text))]
fn push_eliminated(text: &mut String, sources: &ShownSources) -> Result<(), AllocError>
    ensures { OnOk result (string_bytes text.new ≡ string_bytes text.old ++ eliminated_text sources.now) }
{
    let stores = sources.stores;
    let value = sources.value;
    let overwritten = sources.overwritten;
    let later = sources.later;
    let taken = sources.taken;
    write!(
        text,
        "of {stores} stores of {value}: {overwritten} overwritten, {later} later, {taken} taken\n"
    )
}

/// Appends what a load read.
fn push_source(text: &mut String, tags: &LineTags, source: ShownSource) -> Result<(), AllocError>
    ensures { OnOk result (string_bytes text.new ≡ string_bytes text.old ++ source_found_text tags.now source) }
{
    match source {
        ShownSource::Nothing => Ok(()),
        ShownSource::First => text.push_str("read init\n"),
        ShownSource::Line(number) => {
            let line = tags.origins.line(number);
            write!(text, "read line {line}\n")
        }
    }
}

/// Appends why there is no order, and an empty line.
pub(crate) fn push_evidence_sentences(
    text: &mut String,
    tags: &LineTags,
    shown: &ShownEvidence,
) -> Result<(), AllocError>
    ensures { OnOk result (string_bytes text.new ≡ string_bytes text.old ++ evidence_sentences tags.now shown.now) }
{
    push_sentences(text, tags, &shown.loads)?;
    push_cycle_sentence(text, shown)?;
    text.push_str("\n")
}

/// Appends why loads can't have read other stores.
fn push_sentences(
    text: &mut String,
    tags: &LineTags,
    loads: &[ShownSources],
) -> Result<(), AllocError>
    ensures { OnOk result (string_bytes text.new ≡ string_bytes text.old ++ flat_map (sources_sentence tags.now) loads.now) }
{
    for sources in loads {
        push_sentence(text, tags, sources)?;
    }
    Ok(())
}

/// Appends why a load can't have read other stores.
fn push_sentence(
    text: &mut String,
    tags: &LineTags,
    sources: &ShownSources,
) -> Result<(), AllocError>
    ensures { OnOk result (string_bytes text.new ≡ string_bytes text.old ++ sources_sentence tags.now sources.now) }
{
    push_value_read(text, tags, sources)?;
    push_elimination(text, sources)?;
    push_source_words(text, tags, sources.source)
}

/// Appends what a load read.
#[tactic(auto, unfolding(crate::specs::ValueTexts::value_read_words))]
fn push_value_read(
    text: &mut String,
    tags: &LineTags,
    sources: &ShownSources,
) -> Result<(), AllocError>
    ensures { OnOk result (string_bytes text.new ≡ string_bytes text.old ++ value_read_words tags.now sources.now) }
{
    let line = tags.origins.line(sources.load.logged.line);
    let value = sources.value;
    write!(text, "Line {line} read {value}. ")
}

/// Appends of how many stores a load can't have read how many, and why.
#[tactic(auto, unfolding(crate::specs::ValueTexts::elimination_words))]
fn push_elimination(text: &mut String, sources: &ShownSources) -> Result<(), AllocError>
    ensures { OnOk result (string_bytes text.new ≡ string_bytes text.old ++ elimination_words sources.now) }
{
    let stores = sources.stores;
    let overwritten = sources.overwritten;
    let later = sources.later;
    let taken = sources.taken;
    write!(
        text,
        "Stores of this value to its address: {stores}. Before another store that the line sees: {overwritten}; after it: {later}; read by another swap: {taken}. "
    )
}

/// Appends the sentence on what a load read.
fn push_source_words(
    text: &mut String,
    tags: &LineTags,
    source: ShownSource,
) -> Result<(), AllocError>
    ensures { OnOk result (string_bytes text.new ≡ string_bytes text.old ++ source_words tags.now source) }
{
    match source {
        ShownSource::Nothing => text.push_str("So it can have read none of them.\n"),
        ShownSource::First => text.push_str("So it read the first value.\n"),
        ShownSource::Line(number) => {
            let line = tags.origins.line(number);
            write!(text, "So it read line {line}.\n")
        }
    }
}

/// Appends what the cycle is, if there is one.
fn push_cycle_sentence(text: &mut String, shown: &ShownEvidence) -> Result<(), AllocError>
    ensures { OnOk result (string_bytes text.new ≡ string_bytes text.old ++ cycle_sentence shown.now) }
{
    if shown.cycle.is_empty() {
        return Ok(());
    }
    let count = shown.cycle.len();
    write!(
        text,
        "The first {count} lines are a cycle: each comes before the next, and the last before the first.\n"
    )
}

/// The texts of the evidence by values of violations of a log. OutOfMemory where an allocation was refused, or evidence has the number
/// of an event that the log lacks, as none has that holds of it.
pub(crate) fn render_evidence(
    alloc: Global,
    log: &Log,
    violations: &[LogViolation],
) -> Result<String, OutOfMemory>
    ensures { IfOk result (λ text. string_bytes text ≡ violation_evidence_texts (log_value log.now) violations.now) }
{
    let names = names_of(alloc, &read_idle_swaps(alloc, log)?)?;
    let mut text = String::new(alloc);
    for violation in violations {
        push_evidence(&mut text, &names, violation)?;
    }
    Ok(text)
}

/// Appends the text of a violation's evidence by values, if it has some. OutOfMemory as above.
fn push_evidence(
    text: &mut String,
    names: &[EventName],
    violation: &LogViolation,
) -> Result<(), OutOfMemory>
    ensures { OnOk result (string_bytes text.new ≡ string_bytes text.old ++ violation_evidence_text names.now violation.now) }
{
    match violation {
        LogViolation::Selection { .. } | LogViolation::Unwritten(_) => Ok(()),
        LogViolation::ByValues(shown) => {
            print_value_evidence(text, names, &shown.evidence).map_err(|_| OutOfMemory)
        }
    }
}
