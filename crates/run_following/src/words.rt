//! The report on a run, in words.
ghost use Rattle.std.specs.Prelude.{◌≡◌, ◌++◌, IfOk, OnOk, string_bytes};
ghost use Rattle.run_following.specs.Words.{counts_words, explanation_words, fact_words, holds_words, kind_word, line_words, number_words, operations_words, others_words, refusals_words, refused_words, run_words, standing_words, told_words, run_verdict_words};

use crate::counts::RunCounts;
use crate::facts::{Fact, NamedLine, RefusalKind, Standing, ToldRefusal};
use crate::found::RunFound;
use crate::sentences::push_sentence;
use std::alloc::{AllocError, Global};
use std::fmt::Write;
use tso_text::TextFault;

/// The report, where each refusal is explained or none is. OutOfMemory where an allocation was refused.
pub(crate) fn render_words(
    alloc: Global,
    found: &RunFound,
    is_explained: bool,
) -> Result<String, AllocError>
    ensures { IfOk result (λ text. string_bytes text ≡ run_words is_explained found.now) }
{
    let mut text = String::new(alloc);
    push_counts(&mut text, found.counts, found.waiting)?;
    push_verdict(&mut text, found, is_explained)?;
    Ok(text)
}

/// The report on a text that is refused. OutOfMemory where an allocation was refused.
pub(crate) fn render_refused_words(alloc: Global, fault: TextFault) -> Result<String, AllocError>
    ensures { IfOk result (λ text. string_bytes text ≡ refused_words fault.line fault.why) }
{
    let name = fault.why.name();
    let line = fault.line;
    let mut text = String::from_str(alloc, "TSO RUN 1\n")?;
    write!(text, "REFUSED {name} line {line}\n")?;
    Ok(text)
}

/// Appends the first lines.
fn push_counts(text: &mut String, counts: RunCounts, waiting: usize) -> Result<(), AllocError>
    ensures { OnOk result (string_bytes text.new ≡ string_bytes text.old ++ counts_words counts waiting) }
{
    text.push_str("TSO RUN 1\n")?;
    push_operations(text, counts)?;
    push_others(text, counts, waiting)
}

/// Appends how many operations there are.
fn push_operations(text: &mut String, counts: RunCounts) -> Result<(), AllocError>
    ensures { OnOk result (string_bytes text.new ≡ string_bytes text.old ++ operations_words counts) }
{
    push_number(text, "processors ", counts.processors)?;
    push_number(text, " operations ", counts.operations)?;
    push_number(text, " loads ", counts.loads)
}

/// Appends how many stores and swaps there are, and of what nothing is known.
fn push_others(text: &mut String, counts: RunCounts, waiting: usize) -> Result<(), AllocError>
    ensures { OnOk result (string_bytes text.new ≡ string_bytes text.old ++ others_words counts waiting) }
{
    push_number(text, " stores ", counts.stores)?;
    push_number(text, " swaps ", counts.swaps)?;
    push_number(text, " unknown ", counts.unknown)?;
    push_number(text, " waiting ", waiting as u64)?;
    text.push_str("\n")
}

/// Appends a number after a word.
pub(crate) fn push_number(text: &mut String, word: &str, number: u64) -> Result<(), AllocError>
    ensures { OnOk result (string_bytes text.new ≡ string_bytes text.old ++ number_words word.now number) }
{
    write!(text, "{word}{number}")?;
    Ok(())
}

/// Appends the verdict, and the refusals.
fn push_verdict(text: &mut String, found: &RunFound, is_explained: bool) -> Result<(), AllocError>
    ensures { OnOk result (string_bytes text.new ≡ string_bytes text.old ++ run_verdict_words is_explained found.now) }
{
    let refusals = found.refusals;
    if refusals == 0 {
        return text.push_str(holds_words(found.is_compared));
    }
    text.push_str("RUN REFUSED\n")?;
    push_refusals(text, &found.told, is_explained)?;
    write!(text, "refusals {refusals}\n")?;
    Ok(())
}

/// What is said of a run that holds, where values were compared or none was.
fn holds_words(is_compared: bool) -> &'static str
    ensures { result.now ≡ holds_words is_compared }
{
    if is_compared {
        "RUN HOLDS\n"
    } else {
        "RUN HOLDS\nNOTHING COMPARED\n"
    }
}

/// Appends the refusals, each after a line with its number.
fn push_refusals(
    text: &mut String,
    told: &[ToldRefusal],
    is_explained: bool,
) -> Result<(), AllocError>
    ensures { OnOk result (string_bytes text.new ≡ string_bytes text.old ++ refusals_words is_explained 1 told.now) }
{
    for (k, refusal) in told.iter().enumerate() {
        let number = k + 1;
        let kind = kind_word(refusal.kind);
        write!(text, "refusal {number} {kind}\n")?;
        push_refusal(text, refusal)?;
        push_explanation(text, refusal, is_explained)?;
    }
    Ok(())
}

/// Appends the sentence that explains a refusal, where sentences are asked for.
fn push_explanation(
    text: &mut String,
    refusal: &ToldRefusal,
    is_explained: bool,
) -> Result<(), AllocError>
    ensures { OnOk result (string_bytes text.new ≡ string_bytes text.old ++ explanation_words is_explained refusal.now) }
{
    if is_explained {
        push_sentence(text, refusal)?;
        return text.push_str("\n");
    }
    Ok(())
}

/// Appends the line that is refused, and the facts that show it.
fn push_refusal(text: &mut String, refusal: &ToldRefusal) -> Result<(), AllocError>
    ensures { OnOk result (string_bytes text.new ≡ string_bytes text.old ++ told_words refusal.now) }
{
    push_line(text, &refusal.line)?;
    for fact in &refusal.facts {
        push_fact(text, fact)?;
    }
    Ok(())
}

/// The name of a kind.
pub(crate) fn kind_word(kind: RefusalKind) -> &'static str
    ensures { result.now ≡ kind_word kind }
{
    match kind {
        RefusalKind::Value => "Value",
        RefusalKind::Waiting => "Waiting",
        RefusalKind::Order => "Order",
        RefusalKind::NothingWaits => "NothingWaits",
        RefusalKind::Reservation => "Reservation",
        RefusalKind::NoReservation => "NoReservation",
    }
}

/// Appends a line of the text, after its number.
fn push_line(text: &mut String, line: &NamedLine) -> Result<(), AllocError>
    ensures { OnOk result (string_bytes text.new ≡ string_bytes text.old ++ line_words line.now) }
{
    let number = line.number;
    write!(text, "line {number} ")?;
    text.push_str(&line.text)?;
    text.push_str("\n")
}

/// Appends a fact.
fn push_fact(text: &mut String, fact: &Fact) -> Result<(), AllocError>
    ensures { OnOk result (string_bytes text.new ≡ string_bytes text.old ++ fact_words fact.now) }
{
    match fact {
        Fact::Has(value) => {
            write!(text, "has {value}\n")?;
            Ok(())
        },
        Fact::First => text.push_str("first\n"),
        Fact::Store { line, standing } => push_store(text, line, *standing),
    }
}

/// Appends a store, and what is told of it.
fn push_store(text: &mut String, line: &NamedLine, standing: Standing) -> Result<(), AllocError>
    ensures { OnOk result (string_bytes text.new ≡ string_bytes text.old ++ standing_words line.now standing) }
{
    match standing {
        Standing::Named => push_line(text, line),
        Standing::Waiting => {
            push_line(text, line)?;
            text.push_str("waiting\n")
        },
        Standing::Reached(number) => {
            push_line(text, line)?;
            write!(text, "reached {number}\n")?;
            Ok(())
        },
        Standing::Before => {
            text.push_str("after\n")?;
            push_line(text, line)
        },
    }
}
