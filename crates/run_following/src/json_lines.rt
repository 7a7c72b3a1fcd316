//! The report on a run, in one line of JSON.
ghost use Rattle.std.specs.Prelude.{◌≡◌, ◌++◌, IfOk, OnOk, codes, string_bytes};
ghost use Rattle.run_following.specs.JsonLines.{after_facts, before_facts, counted_members, explanation_member, fact_members, facts_members, kind_member, line_members, operations_members, others_members, refusal_object, refusal_opening, refusals_ending, refusals_objects, refused_json, run_json, separator, shown_members, store_object, told_members, verdict_members};

use crate::counts::RunCounts;
use crate::facts::{Fact, NamedLine, RefusalKind, Standing, ToldRefusal};
use crate::found::RunFound;
use crate::sentences::push_sentence;
use crate::words::{kind_word, push_number};
use json_texts::push_json_text;
use std::alloc::{AllocError, Global};
use std::fmt::Write;
use tso_text::TextFault;

/// The report, where each refusal is explained or none is. OutOfMemory where an allocation was refused.
pub(crate) fn render_json(
    alloc: Global,
    found: &RunFound,
    is_explained: bool,
) -> Result<String, AllocError>
    ensures { IfOk result (λ text. string_bytes text ≡ run_json is_explained found.now) }
{
    let mut text = String::from_str(alloc, "{\"report\":\"TSO RUN 1\"")?;
    push_counted(&mut text, found)?;
    push_shown(&mut text, found, is_explained)?;
    Ok(text)
}

/// The report on a text that is refused. OutOfMemory where an allocation was refused.
pub(crate) fn render_refused_json(alloc: Global, fault: TextFault) -> Result<String, AllocError>
    ensures { IfOk result (λ text. string_bytes text ≡ refused_json fault.line fault.why) }
{
    let name = fault.why.name();
    let line = fault.line;
    let mut text = String::from_str(alloc, "{\"report\":\"TSO RUN 1\",\"refused\":\"")?;
    write!(text, "{name}\",\"line\":{line}}}\n")?;
    Ok(text)
}

/// Appends how many operations of each kind there are, and the verdict.
#[tactic(auto, unfolding(crate::specs::JsonLines::counted_members))]
fn push_counted(text: &mut String, found: &RunFound) -> Result<(), AllocError>
    ensures { OnOk result (string_bytes text.new ≡ string_bytes text.old ++ counted_members found.now) }
{
    push_operations(text, found.counts)?;
    push_others(text, found.counts, found.waiting)?;
    push_verdict(text, found.refusals, found.is_compared)
}

/// Appends the refusals that are shown, and how many there are.
#[tactic(auto, unfolding(crate::specs::JsonLines::shown_members))]
fn push_shown(text: &mut String, found: &RunFound, is_explained: bool) -> Result<(), AllocError>
    ensures { OnOk result (string_bytes text.new ≡ string_bytes text.old ++ shown_members is_explained found.now) }
{
    text.push_str(",\"shown\":[")?;
    push_refusals(text, &found.told, is_explained)?;
    push_ending(text, found.refusals)
}

/// Appends what stands after the refusals that are shown.
#[tactic(auto, unfolding(crate::specs::JsonLines::refusals_ending))]
fn push_ending(text: &mut String, refusals: u64) -> Result<(), AllocError>
    ensures { OnOk result (string_bytes text.new ≡ string_bytes text.old ++ refusals_ending refusals) }
{
    write!(text, "],\"refusals\":{refusals}}}\n")?;
    Ok(())
}

/// Appends how many operations there are.
fn push_operations(text: &mut String, counts: RunCounts) -> Result<(), AllocError>
    ensures { OnOk result (string_bytes text.new ≡ string_bytes text.old ++ operations_members counts) }
{
    push_number(text, ",\"processors\":", counts.processors)?;
    push_number(text, ",\"operations\":", counts.operations)?;
    push_number(text, ",\"loads\":", counts.loads)
}

/// Appends how many stores and swaps there are, and of what nothing is known.
fn push_others(text: &mut String, counts: RunCounts, waiting: usize) -> Result<(), AllocError>
    ensures { OnOk result (string_bytes text.new ≡ string_bytes text.old ++ others_members counts waiting) }
{
    push_number(text, ",\"stores\":", counts.stores)?;
    push_number(text, ",\"swaps\":", counts.swaps)?;
    push_number(text, ",\"unknown\":", counts.unknown)?;
    push_number(text, ",\"waiting\":", waiting as u64)
}

/// Appends whether all lines are steps, and whether a value was compared.
fn push_verdict(text: &mut String, refusals: u64, is_compared: bool) -> Result<(), AllocError>
    ensures { OnOk result (string_bytes text.new ≡ string_bytes text.old ++ verdict_members refusals is_compared) }
{
    if refusals == 0 {
        text.push_str(",\"verdict\":\"RUN HOLDS\"")?;
    } else {
        text.push_str(",\"verdict\":\"RUN REFUSED\"")?;
    }
    if is_compared {
        text.push_str(",\"compared\":true")
    } else {
        text.push_str(",\"compared\":false")
    }
}

/// Appends an object of each refusal.
fn push_refusals(
    text: &mut String,
    told: &[ToldRefusal],
    is_explained: bool,
) -> Result<(), AllocError>
    ensures { OnOk result (string_bytes text.new ≡ string_bytes text.old ++ refusals_objects is_explained 1 told.now) }
{
    for (k, refusal) in told.iter().enumerate() {
        push_refusal(text, k + 1, refusal, is_explained)?;
    }
    Ok(())
}

/// Appends the object of the refusal of this number.
#[tactic(auto, unfolding(crate::specs::JsonLines::refusal_object))]
fn push_refusal(
    text: &mut String,
    number: usize,
    refusal: &ToldRefusal,
    is_explained: bool,
) -> Result<(), AllocError>
    ensures { OnOk result (string_bytes text.new ≡ string_bytes text.old ++ refusal_object is_explained number refusal.now) }
{
    push_opening(text, number, refusal.kind)?;
    push_told(text, refusal, is_explained)?;
    text.push_str("}")
}

/// Appends the beginning of the object of the refusal of this number.
#[tactic(auto, unfolding(crate::specs::JsonLines::refusal_opening))]
fn push_opening(text: &mut String, number: usize, kind: RefusalKind) -> Result<(), AllocError>
    ensures { OnOk result (string_bytes text.new ≡ string_bytes text.old ++ refusal_opening number kind) }
{
    text.push_str(separator(number))?;
    push_number(text, "{\"refusal\":", number as u64)?;
    push_kind(text, kind)
}

/// Appends the kind of a refusal.
fn push_kind(text: &mut String, kind: RefusalKind) -> Result<(), AllocError>
    ensures { OnOk result (string_bytes text.new ≡ string_bytes text.old ++ kind_member kind) }
{
    let kind = kind_word(kind);
    write!(text, ",\"kind\":\"{kind}\",")?;
    Ok(())
}

/// What stands before the part of this number, where part 1 is the first: a comma between two.
fn separator(number: usize) -> &'static str
    ensures { result.now ≡ separator number }
{
    if number > 1 { "," } else { "" }
}

/// Appends a line that is no step, and the facts that show it.
fn push_told(text: &mut String, refusal: &ToldRefusal, is_explained: bool) -> Result<(), AllocError>
    ensures { OnOk result (string_bytes text.new ≡ string_bytes text.old ++ told_members is_explained refusal.now) }
{
    push_line(text, &refusal.line)?;
    push_reason(text, refusal)?;
    push_explanation(text, refusal, is_explained)
}

/// Appends the facts of a refusal, with what stands before and after them.
fn push_reason(text: &mut String, refusal: &ToldRefusal) -> Result<(), AllocError>
    ensures { let t = refusal.now in OnOk result (string_bytes text.new ≡ string_bytes text.old ++
        (before_facts t.kind ++ facts_members 0 t.facts.items ++ after_facts t.kind)) }
{
    text.push_str(before_facts(refusal.kind))?;
    for (k, fact) in refusal.facts.iter().enumerate() {
        push_fact(text, k, fact)?;
    }
    text.push_str(after_facts(refusal.kind))
}

/// What stands before the facts of a kind.
fn before_facts(kind: RefusalKind) -> &'static str
    ensures { result.now ≡ before_facts kind }
{
    match kind {
        RefusalKind::Value => ",",
        RefusalKind::Waiting | RefusalKind::Order | RefusalKind::Reservation => ",\"store\":",
        RefusalKind::NothingWaits | RefusalKind::NoReservation => "",
    }
}

/// What stands after the facts of a kind.
fn after_facts(kind: RefusalKind) -> &'static str
    ensures { result.now ≡ after_facts kind }
{
    match kind {
        RefusalKind::Value => "]",
        RefusalKind::Waiting
        | RefusalKind::Order
        | RefusalKind::NothingWaits
        | RefusalKind::Reservation
        | RefusalKind::NoReservation => "",
    }
}

/// Appends the sentence that explains a refusal, where sentences are asked for.
fn push_explanation(
    text: &mut String,
    refusal: &ToldRefusal,
    is_explained: bool,
) -> Result<(), AllocError>
    ensures { OnOk result (string_bytes text.new ≡ string_bytes text.old ++ explanation_member is_explained refusal.now) }
{
    if is_explained {
        text.push_str(",\"explanation\":\"")?;
        push_sentence(text, refusal)?;
        return text.push_str("\"");
    }
    Ok(())
}

/// Appends a line of the text, within an object.
fn push_line(text: &mut String, line: &NamedLine) -> Result<(), AllocError>
    ensures { OnOk result (string_bytes text.new ≡ string_bytes text.old ++ line_members line.now) }
{
    push_number(text, "\"line\":", line.number)?;
    text.push_str(",\"text\":\"")?;
    push_json_text(text, &line.text)?;
    text.push_str("\"")
}

/// Appends the fact of this place, from 0, among those of its refusal.
fn push_fact(text: &mut String, k: usize, fact: &Fact) -> Result<(), AllocError>
    ensures { OnOk result (string_bytes text.new ≡ string_bytes text.old ++ fact_members k fact.now) }
{
    match fact {
        Fact::Has(value) => {
            write!(text, "\"has\":{value},\"origins\":[")?;
            Ok(())
        },
        Fact::First => {
            text.push_str(separator(k))?;
            text.push_str("{\"first\":true}")
        },
        Fact::Store { line, standing } => push_store(text, k, line, *standing),
    }
}

/// Appends a store, as the fact of this place.
fn push_store(
    text: &mut String,
    k: usize,
    line: &NamedLine,
    standing: Standing,
) -> Result<(), AllocError>
    ensures { OnOk result (string_bytes text.new ≡ string_bytes text.old ++ store_object k line.now standing) }
{
    match standing {
        Standing::Named => {
            text.push_str("{")?;
            push_line(text, line)?;
            text.push_str("}")
        },
        Standing::Waiting => {
            push_object(text, k, line)?;
            text.push_str(",\"waiting\":true}")
        },
        Standing::Reached(number) => {
            push_object(text, k, line)?;
            write!(text, ",\"reached\":{number}}}")?;
            Ok(())
        },
        Standing::Before => {
            text.push_str(",\"after\":{")?;
            push_line(text, line)?;
            text.push_str("}")
        },
    }
}

/// Appends the beginning of an object on a store, as the fact of this place.
fn push_object(text: &mut String, k: usize, line: &NamedLine) -> Result<(), AllocError>
    ensures { OnOk result (string_bytes text.new ≡ string_bytes text.old ++ separator k ++ codes "{" ++ line_members line.now) }
{
    text.push_str(separator(k))?;
    text.push_str("{")?;
    push_line(text, line)
}
