//! The small lines in boxes: which edges leave them, and by which steps.
ghost use Rattle.std.specs.Prelude.{◌≡◌, ◌≤◌, length, string_bytes, IfOk};
ghost use Rattle.std.specs.List.{filter};
ghost use Rattle.tso_cert.specs.Printed.{event_text};
ghost use Rattle.trace_pictures.specs.Arrows.{arrow_words, arrows_at, leaves, mark_colour, name_words, step_words};
ghost use Rattle.trace_pictures.specs.Nodes.{small_lines};

use crate::arrows::{Arrow, ArrowName, Mark};
use crate::labels::step_label;
use std::alloc::{AllocError, Global};
use trace_explanation::{field_name, first_of};
use tso_cert::CertStep;

/// How many small lines a box has at most.
const SMALL_LINES: usize = 40;

/// The arrows of which the box of number `n` speaks. OutOfMemory where an allocation was refused.
pub(crate) fn arrows_at(alloc: Global, arrows: &[Arrow], n: usize) -> Result<Vec<Arrow>, AllocError>
    ensures is { IfOk result (λ here. here.items ≡ arrows_at arrows.now n) }
    ensures most { IfOk result (λ here. length here.items ≤ 40) }
{
    let all = list_leaving(alloc, arrows, n)?;
    let mut here = Vec::new(alloc);
    here.extend_from_slice(first_of(&all, SMALL_LINES))?;
    Ok(here)
}

/// The arrows that leave number `n`.
fn list_leaving(alloc: Global, arrows: &[Arrow], n: usize) -> Result<Vec<Arrow>, AllocError>
    ensures { IfOk result (λ here. here.items ≡ filter (leaves n) arrows.now) }
{
    let mut here = Vec::new(alloc);
    for arrow in arrows {
        if arrow.from == n {
            here.push(*arrow)?;
        }
    }
    Ok(here)
}

/// The small lines of these arrows. OutOfMemory where an allocation was refused.
pub(crate) fn small_lines(
    alloc: Global,
    steps: &[CertStep],
    arrows: &[Arrow],
) -> Result<String, AllocError>
    ensures { IfOk result (λ text. string_bytes text ≡ small_lines steps.now arrows.now) }
{
    let mut text = String::new(alloc);
    for arrow in arrows {
        let line = arrow_words(alloc, steps, *arrow)?;
        text.push_str(&line)?;
    }
    Ok(text)
}

/// The small line of an arrow: its name, and which number comes later by it.
#[tactic(auto, unfolding(crate::specs::Arrows::arrow_words))]
fn arrow_words(alloc: Global, steps: &[CertStep], arrow: Arrow) -> Result<String, AllocError>
    ensures { IfOk result (λ text. string_bytes text ≡ arrow_words steps.now arrow) }
{
    let colour = mark_colour(arrow.mark);
    let name = name_words(alloc, steps, arrow.name)?;
    let to = event_text(alloc, arrow.to)?;
    format!(in alloc; "<br/><font point-size=\"10\" color=\"{colour}\">{name} to {to}</font>")
}

/// The name of an arrow: a step, or what the field calls it.
fn name_words(alloc: Global, steps: &[CertStep], name: ArrowName) -> Result<String, AllocError>
    ensures { IfOk result (λ text. string_bytes text ≡ name_words steps.now name) }
{
    match name {
        ArrowName::Step(number) => step_words(alloc, steps, number),
        ArrowName::Field(edge) => String::from_str(alloc, field_name(edge)),
    }
}

/// The colour of an arrow's small line.
fn mark_colour(mark: Mark) -> &'static str
    ensures { result.now ≡ mark_colour mark }
{
    match mark {
        Mark::Orange => "#e07b00",
        Mark::Dashed => "#606060",
        Mark::Red | Mark::BothWays | Mark::Back => "#c00000",
    }
}

/// The step of this number, by its number and rule: nothing where there is none.
fn step_words(alloc: Global, steps: &[CertStep], number: usize) -> Result<String, AllocError>
    ensures { IfOk result (λ text. string_bytes text ≡ step_words steps.now number) }
{
    if number == 0 {
        return Ok(String::new(alloc));
    }
    match steps.get(number - 1) {
        Some(step) => step_label(alloc, number, &step.reason),
        None => Ok(String::new(alloc)),
    }
}

/// A number as in the text of a certificate.
fn event_text(alloc: Global, n: usize) -> Result<String, AllocError>
    ensures { IfOk result (λ text. string_bytes text ≡ event_text n) }
{
    match n {
        0 => String::from_str(alloc, "init"),
        _ => format!(in alloc; "{n}"),
    }
}
