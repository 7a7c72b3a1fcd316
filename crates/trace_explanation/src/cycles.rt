//! The explanation of a cycle.
ghost use Rattle.std.specs.Prelude.{◌≡◌, ◌++◌, [], reverse, string_bytes, OnOk, IfOk};
ghost use Rattle.std.specs.List.{enumerate_from, flat_map};
ghost use Rattle.std.specs.Option.{option_copied, option_map_or};
ghost use Rattle.trace_explanation.specs.Words.{reason_short};
ghost use Rattle.trace_explanation.specs.Explanations.{chain_text, cycle_head, cycle_text, link_text, model_name, order_sentences, places_head, step_text};

use crate::diagnoses::push_diagnosis;
use crate::links::list_links;
use crate::marks::{EventsOfSteps, list_named};
use crate::names::NamedTrace;
use crate::numbers::NumberedSteps;
use crate::subjects::{Subject, noun};
use crate::unwritten::push_places;
use crate::words::{long_words, short_words};
use std::alloc::{AllocError, Global};
use std::fmt::Write;
use tso_cert::CertStep;
use tso_ops::Order;

/// Appends the explanation of a cycle over these steps. OutOfMemory where an allocation was refused.
#[tactic(auto, unfolding(crate::specs::Explanations::cycle_text))]
pub(crate) fn push_cycle(
    alloc: Global,
    text: &mut String,
    named: &NamedTrace<'_>,
    steps: &[CertStep],
    cycle: &[u64],
) -> Result<(), AllocError>
    ensures { OnOk result (string_bytes text.new ≡ string_bytes text.old ++ cycle_text named.now.names.now named.now.trace.now steps.now cycle.now) }
{
    let numbered = NumberedSteps::new(alloc, steps)?;
    push_diagnosis(alloc, text, named, &numbered, cycle)?;
    push_head(text, named.trace.order(), named.names.subject())?;
    push_chain(alloc, text, named, &numbered, cycle)?;
    text.push_str(
        "\nWhy each step holds, the last step first. A step rests only on steps of smaller numbers.\n\n",
    )?;
    push_steps(alloc, text, named, &numbered)?;
    push_places_head(text, named.names.subject())?;
    push_places(
        alloc,
        text,
        named,
        &list_named(alloc, &EventsOfSteps, named.trace, steps)?,
    )
}

/// Appends what the memory model asks for.
#[tactic(auto, unfolding(crate::specs::Explanations::cycle_head))]
fn push_head(text: &mut String, order: Order, subject: Subject) -> Result<(), AllocError>
    ensures { OnOk result (string_bytes text.new ≡ string_bytes text.old ++ cycle_head order subject) }
{
    let model = model_name(order);
    let sentences = order_sentences();
    let noun = noun(subject);
    write!(
        text,
        "\n{model}{sentences}No memory order explains this {noun}: it would have to put each of these before the next, and the last is the first again.\n\n"
    )
}

/// Appends what the lines of the events follow.
fn push_places_head(text: &mut String, subject: Subject) -> Result<(), AllocError>
    ensures { OnOk result (string_bytes text.new ≡ string_bytes text.old ++ places_head subject) }
{
    let noun = noun(subject);
    write!(
        text,
        "\nThe events named above, by their lines in the {noun}:\n\n"
    )
}

/// What follows a model's name: that it asks for an order, and what loads read by it.
pub fn order_sentences() -> &'static str
    ensures { result.now ≡ order_sentences }
{
    " asks for one order of all loads and stores, the memory order.\nA load sees the stores to its address that come before it in that order or earlier on its own processor.\nIt reads the last of these in that order, or the first value of its address where there is none.\n"
}

/// The name of the memory model.
pub fn model_name(order: Order) -> &'static str
    ensures { result.now ≡ model_name order }
{
    match order {
        Order::Tso => "TSO",
        Order::Pso => "PSO",
    }
}

/// Appends the cycle as a chain.
#[tactic(auto, unfolding(crate::specs::Explanations::chain_text))]
fn push_chain(
    alloc: Global,
    text: &mut String,
    named: &NamedTrace<'_>,
    numbered: &NumberedSteps<'_>,
    cycle: &[u64],
) -> Result<(), AllocError>
    ensures { OnOk result (string_bytes text.new ≡ string_bytes text.old ++ chain_text named.now.names.now named.now.trace.now numbered.now cycle.now) }
{
    match cycle {
        [] => Ok(()),
        [first, ..] => {
            let name = named.names.name(*first as usize);
            write!(text, "  {name}\n")?;
            push_links(alloc, text, named, numbered, &list_links(alloc, cycle)?)
        },
    }
}

/// Appends the lines of these edges.
fn push_links(
    alloc: Global,
    text: &mut String,
    named: &NamedTrace<'_>,
    numbered: &NumberedSteps<'_>,
    links: &[(u64, u64)],
) -> Result<(), AllocError>
    ensures { OnOk result (string_bytes text.new ≡ string_bytes text.old ++
        flat_map (link_text named.now.names.now named.now.trace.now numbered.now) links.now) }
{
    for link in links {
        push_link(alloc, text, named, numbered, *link)?;
    }
    Ok(())
}

/// Appends the line of an edge of the cycle.
#[tactic(auto, unfolding(crate::specs::Explanations::link_text))]
fn push_link(
    alloc: Global,
    text: &mut String,
    named: &NamedTrace<'_>,
    numbered: &NumberedSteps<'_>,
    link: (u64, u64),
) -> Result<(), AllocError>
    ensures { OnOk result (string_bytes text.new ≡ string_bytes text.old ++ link_text named.now.names.now named.now.trace.now numbered.now link) }
{
    let (u, v) = link;
    let name = named.names.name(v as usize);
    let short = short_of(alloc, named, numbered.step(u, v))?;
    let number = numbered.number(u, v);
    write!(text, "    before {name}: {short} (step {number})\n")
}

/// Why a step holds, in short: nothing where there is no step.
fn short_of(
    alloc: Global,
    named: &NamedTrace<'_>,
    step: Option<&CertStep>,
) -> Result<String, AllocError>
    ensures { IfOk result (λ text. string_bytes text ≡ option_map_or (λ s. reason_short named.now.names.now named.now.trace.now s.from s.to s.reason)
        (option_copied step.entry) []) }
{
    match step {
        Some(step) => short_words(alloc, named, step),
        None => Ok(String::new(alloc)),
    }
}

/// Appends why each step holds, the last step first.
fn push_steps(
    alloc: Global,
    text: &mut String,
    named: &NamedTrace<'_>,
    numbered: &NumberedSteps<'_>,
) -> Result<(), AllocError>
    ensures { OnOk result (string_bytes text.new ≡ string_bytes text.old ++
        flat_map (λ n. step_text named.now.names.now named.now.trace.now numbered.now n.0 n.1) (reverse (enumerate_from 1 numbered.now))) }
{
    let steps = numbered.steps();
    for done in 0..steps.len() {
        let number = steps.len() - done;
        push_step(alloc, text, named, numbered, number, &steps[number - 1])?;
    }
    Ok(())
}

/// Appends why the step of this number holds.
#[tactic(auto, unfolding(crate::specs::Explanations::step_text))]
fn push_step(
    alloc: Global,
    text: &mut String,
    named: &NamedTrace<'_>,
    numbered: &NumberedSteps<'_>,
    number: usize,
    step: &CertStep,
) -> Result<(), AllocError>
    ensures { OnOk result (string_bytes text.new ≡ string_bytes text.old ++ step_text named.now.names.now named.now.trace.now numbered.now number step.now) }
{
    let from = named.names.name(step.from as usize);
    let to = named.names.name(step.to as usize);
    let words = long_words(alloc, named, numbered, step)?;
    write!(text, "{number}. {from} before {to}: {words}\n")
}
