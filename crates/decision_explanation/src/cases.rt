//! The text that explains a refutation by cases.
ghost use Rattle.std.specs.Prelude.{◌≡◌, ◌++◌, string_bytes, OnOk};
ghost use Rattle.std.specs.List.{flat_map};
ghost use Rattle.trace_explanation.specs.Namings.{naming_of};
ghost use Rattle.trace_explanation.specs.Places.{place_text};
ghost use Rattle.decision_explanation.specs.Cases.{case_text, cases_head, cases_text, chain_of_pairs_text, contradiction_text, else_text, link_of_pairs_text, refutation_line_text, refutation_lines_text, refutation_step_text};
ghost use Rattle.decision_explanation.specs.InForce.{beginning, case_number};
ghost use Rattle.decision_explanation.specs.Internal.Standings.{IsKept, standing_of};

use crate::in_force::InForce;
use crate::marks::EventsOfLines;
use crate::named::NamedEvents;
use crate::reasons::reason_in_force;
use std::alloc::{AllocError, Global};
use std::fmt::Write;
use trace_explanation::{list_links, list_named, model_name, order_sentences};
use tso_cert::CertStep;
use tso_evidence::RefutationLine;
use tso_ops::{Order, Trace};

/// Appends the explanation of a refutation by its lines. OutOfMemory where an allocation was refused.
#[tactic(auto, unfolding(crate::specs::Cases::cases_text))]
pub(crate) fn push_cases(
    alloc: Global,
    text: &mut String,
    trace: &Trace,
    lines: &[RefutationLine],
) -> Result<(), AllocError>
    ensures { OnOk result (string_bytes text.new ≡ string_bytes text.old ++ cases_text trace.now lines.now) }
{
    let named = NamedEvents::new(alloc, trace)?;
    push_head(text, trace.order())?;
    push_lines(alloc, text, &named, lines)?;
    text.push_str("The events named above, by their lines in the trace:\n\n")?;
    push_places(
        alloc,
        text,
        &named,
        &list_named(alloc, &EventsOfLines, trace, lines)?,
    )
}

/// Appends the lines of these events in the trace.
fn push_places(
    alloc: Global,
    text: &mut String,
    named: &NamedEvents<'_>,
    events: &[usize],
) -> Result<(), AllocError>
    ensures { OnOk result (string_bytes text.new ≡ string_bytes text.old ++ flat_map (place_text (naming_of named.now) named.now) events.now) }
{
    for event in events {
        named.push_place(alloc, text, *event)?;
    }
    Ok(())
}

/// Appends what the memory model asks for, and how the lines show that there is no such order.
#[tactic(auto, unfolding(crate::specs::Cases::cases_head))]
fn push_head(text: &mut String, order: Order) -> Result<(), AllocError>
    ensures { OnOk result (string_bytes text.new ≡ string_bytes text.old ++ cases_head order) }
{
    let model = model_name(order);
    let sentences = order_sentences();
    write!(
        text,
        "\n{model}{sentences}No memory order explains this trace. The steps show it by cases: of two events one comes before the other, and each of the two leads to a contradiction.\nA step holds in each memory order in which what is supposed there is so. It rests only on steps of smaller numbers.\n\n"
    )
}

/// Appends the texts of these lines.
fn push_lines(
    alloc: Global,
    text: &mut String,
    named: &NamedEvents<'_>,
    lines: &[RefutationLine],
) -> Result<(), AllocError>
    ensures { OnOk result (string_bytes text.new ≡ string_bytes text.old ++ refutation_lines_text named.now beginning lines.now) }
{
    let mut state = InForce::new(alloc);
    for line in lines {
        push_line(alloc, text, named, &state, line)?;
        state.follow(line)?;
    }
    Ok(())
}

/// Appends the text of a line, where the refutation has come to this.
fn push_line(
    alloc: Global,
    text: &mut String,
    named: &NamedEvents<'_>,
    state: &InForce,
    line: &RefutationLine,
) -> Result<(), AllocError>
    requires { IsKept state.now }
    ensures { OnOk result (string_bytes text.new ≡ string_bytes text.old ++ refutation_line_text named.now (standing_of state.now) line.now) }
{
    match line {
        RefutationLine::Step(step) => push_step(alloc, text, named, state, step),
        RefutationLine::Case { first, second } => {
            push_case(
                alloc,
                text,
                named,
                state,
                (*first as usize, *second as usize),
            )
        },
        RefutationLine::Else { first, second } => {
            push_else(
                alloc,
                text,
                named,
                state,
                (*first as usize, *second as usize),
            )
        },
        RefutationLine::Cycle(cycle) => {
            push_contradiction(alloc, text, named, state, cycle.items())
        },
    }
}

/// Appends a step: its edge, and why it holds.
#[tactic(auto, unfolding(crate::specs::Cases::refutation_step_text))]
fn push_step(
    alloc: Global,
    text: &mut String,
    named: &NamedEvents<'_>,
    state: &InForce,
    step: &CertStep,
) -> Result<(), AllocError>
    requires { IsKept state.now }
    ensures { OnOk result (string_bytes text.new ≡ string_bytes text.old ++ refutation_step_text named.now (standing_of state.now).pairs
        (standing_of state.now).next step.now) }
{
    let number = state.next();
    let from = named.name(step.from as usize);
    let to = named.name(step.to as usize);
    let words = reason_in_force(alloc, named, state, step)?;
    write!(text, "{number}. {from} before {to}: {words}\n")
}

/// Appends the first part of a case.
#[tactic(auto, unfolding(crate::specs::Cases::case_text))]
fn push_case(
    alloc: Global,
    text: &mut String,
    named: &NamedEvents<'_>,
    state: &InForce,
    events: (usize, usize),
) -> Result<(), AllocError>
    ensures { OnOk result (string_bytes text.new ≡ string_bytes text.old ++ case_text named.now (standing_of state.now).next events.0 events.1) }
{
    let number = state.next();
    let first = named.name(events.0);
    let second = named.name(events.1);
    write!(text, "{number}. Suppose {first} came before {second}.\n")
}

/// Appends the second part of a case, which ends what the first supposed.
#[tactic(auto, unfolding(crate::specs::Cases::else_text))]
fn push_else(
    alloc: Global,
    text: &mut String,
    named: &NamedEvents<'_>,
    state: &InForce,
    events: (usize, usize),
) -> Result<(), AllocError>
    ensures { OnOk result (string_bytes text.new ≡ string_bytes text.old ++ else_text named.now (standing_of state.now).next
        (case_number (standing_of state.now).cases) events.0 events.1) }
{
    let number = state.next();
    let case = state.case_number();
    let first = named.name(events.0);
    let second = named.name(events.1);
    write!(
        text,
        "{number}. Otherwise {first} came before {second}.\n   This ends what was supposed in step {case}: no step below rests on that one, or on those after it up to here.\n"
    )
}

/// Appends the contradiction that a cycle is.
#[tactic(auto, unfolding(crate::specs::Cases::contradiction_text))]
fn push_contradiction(
    alloc: Global,
    text: &mut String,
    named: &NamedEvents<'_>,
    state: &InForce,
    cycle: &[u64],
) -> Result<(), AllocError>
    requires { IsKept state.now }
    ensures { OnOk result (string_bytes text.new ≡ string_bytes text.old ++ contradiction_text named.now (standing_of state.now).pairs cycle.now) }
{
    text.push_str(
        "\nA contradiction: the order would have to put each of these before the next, and the last is the first again.\n\n",
    )?;
    push_chain(alloc, text, named, state, cycle)?;
    text.push_str("\n")
}

/// Appends a cycle as a chain.
#[tactic(auto, unfolding(crate::specs::Cases::chain_of_pairs_text))]
fn push_chain(
    alloc: Global,
    text: &mut String,
    named: &NamedEvents<'_>,
    state: &InForce,
    cycle: &[u64],
) -> Result<(), AllocError>
    requires { IsKept state.now }
    ensures { OnOk result (string_bytes text.new ≡ string_bytes text.old ++ chain_of_pairs_text named.now (standing_of state.now).pairs cycle.now) }
{
    match cycle {
        [] => Ok(()),
        [first, ..] => {
            let name = named.name(*first as usize);
            write!(text, "  {name}\n")?;
            push_links(alloc, text, named, state, &list_links(alloc, cycle)?)
        },
    }
}

/// Appends the lines of these edges.
fn push_links(
    alloc: Global,
    text: &mut String,
    named: &NamedEvents<'_>,
    state: &InForce,
    links: &[(u64, u64)],
) -> Result<(), AllocError>
    requires { IsKept state.now }
    ensures { OnOk result (string_bytes text.new ≡ string_bytes text.old ++ flat_map (link_of_pairs_text named.now (standing_of state.now).pairs) links.now) }
{
    for link in links {
        push_link(alloc, text, named, state, *link)?;
    }
    Ok(())
}

/// Appends the line of an edge of a cycle.
#[tactic(auto, unfolding(crate::specs::Cases::link_of_pairs_text))]
fn push_link(
    alloc: Global,
    text: &mut String,
    named: &NamedEvents<'_>,
    state: &InForce,
    link: (u64, u64),
) -> Result<(), AllocError>
    requires { IsKept state.now }
    ensures { OnOk result (string_bytes text.new ≡ string_bytes text.old ++ link_of_pairs_text named.now (standing_of state.now).pairs link) }
{
    let (u, v) = link;
    let name = named.name(v as usize);
    let number = state.number(u, v);
    write!(text, "    before {name}: step {number}\n")
}
