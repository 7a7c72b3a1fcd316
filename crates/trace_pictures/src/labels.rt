//! What stands at nodes and edges, and how far apart processors are.
ghost use Rattle.std.specs.Prelude.{◌≡◌, ◌+◌, ◌*◌, ◌^◌, ◌<◌, length, max, string_bytes, IfOk};
ghost use Rattle.std.specs.List.{fold};
ghost use Rattle.trace_pictures.specs.Labels.{column_width, event_label, number_in_order, number_label, rule_name, step_label};

use crate::placed::PlacedTrace;
use std::alloc::{AllocError, Global};
use trace_explanation::{outcome_text, part_text};
use tso_cert::Reason;

/// The label of event `n`: nothing where there is no such event. OutOfMemory where an allocation was refused.
#[tactic(auto, unfolding(crate::specs::Labels::event_label))]
pub(crate) fn event_label(
    alloc: Global,
    placed: &PlacedTrace<'_>,
    n: usize,
) -> Result<String, AllocError>
    ensures { IfOk result (λ text. string_bytes text ≡ event_label placed.now n) }
{
    match placed.operation(n) {
        Some(operation) => {
            let said = outcome_text(alloc, operation.outcome)?;
            let part = part_text(operation.part);
            format!(in alloc; "{said}{part} ({n})")
        },
        None => Ok(String::new(alloc)),
    }
}

/// What stands after the label of an event that has this number in an order. OutOfMemory where an allocation was refused.
#[tactic(auto, unfolding(crate::specs::Labels::number_label))]
pub(crate) fn number_label(alloc: Global, number: Option<usize>) -> Result<String, AllocError>
    ensures { IfOk result (λ text. string_bytes text ≡ number_label number) }
{
    match number {
        Some(k) => format!(in alloc; " <font color=\"#2e7d32\"><b>#{k}</b></font>"),
        None => Ok(String::new(alloc)),
    }
}

/// The number of event `n` in an order: its place, from 1, or None where it doesn't stand there.
pub(crate) fn number_at(order: &[u64], n: usize) -> Option<usize>
    ensures { result ≡ number_in_order order.now n }
{
    let mut place = 0;
    for other in order {
        if *other == n as u64 {
            return Some(place + 1);
        }
        place += 1;
    }
    None
}

/// From one processor to the next, in points. OutOfMemory where an allocation was refused.
pub(crate) fn column_width(
    alloc: Global,
    placed: &PlacedTrace<'_>,
    drawn: &[usize],
) -> Result<u128, AllocError>
    ensures width { IfOk result (λ width. width ≡ column_width placed.now drawn.now) }
    ensures bound { IfOk result (λ width. width < 2 ^ 70) }
{
    let longest = longest_label(alloc, placed, drawn)?;
    Ok(150 + 7 * longest as u128)
}

/// The bytes of the longest label of these events.
fn longest_label(
    alloc: Global,
    placed: &PlacedTrace<'_>,
    drawn: &[usize],
) -> Result<usize, AllocError>
    ensures { IfOk result (λ longest. longest ≡ fold (λ longest n. max longest (length (event_label placed.now n))) 0 drawn.now) }
{
    let mut longest = 0;
    for n in drawn {
        let label = event_label(alloc, placed, *n)?;
        if label.len() > longest {
            longest = label.len();
        }
    }
    Ok(longest)
}

/// A step by its number and rule. OutOfMemory where an allocation was refused.
pub(crate) fn step_label(
    alloc: Global,
    number: usize,
    reason: &Reason,
) -> Result<String, AllocError>
    ensures { IfOk result (λ text. string_bytes text ≡ step_label number reason.now) }
{
    let rule = rule_name(reason);
    format!(in alloc; "{number} {rule}")
}

/// The rule of a step.
fn rule_name(reason: &Reason) -> &'static str
    ensures { result.now ≡ rule_name reason.now }
{
    match reason {
        Reason::Base(rule) => rule.name(),
        Reason::Inferred { rule, .. } => rule.name(),
    }
}
