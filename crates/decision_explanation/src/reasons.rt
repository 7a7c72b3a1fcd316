//! Why the edge of a step of a refutation holds.
ghost use Rattle.std.specs.Prelude.{◌≡◌, ◌++◌, ◌∷◌, [], codes, cond, length, nat_lt, string_bytes, IfOk, OnOk};
ghost use Rattle.std.specs.Fmt.{decimal};
ghost use Rattle.std.specs.List.{flat_map, zip};
ghost use Rattle.decision_explanation.specs.InForce.{pair_number};
ghost use Rattle.decision_explanation.specs.Reasons.{by_lines_text, path_by_lines_text, reason_text};
ghost use Rattle.decision_explanation.specs.Internal.Standings.{IsKept, standing_of};

use crate::in_force::InForce;
use crate::named::NamedEvents;
use std::alloc::{AllocError, Global};
use std::fmt::Write;
use tso_cert::{CertStep, Reason};

/// Why the edge of a step holds, where this is in force. OutOfMemory where an allocation was refused.
pub(crate) fn reason_in_force(
    alloc: Global,
    named: &NamedEvents<'_>,
    state: &InForce,
    step: &CertStep,
) -> Result<String, AllocError>
    requires { IsKept state.now }
    ensures { IfOk result (λ text. string_bytes text ≡ reason_text named.now (standing_of state.now).pairs step.now.from step.now.to step.now.reason) }
{
    let by = path_words(alloc, state, &step.reason)?;
    named.reason(alloc, step, &by)
}

/// The numbers of the lines in force on which the path of a reason rests. OutOfMemory where an allocation was refused.
fn path_words(alloc: Global, state: &InForce, reason: &Reason) -> Result<String, AllocError>
    requires { IsKept state.now }
    ensures { IfOk result (λ text. string_bytes text ≡ path_by_lines_text (standing_of state.now).pairs reason.now) }
{
    match reason {
        Reason::Base(_) => Ok(String::new(alloc)),
        Reason::Inferred { path, .. } => by_words(alloc, state, path.items()),
    }
}

/// The numbers of the lines in force that have a path's edges. OutOfMemory where an allocation was refused.
#[tactic(auto, unfolding(crate::specs::Reasons::by_lines_text))]
fn by_words(alloc: Global, state: &InForce, path: &[u64]) -> Result<String, AllocError>
    requires { IsKept state.now }
    ensures { IfOk result (λ text. string_bytes text ≡ by_lines_text (standing_of state.now).pairs path.now) }
{
    match path {
        [] | [_] => Ok(String::new(alloc)),
        [x, y, rest @ ..] => {
            let word = step_word(rest);
            let number = state.number(*x, *y);
            let mut text = format!(in alloc; "{word}{number}")?;
            push_more(&mut text, state, *y, rest)?;
            Ok(text)
        },
    }
}

/// Appends the numbers of the edges from `y` along these numbers, each after a comma.
fn push_more(text: &mut String, state: &InForce, y: u64, rest: &[u64]) -> Result<(), AllocError>
    requires { IsKept state.now }
    ensures { OnOk result (string_bytes text.new ≡ string_bytes text.old ++
        flat_map (λ edge. codes ", " ++ decimal (pair_number (standing_of state.now).pairs edge)) (zip (y ∷ rest.now) rest.now)) }
{
    let mut previous = y;
    for z in rest {
        let number = state.number(previous, *z);
        write!(text, ", {number}")?;
        previous = *z;
    }
    Ok(())
}

/// The word before the numbers of steps: of one, or of more.
fn step_word(more: &[u64]) -> &'static str
    ensures { result.now ≡ cond (nat_lt 0 (length more.now)) (codes "steps ") (codes "step ") }
{
    if more.is_empty() { "step " } else { "steps " }
}
