//! The lines of traces and final states: which value each load read, and the last values of memory.
ghost use Rattle.std.specs.Prelude.{◌≡◌, ◌∷◌, ◌++◌, [], ℕ, List, map, string_bytes, OnOk, IfOk};
ghost use Rattle.std.specs.List.{filter_map};
ghost use Rattle.tso_ops.specs.Values.{ProgramValue, rows};
ghost use Rattle.final_states.specs.FinalStates.{state_of, value_read};
ghost use Rattle.outcome_reports.specs.Internal.PartLines.{GetsParts, IsLineOf};
ghost use Rattle.outcome_reports.specs.StateLines.{last_part, parts_of_reads, read_part, state_line, states_text, value_parts, with_spaces};

use crate::values::read_by;
use final_states::FinalState;
use std::alloc::{AllocError, Global};
use std::fmt::Write;
use tso_ops::Outcome;

/// How many final states there are, and the line of each.
pub(crate) fn print_states(alloc: Global, states: &[FinalState]) -> Result<String, AllocError>
    ensures { IfOk result (λ text. (program : ProgramValue) → string_bytes text ≡ states_text (map (state_of program) states.now)) }
{
    let count = states.len();
    let mut text = format!(in alloc; "States {count}\n")?;
    for state in states {
        print_state(&mut text, state)?;
    }
    Ok(text)
}

/// Appends the line of a final state.
fn print_state(text: &mut String, state: &FinalState) -> Result<(), AllocError>
    ensures { OnOk result ((program : ProgramValue) → string_bytes text.new ≡ string_bytes text.old ++ state_line (state_of program state.now)) }
{
    let mut begun = false;
    push_lists(text, &mut begun, &state.lists)?;
    push_entries(text, &mut begun, &state.last)?;
    text.push_str("\n")?;
    Ok(())
}

/// Appends the line of what was read.
pub(crate) fn print_reads(text: &mut String, lists: &[Vec<Outcome>]) -> Result<(), AllocError>
    ensures { OnOk result (string_bytes text.new ≡ string_bytes text.old ++ (with_spaces (parts_of_reads 0 (rows lists.now)) ++ 10 ∷ [])) }
{
    let mut begun = false;
    push_lists(text, &mut begun, lists)?;
    text.push_str("\n")?;
    Ok(())
}

/// Appends the parts of what processors read to a line, of which it is known whether it has begun.
fn push_lists(text: &mut String, begun: &mut bool, lists: &[Vec<Outcome>]) -> Result<(), AllocError>
    ensures { OnOk result (GetsParts (string_bytes text.old) begun.old (string_bytes text.new) begun.new (parts_of_reads 0 (rows lists.now))) }
{
    for (p, list) in lists.iter().enumerate() {
        push_values(text, begun, p, list)?;
    }
    Ok(())
}

/// Appends the parts of the values that processor `p` read.
fn push_values(
    text: &mut String,
    begun: &mut bool,
    p: usize,
    outcomes: &[Outcome],
) -> Result<(), AllocError>
    ensures { OnOk result (GetsParts (string_bytes text.old) begun.old (string_bytes text.new) begun.new
        (value_parts p 0 (filter_map value_read outcomes.now))) }
{
    let mut number = 0usize;
    for outcome in outcomes {
        match read_by(*outcome) {
            Some(value) => {
                push_read(text, begun, p, number, value)?;
                number += 1;
            }
            None => {}
        }
    }
    Ok(())
}

/// Appends the last values of memory.
fn push_entries(
    text: &mut String,
    begun: &mut bool,
    entries: &[(u16, u64)],
) -> Result<(), AllocError>
    ensures { OnOk result (GetsParts (string_bytes text.old) begun.old (string_bytes text.new) begun.new (map last_part entries.now)) }
{
    for entry in entries {
        push_entry(text, begun, entry.0, entry.1)?;
    }
    Ok(())
}

/// Appends the value that the load of this number of processor `p` read.
fn push_read(
    text: &mut String,
    begun: &mut bool,
    p: usize,
    number: usize,
    value: u64,
) -> Result<(), AllocError>
    ensures { OnOk result (GetsParts (string_bytes text.old) begun.old (string_bytes text.new) begun.new (read_part p number value ∷ [])) }
{
    begin_part(text, begun)?;
    write!(text, "{p}:{number}={value};")
}

/// Appends the value that an address has at last.
fn push_entry(text: &mut String, begun: &mut bool, a: u16, value: u64) -> Result<(), AllocError>
    ensures { OnOk result (GetsParts (string_bytes text.old) begun.old (string_bytes text.new) begun.new (last_part (a, value) ∷ [])) }
{
    begin_part(text, begun)?;
    write!(text, "[{a}]={value};")
}

/// Begins the next part of a line: after a space, where it isn't the first.
fn begin_part(text: &mut String, begun: &mut bool) -> Result<(), AllocError>
    ensures { OnOk result ((before part : List ℕ) (parts : List (List ℕ)) → IsLineOf before parts (string_bytes text.old) begun.old →
        IsLineOf before (parts ++ part ∷ []) (string_bytes text.new ++ part) begun.new) }
{
    if *begun {
        text.push_str(" ")?;
    }
    *begun = true;
    Ok(())
}
