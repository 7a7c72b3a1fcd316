//! The traces of a program's final states, and their texts.
ghost use Rattle.std.specs.Prelude.{◌≡◌, Decides, IfOk, Some, map, ◌-◌, string_bytes};
ghost use Rattle.std.specs.List.{All};
ghost use Rattle.tso_ops.specs.Limits.{IsTrace};
ghost use Rattle.tso_ops.specs.Values.{ProgramValue, rows, trace_of_lists};
ghost use Rattle.tso_text.specs.Printed.{trace_text};
ghost use Rattle.final_states.specs.FinalStates.{AreFinalStatesOf, state_of};
ghost use Rattle.outcome_reports.specs.Internal.Counting.{IsLastOf, traces_by};
ghost use Rattle.outcome_reports.specs.Outcomes.{AreTracesOf, traces_text};

use final_states::FinalState;
use std::alloc::{AllocError, Global};
use tso_ops::{OutOfMemory, Outcome, Program, Trace};
use tso_text::print_trace;

/// The traces of a program's final states, each once.
///
/// The states are in ascending order, so that those with one trace stand next to each other.
pub(crate) fn list_traces(
    alloc: Global,
    states: &[FinalState],
) -> Result<Vec<Vec<Vec<Outcome>>>, AllocError>
    ensures all { IfOk result (λ traces. (program : ProgramValue) → AreFinalStatesOf program (map (state_of program) states.now) →
        AreTracesOf program (traces_by program.setting traces.items)) }
    ensures lawful { IfOk result (λ traces. (program : ProgramValue) → All (λ state. IsTrace (state_of program state).trace) states.now →
        All IsTrace (traces_by program.setting traces.items)) }
{
    let mut traces = Vec::new(alloc);
    for state in states {
        if !is_last(&traces, &state.lists) {
            traces.push(copy_lists(alloc, &state.lists)?)?;
        }
    }
    Ok(traces)
}

/// Whether these lists are the last of those.
fn is_last(traces: &[Vec<Vec<Outcome>>], lists: &[Vec<Outcome>]) -> bool
    ensures { Decides result (IsLastOf traces.now (rows lists.now)) }
{
    match traces.last() {
        Some(last) => are_same(last, lists),
        None => false,
    }
}

/// Whether the lists are the same.
fn are_same(one: &[Vec<Outcome>], other: &[Vec<Outcome>]) -> bool
    ensures { Decides result (rows one.now ≡ rows other.now) }
{
    one == other
}

/// Equal lists.
fn copy_lists(alloc: Global, lists: &[Vec<Outcome>]) -> Result<Vec<Vec<Outcome>>, AllocError>
    ensures { IfOk result (λ copy. rows copy.items ≡ rows lists.now) }
{
    let mut copy = Vec::new(alloc);
    for list in lists {
        copy.push(Vec::from_slice(alloc, list)?)?;
    }
    Ok(copy)
}

/// The texts of traces of a program, one after the other.
pub(crate) fn print_traces(
    alloc: Global,
    program: &Program,
    traces: &[Vec<Vec<Outcome>>],
) -> Result<String, OutOfMemory>
    requires { All IsTrace (traces_by program.now.setting traces.now) }
    ensures { IfOk result (λ text. string_bytes text ≡ traces_text (traces_by program.now.setting traces.now)) }
{
    let mut text = String::new(alloc);
    for lists in traces {
        let more = print_lists(alloc, program, lists)?;
        text.push_str(&more)?;
    }
    Ok(text)
}

/// The text of the trace of these lists of a program.
fn print_lists(
    alloc: Global,
    program: &Program,
    lists: &[Vec<Outcome>],
) -> Result<String, OutOfMemory>
    requires { IsTrace (trace_of_lists program.now.setting (rows lists.now)) }
    ensures { IfOk result (λ text. string_bytes text ≡ trace_text (trace_of_lists program.now.setting (rows lists.now))) }
{
    let trace = Trace::of_program(alloc, program, copy_lists(alloc, lists)?)?;
    print_trace(alloc, &trace)
}
