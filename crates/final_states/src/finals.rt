//! The final states of a program.

ghost use Rattle.std.specs.Prelude.{◌≡◌, ◌≤◌, ◌<◌, All, IfOk, IfErr, OnOk, filter, length, map};
ghost use Rattle.std.specs.List.{flat_map, zip};
ghost use Rattle.tso_ops.specs.Limits.{IsTrace};
ghost use Rattle.tso_ops.specs.Values.{list_count, outcomes_in_file_order, rows, ReadFits};
ghost use Rattle.final_states.specs.FinalStates.{AreFinalStatesOf, state_of};
ghost use Rattle.final_states.specs.RunStates.{ReachesAtMost, ReachesMoreStates};
ghost use Rattle.final_states.specs.Internal.Plans.{HaveWidth, IsPlanOf};
ghost use Rattle.final_states.specs.Internal.Words.{is_done, is_final, outcome_with, outcomes_with, state_with};

use crate::buffers::is_buffer_empty;
use crate::plans::{Plan, count_at, make_plan, marks_at, memory_at};
use crate::search::reached_words;
use crate::states::{FinalState, StatesFault};
use indexmap::IndexSet;
use std::alloc::{AllocError, Global};
use tso_ops::{Op, Outcome, Program};

/// All final states of the program: what its processors were answered in a complete run, and the last values of memory.
///
/// They stand in ascending order of the values read, in file order, and then of the last values, and each stands there once.
///
/// Refused as TooManyStates where runs of the program reach more than `limit` different states, and as OutOfMemory where an
/// allocation was refused.
pub fn final_states(
    alloc: Global,
    program: &Program,
    limit: u64,
) -> Result<Vec<FinalState>, StatesFault>
    ensures found { IfOk result (λ states. AreFinalStatesOf program.now (map (state_of program.now) states.items)) }
    ensures traces { IfOk result (λ states. All (λ state. IsTrace (state_of program.now state).trace) states.items) }
    ensures few { OnOk result (ReachesAtMost program.now limit) }
    ensures refused { IfErr result (λ why. why ≡ StatesFault.TooManyStates → ReachesMoreStates program.now limit) }
{
    let plan = make_plan(alloc, program)?;
    let reached = reached_words(alloc, program, &plan, limit)?;
    let mut finals = final_words(alloc, program, &plan, &reached)?;
    finals.sort()?;
    Ok(states_of(alloc, program, &plan, &finals)?)
}

/// The words of final states among these.
fn final_words(
    alloc: Global,
    program: &Program,
    plan: &Plan,
    reached: &IndexSet<Vec<u64>>,
) -> Result<Vec<Vec<u64>>, AllocError>
    requires plan { IsPlanOf program.now plan.now }
    requires width { All (λ words. HaveWidth program.now plan.now words.items) reached.now.keys }
    ensures { IfOk result (λ v. rows v.items ≡ filter (is_final program.now) (rows reached.now.keys)) }
{
    let mut finals = Vec::new(alloc);
    for words in reached.as_slice() {
        if is_final(program, plan, words) {
            finals.push(Vec::from_slice(alloc, words)?)?;
        }
    }
    Ok(finals)
}

/// Whether each processor has issued all of its operations, and no store waits.
fn is_final(program: &Program, plan: &Plan, words: &[u64]) -> bool
    requires plan { IsPlanOf program.now plan.now }
    requires width { HaveWidth program.now plan.now words.now }
    ensures { result ≡ is_final program.now words.now }
{
    for p in 0..program.processors() {
        if !is_done(program, plan, words, p) {
            return false;
        }
    }
    true
}

/// Whether processor `p` has issued all of its operations, and none of its stores waits.
fn is_done(program: &Program, plan: &Plan, words: &[u64], p: usize) -> bool
    requires plan { IsPlanOf program.now plan.now }
    requires width { HaveWidth program.now plan.now words.now }
    requires p { p < list_count program.now }
    ensures { result ≡ is_done program.now words.now p }
{
    let ops = program.ops(p);
    let marks = marks_at(program, plan, words, p, ops.len());
    count_at(program, plan, words, p) == ops.len() && is_buffer_empty(ops, marks)
}

/// The final states that have these words.
fn states_of(
    alloc: Global,
    program: &Program,
    plan: &Plan,
    finals: &[Vec<u64>],
) -> Result<Vec<FinalState>, AllocError>
    requires plan { IsPlanOf program.now plan.now }
    requires width { All (λ words. HaveWidth program.now plan.now words.items) finals.now }
    ensures states { IfOk result (λ v. map (state_of program.now) v.items ≡ map (state_with program.now plan.now.addresses.items) (rows finals.now)) }
    ensures reads { IfOk result (λ v. All (λ s. All ReadFits (outcomes_in_file_order (state_of program.now s).trace)) v.items) }
{
    let mut states = Vec::new(alloc);
    for words in finals {
        states.push(make_state(alloc, program, plan, words)?)?;
    }
    Ok(states)
}

/// The final state that has these words.
fn make_state(
    alloc: Global,
    program: &Program,
    plan: &Plan,
    words: &[u64],
) -> Result<FinalState, AllocError>
    requires plan { IsPlanOf program.now plan.now }
    requires width { HaveWidth program.now plan.now words.now }
    ensures state { IfOk result (λ s. state_of program.now s ≡ state_with program.now plan.now.addresses.items words.now) }
    ensures reads { IfOk result (λ s. All ReadFits (outcomes_in_file_order (state_of program.now s).trace)) }
{
    let lists = lists_of(alloc, program, plan, words)?;
    let last = last_of(alloc, program, plan, words)?;
    Ok(FinalState { lists, last })
}

/// What each processor did and read.
fn lists_of(
    alloc: Global,
    program: &Program,
    plan: &Plan,
    words: &[u64],
) -> Result<Vec<Vec<Outcome>>, AllocError>
    requires plan { IsPlanOf program.now plan.now }
    requires width { HaveWidth program.now plan.now words.now }
    ensures lists { IfOk result (λ v. rows v.items ≡ (state_with program.now plan.now.addresses.items words.now).trace.lists) }
    ensures reads { IfOk result (λ v. All ReadFits (flat_map (λ outcomes. outcomes) (rows v.items))) }
{
    let mut lists = Vec::new(alloc);
    for p in 0..program.processors() {
        let ops = program.ops(p);
        let marks = marks_at(program, plan, words, p, ops.len());
        lists.push(outcomes_of(alloc, ops, marks)?)?;
    }
    Ok(lists)
}

/// The operations with what they read.
fn outcomes_of(alloc: Global, ops: &[Op], marks: &[u64]) -> Result<Vec<Outcome>, AllocError>
    requires { length ops.now ≤ length marks.now }
    ensures outcomes { IfOk result (λ v. v.items ≡ outcomes_with (zip ops.now marks.now)) }
    ensures reads { IfOk result (λ v. All ReadFits v.items) }
{
    let mut outcomes = Vec::new(alloc);
    for i in 0..ops.len() {
        outcomes.push(outcome_of(ops[i], marks[i]))?;
    }
    Ok(outcomes)
}

/// The operation that has this mark, with what it read.
fn outcome_of(op: Op, mark: u64) -> Outcome
    ensures is { result ≡ outcome_with op mark }
    ensures reads { ReadFits result }
{
    match op {
        Op::Ld { a } => Outcome::Ld { a, r: mark },
        Op::St { a, v } => Outcome::St { a, v },
        Op::Sw { a, v } => Outcome::Sw { a, r: mark, v },
        Op::Mb => Outcome::Mb,
        Op::Sb => Outcome::Sb,
    }
}

/// The addresses that the program stores to, with the values of memory.
fn last_of(
    alloc: Global,
    program: &Program,
    plan: &Plan,
    words: &[u64],
) -> Result<Vec<(u16, u64)>, AllocError>
    requires plan { IsPlanOf program.now plan.now }
    requires width { HaveWidth program.now plan.now words.now }
    ensures { IfOk result (λ v. v.items ≡ (state_with program.now plan.now.addresses.items words.now).last) }
{
    let start = memory_at(program, plan);
    let mut last = Vec::new(alloc);
    for k in 0..plan.addresses.len() {
        let value = words[start + k];
        last.push((plan.addresses[k], value))?;
    }
    Ok(last)
}
