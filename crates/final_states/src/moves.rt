//! The states that follow a state by one step of the machine.

ghost use Rattle.std.specs.Prelude.{◌≡◌, ℕ, ◌<◌, ◌≤◌, ◌+◌, ◌++◌, suc, IfOk, OnOk, length, slice_index};
ghost use Rattle.std.specs.List.{zip};
ghost use Rattle.std.specs.Option.{option_map, option_to_list};
ghost use Rattle.tso_ops.specs.Limits.{address_of};
ghost use Rattle.tso_ops.specs.Values.{list_count, ops_at, rows};
ghost use Rattle.final_states.specs.Internal.Plans.{HaveWidth, IsPlanOf};
ghost use Rattle.final_states.specs.Internal.Words.{all_drained, buffer_in, drained, entry_of, following, issued, mark_for, may_issue, value_in, waiting, with_issued, with_swapped, with_value};

use crate::buffers::{count_stbars, is_buffer_empty, may_pass, read_value};
use crate::plans::{Plan, count_at, marks_at, memory_at, slot_at, start_at};
use std::alloc::{AllocError, Global};
use tso_ops::{Op, Program};

/// The words of all states that follow by one step.
pub(crate) fn following(
    alloc: Global,
    program: &Program,
    plan: &Plan,
    words: &[u64],
) -> Result<Vec<Vec<u64>>, AllocError>
    requires plan { IsPlanOf program.now plan.now }
    requires width { HaveWidth program.now plan.now words.now }
    ensures { IfOk result (λ v. rows v.items ≡ following program.now plan.now.addresses.items words.now) }
{
    let mut found = Vec::new(alloc);
    for p in 0..program.processors() {
        push_some(&mut found, issued(alloc, program, plan, words, p)?)?;
        push_drained(program, plan, words, p, &mut found)?;
    }
    Ok(found)
}

/// Appends the words of all states that follow by a drain of processor `p`.
fn push_drained(
    program: &Program,
    plan: &Plan,
    words: &[u64],
    p: usize,
    found: &mut Vec<Vec<u64>>,
) -> Result<(), AllocError>
    requires plan { IsPlanOf program.now plan.now }
    requires width { HaveWidth program.now plan.now words.now }
    requires p { p < list_count program.now }
    ensures { OnOk result (rows found.new.items ≡ rows found.old.items ++ all_drained program.now plan.now.addresses.items words.now p) }
{
    let alloc = *found.allocator();
    for i in 0..program.ops(p).len() {
        push_some(found, drained(alloc, program, plan, words, p, i)?)?;
    }
    Ok(())
}

/// Appends the words, if there are some.
fn push_some(found: &mut Vec<Vec<u64>>, next: Option<Vec<u64>>) -> Result<(), AllocError>
    ensures { OnOk result (rows found.new.items ≡ rows found.old.items ++ option_to_list (option_map (λ v. v.items) next)) }
{
    if let Some(words) = next {
        found.push(words)?;
    }
    Ok(())
}

/// The words after processor `p` has issued its next operation, or None where it has none or has to wait with it.
fn issued(
    alloc: Global,
    program: &Program,
    plan: &Plan,
    words: &[u64],
    p: usize,
) -> Result<Option<Vec<u64>>, AllocError>
    requires plan { IsPlanOf program.now plan.now }
    requires width { HaveWidth program.now plan.now words.now }
    requires p { p < list_count program.now }
    ensures { IfOk result (λ r. option_map (λ v. v.items) r ≡ issued program.now plan.now.addresses.items words.now p) }
{
    let ops = program.ops(p);
    let count = count_at(program, plan, words, p);
    if count >= ops.len() {
        return Ok(None);
    }
    let op = ops[count];
    let before = &ops[..count];
    let marks = marks_at(program, plan, words, p, count);
    if !may_issue(op, before, marks) {
        return Ok(None);
    }
    let mark = mark_for(program, plan, words, op, before, marks);
    let mut next = with_issued(alloc, words, start_at(program, plan, p), mark)?;
    swap(program, plan, &mut next, op);
    Ok(Some(next))
}

/// Whether the operation needs no empty buffer, or the stores among these operations have all gone to memory.
fn may_issue(op: Op, ops: &[Op], marks: &[u64]) -> bool
    requires { length ops.now ≤ length marks.now }
    ensures { result ≡ may_issue op (waiting 0 (zip ops.now marks.now)) }
{
    match op {
        Op::Sw { .. } | Op::Mb => is_buffer_empty(ops, marks),
        Op::Ld { .. } | Op::St { .. } | Op::Sb => true,
    }
}

/// The mark of the operation if it is issued now, after these operations of its processor.
fn mark_for(program: &Program, plan: &Plan, words: &[u64], op: Op, ops: &[Op], marks: &[u64]) -> u64
    requires plan { IsPlanOf program.now plan.now }
    requires width { HaveWidth program.now plan.now words.now }
    requires address { (a : ℕ) → address_of op ≡ Some a → a < 256 }
    requires marks { length ops.now ≤ length marks.now }
    ensures { (p : ℕ) → waiting 0 (zip ops.now marks.now) ≡ buffer_in program.now words.now p →
        result ≡ mark_for program.now plan.now.addresses.items words.now p op }
{
    match op {
        Op::Ld { a } => read_value(ops, marks, a, value_at(program, plan, words, a)),
        Op::Sw { a, .. } => value_at(program, plan, words, a),
        Op::St { .. } | Op::Mb | Op::Sb => 0,
    }
}

/// Writes to memory what the operation writes, if it is a swap.
fn swap(program: &Program, plan: &Plan, words: &mut Vec<u64>, op: Op)
    requires plan { IsPlanOf program.now plan.now }
    requires width { HaveWidth program.now plan.now words.old.items }
    requires address { (a : ℕ) → address_of op ≡ Some a → a < 256 }
    ensures { words.new.items ≡ with_swapped program.now plan.now.addresses.items words.old.items op }
{
    match op {
        Op::Sw { a, v } => write(program, plan, words, a, v),
        Op::Ld { .. } | Op::St { .. } | Op::Mb | Op::Sb => {},
    }
}

/// The words after operation `i` of processor `p`, a store that waits, has gone to memory, or None where it can't.
fn drained(
    alloc: Global,
    program: &Program,
    plan: &Plan,
    words: &[u64],
    p: usize,
    i: usize,
) -> Result<Option<Vec<u64>>, AllocError>
    requires plan { IsPlanOf program.now plan.now }
    requires width { HaveWidth program.now plan.now words.now }
    requires p { p < list_count program.now }
    requires i { i < length (ops_at program.now p) }
    ensures { IfOk result (λ r. option_map (λ v. v.items) r ≡ drained program.now plan.now.addresses.items words.now p i) }
{
    let ops = program.ops(p);
    let count = count_at(program, plan, words, p);
    if i >= count {
        return Ok(None);
    }
    let marks = marks_at(program, plan, words, p, i + 1);
    let Some((a, v)) = waiting_store(ops[i], marks[i]) else {
        return Ok(None);
    };
    let before = &ops[..i];
    if !may_pass(program.order(), before, marks, a, count_stbars(before)) {
        return Ok(None);
    }
    let mut next = Vec::from_slice(alloc, words)?;
    let at = start_at(program, plan, p) + 1 + i;
    next[at] = 1;
    write(program, plan, &mut next, a, v);
    Ok(Some(next))
}

/// The address and the value of the operation, if it is a store that waits.
fn waiting_store(op: Op, mark: u64) -> Option<(u16, u64)>
    ensures { result ≡ option_map (λ e. (e.a, e.v)) (entry_of 0 op mark) }
{
    match op {
        Op::St { a, v } => { if mark == 0 { Some((a, v)) } else { None } },
        Op::Ld { .. } | Op::Sw { .. } | Op::Mb | Op::Sb => None,
    }
}

/// The words after the processor whose words begin at `start` has issued one operation more, which has this mark.
fn with_issued(
    alloc: Global,
    words: &[u64],
    start: usize,
    mark: u64,
) -> Result<Vec<u64>, AllocError>
    requires { suc (start + slice_index words.now start) < length words.now }
    ensures { IfOk result (λ v. v.items ≡ with_issued words.now start mark) }
{
    let mut next = Vec::from_slice(alloc, words)?;
    let count = next[start];
    next[start] = count + 1;
    next[start + 1 + count as usize] = mark;
    Ok(next)
}

/// What memory has at address `a`.
fn value_at(program: &Program, plan: &Plan, words: &[u64], a: u16) -> u64
    requires plan { IsPlanOf program.now plan.now }
    requires width { HaveWidth program.now plan.now words.now }
    requires a { a < 256 }
    ensures { result ≡ value_in program.now plan.now.addresses.items words.now a }
{
    match slot_at(program, plan, a) {
        Some(slot) => {
            let at = memory_at(program, plan) + slot;
            words[at]
        },
        None => program.first(a),
    }
}

/// Writes a value to address `a` of memory, an address that the program stores to.
fn write(program: &Program, plan: &Plan, words: &mut Vec<u64>, a: u16, v: u64)
    requires plan { IsPlanOf program.now plan.now }
    requires width { HaveWidth program.now plan.now words.old.items }
    requires a { a < 256 }
    ensures { words.new.items ≡ with_value program.now plan.now.addresses.items words.old.items a v }
{
    if let Some(slot) = slot_at(program, plan, a) {
        let at = memory_at(program, plan) + slot;
        words[at] = v;
    }
}
