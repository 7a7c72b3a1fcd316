//! Where the words of a state stand.
//!
//! A state of a run is one list of 64 bit words: for each processor how many of its operations it has issued and a mark for each
//! operation, and then the values of memory at the addresses that the program stores to. The mark of a load or a swap is the value that
//! it has read, that of a store is 1 once it has gone to memory, and all others are 0.

ghost use Rattle.std.specs.Prelude.{◌≡◌, ◌<◌, ◌≤◌, suc, IfOk, OnOk, drop, length, take};
ghost use Rattle.std.specs.List.{list_any};
ghost use Rattle.tso_ops.specs.Limits.{IsProgram};
ghost use Rattle.tso_ops.specs.Values.{in_file_order, list_count, ops_at};
ghost use Rattle.final_states.specs.FinalStates.{stored_addresses, stores_to};
ghost use Rattle.final_states.specs.Internal.Plans.{AreSlots, AreStarts, HaveWidth, IsPlanOf};
ghost use Rattle.final_states.specs.Internal.Words.{first_words, issued_by, memory_start, slot_of, start_of};

use std::alloc::{AllocError, Global};
use tso_ops::{Op, Program};

/// Where the words of a program's states stand.
#[derive(Drop)]
pub(crate) struct Plan {
    /// For each processor where its words begin, and then where those of memory begin.
    pub(crate) starts: Vec<usize>,
    /// The addresses that the program stores to, in ascending order.
    pub(crate) addresses: Vec<u16>,
    /// For each of the 256 addresses its place among those that the program stores to.
    pub(crate) slots: Vec<Option<usize>>,
}

/// Where the words of this program's states stand.
pub(crate) fn make_plan(alloc: Global, program: &Program) -> Result<Plan, AllocError>
    ensures { IfOk result (IsPlanOf program.now) }
{
    let addresses = addresses_of(alloc, program)?;
    let slots = slots_of(alloc, &addresses)?;
    let starts = starts_of(alloc, program)?;
    Ok(Plan {
        starts,
        addresses,
        slots,
    })
}

/// Where the words of each processor begin, and then where those of memory begin.
fn starts_of(alloc: Global, program: &Program) -> Result<Vec<usize>, AllocError>
    ensures starts { IfOk result (λ v. AreStarts program.now.lists v.items) }
    ensures kept { OnOk result (IsProgram program.now) }
{
    let mut starts = Vec::new(alloc);
    let mut start = 0;
    for p in 0..program.processors() {
        starts.push(start)?;
        start += 1 + program.ops(p).len();
    }
    starts.push(start)?;
    Ok(starts)
}

/// The addresses that the program stores to, in ascending order.
fn addresses_of(alloc: Global, program: &Program) -> Result<Vec<u16>, AllocError>
    ensures { IfOk result (λ v. v.items ≡ stored_addresses program.now) }
{
    let mut addresses = Vec::new(alloc);
    for a in 0..256u16 {
        if is_stored(program, a) {
            addresses.push(a)?;
        }
    }
    Ok(addresses)
}

/// Whether an operation of the program stores to the address.
fn is_stored(program: &Program, a: u16) -> bool
    ensures { result ≡ list_any (stores_to a) (in_file_order program.now) }
{
    for p in 0..program.processors() {
        if has_store_to(program.ops(p), a) {
            return true;
        }
    }
    false
}

/// Whether one of these operations stores to the address.
fn has_store_to(ops: &[Op], a: u16) -> bool
    ensures { result ≡ list_any (stores_to a) ops.now }
{
    ops.iter().any(|op| is_store_to(*op, a))
}

/// Whether the operation stores to the address.
fn is_store_to(op: Op, a: u16) -> bool
    ensures { result ≡ stores_to a op }
{
    match op {
        Op::St { a: other, .. } | Op::Sw { a: other, .. } => other == a,
        Op::Ld { .. } | Op::Mb | Op::Sb => false,
    }
}

/// For each of the 256 addresses its place among these.
fn slots_of(alloc: Global, addresses: &[u16]) -> Result<Vec<Option<usize>>, AllocError>
    ensures { IfOk result (λ v. AreSlots addresses.now v.items) }
{
    let mut slots = Vec::new(alloc);
    for a in 0..256u16 {
        slots.push(slot_in(addresses, a))?;
    }
    Ok(slots)
}

/// The place of the address among these.
fn slot_in(addresses: &[u16], a: u16) -> Option<usize>
    ensures { result ≡ slot_of addresses.now a }
{
    addresses.iter().position(|other| *other == a)
}

/// The words of the first state: nothing is issued, and memory has its first values.
pub(crate) fn first_words(
    alloc: Global,
    program: &Program,
    plan: &Plan,
) -> Result<Vec<u64>, AllocError>
    requires { IsPlanOf program.now plan.now }
    ensures { IfOk result (λ v. v.items ≡ first_words program.now plan.now.addresses.items) }
{
    let mut words = vec![in alloc; 0; memory_at(program, plan)]?;
    for a in &plan.addresses {
        words.push(program.first(*a))?;
    }
    Ok(words)
}

/// Where the words of processor `p` begin, or where p is the number of processors those of memory.
pub(crate) fn start_at(program: &Program, plan: &Plan, p: usize) -> usize
    requires plan { IsPlanOf program.now plan.now }
    requires p { p ≤ list_count program.now }
    ensures { result ≡ start_of program.now.lists p }
{
    plan.starts[p]
}

/// Where the words of memory begin.
pub(crate) fn memory_at(program: &Program, plan: &Plan) -> usize
    requires { IsPlanOf program.now plan.now }
    ensures { result ≡ memory_start program.now }
{
    start_at(program, plan, program.processors())
}

/// The place of address `a` among those that the program stores to.
pub(crate) fn slot_at(program: &Program, plan: &Plan, a: u16) -> Option<usize>
    requires plan { IsPlanOf program.now plan.now }
    requires a { a < 256 }
    ensures { result ≡ slot_of plan.now.addresses.items a }
{
    plan.slots[a as usize]
}

/// How many operations processor `p` has issued.
pub(crate) fn count_at(program: &Program, plan: &Plan, words: &[u64], p: usize) -> usize
    requires plan { IsPlanOf program.now plan.now }
    requires width { HaveWidth program.now plan.now words.now }
    requires p { p < list_count program.now }
    ensures { result ≡ issued_by program.now words.now p }
{
    let at = start_at(program, plan, p);
    words[at] as usize
}

/// The marks of the first `count` operations of processor `p`.
pub(crate) fn marks_at<'a>(
    program: &Program,
    plan: &Plan,
    words: &'a [u64],
    p: usize,
    count: usize,
) -> &'a [u64]
    requires plan { IsPlanOf program.now plan.now }
    requires width { HaveWidth program.now plan.now words.now }
    requires p { p < list_count program.now }
    requires count { count ≤ length (ops_at program.now p) }
    ensures marks { result.now ≡ take count (drop (suc (start_of program.now.lists p)) words.now) }
    ensures count { length result.now ≡ count }
{
    let from = start_at(program, plan, p) + 1;
    let to = from + count;
    &words[from..to]
}
