//! The stores that wait in the buffer of a processor, seen in the marks of its operations: those that were issued and whose mark is 0.
ghost use Rattle.std.specs.Prelude.{◌≡◌, ◌≤◌, ℕ, is_some, length, nat_lt};
ghost use Rattle.std.specs.List.{list_all, zip};
ghost use Rattle.std.specs.Option.{option_to_list};
ghost use Rattle.unit_core.specs.Machine.{newest};
ghost use Rattle.final_states.specs.Internal.Words.{entry_of, is_empty, passes, passes_all, read_after, stbar_count, stbars_among, waiting};

use tso_ops::{Op, Order};

/// What the processor reads at address `a`: the value of the newest store to it that waits, or else this value, of memory.
pub(crate) fn read_value(ops: &[Op], marks: &[u64], a: u16, value: u64) -> u64
    requires { length ops.now ≤ length marks.now }
    ensures { result ≡ newest (waiting 0 (zip ops.now marks.now)) a value }
{
    let mut newest = value;
    for i in 0..ops.len() {
        newest = read_past(ops[i], marks[i], a, newest);
    }
    newest
}

/// What is read at address `a` where this operation is the newest, and this value is what is read without it.
fn read_past(op: Op, mark: u64, a: u16, value: u64) -> u64
    ensures { result ≡ read_after op mark a value }
{
    match op {
        Op::St { a: other, v } => { if mark == 0 && other == a { v } else { value } },
        Op::Ld { .. } | Op::Sw { .. } | Op::Mb | Op::Sb => value,
    }
}

/// Whether no store waits.
pub(crate) fn is_buffer_empty(ops: &[Op], marks: &[u64]) -> bool
    requires { length ops.now ≤ length marks.now }
    ensures { result ≡ is_empty (waiting 0 (zip ops.now marks.now)) }
{
    for i in 0..ops.len() {
        if is_waiting(ops[i], marks[i]) {
            return false;
        }
    }
    true
}

/// Whether the operation is a store that waits.
fn is_waiting(op: Op, mark: u64) -> bool
    ensures { result ≡ is_some (entry_of 0 op mark) }
{
    match op {
        Op::St { .. } => mark == 0,
        Op::Ld { .. } | Op::Sw { .. } | Op::Mb | Op::Sb => false,
    }
}

/// Whether a store to address `a` that comes after so many STBARs may go to memory before all stores that wait here.
pub(crate) fn may_pass(order: Order, ops: &[Op], marks: &[u64], a: u16, stbars: usize) -> bool
    requires { length ops.now ≤ length marks.now }
    ensures { result ≡ passes_all order (waiting 0 (zip ops.now marks.now)) a stbars }
{
    let mut seen = 0;
    for i in 0..ops.len() {
        let behind = seen < stbars;
        if !may_pass_one(order, ops[i], marks[i], a, behind) {
            return false;
        }
        seen += stbars_of(ops[i]);
    }
    true
}

/// Whether a store to address `a` may go to memory before this operation, if that is a store that waits. `behind` says whether an STBAR
/// stands between the two.
fn may_pass_one(order: Order, op: Op, mark: u64, a: u16, behind: bool) -> bool
    ensures { (stbars seen : ℕ) → behind ≡ nat_lt seen stbars → result ≡ list_all (passes order a stbars) (option_to_list (entry_of seen op mark)) }
{
    match op {
        Op::St { a: other, .. } => {
            mark != 0
                || match order {
                    Order::Tso => false,
                    Order::Pso => other != a && !behind,
                }
        },
        Op::Ld { .. } | Op::Sw { .. } | Op::Mb | Op::Sb => true,
    }
}

/// The number of STBARs.
pub(crate) fn count_stbars(ops: &[Op]) -> usize
    ensures { result ≡ stbars_among ops.now }
{
    let mut count = 0;
    for i in 0..ops.len() {
        count += stbars_of(ops[i]);
    }
    count
}

/// 1 for an STBAR, else 0.
fn stbars_of(op: Op) -> usize
    ensures is { result ≡ stbar_count op }
    ensures most { result ≤ 1 }
{
    match op {
        Op::Sb => 1,
        Op::Ld { .. } | Op::St { .. } | Op::Sw { .. } | Op::Mb => 0,
    }
}
