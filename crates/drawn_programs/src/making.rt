//! Programs made from the words of a generator.
ghost use Rattle.std.specs.Prelude.{◌≡◌, ◌+◌, ◌≤◌, ◌<◌, ◌^◌, cond, Some, None, IfOk, OnOk};
ghost use Rattle.rand_core.specs.Stream.{next_u64};
ghost use Rattle.tso_ops.specs.declared.ops.Op.TheVariants.{Mb, Sb};
ghost use Rattle.tso_ops.specs.Limits.{stored_by};
ghost use Rattle.drawn_programs.specs.Making.{after_words, made_op, made_program, made_program_with_order, makes_stbar, makes_store, size_of, words_of};
ghost use Rattle.drawn_programs.specs.Internal.MadeOps.{next_ops, writes_of};

use crate::shapes::Shape;
use rand_core::Rng;
use std::alloc::Global;
use tso_ops::{Op, Order, OutOfMemory, Program, Setting};

/// Makes a program of the shape, of version 1 under TSO: for each processor in order, and each of its operations in order,
/// one word by `next_u64`.
///
/// A word that is 0 to 6 modulo 16 makes a load, 7 to 12 a store, 13 or 14 a swap, and 15 a membar. The address is
/// `word / 16` modulo the shape's number of addresses, and stores and swaps write 1, 2, 3 and so on. OutOfMemory where an
/// allocation was refused; the generator may then have given some of the words.
pub fn make_program<R: Rng>(
    alloc: Global,
    rng: &mut R,
    shape: Shape,
) -> Result<Program, OutOfMemory>
    ensures made { IfOk result (λ p. p ≡ made_program shape (words_of (size_of shape) (R.stream rng.old))) }
    ensures left { OnOk result (R.stream rng.new ≡ after_words (size_of shape) (R.stream rng.old)) }
{
    make_program_with_order(alloc, Order::Tso, rng, shape)
}

/// Makes a program of the shape, of version 1 under the memory model, as `make_program` does; under PSO a word that is 31
/// modulo 32 makes an STBAR in place of a membar.
pub fn make_program_with_order<R: Rng>(
    alloc: Global,
    order: Order,
    rng: &mut R,
    shape: Shape,
) -> Result<Program, OutOfMemory>
    ensures made { IfOk result (λ p. p ≡ made_program_with_order order shape (words_of (size_of shape) (R.stream rng.old))) }
    ensures left { OnOk result (R.stream rng.new ≡ after_words (size_of shape) (R.stream rng.old)) }
{
    let mut lists = Vec::new(alloc);
    let mut last = 0;
    for _ in 0..shape.processors() {
        lists.push(make_list(alloc, order, rng, shape, &mut last)?)?;
    }
    let setting = Setting::of_order(alloc, order);
    Ok(Program::of_lists(setting, lists))
}

/// Makes the operations of one processor. `last` is the value that was written last, 0 where none was.
fn make_list<R: Rng>(
    alloc: Global,
    order: Order,
    rng: &mut R,
    shape: Shape,
    last: &mut u64,
) -> Result<Vec<Op>, OutOfMemory>
    requires { last.old + shape.operations < 2 ^ 64 }
    ensures list { IfOk result (λ list. list.items ≡ next_ops order shape.addresses last.old (R.stream rng.old) shape.operations) }
    ensures left { OnOk result (R.stream rng.new ≡ after_words shape.operations (R.stream rng.old)) }
    ensures last { OnOk result (last.new ≡ last.old + writes_of shape.operations (R.stream rng.old)) }
{
    let mut list = Vec::new(alloc);
    for _ in 0..shape.operations() {
        list.push(make_op(order, rng, shape.addresses(), last))?;
    }
    Ok(list)
}

/// Makes one operation.
fn make_op<R: Rng>(order: Order, rng: &mut R, addresses: u64, last: &mut u64) -> Op
    requires some { 1 ≤ addresses }
    requires most { addresses ≤ 256 }
    requires room { last.old + 1 < 2 ^ 64 }
    ensures op { result ≡ made_op order addresses (last.old + 1) (next_u64 (R.stream rng.old)).0 }
    ensures left { R.stream rng.new ≡ (next_u64 (R.stream rng.old)).1 }
    ensures last { last.new ≡ last.old + cond (makes_store (next_u64 (R.stream rng.old)).0) 1 0 }
{
    let op = op_of_word(order, rng.next_u64(), addresses, *last + 1);
    if op.stored().is_some() {
        *last += 1;
    }
    op
}

/// The operation that a word makes under the memory model, where a store or a swap writes `value`.
fn op_of_word(order: Order, word: u64, addresses: u64, value: u64) -> Op
    requires some { 1 ≤ addresses }
    requires most { addresses ≤ 256 }
    ensures op { result ≡ made_op order addresses value word }
    ensures stored { stored_by result ≡ cond (makes_store word) (Some value) None }
{
    let a = (word / 16 % addresses) as u16;
    match word % 16 {
        0..=6 => Op::Ld { a },
        7..=12 => Op::St { a, v: value },
        13 | 14 => Op::Sw { a, v: value },
        _ => barrier_of_word(order, word),
    }
}

/// The barrier that a word makes which is 15 modulo 16.
fn barrier_of_word(order: Order, word: u64) -> Op
    ensures { result ≡ cond (makes_stbar order word) Sb Mb }
{
    match order {
        Order::Pso if word % 32 == 31 => Op::Sb,
        _ => Op::Mb,
    }
}
