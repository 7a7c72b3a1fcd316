//! Programs that words make.
ghost use Rattle.std.specs.Prelude.{ℕ, ◌%◌, ◌/◌};
ghost use Rattle.rand_core.specs.Steps.{steps_u64_low, stream_of};

use drawn_programs::{Shape, make_program, make_program_with_order};
use rand_core::utils::NextWord;
use rand_core::{Rng, utils};
use std::alloc::Global;
use std::marker::Model;
use std::test::Fail;
use traces_for_tests::{expect_equal, program_of};
use tso_ops::{Op, Order, Program};

/// A generator whose words are the bytes of a number, the low one first, and 0 after them.
#[derive(Drop)]
struct ByteWords(u64);

impl Model for ByteWords {
    ghost Value = { ℕ };

    ghost view = { λ b. b.0 };
}

impl NextWord<u64> for ByteWords {
    ghost step = { λ s. (s % 256, s / 256) };

    fn next_word(&mut self) -> u64 {
        let word = self.0 % 256;
        self.0 /= 256;
        word
    }
}

impl Rng for ByteWords {
    ghost stream = { stream_of (steps_u64_low (λ s. (s % 256, s / 256))) };

    fn next_u32(&mut self) -> u32 {
        self.next_word() as u32
    }

    fn next_u64(&mut self) -> u64 {
        self.next_word()
    }

    fn fill_bytes(&mut self, dst: &mut [u8]) {
        utils::fill_bytes_via_u64(self, dst)
    }
}

/// A program that words make in a shape of two processors and four addresses; a 9 comes after the words.
#[derive(Clone, Copy)]
struct Made {
    words: u64,
    /// The memory model, if one is given.
    order: Option<Order>,
    operations: u64,
    lists: &'static [&'static [Op]],
}

/// The words 31, 8, 15, 63, 47, 95 and then 9: one that is 31 modulo 32 makes an STBAR under PSO, and a membar under TSO; all
/// others make the same.
const WORDS_OF_BARRIERS: u64 = 0x09_5F_2F_3F_0F_08_1F;

/// The first is of the words 7, 16, 61, 15 and then 9.
static MADE: [Made; 3] = [
    Made {
        words: 0x09_0F_3D_10_07,
        order: None,
        operations: 2,
        lists: &[
            &[Op::St { a: 0, v: 1 }, Op::Ld { a: 1 }],
            &[Op::Sw { a: 3, v: 2 }, Op::Mb],
        ],
    },
    Made {
        words: WORDS_OF_BARRIERS,
        order: Some(Order::Tso),
        operations: 3,
        lists: &[
            &[Op::Mb, Op::St { a: 0, v: 1 }, Op::Mb],
            &[Op::Mb, Op::Mb, Op::Mb],
        ],
    },
    Made {
        words: WORDS_OF_BARRIERS,
        order: Some(Order::Pso),
        operations: 3,
        lists: &[
            &[Op::Sb, Op::St { a: 0, v: 1 }, Op::Mb],
            &[Op::Sb, Op::Mb, Op::Sb],
        ],
    },
];

fn made_program(alloc: Global, made: &Made, words: &mut ByteWords) -> Result<Program, Fail> {
    let shape = Shape::new(2, made.operations, 4).ok_or("a shape")?;
    match made.order {
        None => Ok(make_program(alloc, words, shape)?),
        Some(order) => Ok(make_program_with_order(alloc, order, words, shape)?),
    }
}

/// Whether the program is the one by hand, and the next word.
fn made_so(alloc: Global, made: &Made) -> Result<(bool, u64), Fail> {
    let mut words = ByteWords(made.words);
    let program = made_program(alloc, made, &mut words)?;
    let order = made.order.unwrap_or(Order::Tso);
    let wanted = program_of(alloc, order, made.lists)?;
    Ok((program.is_same(&wanted), words.next_u64()))
}

#[test]
fn programs_of_words(rt: HostRuntime) -> Result<(), Fail> {
    for (place, made) in MADE.iter().enumerate() {
        expect_equal(place, made_so(rt.alloc(), made)?, (true, 9))?;
    }
    Ok(())
}
