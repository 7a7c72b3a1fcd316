//! Drawn traces of seven operations on three processors.

use crate::draws::next_word;
use crate::outcomes::empty_lists;
use std::alloc::Global;
use tso_ops::{Order, Outcome, Trace, ValueFault};

/// How traces are drawn: their memory model, and whether the addresses 0 and 1 have the first values 8 and 9.
#[derive(Clone, Copy)]
pub struct Drawn {
    /// The memory model.
    pub order: Order,
    /// Whether there are these first values, or zeros.
    pub has_first: bool,
}

/// Under total store order, in a memory of zeros.
pub const UNDER_TSO: Drawn = Drawn {
    order: Order::Tso,
    has_first: false,
};

/// Under partial store order, in a memory of zeros.
pub const UNDER_PSO: Drawn = Drawn {
    order: Order::Pso,
    has_first: false,
};

/// Under total store order, from first values.
pub const WITH_FIRST_VALUES: Drawn = Drawn {
    order: Order::Tso,
    has_first: true,
};

/// Under partial store order, from first values.
pub const UNDER_PSO_WITH_FIRST_VALUES: Drawn = Drawn {
    order: Order::Pso,
    has_first: true,
};

/// The barrier that the word draws, of the kinds that the memory model has.
fn drawn_barrier(drawn: Drawn, word: u64) -> Outcome {
    match drawn.order {
        Order::Tso => Outcome::Mb,
        Order::Pso if (word >> 36) % 4 == 0 => Outcome::Mb,
        Order::Pso => Outcome::Sb,
    }
}

/// The operation that the word draws, on one of two addresses: an odd value stands at address 1, an even one at
/// address 0, and a load draws among the values that can stand at its address.
fn drawn_outcome(drawn: Drawn, word: u64, value: u64) -> Outcome {
    let first = if drawn.has_first { 8 } else { 0 };
    let odd = if drawn.has_first { 1 } else { 0 };
    let stored_at = (value % 2) as u16;
    let loaded_at = (word >> 40) % 2;
    let below = (word >> 45) % 3 * 2;
    let read_first = first + odd * loaded_at;
    let swapped_first = first + odd * (value % 2);
    match (word >> 33) % 9 {
        0 => drawn_barrier(drawn, word),
        1 | 2 => Outcome::St {
            a: stored_at,
            v: value,
        },
        3 | 4 => Outcome::Sw {
            a: stored_at,
            r: swapped_first,
            v: value,
        },
        5 => Outcome::Sw {
            a: stored_at,
            r: below + value % 2,
            v: value,
        },
        6 | 7 => Outcome::Ld {
            a: loaded_at as u16,
            r: read_first,
        },
        _ => Outcome::Ld {
            a: loaded_at as u16,
            r: below + loaded_at,
        },
    }
}

/// The trace that the seed draws. The error is that memory ran out.
pub fn drawn_trace(alloc: Global, drawn: Drawn, seed: u64) -> Result<Trace, ValueFault> {
    let mut lists = empty_lists(alloc, 3)?;
    let mut word = next_word(seed);
    for value in 1..8 {
        word = next_word(word);
        if let Some(list) = lists.get_mut((word >> 50) as usize % 3) {
            list.push(drawn_outcome(drawn, word, value))?;
        }
    }
    if !drawn.has_first {
        return Trace::with_order(alloc, drawn.order, lists).map_err(|refused| refused.why);
    }
    let first = vec![in alloc; (0, 8), (1, 9)]?;
    Trace::with_first(alloc, drawn.order, first, lists).map_err(|refused| refused.why)
}
