//! Faults: which one is reported of two, and their texts.

use super::expect;
use round_pool::{PoolFault, both_answers};
use std::alloc::Global;
use std::test::Fail;
use tso_ops::OutOfMemory;

fn answers(
    first: Result<u8, OutOfMemory>,
    second: Result<u8, PoolFault>,
) -> Result<(u8, u8), PoolFault> {
    both_answers(first, second)
}

/// Two answers, and the answer of both.
type Both = (
    Result<u8, OutOfMemory>,
    Result<u8, PoolFault>,
    Result<(u8, u8), PoolFault>,
);

const ANSWERS: [Both; 5] = [
    (Ok(1), Ok(2), Ok((1, 2))),
    (Ok(1), Err(PoolFault::NoThread), Err(PoolFault::NoThread)),
    (
        Ok(1),
        Err(PoolFault::OutOfMemory),
        Err(PoolFault::OutOfMemory),
    ),
    (
        Err(OutOfMemory),
        Err(PoolFault::NoThread),
        Err(PoolFault::OutOfMemory),
    ),
    (Err(OutOfMemory), Ok(2), Err(PoolFault::OutOfMemory)),
];

#[test]
fn the_fault_that_comes_first(rt: HostRuntime) {
    for (first, second, answer) in ANSWERS {
        expect(&rt, (first, second), answers(first, second), answer);
    }
}

fn text_of(alloc: Global, fault: PoolFault) -> Result<String, Fail> {
    Ok(format!(in alloc; "{fault}")?)
}

#[test]
fn texts_of_faults(rt: HostRuntime) -> Result<(), Fail> {
    for (fault, text) in [
        (PoolFault::OutOfMemory, "OutOfMemory"),
        (PoolFault::NoThread, "NoThread"),
    ] {
        let found = text_of(rt.alloc(), fault)?;
        expect(&rt, text, found.as_str(), text);
    }
    Ok(())
}
