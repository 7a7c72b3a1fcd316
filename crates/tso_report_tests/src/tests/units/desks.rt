//! Desks driven by hand: what issues and drains answer, and how a desk is finished.

use super::runs::numbers_in;
use issue_desk::{Desk, Pass, RunFault};
use std::alloc::{AllocError, Global};
use std::sync::Arc;
use std::test::Fail;
use traces_for_tests::{expect_equal, program_of};
use tso_ops::{Op, Order, Outcome, Program, ValueFault};
use unit_core::{Account, Recorded};
use unit_kinds::StoreBufferUnit;
use units_for_tests::{
    CallCounts, CountingUnit, OTHER_ACCOUNT, RefusingUnit, are_passes_of, drops_of, is_record,
    new_counts,
};

/// The unit of a desk.
type DeskUnit = CountingUnit<RefusingUnit<StoreBufferUnit>>;

/// The desk of `STORES_THEN_LOADS`, and the pass of each processor.
#[derive(Drop)]
struct Driven {
    desk: Desk<DeskUnit>,
    passes: Vec<Pass>,
    counts: Arc<CallCounts, Global>,
}

/// What is done at a desk, and its answer.
#[derive(Clone, Copy)]
enum Done {
    /// The processor issues and is answered this.
    Issued(usize, Outcome),
    /// The processor issues, and nothing is left.
    NothingLeft(usize),
    /// The processor issues, and is refused.
    Refused(usize),
    /// Processor 0 drains; whether an entry was there.
    Drained(bool),
}

impl Driven {
    /// That of a unit that refuses the call of this number, none where it is 0.
    fn new(alloc: Global, refused: u64) -> Result<Driven, ValueFault> {
        let program = program_of(alloc, Order::Tso, &STORES_THEN_LOADS)?;
        let counts = new_counts(alloc)?;
        let unit = RefusingUnit::new(StoreBufferUnit::new(alloc, 8)?, refused);
        let unit = CountingUnit::new(unit, Arc::try_clone(&counts)?);
        let desk = Desk::new(alloc, program, unit)?;
        let passes = vec![in alloc; Pass::new(alloc, 0), Pass::new(alloc, 1)]?;
        Ok(Driven {
            desk,
            passes,
            counts,
        })
    }

    /// Issues for the pass of a processor: what it was answered. The outer None says that the call was refused, the inner one
    /// that nothing was left.
    fn issue(&mut self, p: usize) -> Option<Option<Outcome>> {
        let pass = self.passes.get_mut(p)?;
        match self.desk.issue(pass) {
            Ok(true) => Some(pass.outcomes().last().copied()),
            Ok(false) => Some(None),
            Err(AllocError) => None,
        }
    }

    /// Whether the desk answers so.
    fn answers(&mut self, done: Done) -> Result<bool, AllocError> {
        match done {
            Done::Issued(p, outcome) => Ok(self.issue(p) == Some(Some(outcome))),
            Done::NothingLeft(p) => Ok(self.issue(p) == Some(None)),
            Done::Refused(p) => Ok(self.issue(p).is_none()),
            Done::Drained(some) => Ok(self.desk.drain(0)? == some),
        }
    }

    /// The place of the first answer that is another.
    fn first_wrong(&mut self, done: &[Done]) -> Result<Option<usize>, AllocError> {
        for (place, one) in done.iter().enumerate() {
            if !self.answers(*one)? {
                return Ok(Some(place));
            }
        }
        Ok(None)
    }

    /// Finishes the desk with a program of these operations and as many passes.
    fn finish(self, alloc: Global, ops: &[&[Op]]) -> Result<Finished, ValueFault> {
        let Driven {
            desk,
            mut passes,
            counts,
        } = self;
        passes.truncate(ops.len());
        let program = program_of(alloc, Order::Tso, ops)?;
        let mut account = OTHER_ACCOUNT;
        let answer = finish_desk(alloc, desk, &program, &passes, &mut account);
        Ok(Finished {
            answer: answer_of(answer),
            account: numbers_in(&account),
            drops: drops_of(&counts),
        })
    }
}

/// How a desk was finished: whether the record was that of `FINISHED_ROWS`, or the fault; the numbers of the account, and whether it
/// is closed; and how many units were dropped.
#[derive(Clone, Copy)]
struct Finished {
    answer: Result<bool, RunFault>,
    account: ([usize; 5], bool),
    drops: u64,
}

/// Finishes a desk; NoThread, which no desk answers, where the passes aren't those of the program.
fn finish_desk(
    alloc: Global,
    desk: Desk<DeskUnit>,
    program: &Program,
    passes: &[Pass],
    account: &mut Account,
) -> Result<Recorded, RunFault> {
    if !are_passes_of(program, passes) {
        return Err(RunFault::NoThread);
    }
    desk.finish(alloc, program, passes, account)
}

/// Two processors that store and then load, each from the other's address.
pub(super) const STORES_THEN_LOADS: [&[Op]; 2] = [
    &[Op::St { a: 1, v: 1 }, Op::Ld { a: 2 }],
    &[Op::St { a: 2, v: 2 }, Op::Ld { a: 1 }],
];

const FIRST_ALONE: [&[Op]; 1] = [&[Op::St { a: 1, v: 1 }, Op::Ld { a: 2 }]];

/// What the processors of the desk have done and read once it is finished.
const FINISHED_ROWS: [&[Outcome]; 2] = [
    &[Outcome::St { a: 1, v: 1 }, Outcome::Ld { a: 2, r: 0 }],
    &[Outcome::St { a: 2, v: 2 }, Outcome::Ld { a: 1, r: 1 }],
];

/// A name, the call of the unit that is refused, none where it is 0, what is done, the operations that the desk is finished
/// with, its answer (whether the record is that of `FINISHED_ROWS`), and the loads, stores, swaps, membars and drains of
/// the account.
#[derive(Clone, Copy)]
struct Case {
    name: &'static str,
    refused: u64,
    done: &'static [Done],
    ops: &'static [&'static [Op]],
    answer: Result<bool, RunFault>,
    account: [usize; 5],
}

/// A refused issue leaves desk and pass as they were: the next one answers what it would have.
static CASES: [Case; 4] = [
    Case {
        name: "finished",
        refused: 0,
        done: &[
            Done::Issued(0, Outcome::St { a: 1, v: 1 }),
            Done::Issued(1, Outcome::St { a: 2, v: 2 }),
            Done::Issued(0, Outcome::Ld { a: 2, r: 0 }),
            Done::NothingLeft(0),
            Done::Drained(true),
            Done::Drained(false),
            Done::Issued(1, Outcome::Ld { a: 1, r: 1 }),
            Done::NothingLeft(1),
        ],
        ops: &STORES_THEN_LOADS,
        answer: Ok(true),
        account: [2, 2, 0, 0, 2],
    },
    Case {
        name: "torn",
        refused: 0,
        done: &[
            Done::Issued(0, Outcome::St { a: 1, v: 1 }),
            Done::Issued(1, Outcome::St { a: 2, v: 2 }),
            Done::Issued(0, Outcome::Ld { a: 2, r: 0 }),
            Done::NothingLeft(0),
            Done::Drained(true),
            Done::Drained(false),
        ],
        ops: &STORES_THEN_LOADS,
        answer: Err(RunFault::Torn { p: 1 }),
        account: [1, 2, 0, 0, 1],
    },
    Case {
        name: "another program",
        refused: 0,
        done: &[
            Done::Issued(0, Outcome::St { a: 1, v: 1 }),
            Done::Issued(0, Outcome::Ld { a: 2, r: 0 }),
        ],
        ops: &FIRST_ALONE,
        answer: Err(RunFault::OtherProgram),
        account: [1, 1, 0, 0, 0],
    },
    Case {
        name: "the third call refused",
        refused: 3,
        done: &[
            Done::Issued(0, Outcome::St { a: 1, v: 1 }),
            Done::Issued(1, Outcome::St { a: 2, v: 2 }),
            Done::Refused(0),
            Done::Issued(0, Outcome::Ld { a: 2, r: 0 }),
        ],
        ops: &STORES_THEN_LOADS,
        answer: Err(RunFault::Torn { p: 1 }),
        account: [1, 2, 0, 0, 0],
    },
];

/// What a desk answered.
fn answer_of(answer: Result<Recorded, RunFault>) -> Result<bool, RunFault> {
    match answer {
        Ok(recorded) => Ok(is_record(&recorded, true, &FINISHED_ROWS)),
        Err(fault) => Err(fault),
    }
}

/// Drives a desk and finishes it: the place of the first wrong answer, how many units were dropped before the end, and how it ended.
fn drive(alloc: Global, case: &Case) -> Result<(Option<usize>, u64, Finished), ValueFault> {
    let mut driven = Driven::new(alloc, case.refused)?;
    let wrong = driven.first_wrong(case.done)?;
    let drops = drops_of(&driven.counts);
    Ok((wrong, drops, driven.finish(alloc, case.ops)?))
}

/// The unit of a desk is dropped at its end, and not before.
fn expect_case(alloc: Global, case: &Case) -> Result<(), Fail> {
    let (wrong, drops, finished) = drive(alloc, case)?;
    expect_equal(case.name, (wrong, drops), (None, 0))?;
    expect_equal(
        case.name,
        (finished.answer, finished.account, finished.drops),
        (case.answer, (case.account, true), 1),
    )
}

#[test]
fn desks_driven_by_hand(rt: HostRuntime) -> Result<(), Fail> {
    for case in &CASES {
        expect_case(rt.alloc(), case)?;
    }
    Ok(())
}

const TEXTS: [(RunFault, &str); 4] = [
    (RunFault::OutOfMemory, "OutOfMemory"),
    (RunFault::NoThread, "NoThread"),
    (RunFault::Torn { p: 15 }, "Torn 15"),
    (RunFault::OtherProgram, "OtherProgram"),
];

#[test]
fn texts_of_run_faults(rt: HostRuntime) -> Result<(), Fail> {
    for (fault, text) in &TEXTS {
        let found = format!(in rt.alloc(); "{fault}")?;
        expect_equal(text, found.as_str(), *text)?;
    }
    Ok(())
}
