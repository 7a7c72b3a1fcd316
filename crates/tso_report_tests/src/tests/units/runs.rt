//! Programs that are run on a unit, by a schedule or operation by operation: the record, the account, the calls of the unit and
//! its drop.

ghost use Rattle.std.specs.Prelude.{◌≡◌, [], IfOk};

mod on_counted_units;

use on_counted_units::COUNTED;
use std::alloc::Global;
use std::sync::Arc;
use std::test::Fail;
use traces_for_tests::{expect_equal, program_of};
use tso_ops::Act::{self, Drain, Issue};
use tso_ops::{Op, Order, OutOfMemory, Program, ValueFault};
use unit_core::{Account, MemoryUnit, Recorded, conclude, replay, replay_over};
use unit_kinds::{SerialUnit, StoreBufferUnit};
use units_for_tests::{
    Call, CallCounts, CallLog, CountingUnit, ForwardingUnit, OTHER_ACCOUNT, RefusingUnit,
    issue_program, new_counts, new_log, numbers_of,
};

/// How a program is run.
#[derive(Clone, Copy)]
pub(super) enum Way {
    /// By a schedule.
    By(&'static [Act]),
    /// Its operations are issued, processor by processor, and then the unit is ended.
    Concluded,
}

/// Runs a program on a unit that has taken no step.
pub(super) fn run_on(
    alloc: Global,
    way: Way,
    unit: Box<dyn MemoryUnit + Send>,
    program: &Program,
    account: &mut Account,
) -> Result<Recorded, OutOfMemory>
    requires { (value_of unit).steps ≡ [] }
{
    match way {
        Way::By(schedule) => replay(alloc, unit, program, schedule, account),
        Way::Concluded => {
            let mut unit = unit;
            issue_program(&mut unit, program)?;
            conclude(alloc, program, unit, account)
        }
    }
}

/// The numbers of an account, and whether it is closed.
pub(super) fn numbers_in(account: &Account) -> ([usize; 5], bool) {
    let numbers = [
        account.loads,
        account.stores,
        account.swaps,
        account.membars,
        account.drains,
    ];
    (numbers, account.closed)
}

/// Two processors that store, and load from the other's address; the first swaps too.
pub(super) const BUFFERING: [&[Op]; 2] = [
    &[
        Op::St { a: 1, v: 1 },
        Op::Mb,
        Op::Ld { a: 2 },
        Op::Sw { a: 3, v: 3 },
    ],
    &[Op::St { a: 2, v: 2 }, Op::Ld { a: 1 }],
];

const HANDED_IN: [&[Op]; 3] = [
    &[
        Op::St { a: 1, v: 1 },
        Op::Sb,
        Op::Ld { a: 2 },
        Op::Mb,
        Op::Sw { a: 3, v: 3 },
    ],
    &[
        Op::Ld { a: 1 },
        Op::Sb,
        Op::Sb,
        Op::St { a: 2, v: 2 },
        Op::Mb,
        Op::Mb,
    ],
    &[Op::St { a: 4, v: 4 }, Op::Ld { a: 1 }, Op::Ld { a: 3 }],
];

/// Two processors that store and then load, each from the other's address.
const STORES_THEN_LOADS: [&[Op]; 2] = [
    &[Op::St { a: 1, v: 1 }, Op::Ld { a: 2 }],
    &[Op::St { a: 2, v: 2 }, Op::Ld { a: 1 }],
];

/// By these acts `BUFFERING` calls the unit nine times: st 2 2, st 1 1, a drain, membar, ld 2, sw 3 3, ld 1 and two drains.
const FIRST_ACTS: Way = Way::By(&[Issue(1), Issue(0), Drain(0)]);

/// A run on a serial unit, or one with buffers, that counts its calls and refuses the one of this number, none where it is 0;
/// whether the record is lawful, if one is given, the numbers of the account, and those of loads, stores, swaps, membars, STBARs, drains and drops.
#[derive(Clone, Copy)]
struct Counted {
    name: &'static str,
    is_buffered: bool,
    way: Way,
    order: Order,
    ops: &'static [&'static [Op]],
    refused: u64,
    lawful: Option<bool>,
    account: [usize; 5],
    numbers: [u64; 7],
}

/// A serial unit, or one with buffers, in a box, that counts its calls in these counts and refuses the one of this number.
pub(super) fn counted_unit(
    alloc: Global,
    is_buffered: bool,
    refused: u64,
    counts: &Arc<CallCounts, Global>,
) -> Result<Box<dyn MemoryUnit + Send>, OutOfMemory>
    ensures { IfOk result (λ unit. (value_of unit).steps ≡ []) }
{
    let counts = Arc::try_clone(counts)?;
    if is_buffered {
        let unit = RefusingUnit::new(StoreBufferUnit::new(alloc, 8)?, refused);
        return Ok(Box::new(alloc, CountingUnit::new(unit, counts))?);
    }
    let unit = RefusingUnit::new(SerialUnit::new(alloc)?, refused);
    Ok(Box::new(alloc, CountingUnit::new(unit, counts))?)
}

/// Whether a record is lawful, if the answer is one.
fn lawful_of(answer: Result<Recorded, OutOfMemory>) -> Option<bool> {
    match answer {
        Ok(recorded) => Some(recorded.lawful()),
        Err(OutOfMemory) => None,
    }
}

/// What the run answers, its account, and the numbers of calls.
fn counted_run(
    alloc: Global,
    given: &Counted,
) -> Result<(Option<bool>, ([usize; 5], bool), [u64; 7]), ValueFault> {
    let program = program_of(alloc, given.order, given.ops)?;
    let counts = new_counts(alloc)?;
    let unit = counted_unit(alloc, given.is_buffered, given.refused, &counts)?;
    let mut account = OTHER_ACCOUNT;
    let answer = run_on(alloc, given.way, unit, &program, &mut account);
    Ok((lawful_of(answer), numbers_in(&account), numbers_of(&counts)))
}

#[test]
fn runs_on_counted_units(rt: HostRuntime) -> Result<(), Fail> {
    expect_equal(
        "a new account",
        numbers_in(&Account::new()),
        ([0; 5], false),
    )?;
    for run in &COUNTED {
        let found = counted_run(rt.alloc(), run)?;
        expect_equal(
            run.name,
            found,
            (run.lawful, (run.account, true), run.numbers),
        )?;
    }
    Ok(())
}

static SCHEDULED: [&[Op]; 2] = [
    &[Op::St { a: 1, v: 1 }, Op::Ld { a: 2 }, Op::Mb],
    &[
        Op::Sw { a: 3, v: 3 },
        Op::St { a: 2, v: 2 },
        Op::Ld { a: 1 },
    ],
];

/// Acts of missing processors call nothing.
static SCHEDULED_ACTS: [Act; 6] = [
    Issue(1),
    Drain(1),
    Issue(0),
    Drain(16),
    Issue(1),
    Issue(usize::MAX),
];

static SCHEDULED_CALLS: [Call; 9] = [
    Call::Swap,
    Call::Drain,
    Call::Store,
    Call::Store,
    Call::Load,
    Call::Membar,
    Call::Load,
    Call::Drain,
    Call::Drain,
];

/// Whether the program, replayed on a serial unit in no box whose calls are noted in this list, gives a lawful record.
fn is_replayed(
    alloc: Global,
    program: &Program,
    schedule: &[Act],
    log: &Arc<CallLog, Global>,
) -> Result<bool, OutOfMemory> {
    let unit = ForwardingUnit::new(SerialUnit::new(alloc)?, Arc::try_clone(log)?);
    let mut account = OTHER_ACCOUNT;
    Ok(replay_over(alloc, unit, program, schedule, &mut account)?.lawful())
}

#[test]
fn calls_go_by_the_schedule(rt: HostRuntime) -> Result<(), Fail> {
    let program = program_of(rt.alloc(), Order::Tso, &SCHEDULED)?;
    let log = new_log(rt.alloc(), 12)?;
    let is_lawful = is_replayed(rt.alloc(), &program, &SCHEDULED_ACTS, &log)?;
    expect_equal("lawful", is_lawful, true)?;
    expect_equal(
        "calls",
        log.calls(rt.alloc())?.as_slice(),
        SCHEDULED_CALLS.as_slice(),
    )
}
