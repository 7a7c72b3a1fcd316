//! Programs that are run by a thread per processor, with a drainer and without: the record, the account, the calls of the unit
//! and its drop.
ghost use Rattle.std.specs.Prelude.{◌≡◌, ◌≤◌, []};

mod large;

use super::desks::STORES_THEN_LOADS;
use super::gates::MeetingGate;
use super::runs::{counted_unit, numbers_in};
use issue_desk::{
    Gate, Issuers, OpenGate, RunFault, RunThreads, run, run_over, run_with_drainer,
    run_with_drainer_over,
};
use large::is_whole;
use std::alloc::Global;
use std::sync::{Arc, Wait};
use std::test::Fail;
use std::thread::Threads;
use traces_for_tests::{expect_equal, program_of};
use tso_ops::{Op, Order, OutOfMemory, Outcome, Program, ValueFault};
use unit_core::{Account, MemoryUnit, Recorded};
use unit_kinds::StoreBufferUnit;
use units_for_tests::{
    AfterDrain, CallCounts, ForwardingUnit, INVENTED, InventingUnit, OTHER_ACCOUNT, is_record,
    new_counts, new_log, numbers_of,
};

/// Issuers that pass this gate, and a drainer with so many turns, none where they are 0.
pub(super) fn threads_at<G>(gate: &G, drain_seed: u64, turns: u64) -> RunThreads<'_, G>
    ensures { result.turns ≤ turns }
{
    let issuers = Issuers { gate, drain_seed };
    RunThreads { issuers, turns }
}

/// What record a run is to give.
#[derive(Clone, Copy)]
pub(super) enum Wanted<'a> {
    /// A lawful one.
    Lawful,
    /// A lawful one of these processors.
    Rows(&'a [&'a [Outcome]]),
    /// A lawful one with all operations of this program, and no others.
    All(&'a Program),
}

impl Wanted<'_> {
    fn is_met(self, recorded: &Recorded) -> bool {
        match self {
            Wanted::Lawful => recorded.lawful(),
            Wanted::Rows(rows) => is_record(recorded, true, rows),
            Wanted::All(program) => is_whole(recorded, program),
        }
    }
}

/// How a run on a unit that counts its calls ended: whether the record was the wanted one, or the fault; the numbers of the account,
/// and whether it is closed; and the numbers of calls.
#[derive(Clone, Copy)]
pub(super) struct Ended {
    pub(super) answer: Result<bool, RunFault>,
    pub(super) account: ([usize; 5], bool),
    numbers: [u64; 7],
}

impl Ended {
    /// How many units were dropped.
    fn drops(self) -> u64 {
        let [_, _, _, _, _, _, drops] = self.numbers;
        drops
    }
}

/// A program, the call of the unit that is refused, none where it is 0, and the wanted record.
#[derive(Clone, Copy)]
pub(super) struct Given<'a> {
    pub(super) program: &'a Program,
    pub(super) refused: u64,
    pub(super) wanted: Wanted<'a>,
}

/// Whether the answer is the wanted record, or the fault.
fn is_wanted(answer: Result<Recorded, RunFault>, wanted: Wanted<'_>) -> Result<bool, RunFault> {
    match answer {
        Ok(recorded) => Ok(wanted.is_met(&recorded)),
        Err(fault) => Err(fault),
    }
}

/// Runs a program by these threads on a store-buffer unit, in a box, that counts its calls in these counts.
fn run_counted<H: Threads + Wait + Sync, G: Gate + Sync>(
    rt: &H,
    alloc: Global,
    given: Given<'_>,
    threads: RunThreads<'_, G>,
    counts: &Arc<CallCounts, Global>,
) -> Result<Ended, OutOfMemory>
    requires { threads.turns ≤ 1000000 }
{
    let unit = counted_unit(alloc, true, given.refused, counts)?;
    let mut account = OTHER_ACCOUNT;
    let answer = if threads.turns == 0 {
        let Given { program, .. } = given;
        run(rt, alloc, program, unit, threads.issuers, &mut account)
    } else {
        run_with_drainer(rt, alloc, given.program, unit, threads, &mut account)
    };
    Ok(Ended {
        answer: is_wanted(answer, given.wanted),
        account: numbers_in(&account),
        numbers: numbers_of(counts),
    })
}

/// The run of these operations of which no call is refused.
pub(super) fn run_past<H: Threads + Wait + Sync, G: Gate + Sync>(
    rt: &H,
    alloc: Global,
    ops: &[&[Op]],
    threads: RunThreads<'_, G>,
    counts: &Arc<CallCounts, Global>,
) -> Result<Ended, ValueFault>
    requires { threads.turns ≤ 1000000 }
{
    let program = program_of(alloc, Order::Tso, ops)?;
    let given = Given {
        program: &program,
        refused: 0,
        wanted: Wanted::Lawful,
    };
    Ok(run_counted(rt, alloc, given, threads, counts)?)
}

/// A run by issuers that no gate holds back, and a drainer with so many turns: the call that is refused, and the wanted record.
#[derive(Clone, Copy)]
struct Free<'a> {
    drain_seed: u64,
    turns: u16,
    refused: u64,
    wanted: Wanted<'a>,
}

/// The run of these operations.
fn run_freely<H: Threads + Wait + Sync>(
    rt: &H,
    alloc: Global,
    ops: &[&[Op]],
    free: Free<'_>,
) -> Result<Ended, ValueFault> {
    let program = program_of(alloc, Order::Tso, ops)?;
    run_program(rt, alloc, &program, free)
}

/// The run of this program.
fn run_program<H: Threads + Wait + Sync>(
    rt: &H,
    alloc: Global,
    program: &Program,
    free: Free<'_>,
) -> Result<Ended, ValueFault> {
    let given = Given {
        program,
        refused: free.refused,
        wanted: free.wanted,
    };
    let threads = threads_at(&OpenGate, free.drain_seed, u64::from(free.turns));
    Ok(run_counted(rt, alloc, given, threads, &new_counts(alloc)?)?)
}

/// The run of `STORES_THEN_LOADS` past this gate gives a lawful record, closes the account and drops the unit.
fn expect_stores<H: Threads + Wait + Sync, G: Gate + Sync>(
    rt: &H,
    alloc: Global,
    gate: &G,
    turns: u16,
    counts: &Arc<CallCounts, Global>,
) -> Result<(), Fail> {
    let threads = threads_at(gate, 1, u64::from(turns));
    let ended = run_past(rt, alloc, &STORES_THEN_LOADS, threads, counts)?;
    let found = (ended.answer, ended.account, ended.drops());
    expect_equal(turns, found, (Ok(true), ([2, 2, 0, 0, 2], true), 1))
}

#[test]
fn issuers_meet(rt: HostRuntime) -> Result<(), Fail> {
    for turns in [0, 1_000] {
        let gate = MeetingGate::new(rt.alloc(), 2, 0)?;
        expect_stores(&rt, rt.alloc(), &gate, turns, &new_counts(rt.alloc())?)?;
        expect_equal(turns, gate.have_met(), true)?;
    }
    Ok(())
}

#[test]
fn issuers_wait_for_the_drainer(rt: HostRuntime) -> Result<(), Fail> {
    let counts = new_counts(rt.alloc())?;
    let gate = AfterDrain::new(Arc::try_clone(&counts)?);
    expect_stores(&rt, rt.alloc(), &gate, 1_000, &counts)?;
    expect_equal("waited", gate.has_waited(), true)
}

/// Turns that take longer than an issuer needs to get the lock.
const MANY_TURNS: u64 = 100_000;

/// Whether a load came after a drain of the drainer and before its last one.
fn is_between_turns<H: Threads + Wait + Sync>(rt: &H, alloc: Global) -> Result<bool, ValueFault> {
    let counts = new_counts(alloc)?;
    let gate = AfterDrain::new(Arc::try_clone(&counts)?);
    let threads = threads_at(&gate, 1, MANY_TURNS);
    let ended = run_past(rt, alloc, &[&[Op::Ld { a: 1 }]], threads, &counts)?;
    let is_before_last = gate.drains() < MANY_TURNS;
    Ok(ended.answer.is_ok() && gate.has_waited() && is_before_last)
}

/// Whether the load came between two turns in one of 100 runs.
fn is_seen_between_turns<H: Threads + Wait + Sync>(
    rt: &H,
    alloc: Global,
) -> Result<bool, ValueFault> {
    for _ in 0..100 {
        if is_between_turns(rt, alloc)? {
            return Ok(true);
        }
    }
    Ok(false)
}

#[test]
fn operation_comes_between_two_turns(rt: HostRuntime) -> Result<(), Fail> {
    expect_equal("seen", is_seen_between_turns(&rt, rt.alloc())?, true)
}

/// A processor that loads what it stored.
const FORWARDED: [&[Op]; 1] = [&[Op::St { a: 1, v: 1 }, Op::Ld { a: 1 }]];

const FORWARDED_ROWS: [&[Outcome]; 1] = [&[Outcome::St { a: 1, v: 1 }, Outcome::Ld { a: 1, r: 1 }]];

const INVENTED_ROWS: [&[Outcome]; 1] = [&[
    Outcome::St { a: 1, v: 1 },
    Outcome::Ld { a: 1, r: INVENTED },
]];

/// A run by issuers with this drain seed, of which no call is refused.
fn issuers_alone(drain_seed: u64, wanted: Wanted<'_>) -> Free<'_> {
    Free {
        drain_seed,
        turns: 0,
        refused: 0,
        wanted,
    }
}

#[test]
fn run_forwarded(rt: HostRuntime) -> Result<(), Fail> {
    for seed in [0, 1, 2, 3, u64::MAX] {
        let ended = run_freely(
            &rt,
            rt.alloc(),
            &FORWARDED,
            issuers_alone(seed, Wanted::Rows(&FORWARDED_ROWS)),
        )?;
        let [loads, stores, _, _, _, _, drops] = ended.numbers;
        let found = (ended.answer, ended.account, [loads, stores, drops]);
        expect_equal(seed, found, (Ok(true), ([1, 1, 0, 0, 1], true), [1; 3]))?;
    }
    Ok(())
}

#[test]
fn program_without_processors_is_run(rt: HostRuntime) -> Result<(), Fail> {
    let ended = run_freely(&rt, rt.alloc(), &[], issuers_alone(1, Wanted::Rows(&[])))?;
    let numbers = ended.numbers;
    let found = (ended.answer, ended.account, numbers);
    expect_equal(
        "run",
        found,
        (Ok(true), ([0; 5], true), [0, 0, 0, 0, 0, 0, 1]),
    )
}

/// Whether the run of `FORWARDED` on this unit, which is in no box, gives a record of these processors, lawful or not, as is
/// said, and closes the account.
fn is_forwarded<H: Threads + Wait + Sync, U: MemoryUnit + Send>(
    rt: &H,
    alloc: Global,
    unit: U,
    lawful: bool,
    rows: &[&[Outcome]],
) -> Result<bool, ValueFault>
    requires { (U.value_of unit).steps ≡ [] }
{
    let program = program_of(alloc, Order::Tso, &FORWARDED)?;
    let RunThreads { issuers, .. } = threads_at(&OpenGate, 7, 0);
    let mut account = OTHER_ACCOUNT;
    let is_record = match run_over(rt, alloc, &program, unit, issuers, &mut account) {
        Ok(recorded) => is_record(&recorded, lawful, rows),
        Err(_) => false,
    };
    Ok(is_record && numbers_in(&account) == ([1, 1, 0, 0, 1], true))
}

#[test]
fn units_in_no_box(rt: HostRuntime) -> Result<(), Fail> {
    let unit = StoreBufferUnit::new(rt.alloc(), 8)?;
    let is_so = is_forwarded(&rt, rt.alloc(), unit, true, &FORWARDED_ROWS)?;
    expect_equal("a store buffer", is_so, true)?;
    let unit = InventingUnit::new(rt.alloc())?;
    let is_so = is_forwarded(&rt, rt.alloc(), unit, false, &INVENTED_ROWS)?;
    expect_equal("an inventing unit", is_so, true)
}

/// A processor with an operation of each kind.
const EACH_KIND: [&[Op]; 1] = [&[
    Op::St { a: 1, v: 1 },
    Op::Mb,
    Op::Ld { a: 2 },
    Op::Sw { a: 3, v: 3 },
    Op::St { a: 2, v: 2 },
]];

/// How many calls these were, without drops.
fn calls_of(numbers: [u64; 7]) -> u64 {
    let [loads, stores, swaps, membars, stbars, drains, _] = numbers;
    [stores, swaps, membars, stbars, drains]
        .into_iter()
        .fold(loads, |sum, calls| sum.wrapping_add(calls))
}

/// The run whose call of this number is refused answers OutOfMemory, closes the account and drops the unit.
fn expect_refused<H: Threads + Wait + Sync>(
    rt: &H,
    alloc: Global,
    ops: &[&[Op]],
    refused: u64,
    turns: u16,
) -> Result<(), Fail> {
    let free = Free {
        drain_seed: 5,
        turns,
        refused,
        wanted: Wanted::Lawful,
    };
    let ended = run_freely(rt, alloc, ops, free)?;
    let (_, is_closed) = ended.account;
    expect_equal(
        (refused, turns),
        (ended.answer, is_closed, ended.drops()),
        (Err(RunFault::OutOfMemory), true, 1),
    )
}

#[test]
fn refused_calls_end_the_run(rt: HostRuntime) -> Result<(), Fail> {
    let mut free = issuers_alone(5, Wanted::Lawful);
    let ended = run_freely(&rt, rt.alloc(), &EACH_KIND, free)?;
    let calls = calls_of(ended.numbers);
    expect_equal(calls, (ended.answer, calls > 5), (Ok(true), true))?;
    for refused in 1..=calls {
        expect_refused(&rt, rt.alloc(), &EACH_KIND, refused, 0)?;
    }
    free.refused = calls.wrapping_add(1);
    let past = run_freely(&rt, rt.alloc(), &EACH_KIND, free)?;
    expect_equal("past the last", past.answer, Ok(true))
}

/// Three processors without operations.
const NO_OPERATIONS: [&[Op]; 3] = [&[]; 3];

/// Whichever thread makes it, each of the first four calls comes: the programs have four operations, or the drainer ten turns.
const REFUSED: [(&[&[Op]], u16); 3] = [
    (&STORES_THEN_LOADS, 0),
    (&STORES_THEN_LOADS, 10),
    (&NO_OPERATIONS, 10),
];

#[test]
fn refused_calls_end_the_run_of_several_threads(rt: HostRuntime) -> Result<(), Fail> {
    for (ops, turns) in REFUSED {
        for refused in 1..=4u64 {
            expect_refused(&rt, rt.alloc(), ops, refused, turns)?;
        }
    }
    Ok(())
}

/// The processors of the calls of a unit on which these operations are run with so many turns, in order.
fn processors_called<H: Threads + Wait + Sync>(
    rt: &H,
    alloc: Global,
    ops: &[&[Op]],
    turns: u16,
) -> Result<Vec<usize>, Fail> {
    let program = program_of(alloc, Order::Tso, ops)?;
    let log = new_log(alloc, 64)?;
    let unit = ForwardingUnit::new(StoreBufferUnit::new(alloc, 8)?, Arc::try_clone(&log)?);
    let threads = threads_at(&OpenGate, 1, u64::from(turns));
    let mut account = OTHER_ACCOUNT;
    let answer = run_with_drainer_over(rt, alloc, &program, unit, threads, &mut account);
    expect_equal(turns, answer.is_ok(), true)?;
    Ok(log.processors(alloc)?)
}

/// Turns, a program without operations, and the processors that are drained: those of the turns, and in the end each once.
const DRAINED: [(u16, &[&[Op]], &[usize]); 5] = [
    (10, &NO_OPERATIONS, &[0, 1, 2, 0, 1, 2, 0, 1, 2, 0, 0, 1, 2]),
    (2, &NO_OPERATIONS, &[0, 1, 0, 1, 2]),
    (3, &[&[]], &[0, 0, 0, 0]),
    (0, &NO_OPERATIONS, &[0, 1, 2]),
    (10, &[], &[]),
];

#[test]
fn turns_drain_the_processors_in_order(rt: HostRuntime) -> Result<(), Fail> {
    for (turns, ops, expected) in DRAINED {
        let found = processors_called(&rt, rt.alloc(), ops, turns)?;
        expect_equal(turns, found.as_slice(), expected)?;
    }
    Ok(())
}

/// Runs `STORES_THEN_LOADS`, once more where it gave no record; the unit is then dropped, and the account closed.
fn run_again<H: Threads + Wait + Sync>(rt: &H, alloc: Global) -> Result<Ended, Fail> {
    let free = issuers_alone(3, Wanted::Lawful);
    if let Ok(ended) = run_freely(rt, alloc, &STORES_THEN_LOADS, free) {
        if ended.answer.is_ok() {
            return Ok(ended);
        }
        let (_, is_closed) = ended.account;
        expect_equal("a refused run", (is_closed, ended.drops()), (true, 1))?;
    }
    Ok(run_freely(rt, alloc, &STORES_THEN_LOADS, free)?)
}

/// `rt try --test --fail-alloc N` refuses the Nth allocation.
#[test]
fn refused_allocations_close_the_account_of_a_run(rt: HostRuntime) -> Result<(), Fail> {
    let ended = run_again(&rt, rt.alloc())?;
    let found = (ended.answer, ended.account);
    expect_equal("run", found, (Ok(true), ([2, 2, 0, 0, 2], true)))
}
