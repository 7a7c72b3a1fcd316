//! What campaigns write, and which calls their units get.

use super::THREE_SEEDS;
use super::running::{Campaign, Kind, Way, run_campaign};
use drawn_programs::Shape;
use request_options::{CampaignPrinting, Execution, FaultKind};
use std::alloc::{AllocGlobal, Global};
use std::process::Abort;
use std::sync::Wait;
use std::test::Fail;
use std::thread::Threads;
use tso_ops::Order;
use tso_report::{Fault, Verdict, seeded_program};
use unit_core::{Account, replay_over};
use unit_kinds::SerialUnit;

const THREE_VIOLATIONS: &str =
    "seed 1 VIOLATION\nseed 2 VIOLATION\nseed 3 VIOLATION\nseeds 3 violations 3\n";

/// What is written where the first of three units alone invents its answers.
const FIRST_VIOLATION: &str =
    "seed 1 VIOLATION\nseed 2 NO VIOLATION FOUND\nseed 3 NO VIOLATION FOUND\nseeds 3 violations 1\n";

/// The traces of the seeds 1, 2 and 3 of one processor with three operations, whose programs are `st 0 1`, `st 1 2`, `ld 0`;
/// `sw 0 1`, `ld 0`, `ld 0`; and `sw 0 1`, `ld 1`, `sw 1 2`.
const THREE_TRACES: &str =
    "tso trace 1\nproc\nst 0 1\nst 1 2\nld 0 1\nend\ntso trace 1\nproc\nsw 0 0 1\nld 0 1\nld 0 1\nend\ntso trace 1\nproc\nsw 0 0 1\nld 1 0\nsw 1 0 2\nend\n";

const SERIAL: [Kind; 3] = [Kind::Serial, Kind::Serial, Kind::Serial];

/// Units that aren't lawful, but to whose deviations no run comes.
const UNLAWFUL: [Kind; 3] = [
    Kind::Faulty(FaultKind::LostDrain, u64::MAX),
    Kind::Faulty(FaultKind::NoForward, u64::MAX),
    Kind::Faulty(FaultKind::StaleLoad, u64::MAX),
];

const LOST_DRAINS: [Kind; 3] = [
    Kind::Faulty(FaultKind::LostDrain, 1),
    Kind::Faulty(FaultKind::LostDrain, 1),
    Kind::Faulty(FaultKind::LostDrain, 1),
];

const STALE_LOADS: [Kind; 3] = [
    Kind::Faulty(FaultKind::StaleLoad, 1),
    Kind::Faulty(FaultKind::StaleLoad, 1),
    Kind::Faulty(FaultKind::StaleLoad, 1),
];

const BUFFERS: [Kind; 3] = [Kind::Buffer(1), Kind::Buffer(2), Kind::Buffer(8)];

const INVENTING: [Kind; 3] = [Kind::Inventing, Kind::Inventing, Kind::Inventing];

const ONE_INVENTING: [Kind; 3] = [Kind::Inventing, Kind::Serial, Kind::Serial];

const ONE_REFUSING: [Kind; 3] = [Kind::Refusing(7), Kind::Serial, Kind::Serial];

/// Shapes of programs: processors, operations of each, and addresses.
const TWENTY: (u64, u64, u64) = (2, 20, 4);

const TWO_HUNDRED: (u64, u64, u64) = (1, 200, 4);

const EIGHTY: (u64, u64, u64) = (4, 20, 4);

const THREE: (u64, u64, u64) = (1, 3, 2);

const ONE: (u64, u64, u64) = (1, 1, 1);

/// A thread for each processor runs each program under TSO.
const RUN: Way = Way {
    order: Order::Tso,
    execution: Execution::Threads { drain_turns: 0 },
    printing: CampaignPrinting::Lines,
    is_heard: true,
};

const UNDER_PSO: Way = Way {
    order: Order::Pso,
    execution: Execution::Threads { drain_turns: 0 },
    printing: CampaignPrinting::Lines,
    is_heard: true,
};

/// No meter hears of the seeds.
const UNHEARD: Way = Way {
    order: Order::Tso,
    execution: Execution::Threads { drain_turns: 0 },
    printing: CampaignPrinting::Lines,
    is_heard: false,
};

const TRACES: Way = Way {
    order: Order::Tso,
    execution: Execution::Threads { drain_turns: 3 },
    printing: CampaignPrinting::Traces,
    is_heard: true,
};

const REPLAY: Way = Way {
    order: Order::Tso,
    execution: Execution::Replay,
    printing: CampaignPrinting::Lines,
    is_heard: true,
};

const REPLAYED_TRACES: Way = Way {
    order: Order::Tso,
    execution: Execution::Replay,
    printing: CampaignPrinting::Traces,
    is_heard: true,
};

/// A campaign, the numbers of workers, the unit whose calls are counted, or all, the seeds whose programs these calls are, the
/// answer and the text.
type Case = (
    Campaign,
    &'static [usize],
    Option<usize>,
    Option<&'static [u64]>,
    Result<Verdict, Fault>,
    &'static str,
);

const CASES: [Case; 16] = [
    (
        (SERIAL, TWENTY, RUN),
        &[1, 2, 64],
        None,
        Some(&[1, 2, 3]),
        Ok(Verdict::NoViolation),
        THREE_SEEDS,
    ),
    // a unit that isn't lawful is run all the same: its record is judged by what it answered
    (
        (UNLAWFUL, TWENTY, RUN),
        &[1, 2, 64],
        None,
        Some(&[1, 2, 3]),
        Ok(Verdict::NoViolation),
        THREE_SEEDS,
    ),
    // each unit serves the seed of its place: the violation is that of the unit that invents its answers
    (
        (ONE_INVENTING, TWO_HUNDRED, RUN),
        &[1, 2, 3],
        Some(0),
        Some(&[1]),
        Ok(Verdict::Violation),
        FIRST_VIOLATION,
    ),
    (
        (ONE_INVENTING, TWO_HUNDRED, RUN),
        &[1, 2, 3],
        Some(1),
        Some(&[2]),
        Ok(Verdict::Violation),
        FIRST_VIOLATION,
    ),
    (
        (ONE_INVENTING, TWO_HUNDRED, RUN),
        &[1, 2, 3],
        Some(2),
        Some(&[3]),
        Ok(Verdict::Violation),
        FIRST_VIOLATION,
    ),
    (
        (INVENTING, TWO_HUNDRED, RUN),
        &[2],
        None,
        None,
        Ok(Verdict::Violation),
        THREE_VIOLATIONS,
    ),
    (
        (INVENTING, TWO_HUNDRED, UNDER_PSO),
        &[2],
        None,
        None,
        Ok(Verdict::Violation),
        THREE_VIOLATIONS,
    ),
    // a worker goes on after the seed that fails; nothing is written, and each unit is dropped
    (
        (ONE_REFUSING, (1, 20, 4), RUN),
        &[1, 2],
        Some(0),
        None,
        Err(Fault::OutOfMemory),
        "",
    ),
    (
        (ONE_REFUSING, (1, 20, 4), RUN),
        &[1, 2],
        Some(1),
        Some(&[2]),
        Err(Fault::OutOfMemory),
        "",
    ),
    (
        (ONE_REFUSING, (1, 20, 4), RUN),
        &[1, 2],
        Some(2),
        Some(&[3]),
        Err(Fault::OutOfMemory),
        "",
    ),
    // a unit with store buffers is lawful for programs under PSO too: each run of the machine of TSO is one of that of PSO
    (
        (BUFFERS, (3, 20, 4), UNDER_PSO),
        &[2],
        None,
        None,
        Ok(Verdict::NoViolation),
        THREE_SEEDS,
    ),
    // each seed's replay shows that drains were lost, and that loads missed stores of their own processor; the text is the same each time
    (
        (LOST_DRAINS, EIGHTY, REPLAY),
        &[1, 2, 64, 1],
        None,
        None,
        Ok(Verdict::Violation),
        THREE_VIOLATIONS,
    ),
    (
        (STALE_LOADS, EIGHTY, REPLAY),
        &[1, 2, 64, 1],
        None,
        None,
        Ok(Verdict::Violation),
        THREE_VIOLATIONS,
    ),
    (
        (BUFFERS, EIGHTY, REPLAY),
        &[1, 2, 64, 1],
        None,
        None,
        Ok(Verdict::NoViolation),
        THREE_SEEDS,
    ),
    // the traces stand in the order of the seeds, of runs and of replays
    (
        (BUFFERS, THREE, REPLAYED_TRACES),
        &[1, 2, 64, 1],
        None,
        None,
        Ok(Verdict::NoViolation),
        THREE_TRACES,
    ),
    (
        (BUFFERS, THREE, TRACES),
        &[1, 2, 64, 1],
        None,
        None,
        Ok(Verdict::NoViolation),
        THREE_TRACES,
    ),
];

/// The loads, stores, swaps and barriers of the programs of these seeds under TSO.
fn calls_of(
    alloc: Global,
    seeds: &[u64],
    (processors, operations, addresses): (u64, u64, u64),
) -> Result<[u64; 4], Fail> {
    let shape = Shape::new(processors, operations, addresses).ok_or("a shape")?;
    let mut calls = [0u64; 4];
    for seed in seeds {
        let program = seeded_program(alloc, *seed, shape)?;
        let mut account = Account::new();
        replay_over(alloc, SerialUnit::new(alloc)?, &program, &[], &mut account)?;
        calls = [
            calls[0].saturating_add(account.loads as u64),
            calls[1].saturating_add(account.stores as u64),
            calls[2].saturating_add(account.swaps as u64),
            calls[3].saturating_add(account.membars as u64),
        ];
    }
    Ok(calls)
}

/// Compares what a case comes to on so many workers.
fn expect_case<H: Threads + Wait + Sync + AllocGlobal + Abort>(
    rt: &H,
    alloc: Global,
    case: Case,
    workers: usize,
) -> Result<(), Fail> {
    let (campaign, _, counted, seeds, answer, text) = case;
    let ran = run_campaign(rt, alloc, campaign, counted, workers, usize::MAX)?;
    assert!(rt; ran.answer == answer, "{workers}");
    assert!(rt; ran.written.as_slice() == text.as_bytes(), "{workers}");
    // the meter hears of each seed where all have results, and each unit is dropped
    assert!(rt; ran.heard == 3 || answer.is_err(), "{workers}");
    assert!(rt; ran.calls[6] == counted.map_or(3, |_| 1), "{workers}");
    if let Some(seeds) = seeds {
        let calls = calls_of(alloc, seeds, campaign.1)?;
        assert!(rt; &ran.calls[..4] == calls.as_slice(), "{workers}");
    }
    Ok(())
}

/// Compares what a case comes to on each of its numbers of workers.
fn expect_each<H: Threads + Wait + Sync + AllocGlobal + Abort>(
    rt: &H,
    alloc: Global,
    case: Case,
) -> Result<(), Fail> {
    for workers in case.1 {
        expect_case(rt, alloc, case, *workers)?;
    }
    Ok(())
}

#[test]
fn campaigns(rt: HostRuntime) -> Result<(), Fail> {
    for case in CASES {
        expect_each(&rt, rt.alloc(), case)?;
    }
    Ok(())
}

/// Two workers have the first calls of two units come at once.
#[test]
fn campaigns_overlap(rt: HostRuntime) -> Result<(), Fail> {
    let kinds = [Kind::Meeting, Kind::Meeting, Kind::Serial];
    let campaign = (kinds, ONE, RUN);
    let ran = run_campaign(&rt, rt.alloc(), campaign, None, 2, usize::MAX)?;
    assert!(rt; ran.answer == Ok(Verdict::NoViolation) && ran.met);
    assert!(rt; ran.written.as_slice() == THREE_SEEDS.as_bytes());
    Ok(())
}

/// A writer with room for each number of bytes of the text has its first bytes.
#[test]
fn campaigns_that_cannot_be_written(rt: HostRuntime) -> Result<(), Fail> {
    for room in 0..THREE_SEEDS.len().saturating_add(1) {
        let ran = run_campaign(&rt, rt.alloc(), (SERIAL, ONE, UNHEARD), None, 1, room)?;
        let answer = if room < THREE_SEEDS.len() {
            Err(Fault::Write)
        } else {
            Ok(Verdict::NoViolation)
        };
        assert!(rt; ran.answer == answer, "{room}");
        let text = THREE_SEEDS.get(..room).unwrap_or("no text");
        assert!(rt; ran.written.as_slice() == text.as_bytes(), "{room}");
    }
    Ok(())
}

/// Beside drainers of how many turns the programs run, and the least and the most drains that their units then get: the thread of a
/// processor drains at most twice after each operation; the drainer of each run takes all its turns.
const DRAINS: [(u64, u64, u64); 2] = [(0, 0, 99), (100, 300, 399)];

#[test]
fn campaigns_beside_a_drainer(rt: HostRuntime) -> Result<(), Fail> {
    for (drain_turns, least, most) in DRAINS {
        let mut way = TRACES;
        way.execution = Execution::Threads { drain_turns };
        let campaign = (SERIAL, THREE, way);
        let ran = run_campaign(&rt, rt.alloc(), campaign, None, 2, usize::MAX)?;
        assert!(rt; ran.answer == Ok(Verdict::NoViolation), "{drain_turns}");
        assert!(rt;
            ran.written.as_slice() == THREE_TRACES.as_bytes(),
            "{drain_turns}"
        );
        assert!(rt;
            least <= ran.calls[5] && ran.calls[5] <= most,
            "{drain_turns}"
        );
    }
    Ok(())
}
