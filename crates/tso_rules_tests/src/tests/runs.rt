//! Small runs of `run_steps`, and which of their lines are refused.

use run_steps::{Machine, Place, RunLine, RunRefusal, RunStep};
use std::alloc::Global;
use std::test::Fail;
use traces_for_tests::expect_equal;
use tso_ops::{Order, OutOfMemory};

/// A line of a run: a processor, what it did, and its numbers: the address, the width, what was read and what was stored.
type Line = (usize, &'static str, u64, u64, u64, u64);

/// A refused line, why, and the two numbers that say more: the value there and how many origins it has, or the lines that are named.
type Refused = (u64, &'static str, u64, u64);

/// A run: its memory model, its first value at a place, its lines, and which of these are refused.
struct Run {
    order: Order,
    first: (u64, u64, u64),
    lines: &'static [Line],
    refused: &'static [Refused],
}

static RUNS: [Run; 9] = [
    Run {
        order: Order::Tso,
        first: (4096, 0, 0),
        lines: &[
            (0, "st", 4096, 0, 0, 1),
            (0, "ld", 4096, 0, 1, 0),
            (1, "ld", 4096, 0, 0, 0),
            (1, "st", 8192, 0, 0, 1),
            (0, "ld", 8192, 0, 0, 0),
            (0, "dr", 0, 0, 0, 0),
            (1, "dr at", 8192, 0, 0, 1),
            (0, "mb", 0, 0, 0, 0),
            (1, "ld", 4096, 0, 1, 0),
            (0, "sw", 8192, 0, 1, 0),
        ],
        refused: &[],
    },
    Run {
        order: Order::Tso,
        first: (4096, 0, 5),
        lines: &[
            (0, "ld", 4096, 0, 5, 0),
            (1, "st", 4096, 0, 0, 7),
            (1, "dr", 0, 0, 0, 0),
            (0, "ld", 4096, 0, 5, 0),
            (0, "ld", 4096, 0, 7, 0),
        ],
        refused: &[(4, "Value", 7, 1)],
    },
    Run {
        order: Order::Tso,
        first: (9, 0, 0),
        lines: &[
            (0, "st", 1, 0, 0, 1),
            (0, "st", 2, 0, 0, 1),
            (0, "mb", 0, 0, 0, 0),
            (0, "ld", 3, 0, 0, 0),
            (0, "dr any", 1, 0, 0, 0),
            (1, "sw", 1, 0, 0, 2),
        ],
        refused: &[
            (3, "Waiting", 1, 0),
            (5, "NothingWaits", 0, 0),
            (6, "Value", 1, 1),
        ],
    },
    Run {
        order: Order::Tso,
        first: (9, 0, 0),
        lines: &[
            (0, "st", 1, 0, 0, 1),
            (0, "st", 2, 0, 0, 1),
            (0, "dr any", 2, 0, 0, 0),
            (1, "ld", 2, 0, 1, 0),
            (0, "dr at", 1, 0, 0, 9),
        ],
        refused: &[(3, "Order", 2, 1), (5, "Value", 1, 1)],
    },
    Run {
        order: Order::Pso,
        first: (9, 0, 0),
        lines: &[
            (0, "st", 1, 0, 0, 1),
            (0, "st", 2, 0, 0, 1),
            (0, "stbar", 0, 0, 0, 0),
            (0, "st", 3, 0, 0, 1),
            (0, "dr any", 2, 0, 0, 0),
            (0, "dr any", 3, 0, 0, 0),
            (0, "dr any", 1, 0, 0, 0),
        ],
        refused: &[(6, "Order", 4, 1)],
    },
    Run {
        order: Order::Tso,
        first: (16, 0, 0),
        lines: &[
            (0, "lr", 16, 0, 0, 0),
            (1, "lr", 16, 0, 0, 0),
            (0, "sc", 16, 0, 0, 1),
            (1, "sc", 16, 0, 0, 2),
            (2, "sc", 16, 0, 0, 3),
            (0, "last", 16, 0, 3, 0),
        ],
        refused: &[(4, "Reservation", 3, 3), (5, "NoReservation", 0, 0)],
    },
    Run {
        order: Order::Tso,
        first: (9, 0, 0),
        lines: &[
            (0, "st", 1, 0, 0, 1),
            (0, "dr", 0, 0, 0, 0),
            (1, "un", 1, 0, 0, 0),
            (0, "ld", 1, 0, 77, 0),
            (0, "wr", 1, 0, 0, 2),
            (0, "ld", 1, 0, 1, 0),
            (0, "last", 1, 0, 2, 0),
        ],
        refused: &[(6, "Value", 2, 1)],
    },
    Run {
        order: Order::Tso,
        first: (32, 8, 0x1122_3344_5566_7788),
        lines: &[
            (0, "ld", 32, 4, 0x5566_7788, 0),
            (0, "st", 34, 2, 0, 0xffff),
            (0, "ld", 32, 8, 0x1122_3344_ffff_7788, 0),
            (1, "ld", 32, 8, 0x1122_3344_5566_7788, 0),
            (0, "dr", 0, 0, 0, 0),
            (1, "ld", 35, 1, 0x66, 0),
        ],
        refused: &[(6, "Value", 255, 1)],
    },
    Run {
        order: Order::Tso,
        first: (8, 8, 0x0102_0304_0506_0708),
        lines: &[
            (0, "st", 8, 2, 0, 0xaabb),
            (0, "dr", 0, 0, 0, 0),
            (0, "st", 12, 4, 0, 0),
            (0, "ld", 8, 8, 0, 0),
            (1, "last", 12, 4, 0x0102_0304, 0),
        ],
        refused: &[(4, "Value", 0x0506_aabb, 3), (5, "Waiting", 3, 0)],
    },
];

/// What a line says; None where it says no step.
fn step_of(line: &Line) -> Option<RunStep> {
    let (_, word, address, width, value, stored) = *line;
    let place = Place::new(address, width)?;
    let step = match word {
        "ld" => RunStep::Load { place, value },
        "st" => RunStep::Store {
            place,
            value: stored,
        },
        "dr" => RunStep::Drain {
            at: None,
            value: None,
        },
        "dr any" => RunStep::Drain {
            at: Some(place),
            value: None,
        },
        "dr at" => RunStep::Drain {
            at: Some(place),
            value: Some(stored),
        },
        "wr" => RunStep::Write {
            place,
            value: stored,
        },
        "sw" => RunStep::Swap {
            place,
            read: value,
            value: stored,
        },
        "lr" => RunStep::Reserve { place, value },
        "sc" => RunStep::StoreReserved {
            place,
            value: stored,
        },
        "mb" => RunStep::Membar,
        "stbar" => RunStep::Stbar,
        "un" => RunStep::Unknown { place },
        "last" => RunStep::Last { place, value },
        _ => return None,
    };
    Some(step)
}

/// What a refusal says of a line.
fn refused(line: u64, refusal: &RunRefusal) -> Refused {
    match refusal {
        RunRefusal::Value { has, origins } => (line, "Value", *has, origins.len() as u64),
        RunRefusal::Waiting { store } => (line, "Waiting", *store, 0),
        RunRefusal::Order { store, first } => (line, "Order", *store, *first),
        RunRefusal::NothingWaits => (line, "NothingWaits", 0, 0),
        RunRefusal::Reservation { store, reached } => (line, "Reservation", *store, *reached),
        RunRefusal::NoReservation => (line, "NoReservation", 0, 0),
    }
}

/// The refusals of a run; None where a line says no step.
fn refusals_of(alloc: Global, run: &Run) -> Result<Option<Vec<Refused>>, OutOfMemory> {
    let mut machine = Machine::new(alloc, run.order);
    let (address, width, value) = run.first;
    if let Some(place) = Place::new(address, width) {
        machine.preset(place, value)?;
    }
    let mut found = Vec::new(alloc);
    for (index, line) in run.lines.iter().enumerate() {
        let number = (index as u64).wrapping_add(1);
        let Some(step) = step_of(line) else {
            return Ok(None);
        };
        add_refusals(alloc, &mut machine, number, line.0, step, &mut found)?;
    }
    Ok(Some(found))
}

/// Adds what a line of a processor is refused for.
fn add_refusals(
    alloc: Global,
    machine: &mut Machine,
    number: u64,
    processor: usize,
    step: RunStep,
    found: &mut Vec<Refused>,
) -> Result<(), OutOfMemory> {
    let mut refusals = Vec::new(alloc);
    let line = RunLine {
        number,
        processor: processor % 4096,
        step,
    };
    machine.step(alloc, line, &mut refusals)?;
    for refusal in &refusals {
        found.push(refused(number, refusal))?;
    }
    Ok(())
}

#[test]
fn lines_of_runs_are_refused(rt: HostRuntime) -> Result<(), Fail> {
    for run in &RUNS {
        let found = refusals_of(rt.alloc(), run)?;
        let found = match &found {
            Some(found) => Some(found.as_slice()),
            None => None,
        };
        expect_equal(run.lines.len(), found, Some(run.refused))?;
    }
    Ok(())
}
