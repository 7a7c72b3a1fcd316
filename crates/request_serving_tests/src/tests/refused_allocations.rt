//! Allocations refused in turn: `rt try --test --fail-alloc N` refuses the Nth of each test.
//!
//! The call that meets it answers OutOfMemory, or NoThread where the allocation was that of a thread's start, and writes
//! nothing else, and the next call gives the ordinary answer.

use super::logs::REPORT as LOGGED;
use super::{Input, MESSAGE_PASSING, MemoryFiles, Output};
use command_line::{FollowRequest, LogRequest, Request};
use request_options::{FollowOptions, LogForm, LogOptions, RunFormat};
use request_serving::serve;
use std::alloc::{AllocError, Global};
use std::sync::Wait;
use std::test::Fail;
use std::thread::Threads;
use tso_ops::{OutOfMemory, Program};
use tso_report::{Fault, Verdict, judge_recorded};
use tso_text::{Act, read_program};
use unit_core::{Account, Recorded, replay_over};
use unit_kinds::SerialUnit;

/// Message passing: the text of its program.
const PROGRAM: &str = "tso program 1\nproc\nst 1 1\nst 2 2\nproc\nld 2\nld 1\nend\n";

/// Both processors in turns.
const SCHEDULE: [Act; 4] = [Act::Issue(0), Act::Issue(1), Act::Issue(0), Act::Issue(1)];

/// The report of its replay on a serial unit.
const REPORT: &str = "TSO REPORT 1\nprocessors 2 events 4 rounds 1\nNO VIOLATION FOUND\n";

/// The account of that replay.
const ACCOUNT: Account = Account {
    loads: 2,
    stores: 2,
    swaps: 0,
    membars: 0,
    drains: 2,
    closed: true,
};

/// More room than a report needs.
const ROOM: usize = 256;

/// A replay on a serial unit.
fn replayed(
    alloc: Global,
    program: &Program,
    account: &mut Account,
) -> Result<Recorded, OutOfMemory> {
    replay_over(alloc, SerialUnit::new(alloc)?, program, &SCHEDULE, account)
}

#[test]
fn refused_allocations_of_a_replay(rt: HostRuntime) -> Result<(), Fail> {
    let alloc = rt.alloc();
    let program = match read_program(alloc, PROGRAM.as_bytes()) {
        Ok(program) => program,
        Err(_) => read_program(alloc, PROGRAM.as_bytes())?,
    };
    let mut account = Account::new();
    let recorded = match replayed(alloc, &program, &mut account) {
        Ok(recorded) => recorded,
        Err(OutOfMemory) => replayed(alloc, &program, &mut account)?,
    };
    assert!(rt; account == ACCOUNT);
    let mut output = output_of(alloc)?;
    let mut said = judge_recorded(&rt, alloc, &recorded, &mut output, 1);
    if said == Err(Fault::OutOfMemory) || said == Err(Fault::NoThread) {
        assert!(rt; output.taken.is_empty());
        said = judge_recorded(&rt, alloc, &recorded, &mut output, 1);
    }
    assert!(rt; said == Ok(Verdict::NoViolation));
    assert!(rt; output.taken.as_slice() == REPORT.as_bytes());
    Ok(())
}

/// A writer that needs no allocation for a report.
fn output_of(alloc: Global) -> Result<Output, AllocError> {
    match Output::with_room(alloc, ROOM) {
        Ok(output) => Ok(output),
        Err(_) => Output::with_room(alloc, ROOM),
    }
}

/// Reports on the log on standard input, and answers the status.
fn serve_log<H: Threads + Wait + Sync + AllocGlobal>(
    rt: &H,
    output: &mut Output,
    errors: &mut Output,
) -> u8 {
    let request = Request::Log(LogRequest {
        file: None,
        options: LogOptions {
            most: 1,
            effort: 100,
            max_unknown: 100,
            needs_end: false,
            form: LogForm::Lines,
        },
    });
    let mut files = MemoryFiles {
        opened: String::new(rt.alloc()),
    };
    let mut reader = Input {
        rest: MESSAGE_PASSING.as_bytes(),
        fails: false,
    };
    serve(rt, &request, &mut files, &mut reader, output, errors)
}

/// The request that meets a refused allocation names the fault; the next one writes the report.
#[test]
fn refused_allocations_of_a_log(rt: HostRuntime) -> Result<(), Fail> {
    let mut output = output_of(rt.alloc())?;
    let mut errors = output_of(rt.alloc())?;
    let mut status = serve_log(&rt, &mut output, &mut errors);
    if status == 4 {
        assert!(rt; output.taken.is_empty());
        assert!(rt; errors.taken.as_slice() == b"FAULT OutOfMemory\n".as_slice());
        status = serve_log(&rt, &mut output, &mut errors);
    }
    assert!(rt; status == 3);
    assert!(rt; output.taken.as_slice() == LOGGED.as_bytes());
    Ok(())
}

/// A run in which a load misses a store.
const RUN: &str = "1 st 4096 7 # cycle 40\n1 dr\n0 ld 4096 5\n";

/// The report on it, worked out by hand.
const FOLLOWED: &str =
    "TSO RUN 1\nprocessors 2 operations 2 loads 1 stores 1 swaps 0 unknown 0 waiting 0\nRUN REFUSED\nrefusal 1 Value\nline 3 0 ld 4096 5\nhas 7\nline 1 1 st 4096 7 # cycle 40\nreached 2\nrefusals 1\n";

/// Follows the run on standard input, and answers the status.
fn serve_run<H: Threads + Wait + Sync + AllocGlobal>(
    rt: &H,
    output: &mut Output,
    errors: &mut Output,
) -> u8 {
    let request = Request::Follow(FollowRequest {
        file: None,
        options: FollowOptions {
            most: 10,
            needs_end: false,
            is_fast: false,
            format: RunFormat::Words,
            is_explained: false,
        },
    });
    let mut files = MemoryFiles {
        opened: String::new(rt.alloc()),
    };
    let mut reader = Input {
        rest: RUN.as_bytes(),
        fails: false,
    };
    serve(rt, &request, &mut files, &mut reader, output, errors)
}

/// The request that meets a refused allocation names the fault; the next one writes the report.
#[test]
fn refused_allocations_of_a_run(rt: HostRuntime) -> Result<(), Fail> {
    let mut output = output_of(rt.alloc())?;
    let mut errors = output_of(rt.alloc())?;
    let mut status = serve_run(&rt, &mut output, &mut errors);
    if status == 4 {
        assert!(rt; output.taken.is_empty());
        assert!(rt; errors.taken.as_slice() == b"FAULT OutOfMemory\n".as_slice());
        status = serve_run(&rt, &mut output, &mut errors);
    }
    assert!(rt; status == 3);
    assert!(rt; output.taken.as_slice() == FOLLOWED.as_bytes());
    Ok(())
}
