//! Long logs of which something is left out, and what is noted then.

use super::{LINES, write_report};
use std::alloc::{AllocError, Global};
use std::fmt::Write;
use std::process::Abort;
use std::sync::Wait;
use std::test::Fail;
use std::thread::Threads;
use trace_reports::Answer;

/// Compares what is said of a log, and what is noted on its report.
fn expect_notes<H: Threads + Wait + AllocGlobal + Abort>(
    rt: &H,
    log: &str,
    verdict: Answer,
    notes: &str,
) {
    let mut written = Vec::new(rt.alloc());
    let mut errors = Vec::new(rt.alloc());
    let mut reader = log.as_bytes();
    let said = write_report(rt, LINES, &mut reader, &mut written, &mut errors);
    assert!(rt; said == Ok(verdict), "{notes}");
    assert!(rt; errors.as_slice() == notes.as_bytes(), "{notes}");
}

/// At each level there are so many addresses: of data, and of a flag that is handed on by 13 processors.
const ADDRESSES_OF_A_LEVEL: u64 = 15;

/// A log without an order, which takes all of so many levels to show.
///
/// At a level processor 0 stores 1 to the data before processor 1 stores 2 there: processor 2 loads that 2 after the flag, which
/// is stored after processor 1's store of the level below, and that is after processor 0's. But at the greatest level processor 2
/// loads 0. Each processor does the greatest level first, so that no way leads past a level.
fn levels(alloc: Global, count: u64) -> Result<String, AllocError> {
    let mut log = String::new(alloc);
    let greatest = count.saturating_sub(1);
    for level in (0..count).rev() {
        let data = level.saturating_mul(ADDRESSES_OF_A_LEVEL);
        let flag = data.saturating_add(1);
        let loaded = if level == greatest { 0 } else { 2 };
        write!(log, "0 st {data} 1\n")?;
        if level < greatest {
            let next = flag.saturating_add(ADDRESSES_OF_A_LEVEL);
            write!(log, "1 st {data} 2\n1 st {next} 1\n")?;
        }
        let handed = hand_on(&mut log, flag)?;
        write!(log, "2 ld {handed} 1\n2 ld {data} {loaded}\n")?;
    }
    log.push_str("0 st 1 1\n")?;
    Ok(log)
}

/// Hands on a flag: each of processors 3 to 15 loads the 1, and stores 1 to the next address. Which is the last address.
fn hand_on(log: &mut String, flag: u64) -> Result<u64, AllocError> {
    let mut a = flag;
    for p in 3..16 {
        let next = a.saturating_add(1);
        write!(log, "{p} ld {a} 1\n{p} st {next} 1\n")?;
        a = next;
    }
    Ok(a)
}

/// A log under PSO in which three processors store to so many addresses each, all of them.
pub(super) fn stores(alloc: Global, addresses: u64) -> Result<String, AllocError> {
    let mut log = String::new(alloc);
    log.push_str("model pso\n")?;
    for a in 0..addresses {
        write!(log, "0 st {a} 1\n1 st {a} 2\n2 st {a} 3\n2 ld {a} 3\n")?;
    }
    Ok(log)
}

/// Few addresses; more than the 256 that a trace has; and many that have to be searched in parts.
#[test]
fn long_logs(rt: HostRuntime) -> Result<(), Fail> {
    let log = levels(rt.alloc(), 4)?;
    expect_notes(&rt, &log, Answer::Violation, "");
    let log = levels(rt.alloc(), 18)?;
    expect_notes(&rt, &log, Answer::Undecided, "");
    let log = stores(rt.alloc(), 200)?;
    let notes = "parts of the addresses searched apart 2\n";
    expect_notes(&rt, &log, Answer::Clear, notes);
    Ok(())
}
