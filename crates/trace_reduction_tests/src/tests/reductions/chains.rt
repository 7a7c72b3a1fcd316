//! A chain of swaps of which all are needed, too long to search in.

use super::expect_case;
use std::alloc::AllocError;
use std::fmt::Write;
use std::test::Fail;
use trace_reports::Verdict;

/// How many swaps the chain has.
const SWAPS: usize = 1_100;

/// What follows the swaps. Another processor's store is before the last, since this processor sees the last after it, and so has
/// to go past one after the other.
const LATER: &str = "st 1 1102\nproc\nst 0 1101\nmb\nld 1 1102\nld 0 1100\nend\n";

/// The notes on what follows the swaps, and that the search doesn't begin.
const LATER_NOTES: &str =
    "line 1103 P0 'st 1 1102'\nline 1105 P1 'st 0 1101'\nline 1106 P1 'mb'\nline 1107 P1 'ld 1 1102'\nline 1108 P1 'ld 0 1100'\nnote: the search ended after 0 trials; operations of this trace might be left out\n";

/// Adds a swap that reads a number and stores the next one to a text, and a note on it. The first one stands in line 3.
fn push_swap(text: &mut String, notes: &mut String, read: usize) -> Result<(), AllocError> {
    let stored = read.saturating_add(1);
    let line = read.saturating_add(3);
    write!(text, "sw 0 {read} {stored}\n")?;
    write!(notes, "line {line} P0 'sw 0 {read} {stored}'\n")
}

/// Swaps of one processor, each of which reads what the one before stored: the trace is printed as it is.
#[test]
fn search_that_is_too_long(rt: HostRuntime) -> Result<(), Fail> {
    let mut text = String::from_str(rt.alloc(), "tso trace 2\nproc\n")?;
    let mut notes = String::new(rt.alloc());
    for read in 0..SWAPS {
        push_swap(&mut text, &mut notes, read)?;
    }
    text.push_str(LATER)?;
    notes.push_str(LATER_NOTES)?;
    let (text, notes) = (text.as_str(), notes.as_str());
    expect_case(&rt, rt.alloc(), (text, Verdict::Violation, text, notes))
}
