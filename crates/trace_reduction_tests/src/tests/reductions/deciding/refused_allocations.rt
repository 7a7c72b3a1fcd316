//! Allocations refused in turn: `rt try --test --fail-alloc N` refuses the Nth of each test.
//!
//! The call that meets it answers OutOfMemory and wrote nothing; the next call writes the whole text.

use super::{decided, question};
use evidence_for_tests::{BUFFERING, BUFFERING_ORDER, TWELVE_EVENTS, TWELVE_REFUTED};
use std::alloc::Global;
use std::sync::Wait;
use std::test::Fail;
use std::thread::Threads;
use text_streams::Fault;
use trace_decisions::verify_texts;
use trace_reports::Answer;
use traces_for_tests::expect_equal;

/// The room that a text gets.
const ROOM: usize = 64;

/// What one case says of the twelve events.
const UNDECIDED: &[u8] = b"TSO DECISION 1\nprocessors 4 events 12\nUNDECIDED 1\n";

/// Decides on the twelve events with one case, into these bytes; how much of the room is left.
fn decided_into<H: Threads + Wait>(
    rt: &H,
    alloc: Global,
    bytes: &mut [u8; ROOM],
) -> (Result<Answer, Fault>, usize) {
    let mut writer = bytes.as_mut_slice();
    let mut reader = TWELVE_EVENTS.as_bytes();
    let said = decided(rt, alloc, &mut reader, &mut writer, question(1, 1));
    (said, writer.len())
}

#[test]
fn refused_allocations_of_a_decision(rt: HostRuntime) -> Result<(), Fail> {
    let mut bytes = [0u8; ROOM];
    let (mut said, mut left) = decided_into(&rt, rt.alloc(), &mut bytes);
    if said == Err(Fault::OutOfMemory) {
        expect_equal("left", left, ROOM)?;
        (said, left) = decided_into(&rt, rt.alloc(), &mut bytes);
    }
    expect_equal("said", said, Ok(Answer::Undecided))?;
    let count = ROOM.saturating_sub(left);
    expect_equal("text", bytes.get(..count).unwrap_or(b""), UNDECIDED)
}

/// Checks evidence, into these bytes; how much of the room is left.
fn verified_into(
    alloc: Global,
    (trace, evidence): (&str, &str),
    bytes: &mut [u8; ROOM],
) -> (Result<Answer, Fault>, usize) {
    let mut writer = bytes.as_mut_slice();
    let mut first = trace.as_bytes();
    let mut second = evidence.as_bytes();
    let said = verify_texts(alloc, &mut first, &mut second, &mut writer);
    (said, writer.len())
}

/// Checks evidence, and once more where an allocation was refused.
fn expect_verified(
    alloc: Global,
    texts: (&str, &str),
    answer: Answer,
    line: &[u8],
) -> Result<(), Fail> {
    let mut bytes = [0u8; ROOM];
    let (mut said, mut left) = verified_into(alloc, texts, &mut bytes);
    if said == Err(Fault::OutOfMemory) {
        expect_equal("left", left, ROOM)?;
        (said, left) = verified_into(alloc, texts, &mut bytes);
    }
    expect_equal("said", said, Ok(answer))?;
    let count = ROOM.saturating_sub(left);
    expect_equal("line", bytes.get(..count).unwrap_or(b""), line)
}

#[test]
fn refused_allocations_of_an_order(rt: HostRuntime) -> Result<(), Fail> {
    let texts = (BUFFERING, BUFFERING_ORDER);
    expect_verified(rt.alloc(), texts, Answer::Clear, b"ORDER HOLDS\n")
}

#[test]
fn refused_allocations_of_a_refutation(rt: HostRuntime) -> Result<(), Fail> {
    let texts = (TWELVE_EVENTS, TWELVE_REFUTED);
    expect_verified(rt.alloc(), texts, Answer::Violation, b"REFUTATION HOLDS\n")
}
