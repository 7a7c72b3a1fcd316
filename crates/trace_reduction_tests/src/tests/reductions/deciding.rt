//! Traces that are decided, and their evidence, which is checked.

mod decisions;
mod refused_allocations;

ghost use Rattle.std.specs.Prelude.{◌≡◌, ◌≤◌};
ghost use Rattle.round_pool.specs.Workers.{worker_limit};

use std::alloc::Global;
use std::io::{Read, Write};
use std::sync::Wait;
use std::test::Fail;
use std::thread::Threads;
use text_streams::Fault;
use trace_decisions::{AsDecision, ByDecision, decide_input, verify_texts};
use trace_reports::Answer;
use traces_for_tests::expect_equal;

/// What follows the first three lines of a text: after the head of a decision, two lines, and its answer the evidence begins.
fn evidence_of(text: &[u8]) -> &[u8] {
    let mut lines: usize = 0;
    for (place, byte) in text.iter().enumerate() {
        if lines == 3 {
            return text.get(place..).unwrap_or(b"");
        }
        if *byte == b'\n' {
            lines = lines.saturating_add(1);
        }
    }
    b""
}

/// On how many workers, and with how many cases, it is decided.
fn question(workers: usize, effort: u64) -> ByDecision
    ensures { result.workers ≡ workers }
{
    ByDecision { workers, effort }
}

/// Decides on the trace that a reader has, and writes the text of the decision.
fn decided<H: Threads + Wait, R: Read, W: Write>(
    rt: &H,
    alloc: Global,
    reader: &mut R,
    writer: &mut W,
    question: ByDecision,
) -> Result<Answer, Fault>
    requires some { 1 ≤ question.workers }
    requires most { question.workers ≤ worker_limit }
{
    decide_input(rt, alloc, reader, writer, question, &AsDecision)
}

/// Decides on the trace of a text with so many workers, and compares what is answered; the evidence has to hold.
fn expect_decided<H: Threads + Wait>(
    rt: &H,
    alloc: Global,
    workers: usize,
    case: (&str, Answer),
) -> Result<(), Fail>
    requires some { 1 ≤ workers }
    requires most { workers ≤ worker_limit }
{
    let (text, answer) = case;
    let mut written = Vec::new(alloc);
    let mut reader = text.as_bytes();
    let said = decided(rt, alloc, &mut reader, &mut written, question(workers, 100));
    expect_equal(text, said, Ok(answer))?;
    let mut line = Vec::new(alloc);
    let mut trace = text.as_bytes();
    let mut rest = evidence_of(&written);
    let verified = verify_texts(alloc, &mut trace, &mut rest, &mut line);
    expect_equal(text, verified, Ok(answer))
}
