//! The decision on the trace that a reader has.
ghost use Rattle.std.specs.Prelude.{◌≡◌, ◌≤◌, IfOk, IfErr, IfSome};
ghost use Rattle.round_pool.specs.Workers.{worker_limit};
ghost use Rattle.tso_ops.specs.Values.{TraceValue};
ghost use Rattle.tso_text.specs.Texts.{SpellsTrace};
ghost use Rattle.trace_streams.specs.Limits.{trace_read_limit};
ghost use Rattle.text_streams.specs.Streams.{LosesPrefix};
ghost use Rattle.text_streams.specs.WrittenTexts.{LeavesAtFault, WritesWhole};
ghost use Rattle.trace_decisions.specs.DecisionTexts.{AnswerSays, IsDecisionOfReader, answer_by};

use crate::decisions::{ByDecision, Decision};
use std::alloc::Global;
use std::io::{Read, Write};
use std::sync::Wait;
use std::thread::Threads;
use text_streams::Fault;
use trace_judging::answer_reader;
use trace_reports::{Answer, Rendering};
use tso_evidence::Evidence;
use tso_ops::Trace;

/// Decides on the trace that a reader has, and writes what the rendering says of the decision.
///
/// A text that is no trace is Refused, by its line. At most 1,048,577 bytes are read. Faults: OutOfMemory where an allocation was
/// refused; Read where the reader failed or passed 2,097,152 calls; NoThread where the system refused a thread; with each nothing
/// was written. Write where the writer failed, took no byte or was interrupted more than 1,048,576 times: then what was written is
/// a prefix of the text.
pub fn decide_input<H: Threads + Wait, R: Read, W: Write, P: Rendering<Trace, Decision>>(
    rt: &H,
    alloc: Global,
    reader: &mut R,
    writer: &mut W,
    question: ByDecision,
    rendering: &P,
) -> Result<Answer, Fault>
    requires some { 1 ≤ question.workers }
    requires most { question.workers ≤ worker_limit }
    ensures decided { IfOk result (WritesWhole (IsDecisionOfReader (P.rendered rendering.now) (P.refused rendering.now) question.effort
        (R.remaining reader.old)) (W.contents writer.old) (W.contents writer.new)) }
    ensures says { IfOk result (λ answer. IfSome (R.remaining reader.old) (λ all. (t : TraceValue) → SpellsTrace all t → AnswerSays t answer)) }
    ensures taken { IfOk result (λ _. LosesPrefix trace_read_limit (R.remaining reader.old) (R.remaining reader.new)) }
    ensures fault { IfErr result (LeavesAtFault (IsDecisionOfReader (P.rendered rendering.now) (P.refused rendering.now) question.effort
        (R.remaining reader.old)) (W.contents writer.old) (W.contents writer.new)) }
{
    answer_reader(rt, alloc, reader, writer, &question, rendering)
}

/// What evidence that holds says of its trace.
pub(crate) fn answer_by(evidence: &Evidence) -> Answer
    ensures { result ≡ answer_by evidence.now }
{
    match evidence {
        Evidence::Order(_) => Answer::Clear,
        Evidence::Unwritten(_) | Evidence::Refutation(_) => Answer::Violation,
    }
}
