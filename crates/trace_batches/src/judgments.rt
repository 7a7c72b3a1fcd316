//! What is said of a trace text of a stream.
ghost use Rattle.std.specs.Prelude.{◌≡◌, ◌≢◌, ℕ, List, IfOk, IfErr};
ghost use Rattle.tso_text.specs.Refusals.{IsTraceRefusal};
ghost use Rattle.tso_text.specs.declared.faults.Why.{Why};
ghost use Rattle.trace_reports.specs.Findings.{IsFinding};
ghost use Rattle.trace_batches.specs.Batches.{IsBatchFault};
ghost use Rattle.trace_batches.specs.Internal.Decided.{is_order, judgment_of};
ghost use Rattle.trace_batches.specs.Judgments.{asking, IsJudgment, IsJudgmentOn};
ghost use Rattle.request_options.specs.declared.batches.BatchMethod.TheVariants.{Judge};
ghost use Rattle.trace_batches.specs.declared.questions.BatchQuestion.{BatchQuestion};

use crate::questions::{BatchQuestion, FailureBody, explain_decision, explain_finding};
use request_options::BatchMethod;
use std::alloc::Global;
use std::sync::Wait;
use std::thread::Threads;
use text_streams::Fault;
use trace_decisions::{ByDecision, Decision};
use trace_judging::{ByRules, Question, is_violation};
use trace_reports::Finding;
use tso_evidence::Evidence;
use tso_ops::{OutOfMemory, Trace};
use tso_text::{TextFault, Why, read_trace};

/// What is said of a trace text of a stream.
#[derive(Drop)]
pub(crate) enum Judgment {
    /// It is a trace in which no violation was found.
    NoViolation,
    /// It is a trace that is a violation, which this explains.
    Violation(FailureBody),
    /// It is a trace that has an order.
    Consistent,
    /// It is a trace of which neither was shown with so many steps.
    Undecided(u64),
    /// It is no trace: at which line it is refused, and why.
    Refused(TextFault),
}

/// Judges a trace text with one worker.
///
/// Faults: OutOfMemory where an allocation was refused, NoThread where the system refused a thread.
pub(crate) fn judge_trace_text<H: Threads + Wait>(
    rt: &H,
    alloc: Global,
    piece: &[u8],
    question: BatchQuestion,
) -> Result<Judgment, Fault>
    ensures said { IfOk result (IsJudgment question piece.now) }
    ensures fault { IfErr result IsBatchFault }
{
    match read_trace(alloc, piece) {
        Ok(trace) => judge_trace(rt, alloc, &trace, question),
        Err(fault) => refused_for(fault),
    }
}

/// What is said of a trace.
fn judge_trace<H: Threads + Wait>(
    rt: &H,
    alloc: Global,
    trace: &Trace,
    question: BatchQuestion,
) -> Result<Judgment, Fault>
    ensures said { IfOk result (IsJudgmentOn question trace.now) }
    ensures fault { IfErr result IsBatchFault }
{
    let explains = question.explains;
    match question.method {
        BatchMethod::Judge => judge_by_rules(rt, alloc, trace, explains),
        BatchMethod::Decide { effort } => {
            let decision = ByDecision { workers: 1, effort }.find(rt, alloc, trace)?;
            let judgment = judgment_of(alloc, trace, &decision, explains)?;
            Ok(judgment)
        }
    }
}

/// What is said of a trace by the rules. A certificate is made only where a violation is explained by it.
fn judge_by_rules<H: Threads + Wait>(
    rt: &H,
    alloc: Global,
    trace: &Trace,
    explains: bool,
) -> Result<Judgment, Fault>
    ensures said { IfOk result (IsJudgmentOn (asking Judge explains) trace.now) }
    ensures fault { IfErr result IsBatchFault }
{
    if !is_violation(rt, alloc, trace, 1)? {
        return Ok(Judgment::NoViolation);
    }
    if !explains {
        return Ok(Judgment::Violation(FailureBody::none()));
    }
    let finding = ByRules { workers: 1 }.find(rt, alloc, trace)?;
    Ok(judgment_by(alloc, trace, &finding, explains)?)
}

/// What is said of a trace of which this was found. OutOfMemory where an allocation was refused.
fn judgment_by(
    alloc: Global,
    trace: &Trace,
    finding: &Finding,
    explains: bool,
) -> Result<Judgment, OutOfMemory>
    requires { IsFinding trace.now finding.now }
    ensures { IfOk result (IsJudgmentOn (asking Judge explains) trace.now) }
{
    match finding.certificate {
        Some(_) => {
            let body = explain_finding(alloc, trace, finding, explains)?;
            Ok(Judgment::Violation(body))
        }
        None => Ok(Judgment::NoViolation),
    }
}

/// What is said of a trace of which this was decided. OutOfMemory where an allocation was refused.
fn judgment_of(
    alloc: Global,
    trace: &Trace,
    decision: &Decision,
    explains: bool,
) -> Result<Judgment, OutOfMemory>
    ensures { IfOk result (λ judgment. judgment ≡ judgment_of explains trace.now decision.now) }
{
    match decision {
        Decision::Decided(evidence) => {
            if is_order(evidence) {
                return Ok(Judgment::Consistent);
            }
            let body = explain_decision(alloc, trace, decision, explains)?;
            Ok(Judgment::Violation(body))
        }
        Decision::Undecided(steps) => Ok(Judgment::Undecided(*steps)),
    }
}

/// Whether the evidence is an order.
fn is_order(evidence: &Evidence) -> bool
    ensures { result ≡ is_order evidence.now }
{
    match evidence {
        Evidence::Order(_) => true,
        Evidence::Unwritten(_) | Evidence::Refutation(_) => false,
    }
}

/// What is said of a trace text that is refused for this fault. OutOfMemory where the fault says that an allocation was
/// refused.
fn refused_for(fault: TextFault) -> Result<Judgment, Fault>
    ensures said { IfOk result (λ judgment. (question : BatchQuestion) (piece : List ℕ) →
        (fault.why ≢ Why.OutOfMemory → IsTraceRefusal piece fault.line fault.why) → IsJudgment question piece judgment) }
    ensures fault { IfErr result IsBatchFault }
{
    if fault.why == Why::OutOfMemory {
        return Err(Fault::OutOfMemory);
    }
    Ok(Judgment::Refused(fault))
}
