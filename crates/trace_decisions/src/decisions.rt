//! The decision on a trace.
ghost use Rattle.std.specs.Prelude.{◌≡◌, IfOk, IfSome};
ghost use Rattle.tso_model.specs.Certs.{Holds};
ghost use Rattle.tso_evidence.specs.Certificates.{certificate_lines};
ghost use Rattle.refutation_check.specs.Refutations.{RefutationHolds};
ghost use Rattle.trace_reports.specs.Violations.{IsViolation};
ghost use Rattle.trace_judging.specs.Limits.{HasWorkerRange};
ghost use Rattle.trace_reports.specs.declared.answers.Answer.{Answer};
ghost use Rattle.trace_decisions.specs.Decisions.{HoldsFor, IsDecision};
ghost use Rattle.trace_decisions.specs.DecisionTexts.{AnswerSays, answer_of};

use crate::search::{Next, Search};
use crate::texts::answer_by;
use order_check::check_order;
use refutation_check::check_refutation;
use round_pool::Ranked;
use search_memory::Memory;
use std::alloc::Global;
use std::sync::Wait;
use std::thread::Threads;
use text_streams::Fault;
use trace_judging::{Question, build_cert, least_unwritten, rank_edges};
use trace_reports::Answer;
use tso_cert::{CertStep, Certificate, NumList, Reason};
use tso_evidence::{Evidence, LineList, RefutationLine};
use tso_ops::{OutOfMemory, Trace};

/// What was decided of a trace.
#[derive(Debug, Drop)]
pub enum Decision {
    /// This evidence holds: an order, which makes the trace consistent, or what shows that it has none.
    Decided(Evidence),
    /// After so many steps neither was found. By the rules the trace is no violation.
    Undecided(u64),
}

/// The question whether a trace has an order that meets the axioms of its memory model.
#[derive(Clone, Copy, Debug, PartialEq, Eq)]
pub struct ByDecision {
    /// On how many workers the rounds are made, 1 to 64.
    pub workers: usize,
    /// How many steps the search does, at most.
    pub effort: u64,
}

impl Question for ByDecision {
    type Found = Decision;

    type Verdict = Answer;

    ghost is_limited = { λ question. HasWorkerRange question.workers };

    ghost is_found = { λ question. IsDecision question.effort };

    ghost answers = { answer_of };

    ghost refusing = { Answer.Refused };

    ghost says = { AnswerSays };

    /// Decides on a trace.
    ///
    /// A load whose value nothing wrote, and a cycle of the edges that the rules force, are found as a violation is. Else an order
    /// is searched for, and where two stores of one address could come in either order, both are supposed in turn. What is answered
    /// was accepted by the checker of orders or by that of refutations.
    fn find<H: Threads + Wait>(
        &self,
        rt: &H,
        alloc: Global,
        trace: &Trace,
    ) -> Result<Decision, Fault> {
        // Its clause `kept`, that the trace is within the limits of traces, is what `says` rests on.
        let _events = trace.events();
        if let Some(load) = least_unwritten(trace) {
            return Ok(Decision::Decided(Evidence::Unwritten(load as u64)));
        }
        let ranked = rank_edges(rt, alloc, trace, self.workers, 0)?;
        match build_cert(alloc, trace, &ranked)? {
            Some(certificate) => Ok(Decision::Decided(as_evidence(alloc, trace, &certificate)?)),
            None => Ok(by_search(alloc, trace, &ranked, self.effort)?),
        }
    }

    fn answer(&self, found: &Decision) -> Answer {
        match found {
            Decision::Decided(evidence) => answer_by(evidence),
            Decision::Undecided(_) => Answer::Undecided,
        }
    }

    fn refusal(&self) -> Answer {
        Answer::Refused
    }
}

/// A certificate as evidence, which the checker of refutations has accepted. OutOfMemory where an allocation was refused.
fn as_evidence(
    alloc: Global,
    trace: &Trace,
    certificate: &Certificate,
) -> Result<Evidence, OutOfMemory>
    requires { Holds trace.now certificate.now }
    ensures { IfOk result (HoldsFor trace.now) }
{
    match certificate {
        Certificate::Unwritten(n) => Ok(Evidence::Unwritten(*n)),
        Certificate::Cycle { steps, cycle } => {
            let lines = lines_of(alloc, steps.items(), cycle.items())?;
            accepted(alloc, trace, lines)
        }
    }
}

/// The evidence of lines that hold, once the checker of refutations has accepted them. OutOfMemory where an allocation was refused.
fn accepted(
    alloc: Global,
    trace: &Trace,
    lines: Vec<RefutationLine>,
) -> Result<Evidence, OutOfMemory>
    requires { RefutationHolds trace.now lines.items }
    ensures { IfOk result (HoldsFor trace.now) }
{
    match check_refutation(alloc, trace, &lines)? {
        Ok(()) => Ok(Evidence::Refutation(LineList::new(lines))),
        Err(_) => unreachable!(),
    }
}

/// The lines of a certificate's steps and its cycle. OutOfMemory where an allocation was refused.
fn lines_of(
    alloc: Global,
    steps: &[CertStep],
    cycle: &[u64],
) -> Result<Vec<RefutationLine>, OutOfMemory>
    ensures { IfOk result (λ lines. lines.items ≡ certificate_lines steps.now cycle.now) }
{
    let mut lines = Vec::new(alloc);
    for step in steps {
        lines.push(RefutationLine::Step(copy_step(alloc, step)?))?;
    }
    let cycle = NumList::new(Vec::from_slice(alloc, cycle)?);
    lines.push(RefutationLine::Cycle(cycle))?;
    Ok(lines)
}

/// The same step. OutOfMemory where an allocation was refused.
pub fn copy_step(alloc: Global, step: &CertStep) -> Result<CertStep, OutOfMemory>
    ensures { IfOk result (λ copy. copy ≡ step.now) }
{
    let reason = match &step.reason {
        Reason::Base(rule) => Reason::Base(*rule),
        Reason::Inferred { rule, load, path } => Reason::Inferred {
            rule: *rule,
            load: *load,
            path: NumList::new(Vec::from_slice(alloc, path.items())?),
        },
    };
    Ok(CertStep {
        from: step.from,
        to: step.to,
        reason,
    })
}

/// What a search of so many steps finds of a trace that is no violation by the rules. OutOfMemory where an allocation was refused.
fn by_search(
    alloc: Global,
    trace: &Trace,
    ranked: &Ranked,
    effort: u64,
) -> Result<Decision, OutOfMemory>
    requires { IsViolation trace.now → ⊥ }
    ensures { IfOk result (IsDecision effort trace.now) }
{
    let memory = Memory::new(alloc);
    let mut search = Search::new(&memory, trace, ranked);
    search.begin();
    match evidence_of(alloc, trace, &mut search, effort) {
        Ok(Some(evidence)) => Ok(Decision::Decided(evidence)),
        Ok(None) => Ok(Decision::Undecided(effort)),
        Err(refused) => Err(refused),
    }
}

/// What a search finds in so many steps, if its checker has accepted it. OutOfMemory where an allocation was refused.
fn evidence_of(
    alloc: Global,
    trace: &Trace,
    search: &mut Search<'_>,
    effort: u64,
) -> Result<Option<Evidence>, OutOfMemory>
    ensures { IfOk result (λ found. IfSome found (HoldsFor trace.now)) }
{
    for _ in 0..effort {
        match checked(alloc, trace, search.take()?)? {
            Ok(evidence) => return Ok(Some(evidence)),
            Err(open) => search.step(open),
        }
    }
    match checked(alloc, trace, search.take()?)? {
        Ok(evidence) => Ok(Some(evidence)),
        Err(_) => Ok(None),
    }
}

/// What a search found, as evidence that its checker has accepted; else what it does next. OutOfMemory where an allocation was
/// refused.
fn checked(alloc: Global, trace: &Trace, next: Next) -> Result<Result<Evidence, Next>, OutOfMemory>
    ensures { IfOk result (λ found. IfOk found (HoldsFor trace.now)) }
{
    match next {
        Next::Order(order) => match check_order(alloc, trace, &order)? {
            Ok(()) => Ok(Ok(Evidence::Order(NumList::new(order)))),
            Err(_) => Ok(Err(Next::Lost)),
        },
        Next::Refuted(lines) => match check_refutation(alloc, trace, &lines)? {
            Ok(()) => Ok(Ok(Evidence::Refutation(LineList::new(lines)))),
            Err(_) => Ok(Err(Next::Lost)),
        },
        open => Ok(Err(open)),
    }
}
