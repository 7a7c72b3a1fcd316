//! What is found of a trace.
ghost use Rattle.std.specs.Prelude.{◌≡◌, ◌⊎◌, ◌≤◌, ◌<◌, ℕ, MatchOption, IfOk, IfErr};
ghost use Rattle.order_paths.specs.Paths.{HasCycle};
ghost use Rattle.round_pool.specs.Workers.{worker_limit};
ghost use Rattle.tso_ops.specs.Events.{IsUnwritten};
ghost use Rattle.tso_cert.specs.declared.steps.Certificate.TheVariants.{Unwritten};
ghost use Rattle.tso_model.specs.Certs.{IsCertificateOf};
ghost use Rattle.tso_model.specs.Ranks.{RankSet};
ghost use Rattle.text_streams.specs.declared.faults.Fault.{Fault};
ghost use Rattle.trace_reports.specs.declared.verdicts.Verdict.{Verdict};
ghost use Rattle.trace_reports.specs.Findings.{IsFinding};
ghost use Rattle.std.specs.Option.{option_map_or};
ghost use Rattle.trace_judging.specs.Limits.{HasWorkerRange};
ghost use Rattle.trace_judging.specs.Verdicts.{VerdictSays};

use crate::certificates::build_cert;
use crate::questions::Question;
use crate::rankings::rank_edges;
use chain_rules::{RoundForm, count_rounds};
use std::alloc::Global;
use std::sync::Wait;
use std::thread::Threads;
use text_streams::Fault;
use trace_reports::{Finding, Verdict};
use tso_cert::Certificate;
use tso_ops::Trace;

/// The question whether a trace is a violation by the rules.
#[derive(Clone, Copy, Debug, PartialEq, Eq)]
pub struct ByRules {
    /// On how many workers it is found out, 1 to 64. What is found is the same for each number.
    pub workers: usize,
}

impl Question for ByRules {
    type Found = Finding;

    type Verdict = Verdict;

    ghost is_limited = { λ question. HasWorkerRange question.workers };

    ghost is_found = { λ question. IsFinding };

    ghost answers = { λ found. option_map_or (λ _. Verdict.Violation) found.certificate Verdict.NoViolation };

    ghost refusing = { Verdict.Refused };

    ghost says = { VerdictSays };

    /// Finds a trace's least load whose value nothing wrote, or else its rounds, and the certificate where the last rank set has a
    /// cycle.
    ///
    /// Rounds by chains are made in the caller's thread, and only counted: where they end with a cycle, they are made once
    /// more by rows of bits, on the workers, for the ranks of the edges, which the certificate needs. By the count only the
    /// last rank set has a cycle, so none is looked for after the rounds before the last.
    fn find<H: Threads + Wait>(
        &self,
        rt: &H,
        alloc: Global,
        trace: &Trace,
    ) -> Result<Finding, Fault> {
        // Its clause `kept`, that the trace is within the limits of traces, is what `says` rests on.
        let _processors = trace.processors();
        if let Some(load) = least_unwritten(trace) {
            return Ok(Finding {
                rounds: 0,
                certificate: Some(Certificate::Unwritten(load as u64)),
            });
        }
        if RoundForm::of(trace) == RoundForm::BitRows {
            return find_by_ranks(rt, alloc, trace, self.workers, 0);
        }
        let count = count_rounds(alloc, trace)?;
        if count.is_cyclic {
            return find_by_ranks(rt, alloc, trace, self.workers, count.rounds);
        }
        Ok(Finding {
            rounds: count.rounds,
            certificate: None,
        })
    }

    fn answer(&self, found: &Finding) -> Verdict {
        match found.certificate {
            Some(_) => Verdict::Violation,
            None => Verdict::NoViolation,
        }
    }

    fn refusal(&self) -> Verdict {
        Verdict::Refused
    }
}

/// Finds out the rounds and the certificate of a trace in which no load is unwritten by the ranks of its edges, on `workers`
/// workers. The first `acyclic` rank sets are known to have no cycle.
fn find_by_ranks<H: Threads + Wait>(
    rt: &H,
    alloc: Global,
    trace: &Trace,
    workers: usize,
    acyclic: u64,
) -> Result<Finding, Fault>
    requires written { (l : ℕ) → IsUnwritten trace.now l → ⊥ }
    requires some { 1 ≤ workers }
    requires most { workers ≤ worker_limit }
    requires acyclic { (k : ℕ) → k < acyclic → HasCycle (RankSet trace.now k) → ⊥ }
    ensures found { IfOk result (IsFinding trace.now) }
    ensures fault { IfErr result (λ fault. (fault ≡ Fault.OutOfMemory) ⊎ (fault ≡ Fault.NoThread)) }
{
    let ranked = rank_edges(rt, alloc, trace, workers, acyclic)?;
    Ok(Finding {
        rounds: ranked.rounds(),
        certificate: build_cert(alloc, trace, &ranked)?,
    })
}

/// The least load whose value nothing wrote.
pub fn least_unwritten(trace: &Trace) -> Option<usize>
    ensures { MatchOption result ((l : ℕ) → IsUnwritten trace.now l → ⊥) (λ n. IsCertificateOf trace.now (Unwritten n)) }
{
    for n in 0..trace.events() {
        if trace.is_unwritten(n + 1) {
            return Some(n + 1);
        }
    }
    None
}
