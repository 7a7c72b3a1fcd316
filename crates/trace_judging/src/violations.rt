//! Whether a trace is a violation, found without its certificate.
ghost use Rattle.std.specs.Prelude.{◌≡◌, ◌⊎◌, ◌↔◌, ◌≤◌, ℕ, IsTrue, IfErr, IfOk};
ghost use Rattle.order_graph.specs.Digraphs.{IsEdge};
ghost use Rattle.order_paths.specs.Paths.{HasCycle};
ghost use Rattle.round_pool.specs.Workers.{worker_limit};
ghost use Rattle.tso_ops.specs.Events.{IsUnwritten};
ghost use Rattle.tso_model.specs.Axioms.{IsConsistent};
ghost use Rattle.tso_model.specs.Rules.{HasDerivedCycle};
ghost use Rattle.text_streams.specs.declared.faults.Fault.{Fault};
ghost use Rattle.trace_reports.specs.Violations.{IsViolation};

use crate::findings::least_unwritten;
use crate::rankings::fault_of;
use acyclic_traces::is_shown_acyclic;
use chain_rules::{RoundForm, count_rounds};
use order_graph::Graph;
use round_pool::{PoolGate, rounds};
use std::alloc::Global;
use std::sync::Wait;
use std::sync::atomic::{AtomicUsize, Ordering};
use std::thread::Threads;
use text_streams::Fault;
use tso_ops::{OutOfMemory, Trace};

/// Whether a trace is a violation, and how much work it was to find out.
#[derive(Clone, Copy, Debug, PartialEq, Eq)]
pub struct Trial {
    /// Whether it is one.
    pub is_violation: bool,
    /// How many rounds were made.
    pub rounds: u64,
    /// How many rows they computed.
    pub rows: u64,
}

/// Counts the rows of rounds.
#[derive(Drop)]
struct RowCounter {
    rows: AtomicUsize,
}

impl PoolGate for RowCounter {
    fn row(&self, _worker: usize, _row: usize) {
        self.rows.fetch_add(1, Ordering::SeqCst);
    }
}

/// Whether a trace is a violation, found on `workers` workers (1 to 64) as `ByRules` finds it, but without a certificate. If it
/// is one, it has no order of its model.
///
/// Faults: OutOfMemory where an allocation was refused, NoThread where the system refused a thread.
pub fn is_violation<H: Threads + Wait>(
    rt: &H,
    alloc: Global,
    trace: &Trace,
    workers: usize,
) -> Result<bool, Fault>
    requires some { 1 ≤ workers }
    requires most { workers ≤ worker_limit }
    ensures violation { IfOk result (λ is. IsTrue is ↔ IsViolation trace.now) }
    ensures no_order { IfOk result (λ is. IsTrue is → IsConsistent trace.now → ⊥) }
    ensures fault { IfErr result (λ fault. (fault ≡ Fault.OutOfMemory) ⊎ (fault ≡ Fault.NoThread)) }
{
    // Its clause `kept`, that the trace is within the limits of traces, is what `no_order` rests on.
    let _events = trace.events();
    let trial = try_trace(rt, alloc, trace, workers)?;
    Ok(trial.is_violation)
}

/// Finds out what `is_violation` does, with the same faults, and counts rounds and rows.
///
/// A load of what nothing wrote takes no round, nor does a short trace that is shown to have no cycle, which takes less time.
pub fn try_trace<H: Threads + Wait>(
    rt: &H,
    alloc: Global,
    trace: &Trace,
    workers: usize,
) -> Result<Trial, Fault>
    requires some { 1 ≤ workers }
    requires most { workers ≤ worker_limit }
    ensures violation { IfOk result (λ trial. IsTrue trial.is_violation ↔ IsViolation trace.now) }
    ensures fault { IfErr result (λ fault. (fault ≡ Fault.OutOfMemory) ⊎ (fault ≡ Fault.NoThread)) }
{
    match least_unwritten(trace) {
        Some(_) => Ok(without_rounds(true)),
        None => try_written(rt, alloc, trace, workers),
    }
}

/// Whether the derived order of a trace in which no load is unwritten has a cycle, with the same faults.
fn try_written<H: Threads + Wait>(
    rt: &H,
    alloc: Global,
    trace: &Trace,
    workers: usize,
) -> Result<Trial, Fault>
    requires written { (l : ℕ) → IsUnwritten trace.now l → ⊥ }
    requires some { 1 ≤ workers }
    requires most { workers ≤ worker_limit }
    ensures cycle { IfOk result (λ trial. IsTrue trial.is_violation ↔ HasDerivedCycle trace.now) }
    ensures fault { IfErr result (λ fault. (fault ≡ Fault.OutOfMemory) ⊎ (fault ≡ Fault.NoThread)) }
{
    if is_shown_acyclic(trace) {
        return Ok(without_rounds(false));
    }
    match RoundForm::of(trace) {
        RoundForm::Chains => Ok(try_chains(alloc, trace)?),
        RoundForm::BitRows => try_bit_rows(rt, alloc, trace, workers),
    }
}

/// What is found without a round.
fn without_rounds(is_violation: bool) -> Trial
    ensures { result.is_violation ≡ is_violation }
{
    Trial {
        is_violation,
        rounds: 0,
        rows: 0,
    }
}

/// Whether rounds by chains end with a cycle. OutOfMemory where an allocation was refused.
fn try_chains(alloc: Global, trace: &Trace) -> Result<Trial, OutOfMemory>
    requires { (l : ℕ) → IsUnwritten trace.now l → ⊥ }
    ensures { IfOk result (λ trial. IsTrue trial.is_violation ↔ HasDerivedCycle trace.now) }
{
    let count = count_rounds(alloc, trace)?;
    Ok(Trial {
        is_violation: count.is_cyclic,
        rounds: count.rounds,
        rows: count.rows,
    })
}

/// Whether rounds by rows of bits end with a cycle. Faults: OutOfMemory where an allocation was refused, NoThread where the system
/// refused a thread.
fn try_bit_rows<H: Threads + Wait>(
    rt: &H,
    alloc: Global,
    trace: &Trace,
    workers: usize,
) -> Result<Trial, Fault>
    requires written { (l : ℕ) → IsUnwritten trace.now l → ⊥ }
    requires some { 1 ≤ workers }
    requires most { workers ≤ worker_limit }
    ensures cycle { IfOk result (λ trial. IsTrue trial.is_violation ↔ HasDerivedCycle trace.now) }
    ensures fault { IfErr result (λ fault. (fault ≡ Fault.OutOfMemory) ⊎ (fault ≡ Fault.NoThread)) }
{
    let counter = RowCounter {
        rows: AtomicUsize::new(0),
    };
    match rounds(rt, alloc, trace, workers, &counter) {
        Ok(ranked) => Ok(Trial {
            is_violation: has_cycle(ranked.last()),
            rounds: ranked.rounds(),
            rows: counter.rows.load(Ordering::SeqCst) as u64,
        }),
        Err(fault) => Err(fault_of(fault)),
    }
}

/// Whether a number of the graph reaches itself.
fn has_cycle(graph: &Graph) -> bool
    ensures { IsTrue result ↔ HasCycle (IsEdge graph.now) }
{
    for x in 0..graph.nodes() {
        if graph.reaches(x, x) {
            return true;
        }
    }
    false
}
