//! The rows of one round, which workers claim one by one and compute.
ghost use Rattle.std.specs.Prelude.{◌≡◌, ◌<◌, ◌≤◌, length, All, AllPairs, Err, IfOk, IfErr};
ghost use Rattle.order_graph.specs.Digraphs.{IsEdge};
ghost use Rattle.tso_ops.specs.Values.{rows};
ghost use Rattle.tso_model.specs.NewEdges.{IsNew};
ghost use Rattle.bitsets.specs.Rows.{IsListOf};
ghost use Rattle.round_pool.specs.Claims.{IsFresh, NoneTwice};
ghost use Rattle.round_pool.specs.Internal.WorkerRows.{IsRow, numbers_of, AreOfClaimant, AreOverBase, AreRowsOf};
ghost use Rattle.round_pool.specs.Workers.{worker_limit};

use crate::answers::both_answers;
use crate::claims::{Claimant, Claims};
use crate::faults::PoolFault;
use crate::gates::PoolGate;
use order_graph::Graph;
use std::alloc::Global;
use std::sync::Wait;
use std::thread;
use std::thread::{Promise, PromisedHandle, Scope, Threads};
use tso_ops::{OutOfMemory, Trace};
use tso_rules::{SourceMasks, row_edges_over_base};

/// What the rows of a round are computed from.
#[derive(Clone, Copy)]
pub struct RowInput<'a> {
    pub trace: &'a Trace,
    pub graph: &'a Graph,
    pub masks: &'a SourceMasks,
}

/// A row that a worker claimed and computed: the numbers to which a round adds edges from `number`.
#[derive(Drop)]
struct ComputedRow {
    number: usize,
    row: Vec<u16>,
}

/// The rows that one worker or several computed, and the claimant that claimed them.
#[derive(Drop)]
struct WorkerRows {
    rows: Vec<ComputedRow>,
    claimant: Claimant,
}

/// What all workers of a round share: what rows are computed from, and the claims by which they share them out.
#[derive(Clone, Copy)]
struct Work<'a> {
    input: RowInput<'a>,
    claims: &'a Claims,
}

/// What a thread promises of its worker: its rows are those that it claimed.
impl<'a> Promise<Result<WorkerRows, OutOfMemory>> for Work<'a> {
    ghost use Rattle.std.specs.Prelude.{IfOk};
    ghost use Rattle.round_pool.specs.Internal.WorkerRows.{AreOfClaimant};

    ghost kept_by = { λ p r. IfOk r (AreOfClaimant p.input.trace.now p.input.graph.now p.claims.now) };
}

/// A row in 16 bits for each number.
fn narrowed(alloc: Global, row: &[usize]) -> Result<Vec<u16>, OutOfMemory>
    requires { All (λ v. v < 65536) row.now }
    ensures { IfOk result (λ narrow. narrow.items ≡ row.now) }
{
    let mut narrow = Vec::with_capacity(alloc, row.len())?;
    for v in row {
        narrow.push(*v as u16)?;
    }
    Ok(narrow)
}

/// Computes the numbers to which a round adds edges from `number`. They are kept in 16 bits, since a round can add a million
/// edges.
fn compute_row(alloc: Global, input: RowInput<'_>, number: usize) -> Result<Vec<u16>, OutOfMemory>
    requires base { AreOverBase input.trace.now input.graph.now input.masks.now }
    ensures { IfOk result (λ row. IsListOf row.items (IsNew input.entry.trace.now (IsEdge input.entry.graph.now) number)) }
{
    let _events = input.trace.events();
    let row = row_edges_over_base(alloc, input.trace, input.masks, input.graph, number)?;
    narrowed(alloc, &row)
}

/// What a worker does in its thread: it claims rows until none is left, and computes each; it calls the gate before each.
/// OutOfMemory where an allocation was refused.
fn worker_loop<G: PoolGate>(
    alloc: Global,
    work: Work<'_>,
    mut claimant: Claimant,
    gate: &G,
    worker: usize,
) -> Result<WorkerRows, OutOfMemory>
    requires fresh { IsFresh work.claims.now claimant }
    requires base { AreOverBase work.input.trace.now work.input.graph.now work.input.masks.now }
    ensures { IfOk result (AreOfClaimant work.entry.input.trace.now work.entry.input.graph.now work.entry.claims.now) }
{
    let mut rows = Vec::new(alloc);
    while let Some(number) = work.claims.claim(&mut claimant) {
        gate.row(worker, number);
        let row = compute_row(alloc, work.input, number)?;
        rows.push(ComputedRow { number, row })?;
    }
    Ok(WorkerRows { rows, claimant })
}

/// Starts the thread of a worker, which runs `worker_loop`. NoThread where the system refused the thread.
fn start_worker<'s, E, G: PoolGate + Sync>(
    scope: &'s Scope<'s, E>,
    alloc: Global,
    work: Work<'s>,
    claimant: Claimant,
    gate: &'s G,
    worker: usize,
) -> Result<PromisedHandle<Result<WorkerRows, OutOfMemory>, Work<'s>>, PoolFault>
    requires fresh { IsFresh work.claims.now claimant }
    requires base { AreOverBase work.input.trace.now work.input.graph.now work.input.masks.now }
    ensures started { IfOk result (λ child. child.promise ≡ work.entry) }
    ensures refused { IfErr result (λ fault. fault ≡ PoolFault.NoThread) }
{
    // What a closure ensures can name references that it captures, but no struct of references: so the thread puts the work
    // together again.
    let RowInput {
        trace,
        graph,
        masks,
    } = work.input;
    let claims = work.claims;
    let job = move || -> Result<WorkerRows, OutOfMemory>
        requires fresh { IsFresh claims.now claimant }
        requires base { AreOverBase trace.now graph.now masks.now }
        ensures { IfOk result (AreOfClaimant trace.entry.now graph.entry.now claims.entry.now) }
    {
        let input = RowInput {
            trace,
            graph,
            masks,
        };
        let work = Work { input, claims };
        worker_loop(alloc, work, claimant, gate, worker)
    };
    match scope.spawn_with(work, job) {
        Ok(child) => Ok(child),
        Err(_) => Err(PoolFault::NoThread),
    }
}

/// The rows of a worker and of those before it in one list, or the fault that is reported of both; OutOfMemory also where
/// that list found no memory.
fn merge_rows(
    work: Work<'_>,
    own: Result<WorkerRows, OutOfMemory>,
    rest: Result<WorkerRows, PoolFault>,
) -> Result<WorkerRows, PoolFault>
    requires own { IfOk own (AreOfClaimant work.input.trace.now work.input.graph.now work.claims.now) }
    requires rest { IfOk rest (AreOfClaimant work.input.trace.now work.input.graph.now work.claims.now) }
    ensures memory { IfErr own (λ _. result ≡ Err PoolFault.OutOfMemory) }
    ensures rest { IfOk own (λ _. IfErr rest (λ fault. result ≡ Err fault)) }
    ensures joined { IfOk own (λ _. IfOk rest (λ _. IfErr result (λ fault. fault ≡ PoolFault.OutOfMemory))) }
    ensures rows { IfOk result (AreOfClaimant work.entry.input.trace.now work.entry.input.graph.now work.entry.claims.now) }
{
    let (mut one, mut more) = both_answers(own, rest)?;
    work.claims.join(&mut one.claimant, more.claimant);
    one.rows.append(&mut more.rows)?;
    Ok(one)
}

/// Runs a worker for each claimant, the first in the caller's thread and each other in a thread of the scope, and merges
/// their rows. All threads that were started are joined.
fn start_and_join<'s, E, H: Threads, G: PoolGate + Sync>(
    scope: &'s Scope<'s, E>,
    rt: &H,
    alloc: Global,
    work: Work<'s>,
    gate: &'s G,
    mut claimants: Vec<Claimant>,
) -> Result<WorkerRows, PoolFault>
    requires some { 1 ≤ length claimants.items }
    requires fresh { All (IsFresh work.claims.now) claimants.items }
    requires base { AreOverBase work.input.trace.now work.input.graph.now work.input.masks.now }
    ensures { IfOk result (AreOfClaimant work.entry.input.trace.now work.entry.input.graph.now work.entry.claims.now) }
{
    let claimant = claimants.pop().unwrap();
    let worker = claimants.len();
    if worker == 0 {
        return Ok(worker_loop(alloc, work, claimant, gate, worker)?);
    }
    let child = start_worker(scope, alloc, work, claimant, gate, worker)?;
    let rest = start_and_join(scope, rt, alloc, work, gate, claimants);
    merge_rows(work, child.join(rt), rest)
}

/// Runs `start_and_join` in a scope for threads.
fn run_in_scope<H: Threads + Wait, G: PoolGate + Sync>(
    rt: &H,
    alloc: Global,
    work: Work<'_>,
    gate: &G,
    claimants: Vec<Claimant>,
) -> Result<WorkerRows, PoolFault>
    requires some { 1 ≤ length claimants.items }
    requires fresh { All (IsFresh work.claims.now) claimants.items }
    requires base { AreOverBase work.input.trace.now work.input.graph.now work.input.masks.now }
    ensures { IfOk result (AreOfClaimant work.entry.input.trace.now work.entry.input.graph.now work.entry.claims.now) }
{
    let RowInput {
        trace,
        graph,
        masks,
    } = work.input;
    let claims = work.claims;
    thread::scope(
        thread::scope_env(),
        rt,
        move |scope| -> Result<WorkerRows, PoolFault>
            requires some { 1 ≤ length claimants.items }
            requires fresh { All (IsFresh claims.now) claimants.items }
            requires base { AreOverBase trace.now graph.now masks.now }
            ensures { IfOk result (AreOfClaimant trace.entry.now graph.entry.now claims.entry.now) }
        {
            let input = RowInput {
                trace,
                graph,
                masks,
            };
            let work = Work { input, claims };
            start_and_join(scope, rt, alloc, work, gate, claimants)
        },
    )
}

/// The rows that the workers of these claimants compute, none of them twice.
fn rows_of_workers<H: Threads + Wait, G: PoolGate + Sync>(
    rt: &H,
    alloc: Global,
    work: Work<'_>,
    gate: &G,
    claimants: Vec<Claimant>,
) -> Result<Vec<ComputedRow>, PoolFault>
    requires some { 1 ≤ length claimants.items }
    requires fresh { All (IsFresh work.claims.now) claimants.items }
    requires base { AreOverBase work.input.trace.now work.input.graph.now work.input.masks.now }
    ensures each { IfOk result (λ made. All (IsRow work.entry.input.trace.now work.entry.input.graph.now) made.items) }
    ensures once { IfOk result (λ made. NoneTwice (numbers_of made.items)) }
{
    let made = run_in_scope(rt, alloc, work, gate, claimants)?;
    Ok(made.rows)
}

/// The row of a number: the last of these rows where it is the number's, which is taken from them then, else computed.
fn take_or_compute_row(
    alloc: Global,
    input: RowInput<'_>,
    computed: &mut Vec<ComputedRow>,
    number: usize,
) -> Result<Vec<u16>, OutOfMemory>
    requires each { All (IsRow input.trace.now input.graph.now) computed.old.items }
    requires base { AreOverBase input.trace.now input.graph.now input.masks.now }
    ensures each { All (IsRow input.entry.trace.now input.entry.graph.now) computed.new.items }
    ensures row { IfOk result (λ row. IsListOf row.items (IsNew input.entry.trace.now (IsEdge input.entry.graph.now) number)) }
{
    match computed.last() {
        Some(last) if last.number == number => {
            let found = computed.pop().unwrap();
            Ok(found.row)
        }
        _ => compute_row(alloc, input, number),
    }
}

/// The rows of these numbers, in their order; the caller computes those that no worker computed. OutOfMemory where an
/// allocation was refused.
fn rows_in_order(
    alloc: Global,
    input: RowInput<'_>,
    numbers: &[usize],
    mut computed: Vec<ComputedRow>,
) -> Result<Vec<Vec<u16>>, OutOfMemory>
    requires each { All (IsRow input.trace.now input.graph.now) computed.items }
    requires base { AreOverBase input.trace.now input.graph.now input.masks.now }
    ensures { IfOk result (λ made. AreRowsOf input.entry.trace.now input.entry.graph.now numbers.now (rows made.items)) }
{
    computed.sort_by(|one, other| other.number.cmp(&one.number))?;
    let mut made = Vec::new(alloc);
    for number in numbers {
        made.push(take_or_compute_row(alloc, input, &mut computed, *number)?)?;
    }
    Ok(made)
}

/// The rows of these numbers, in their order, all computed in the caller's thread. It calls the gate before each, as worker 0.
/// OutOfMemory where an allocation was refused.
fn rows_of_caller<G: PoolGate>(
    alloc: Global,
    input: RowInput<'_>,
    gate: &G,
    numbers: &[usize],
) -> Result<Vec<Vec<u16>>, OutOfMemory>
    requires base { AreOverBase input.trace.now input.graph.now input.masks.now }
    ensures { IfOk result (λ made. AreRowsOf input.entry.trace.now input.entry.graph.now numbers.now (rows made.items)) }
{
    let mut computed = Vec::with_capacity(alloc, numbers.len())?;
    for number in numbers {
        gate.row(0, *number);
        computed.push(compute_row(alloc, input, *number)?)?;
    }
    Ok(computed)
}

/// The rows of edges that a round adds to the graph of a rank set from these numbers, in their order.
///
/// They are shared among `workers` threads, 1 to 64, of which the caller's is the first: each claims one row after the
/// other, and calls the gate before it computes a row. The caller alone computes them without claims: most rounds have few
/// rows, and claims take longer than they do.
///
/// OutOfMemory where an allocation was refused, the caller's or a worker's; else NoThread where the system refused a
/// thread. All threads are joined on each.
pub fn rows_by_workers<H: Threads + Wait, G: PoolGate + Sync>(
    rt: &H,
    alloc: Global,
    input: RowInput<'_>,
    gate: &G,
    workers: usize,
    numbers: &[usize],
) -> Result<Vec<Vec<u16>>, PoolFault>
    requires base { AreOverBase input.trace.now input.graph.now input.masks.now }
    requires ascending { AllPairs (λ x y. x < y) numbers.now }
    requires some { 1 ≤ workers }
    requires most { workers ≤ worker_limit }
    ensures { IfOk result (λ made. AreRowsOf input.entry.trace.now input.entry.graph.now numbers.now (rows made.items)) }
{
    if workers == 1 {
        return Ok(rows_of_caller(alloc, input, gate, numbers)?);
    }
    let (claims, claimants) = Claims::new(alloc, numbers.to_vec(alloc)?, workers)?;
    let work = Work {
        input,
        claims: &claims,
    };
    let computed = rows_of_workers(rt, alloc, work, gate, claimants)?;
    Ok(rows_in_order(alloc, input, numbers, computed)?)
}
