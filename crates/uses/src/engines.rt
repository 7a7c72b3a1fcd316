//! Of the engines, which find from values.

ghost use Rattle.std.specs.Prelude.{ℕ};
ghost use Rattle.tso_ops.specs.Events.{IsUnwritten};

use acyclic_traces::is_shown_acyclic;
use chain_rules::{RoundCount, count_rounds};
use final_states::{FinalState, StatesFault, final_states};
use log_search::{DecisionFound, Found, Search, ValueFound, ValueSearch, decide};
use log_selections::{Kept, KnownLog, Selected};
use log_text::Log;
use log_thinning::{Thinned, read_idle_swaps, thin};
use order_graph::Graph;
use program_chains::ProgramOrder;
use progress_meters::NoMeter;
use round_pool::{OpenPoolGate, PoolFault, Ranked, rounds};
use search_memory::Memory;
use std::alloc::{AllocError, Global};
use std::sync::Wait;
use std::thread::Threads;
use tso_cert::Reason;
use tso_ops::{OutOfMemory, Program, Trace};
use tso_rules::justify;

/// `acyclic_traces`: whether a short trace is shown to have no cycle.
pub fn show_a_trace_acyclic(trace: &Trace) -> bool {
    is_shown_acyclic(trace)
}

/// `chain_rules`: how many rounds a trace takes, by chains.
pub fn count_the_rounds(alloc: Global, trace: &Trace) -> Result<RoundCount, AllocError>
    requires written { (l : ℕ) → IsUnwritten trace.now l → ⊥ }
{
    let count = count_rounds(alloc, trace)?;
    Ok(count)
}

/// `search_memory`: a list, unless its memory is refused.
pub fn list_squares(alloc: Global) -> Result<Vec<u32>, OutOfMemory> {
    let memory = Memory::new(alloc);
    let mut squares = Vec::new(memory.alloc());
    memory.push(&mut squares, 4);
    let squares = memory.whole(squares)?;
    Ok(squares)
}

/// `round_pool`: the rounds of a trace, by four workers.
pub fn rank_edges<H: Threads + Wait>(
    rt: &H,
    alloc: Global,
    trace: &Trace,
) -> Result<Ranked, PoolFault>
    requires written { (l : ℕ) → IsUnwritten trace.now l → ⊥ }
{
    let ranked = rounds(rt, alloc, trace, 4, &OpenPoolGate)?;
    Ok(ranked)
}

/// `tso_rules`: why a rule gives the edge from event 1 to event 2.
pub fn reason_of_an_edge(
    alloc: Global,
    trace: &Trace,
    graph: &Graph,
) -> Result<Option<Reason>, AllocError> {
    let found = justify(alloc, trace, graph, 1, 2)?;
    Ok(found)
}

/// `final_states`: what complete runs of a program leave.
pub fn states_of_a_program(
    alloc: Global,
    program: &Program,
) -> Result<Vec<FinalState>, StatesFault> {
    let states = final_states(alloc, program, 1_000_000)?;
    Ok(states)
}

/// `log_selections`: the operations of a log that are kept, as a trace.
pub fn select_of_a_log(
    alloc: Global,
    log: Log,
    kept: &[Vec<Kept>],
) -> Result<Option<Selected>, AllocError> {
    let known = KnownLog::new(alloc, log)?;
    let selected = known.select(alloc, kept)?;
    Ok(selected)
}

/// `log_search`: the first operations of a log that should have no order.
pub fn search_a_log(alloc: Global, known: &KnownLog) -> Result<Found, AllocError> {
    let mut search = Search::new(alloc, known, 100)?;
    let found = search.next(alloc, &NoMeter)?;
    Ok(found)
}

/// `log_search`: why a log in which values repeat should have no order.
pub fn search_a_log_by_values(alloc: Global, known: &KnownLog) -> Result<ValueFound, OutOfMemory> {
    let mut values = ValueSearch::new(alloc, known, 100)?;
    let violation = values.run(alloc, &NoMeter)?;
    Ok(violation)
}

/// `log_search`: an order of a log's stores, or a refutation of all orders.
pub fn search_a_log_for_an_order(
    alloc: Global,
    known: &KnownLog,
) -> Result<DecisionFound, OutOfMemory> {
    let decision = decide(alloc, known, 100)?;
    Ok(decision)
}

/// `log_thinning`: a log without loads that say no more than others.
pub fn thin_a_log(alloc: Global, log: Log) -> Result<Thinned, OutOfMemory> {
    let read = read_idle_swaps(alloc, &log)?;
    let thinned = thin(alloc, read)?;
    Ok(thinned)
}

/// `program_chains`: whether the program of a log alone puts one event before another.
pub fn order_of_a_program(
    alloc: Global,
    log: &Log,
    x: usize,
    y: usize,
) -> Result<bool, OutOfMemory> {
    let order = ProgramOrder::of_log(alloc, log)?;
    let nodes = order.reach.chains().nodes();
    if x >= nodes || y >= nodes {
        return Ok(false);
    }
    let before = order.reach.leads(x, y);
    Ok(before)
}
