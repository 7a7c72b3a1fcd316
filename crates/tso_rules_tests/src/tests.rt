//! Worked examples, how many rounds traces take, in which form they are made, and which traces are shown to have no cycle.

mod acyclic;
mod checkers;
mod counts;
mod forms;
mod rounds;
mod runs;
mod texts;
mod worked;

use chain_rules::{RoundCount, count_rounds};
use std::alloc::Global;
use traces_for_tests::has_unwritten_load;
use tso_ops::{OutOfMemory, Trace};

/// How many rounds a trace takes; None where a load is unwritten.
fn counted(alloc: Global, trace: &Trace) -> Result<Option<RoundCount>, OutOfMemory> {
    if has_unwritten_load(trace) {
        return Ok(None);
    }
    let count = count_rounds(alloc, trace)?;
    Ok(Some(count))
}
