//! Rows of new edges by chains.
ghost use Rattle.std.specs.Prelude.{◌≡◌, ◌↔◌, ℕ, ◌<◌, Some, IfOk, IsTrue, length, slice_index};
ghost use Rattle.tso_ops.specs.Events.{event_at, IsLoadAt, IsStoreTo};
ghost use Rattle.chain_reach.specs.Groups.{node_count, count_of, group_of};
ghost use Rattle.chain_reach.specs.Leading.{Leads};
ghost use Rattle.chain_rules.specs.Chains.{AreChainsOf};
ghost use Rattle.chain_rules.specs.Internal.Lowering.{AreReady, LowersToNew, IsUnled, AreLeft};
ghost use Rattle.chain_rules.specs.Rows.{IsLeastRow};
ghost use Rattle.chain_rules.specs.Tables.{AreTablesOf};

use crate::rules::{lower_load_past, lower_store_past, lower_swap_after, lower_swap_before};
use crate::types::RuleTables;
use chain_reach::Reach;
use std::alloc::Global;
use tso_ops::{Event, OutOfMemory, Trace};

/// What rows are computed from.
#[derive(Clone, Copy)]
pub struct RowTables<'a> {
    /// The trace.
    pub trace: &'a Trace,
    /// The trace's tables, for the chains of `reach`.
    pub tables: &'a RuleTables,
    /// What leads to what by the edges so far.
    pub reach: &'a Reach,
}

/// Of each chain the first number to which an inferred rule gives an edge from `u` by what leads on, and to which `u` doesn't
/// lead. OutOfMemory where an allocation was refused.
///
/// It takes a few searches in the lists of each chain.
pub fn least_row(alloc: Global, input: RowTables<'_>, u: usize) -> Result<Vec<u16>, OutOfMemory>
    requires chains { AreChainsOf input.trace.now input.reach.now.chains }
    requires tables { AreTablesOf input.trace.now input.reach.now.chains input.tables.now }
    requires acyclic { (x : ℕ) → Leads input.reach.now x x → ⊥ }
    ensures { IfOk result (λ row. IsLeastRow input.entry.trace.now input.entry.reach.now u row.items) }
{
    let Some(event) = input.trace.event(u) else {
        return Ok(Vec::new(alloc));
    };
    let nodes = input.trace.node_count();
    let mut least = vec![in alloc; nodes as u16; input.reach.chains().count()]?;
    lower_by_rules(input, u, event, &mut least);
    new_numbers(alloc, input.reach, u, &least)
}

/// Lowers the least numbers by all rules that give edges from event `u`.
fn lower_by_rules(input: RowTables<'_>, u: usize, event: Event, least: &mut [u16])
    requires ready { AreReady input.trace.now input.tables.now input.reach.now }
    requires event { event_at input.trace.now u ≡ Some event }
    requires sized { length least.old ≡ count_of input.reach.now.chains }
    ensures { LowersToNew input.entry.trace.now input.entry.reach.now u least.old least.new }
{
    if event.load {
        lower_by_load(input, u, event.a, least);
    } else {
        lower_by_store(input, u, event.a, least);
    }
}

/// The same for load `u` of address `a`.
fn lower_by_load(input: RowTables<'_>, u: usize, a: u16, least: &mut [u16])
    requires ready { AreReady input.trace.now input.tables.now input.reach.now }
    requires load { IsLoadAt input.trace.now a u }
    requires sized { length least.old ≡ count_of input.reach.now.chains }
    ensures { LowersToNew input.entry.trace.now input.entry.reach.now u least.old least.new }
{
    if let Some(s) = input.trace.source_number(u) {
        lower_store_past(input, u, s, a, least);
    }
}

/// The same for store `u` to address `a`.
fn lower_by_store(input: RowTables<'_>, u: usize, a: u16, least: &mut [u16])
    requires ready { AreReady input.trace.now input.tables.now input.reach.now }
    requires store { IsStoreTo input.trace.now a u }
    requires sized { length least.old ≡ count_of input.reach.now.chains }
    ensures { LowersToNew input.entry.trace.now input.entry.reach.now u least.old least.new }
{
    lower_load_past(input, u, a, least);
    lower_swap_before(input, u, least);
    let l = u - 1;
    if input.trace.swap_store(l).is_some() {
        lower_swap_after(input, l, least);
    }
}

/// The least numbers of the chains to which `u` doesn't lead, but not `u` itself.
fn new_numbers(
    alloc: Global,
    reach: &Reach,
    u: usize,
    least: &[u16],
) -> Result<Vec<u16>, OutOfMemory>
    requires number { u < node_count reach.now.chains }
    requires sized { length least.now ≡ count_of reach.now.chains }
    requires members { (d : ℕ) → d < length least.now → slice_index least.now d < node_count reach.now.chains →
        group_of reach.now.chains (slice_index least.now d) ≡ d }
    ensures { IfOk result (λ row. AreLeft reach.now u least.now (length least.now) row.items) }
{
    let mut row = Vec::new(alloc);
    for d in 0..least.len() {
        if is_left(reach, u, d, least[d] as usize) {
            row.push(least[d])?;
        }
    }
    Ok(row)
}

/// Whether `v` is a number, which is then in chain `d`, but not `u`, and `u` doesn't lead to it.
fn is_left(reach: &Reach, u: usize, d: usize, v: usize) -> bool
    requires number { u < node_count reach.now.chains }
    requires chain { d < count_of reach.now.chains }
    requires member { v < node_count reach.now.chains → group_of reach.now.chains v ≡ d }
    ensures { IsTrue result ↔ IsUnled reach.now u v }
{
    if v == u || v >= reach.chains().nodes() {
        return false;
    }
    v < reach.first_led(u, d)
}
