//! What the base edges lead to.
ghost use Rattle.std.specs.Prelude.{◌≡◌, ◌<◌, ℕ, IfOk, MatchOption};
ghost use Rattle.tso_ops.specs.Events.{HasSource};
ghost use Rattle.tso_cert.specs.declared.rules.BaseRule.TheVariants.{Read};
ghost use Rattle.tso_model.specs.Rules.{BasePair, IsOwnBy};
ghost use Rattle.tso_rules.specs.Internal.MarkedRows.{IsReadBy};
ghost use Rattle.chain_reach.specs.Groups.{node_count, count_of, IsIn};
ghost use Rattle.chain_reach.specs.Leading.{Leads, LeadsToMore};
ghost use Rattle.chain_rules.specs.Chains.{AreChainsOf};
ghost use Rattle.chain_rules.specs.Internal.BaseJoins.{IsAfter, IsFirstAfter, GrowsByBase};
ghost use Rattle.chain_rules.specs.Rows.{IsRankReach};
ghost use Rattle.chain_rules.specs.Tables.{AreTablesOf};

use crate::ordered::first_ordered;
use crate::types::RuleTables;
use chain_reach::{Groups, Reach};
use std::alloc::Global;
use tso_ops::{OutOfMemory, Trace};

/// What the base edges of a trace lead to; none of its numbers has grown. OutOfMemory where an allocation was refused.
pub fn base_reach(
    alloc: Global,
    trace: &Trace,
    chains: Groups,
    tables: &RuleTables,
) -> Result<Reach, OutOfMemory>
    requires chains { AreChainsOf trace.now chains }
    requires tables { AreTablesOf trace.now chains tables.now }
    ensures chains { IfOk result (λ r. r.chains ≡ chains) }
    ensures reach { IfOk result (IsRankReach trace.now 0) }
    ensures settled { IfOk result (λ r. (x : ℕ) → LeadsToMore r x → ⊥) }
{
    let mut reach = Reach::new(alloc, chains)?;
    for u in 0..trace.node_count() {
        join_later(trace, &mut reach, u);
    }
    join_sources(trace, tables, &mut reach);
    reach.settle();
    // The call is for the proof: its contract says that what a number leads to leads on.
    let _chains = reach.chains();
    Ok(reach)
}

/// Lets number `u` lead to what the rule Init or program order puts after it.
fn join_later(trace: &Trace, reach: &mut Reach, u: usize)
    requires chains { AreChainsOf trace.now reach.old.chains }
    requires from { u < node_count reach.old.chains }
    ensures grows { GrowsByBase trace.now reach.old reach.new }
    ensures led { (v : ℕ) → IsAfter trace.now u v → Leads reach.new u v }
{
    for d in 0..reach.chains().count() {
        if let Some(v) = first_later(trace, reach.chains(), u, d) {
            reach.join(u, v);
        }
    }
}

/// The first event of chain `d` that the rule Init or program order puts after number `u`; None where none is.
fn first_later(trace: &Trace, chains: &Groups, u: usize, d: usize) -> Option<usize>
    requires chains { AreChainsOf trace.now chains.now }
    requires from { u < node_count chains.now }
    requires chain { d < count_of chains.now }
    ensures { MatchOption result ((v : ℕ) → IsIn chains.now d v → IsAfter trace.now u v → ⊥) (IsFirstAfter trace.now chains.now d u) }
{
    let v = chains.first_from(d, u + 1)?;
    if u == 0 {
        return Some(v);
    }
    if !trace.is_earlier(u, v) {
        return None;
    }
    if trace.is_load(u) {
        return Some(v);
    }
    first_ordered(trace, chains.list(d), u)
}

/// Lets lead what the loads give base edges to or from.
fn join_sources(trace: &Trace, tables: &RuleTables, reach: &mut Reach)
    requires chains { AreChainsOf trace.now reach.old.chains }
    requires tables { AreTablesOf trace.now reach.old.chains tables.now }
    ensures grows { GrowsByBase trace.now reach.old reach.new }
    ensures led { (l u v : ℕ) → IsReadBy trace.now u l v → Leads reach.new u v }
{
    for l in 0..trace.node_count() {
        join_reads(trace, tables, reach, l);
    }
}

/// Lets lead what load `l` gives base edges to or from.
fn join_reads(trace: &Trace, tables: &RuleTables, reach: &mut Reach, l: usize)
    requires chains { AreChainsOf trace.now reach.old.chains }
    requires tables { AreTablesOf trace.now reach.old.chains tables.now }
    ensures grows { GrowsByBase trace.now reach.old reach.new }
    ensures led { (u v : ℕ) → IsReadBy trace.now u l v → Leads reach.new u v }
{
    let Some(s) = trace.source_number(l) else {
        return;
    };
    join_source(trace, reach, l, s);
    join_before(trace, tables, reach, l, s);
}

/// Lets the source `s` of load `l` lead to the load, if it is a store and isn't program-earlier.
fn join_source(trace: &Trace, reach: &mut Reach, l: usize, s: usize)
    requires chains { AreChainsOf trace.now reach.old.chains }
    requires source { HasSource trace.now l s }
    ensures grows { GrowsByBase trace.now reach.old reach.new }
    ensures led { BasePair trace.now Read s l → Leads reach.new s l }
{
    if s != 0 && !trace.is_earlier(s, l) {
        reach.join(s, l);
    }
}

/// Lets the stores to the address of load `l` before it on its processor lead to its source `s`: the last of them is
/// joined, if it isn't the source, and the others come before it in its chain.
fn join_before(trace: &Trace, tables: &RuleTables, reach: &mut Reach, l: usize, s: usize)
    requires chains { AreChainsOf trace.now reach.old.chains }
    requires tables { AreTablesOf trace.now reach.old.chains tables.now }
    requires source { HasSource trace.now l s }
    ensures grows { GrowsByBase trace.now reach.old reach.new }
    ensures led { (u : ℕ) → IsOwnBy trace.now l u s → Leads reach.new u s }
{
    let Some(event) = trace.event(l) else {
        return;
    };
    // Two calls for the proof: a number leads to those after it in its chain, and the count of slots is no greater than a
    // `usize` can be.
    let _chains = reach.chains();
    let _slots = tables.stores.count();
    let slot = tables.slot(event.proc, event.a);
    let Some(w) = tables.stores.last_before(slot, l) else {
        return;
    };
    if w != s {
        reach.join(w, s);
    }
}
