//! The inferred rules by chains: each lowers, for each chain, the least number that an edge leads to.
ghost use Rattle.std.specs.Prelude.{◌≡◌, ◌<◌, ⊤, suc, length};
ghost use Rattle.tso_ops.specs.Events.{processor_count, IsLoadAt, IsStore, IsStoreTo, IsSwapLoad, IsEventOf, HasSource};
ghost use Rattle.chain_reach.specs.Groups.{count_of, group_of};
ghost use Rattle.chain_rules.specs.Internal.Lowering.{AreReady, LowersFor};

use crate::lowering::{lower, lower_by_row};
use crate::rows::RowTables;
use tso_cert::InferredRule;

/// The rule StorePast, for load `u` with source `s`: the stores to its address that come after `s`.
pub fn lower_store_past(input: RowTables<'_>, u: usize, s: usize, a: u16, least: &mut [u16])
    requires ready { AreReady input.trace.now input.tables.now input.reach.now }
    requires load { IsLoadAt input.trace.now a u }
    requires source { HasSource input.trace.now u s }
    requires sized { length least.old ≡ count_of input.reach.now.chains }
    ensures { LowersFor input.entry.trace.now input.entry.reach.now InferredRule.StorePast (λ l v. ⊤) u least.old least.new }
{
    for p in 0..input.trace.processors() {
        store_past_of(input, u, s, p, a, least);
    }
}

/// The same for the stores of processor `p`.
fn store_past_of(input: RowTables<'_>, u: usize, s: usize, p: usize, a: u16, least: &mut [u16])
    requires ready { AreReady input.trace.now input.tables.now input.reach.now }
    requires load { IsLoadAt input.trace.now a u }
    requires source { HasSource input.trace.now u s }
    requires processor { p < processor_count input.trace.now }
    requires sized { length least.old ≡ count_of input.reach.now.chains }
    ensures { LowersFor input.entry.trace.now input.entry.reach.now InferredRule.StorePast (λ l v. IsEventOf input.entry.trace.now p v) u least.old least.new }
{
    let stores = &input.tables.stores;
    let slot = input.tables.slot(p, a);
    let Some(any) = stores.list(slot).first() else {
        return;
    };
    let chain = input.reach.chains().group(*any as usize);
    let from = input.reach.first_led(s, chain);
    if from >= input.reach.first_led(u, chain) {
        return;
    }
    if let Some(v) = stores.first_from(slot, from) {
        lower(least, chain, v);
    }
}

/// The rule LoadPast, for store `u`: the sources of the loads of its address that it leads to.
pub fn lower_load_past(input: RowTables<'_>, u: usize, a: u16, least: &mut [u16])
    requires ready { AreReady input.trace.now input.tables.now input.reach.now }
    requires store { IsStoreTo input.trace.now a u }
    requires sized { length least.old ≡ count_of input.reach.now.chains }
    ensures { LowersFor input.entry.trace.now input.entry.reach.now InferredRule.LoadPast (λ l v. ⊤) u least.old least.new }
{
    for p in 0..input.trace.processors() {
        load_past_of(input, u, p, a, least);
    }
}

/// The same for the loads of processor `p`.
fn load_past_of(input: RowTables<'_>, u: usize, p: usize, a: u16, least: &mut [u16])
    requires ready { AreReady input.trace.now input.tables.now input.reach.now }
    requires store { IsStoreTo input.trace.now a u }
    requires processor { p < processor_count input.trace.now }
    requires sized { length least.old ≡ count_of input.reach.now.chains }
    ensures { LowersFor input.entry.trace.now input.entry.reach.now InferredRule.LoadPast (λ l v. IsEventOf input.entry.trace.now p l) u least.old least.new }
{
    let loads = &input.tables.loads;
    let slot = input.tables.slot(p, a);
    let Some(any) = loads.list(slot).first() else {
        return;
    };
    let chain = input.reach.chains().group(*any as usize);
    if let Some(l) = loads.first_from(slot, input.reach.first_led(u, chain)) {
        let count = input.reach.chains().count();
        lower_by_row(least, &input.tables.least, l * count);
    }
}

/// The rule SwapBefore, for store `u`: the loads of the swaps whose stores it leads to.
pub fn lower_swap_before(input: RowTables<'_>, u: usize, least: &mut [u16])
    requires ready { AreReady input.trace.now input.tables.now input.reach.now }
    requires store { IsStore input.trace.now u }
    requires sized { length least.old ≡ count_of input.reach.now.chains }
    ensures { LowersFor input.entry.trace.now input.entry.reach.now InferredRule.SwapBefore (λ l v. ⊤) u least.old least.new }
{
    for d in 0..input.reach.chains().count() {
        swap_before_in(input, u, d, least);
    }
}

/// The same for the swaps whose stores are in chain `d`.
fn swap_before_in(input: RowTables<'_>, u: usize, d: usize, least: &mut [u16])
    requires ready { AreReady input.trace.now input.tables.now input.reach.now }
    requires store { IsStore input.trace.now u }
    requires chain { d < count_of input.reach.now.chains }
    requires sized { length least.old ≡ count_of input.reach.now.chains }
    ensures { LowersFor input.entry.trace.now input.entry.reach.now InferredRule.SwapBefore
        (λ l v. group_of input.entry.reach.now.chains (suc l) ≡ d) u least.old least.new }
{
    let from = input.reach.first_led(u, d);
    if let Some(w) = input.tables.swaps.first_from(d, from) {
        let l = w - 1;
        lower(least, input.reach.chains().group(l), l);
    }
}

/// The rule SwapAfter, for the store of the swap with load `l`: the stores that the load leads to.
pub fn lower_swap_after(input: RowTables<'_>, l: usize, least: &mut [u16])
    requires ready { AreReady input.trace.now input.tables.now input.reach.now }
    requires swap { IsSwapLoad input.trace.now l }
    requires sized { length least.old ≡ count_of input.reach.now.chains }
    ensures { LowersFor input.entry.trace.now input.entry.reach.now InferredRule.SwapAfter (λ k v. ⊤) (suc l) least.old least.new }
{
    for d in 0..input.reach.chains().count() {
        swap_after_in(input, l, d, least);
    }
}

/// The same for the stores of chain `d`.
fn swap_after_in(input: RowTables<'_>, l: usize, d: usize, least: &mut [u16])
    requires ready { AreReady input.trace.now input.tables.now input.reach.now }
    requires swap { IsSwapLoad input.trace.now l }
    requires chain { d < count_of input.reach.now.chains }
    requires sized { length least.old ≡ count_of input.reach.now.chains }
    ensures { LowersFor input.entry.trace.now input.entry.reach.now InferredRule.SwapAfter
        (λ k v. group_of input.entry.reach.now.chains v ≡ d) (suc l) least.old least.new }
{
    let from = input.reach.first_led(l, d);
    let Some(v) = input.reach.chains().first_from(d, from) else {
        return;
    };
    if input.trace.is_store(v) {
        lower(least, d, v);
    }
}
