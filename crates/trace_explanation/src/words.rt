//! The words of each rule, in short and in full.
ghost use Rattle.std.specs.Prelude.{◌≡◌, ◌≢◌, ℕ, [], string_bytes, IfOk};
ghost use Rattle.std.specs.Option.{option_map_or};
ghost use Rattle.tso_ops.specs.Values.{TraceValue};
ghost use Rattle.tso_cert.specs.declared.rules.BaseRule.{BaseRule};
ghost use Rattle.tso_cert.specs.declared.rules.InferredRule.{InferredRule};
ghost use Rattle.trace_explanation.specs.Namings.{name_text, NamingValue};
ghost use Rattle.trace_explanation.specs.Places.{read_text};
ghost use Rattle.trace_explanation.specs.Steps.{own_load};
ghost use Rattle.trace_explanation.specs.Words.{base_long, base_short, inferred_long, inferred_short, kept_stores, path_text, reason_by, reason_long, reason_short};

use crate::loads::own_load;
use crate::names::NamedTrace;
use crate::numbers::NumberedSteps;
use crate::rule_sentences::{
    AFTER_BOTH, ATOMIC_SWAP, BEFORE_BOTH, INIT_LONG, INIT_SHORT, LOAD_OP_LONG, MEMBAR_LONG,
    MEMBAR_SHORT, PROGRAM_ORDER, PSO_STORES_LONG, READ_LONG, READ_OLDER, READ_SHORT, READS_LAST,
    SEES_ONE_READ_OTHER, SEES_STORE, STBAR_LONG, STBAR_SHORT, TSO_STORES_LONG, WOULD_HAVE_READ,
};
use std::alloc::{AllocError, Global};
use tso_cert::{BaseRule, CertStep, InferredRule, Reason};
use tso_ops::Order;

/// Why the edge of a step holds, in short. OutOfMemory where an allocation was refused.
pub(crate) fn short_words(
    alloc: Global,
    named: &NamedTrace<'_>,
    step: &CertStep,
) -> Result<String, AllocError>
    ensures { IfOk result (λ text. string_bytes text ≡ reason_short named.now.names.now named.now.trace.now step.now.from step.now.to step.now.reason) }
{
    match &step.reason {
        Reason::Base(rule) => base_short(alloc, named, *rule, step.from as usize, step.to as usize),
        Reason::Inferred { rule, load, .. } => inferred_short(alloc, named, *rule, *load as usize),
    }
}

/// A base rule in short, for the edge from `u` to `v`.
#[tactic(auto, unfolding(crate::specs::Words::base_short))]
fn base_short(
    alloc: Global,
    named: &NamedTrace<'_>,
    rule: BaseRule,
    u: usize,
    v: usize,
) -> Result<String, AllocError>
    ensures { IfOk result (λ text. string_bytes text ≡ base_short named.now.names.now named.now.trace.now rule u v) }
{
    match rule {
        BaseRule::Init => String::from_str(alloc, INIT_SHORT),
        BaseRule::LoadOp | BaseRule::StoreStore => String::from_str(alloc, PROGRAM_ORDER),
        BaseRule::Stbar => String::from_str(alloc, STBAR_SHORT),
        BaseRule::Membar => String::from_str(alloc, MEMBAR_SHORT),
        BaseRule::Read => String::from_str(alloc, READ_SHORT),
        BaseRule::Own => {
            let load = load_name(named, own_load(named.trace, u, v));
            format!(in alloc; "{load}{SEES_ONE_READ_OTHER}")
        },
    }
}

/// An inferred rule in short, for load `l`.
#[tactic(auto, unfolding(crate::specs::Words::inferred_short))]
fn inferred_short(
    alloc: Global,
    named: &NamedTrace<'_>,
    rule: InferredRule,
    l: usize,
) -> Result<String, AllocError>
    ensures { IfOk result (λ text. string_bytes text ≡ inferred_short named.now.names.now rule l) }
{
    match rule {
        InferredRule::LoadPast => {
            let load = named.names.name(l);
            format!(in alloc; "{load}{SEES_ONE_READ_OTHER}")
        },
        InferredRule::StorePast => String::from_str(alloc, READ_OLDER),
        InferredRule::SwapBefore | InferredRule::SwapAfter => String::from_str(alloc, ATOMIC_SWAP),
    }
}

/// Why the edge of a step holds, in full. OutOfMemory where an allocation was refused.
pub(crate) fn long_words(
    alloc: Global,
    named: &NamedTrace<'_>,
    numbered: &NumberedSteps<'_>,
    step: &CertStep,
) -> Result<String, AllocError>
    ensures { IfOk result (λ text. string_bytes text ≡ reason_long named.now.names.now named.now.trace.now numbered.now step.now.from step.now.to
        step.now.reason) }
{
    let by = path_words(alloc, numbered, &step.reason)?;
    reason_words(alloc, named, step, &by)
}

/// The steps on which the path of a reason rests.
fn path_words(
    alloc: Global,
    numbered: &NumberedSteps<'_>,
    reason: &Reason,
) -> Result<String, AllocError>
    ensures { IfOk result (λ text. string_bytes text ≡ path_text numbered.now reason.now) }
{
    match reason {
        Reason::Base(_) => Ok(String::new(alloc)),
        Reason::Inferred { path, .. } => numbered.by(alloc, path.items()),
    }
}

/// Why the edge of a step holds, in full, where `by` says on which steps its path rests, as `steps 2, 5`. OutOfMemory where an
/// allocation was refused.
pub fn reason_words(
    alloc: Global,
    named: &NamedTrace<'_>,
    step: &CertStep,
    by: &str,
) -> Result<String, AllocError>
    ensures { IfOk result (λ text. string_bytes text ≡ reason_by named.now.names.now named.now.trace.now by.now step.now.from step.now.to step.now.reason) }
{
    match &step.reason {
        Reason::Base(rule) => base_long(alloc, named, *rule, step.from as usize, step.to as usize),
        Reason::Inferred { rule, load, .. } => {
            let l = *load as usize;
            match rule {
                InferredRule::LoadPast => load_past(alloc, named, l, by),
                InferredRule::StorePast => store_past(alloc, named, l, by),
                InferredRule::SwapBefore => swap_before(alloc, named, step.from as usize, l, by),
                InferredRule::SwapAfter => swap_after(alloc, named, step.to as usize, l, by),
            }
        },
    }
}

/// A base rule in full, for the edge from `u` to `v`.
#[tactic(auto, unfolding(crate::specs::Words::base_long))]
fn base_long(
    alloc: Global,
    named: &NamedTrace<'_>,
    rule: BaseRule,
    u: usize,
    v: usize,
) -> Result<String, AllocError>
    ensures { IfOk result (λ text. string_bytes text ≡ base_long named.now.names.now named.now.trace.now rule u v) }
{
    match rule {
        BaseRule::Own => {
            let load = own_load(named.trace, u, v);
            let name = load_name(named, load);
            let read = load_read(alloc, named, load)?;
            format!(in alloc;
                "{SEES_STORE}\n   {name} sees the store, which is earlier on its own processor, and it read {read}.\n   {READS_LAST}"
            )
        },
        _ => String::from_str(alloc, order_words(rule, named.trace.order())),
    }
}

/// A base rule that names no load, in full.
#[tactic(auto, unfolding(crate::specs::Words::base_long))]
fn order_words(rule: BaseRule, order: Order) -> &'static str
    requires { rule ≢ BaseRule.Own }
    ensures { (naming : NamingValue) (t : TraceValue) (u v : ℕ) → t.setting.order ≡ order → result.now ≡ base_long naming t rule u v }
{
    match rule {
        BaseRule::Init => INIT_LONG,
        BaseRule::LoadOp => LOAD_OP_LONG,
        BaseRule::StoreStore => kept_stores(order),
        BaseRule::Stbar => STBAR_LONG,
        BaseRule::Membar => MEMBAR_LONG,
        BaseRule::Read => READ_LONG,
        BaseRule::Own => "",
    }
}

/// How the memory model keeps the order of stores.
fn kept_stores(order: Order) -> &'static str
    ensures { result.now ≡ kept_stores order }
{
    match order {
        Order::Tso => TSO_STORES_LONG,
        Order::Pso => PSO_STORES_LONG,
    }
}

/// The rule LoadPast in full, for load `l` and the steps of its path.
#[tactic(auto, unfolding(crate::specs::Words::inferred_long))]
fn load_past(
    alloc: Global,
    named: &NamedTrace<'_>,
    l: usize,
    by: &str,
) -> Result<String, AllocError>
    ensures { (u v : ℕ) → IfOk result (λ text. string_bytes text ≡ inferred_long named.now.names.now named.now.trace.now InferredRule.LoadPast u v l by.now) }
{
    let name = named.names.name(l);
    let read = named.read(alloc, l)?;
    format!(in alloc;
        "{SEES_STORE}\n   {name} sees the store, which comes before it by {by}, and it read {read}.\n   {READS_LAST}"
    )
}

/// The rule StorePast in full, for load `l` and the steps of its path.
#[tactic(auto, unfolding(crate::specs::Words::inferred_long))]
fn store_past(
    alloc: Global,
    named: &NamedTrace<'_>,
    l: usize,
    by: &str,
) -> Result<String, AllocError>
    ensures { (u v : ℕ) → IfOk result (λ text. string_bytes text ≡ inferred_long named.now.names.now named.now.trace.now InferredRule.StorePast u v l by.now) }
{
    let read = named.read(alloc, l)?;
    format!(in alloc;
        "{READ_OLDER}.\n   It read {read}, and the store comes after that by {by}.\n   {WOULD_HAVE_READ}"
    )
}

/// The rule SwapBefore in full, for the store `u`, the swap of load `l` and the steps of its path.
#[tactic(auto, unfolding(crate::specs::Words::inferred_long))]
fn swap_before(
    alloc: Global,
    named: &NamedTrace<'_>,
    u: usize,
    l: usize,
    by: &str,
) -> Result<String, AllocError>
    ensures { (v : ℕ) → IfOk result (λ text. string_bytes text ≡ inferred_long named.now.names.now named.now.trace.now InferredRule.SwapBefore u v l by.now) }
{
    let store = named.names.name(u);
    let swap_store = named.names.name_after(l);
    format!(in alloc;
        "{ATOMIC_SWAP}.\n   {store} comes before {swap_store} by {by}.\n   {BEFORE_BOTH}"
    )
}

/// The rule SwapAfter in full, for the store `v`, the swap of load `l` and the steps of its path.
#[tactic(auto, unfolding(crate::specs::Words::inferred_long))]
fn swap_after(
    alloc: Global,
    named: &NamedTrace<'_>,
    v: usize,
    l: usize,
    by: &str,
) -> Result<String, AllocError>
    ensures { (u : ℕ) → IfOk result (λ text. string_bytes text ≡ inferred_long named.now.names.now named.now.trace.now InferredRule.SwapAfter u v l by.now) }
{
    let store = named.names.name(v);
    let swap_load = named.names.name(l);
    format!(in alloc;
        "{ATOMIC_SWAP}.\n   {store} comes after {swap_load} by {by}.\n   {AFTER_BOTH}"
    )
}

/// The name of a load that may be missing.
fn load_name<'n>(named: &'n NamedTrace<'_>, load: Option<usize>) -> &'n str
    ensures { result.now ≡ option_map_or (name_text named.now.names.now) load [] }
{
    match load {
        Some(l) => named.names.name(l),
        None => "",
    }
}

/// What a load that may be missing read.
fn load_read(
    alloc: Global,
    named: &NamedTrace<'_>,
    load: Option<usize>,
) -> Result<String, AllocError>
    ensures { IfOk result (λ text. string_bytes text ≡ option_map_or (read_text named.now.names.now named.now.trace.now) load []) }
{
    match load {
        Some(l) => named.read(alloc, l),
        None => Ok(String::new(alloc)),
    }
}
