//! The load of a step.
ghost use Rattle.std.specs.Prelude.{◌≡◌, ◌==◌, ◌&&◌, false};
ghost use Rattle.std.specs.Option.{option_map_or};
ghost use Rattle.tso_ops.specs.Events.{event_at};
ghost use Rattle.trace_explanation.specs.Names.{is_store_where};
ghost use Rattle.trace_explanation.specs.Steps.{is_number, own_load, reads_past, step_load};

use crate::names::source_of;
use tso_cert::{BaseRule, CertStep, Reason};
use tso_ops::Trace;

/// The load of a step: that of an inferred rule, and the least one that the rule Own can take; None for another base rule.
pub fn step_load(trace: &Trace, step: &CertStep) -> Option<usize>
    ensures { result ≡ step_load trace.now step.now }
{
    match &step.reason {
        Reason::Base(BaseRule::Own) => own_load(trace, step.from as usize, step.to as usize),
        Reason::Base(_) => None,
        Reason::Inferred { load, .. } => Some(*load as usize),
    }
}

/// The least load that sees the store `u`, which is earlier on its own processor, and read what number `v` wrote.
#[tactic(auto, unfolding(crate::specs::Steps::own_load))]
pub(crate) fn own_load(trace: &Trace, u: usize, v: usize) -> Option<usize>
    ensures { result ≡ own_load trace.now u v }
{
    for l in u..trace.events() {
        if reads_past(trace, u, v, l + 1) {
            return Some(l + 1);
        }
    }
    None
}

/// Whether load `l` sees the store `u`, which is earlier on its own processor, and read what number `v` wrote.
#[tactic(auto, unfolding(crate::specs::Steps::reads_past))]
fn reads_past(trace: &Trace, u: usize, v: usize, l: usize) -> bool
    ensures { result ≡ reads_past trace.now u v l }
{
    u < l && stores_for(trace, u, l) && is_number(v, source_of(trace, l))
}

/// Whether the number is `v`.
fn is_number(v: usize, number: Option<usize>) -> bool
    ensures { result ≡ is_number v number }
{
    match number {
        Some(s) => s == v,
        None => false,
    }
}

/// Whether `u` is a store of the processor of event `l` to its address.
fn stores_for(trace: &Trace, u: usize, l: usize) -> bool
    ensures { result ≡ option_map_or (λ e. is_store_where trace.now (λ s. s.proc == e.proc && s.a == e.a) u) (event_at trace.now l) false }
{
    match (trace.event(u), trace.event(l)) {
        (Some(s), Some(e)) => !s.load && s.proc == e.proc && s.a == e.a,
        _ => false,
    }
}
