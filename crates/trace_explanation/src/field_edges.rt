//! What the field calls the edges of a cycle.
ghost use Rattle.std.specs.Prelude.{◌≡◌};
ghost use Rattle.std.specs.Option.{option_copied};
ghost use Rattle.trace_explanation.specs.FieldEdges.{field_edge, field_name, is_by_swap, is_later, is_of_swaps, kept_by, other_edge, program_edge};

use crate::cycle_shapes::{is_load, is_one_operation, on_one_processor, reads_from};
use crate::numbers::NumberedSteps;
use tso_cert::{BaseRule, CertStep, InferredRule, Reason};
use tso_ops::Trace;

/// What the field calls an edge of a cycle.
#[derive(Clone, Copy, Debug, PartialEq, Eq)]
pub enum FieldEdge {
    /// Program order.
    Program,
    /// Program order that an `mb` between the two keeps.
    ByMembar,
    /// Program order that an `stbar` between the two keeps.
    ByStbar,
    /// Program order that a swap keeps.
    BySwap,
    /// From a store to a load that read it.
    ReadsFrom,
    /// From a store to a later one at its address.
    Coherence,
    /// From a load to a store that is later than what it read.
    FromRead,
    /// Between the load and the store of a swap, or because no other store comes between them.
    Swap,
}

/// What the field calls an edge of a cycle.
#[tactic(auto, unfolding(crate::specs::FieldEdges::field_edge))]
pub fn field_edge(trace: &Trace, numbered: &NumberedSteps<'_>, link: (u64, u64)) -> FieldEdge
    ensures { result ≡ field_edge trace.now numbered.now link }
{
    let u = link.0 as usize;
    let v = link.1 as usize;
    let step = numbered.step(link.0, link.1);
    if is_later(trace, u, v) {
        program_edge(trace, u, v, step)
    } else {
        other_edge(trace, u, v, step)
    }
}

/// The name of such an edge.
pub fn field_name(edge: FieldEdge) -> &'static str
    ensures { result.now ≡ field_name edge }
{
    match edge {
        FieldEdge::Program => "po",
        FieldEdge::ByMembar => "po [mb]",
        FieldEdge::ByStbar => "po [stbar]",
        FieldEdge::BySwap => "po [swap]",
        FieldEdge::ReadsFrom => "rf",
        FieldEdge::Coherence => "co",
        FieldEdge::FromRead => "fr",
        FieldEdge::Swap => "swap",
    }
}

/// Whether number `v` is of the same processor as number `u`, and later there.
fn is_later(trace: &Trace, u: usize, v: usize) -> bool
    ensures { result ≡ is_later trace.now u v }
{
    u < v && on_one_processor(trace, u, v)
}

/// The edge from an event to a later one on its processor, by the step that is the edge, if there is one.
fn program_edge(trace: &Trace, u: usize, v: usize, step: Option<&CertStep>) -> FieldEdge
    ensures { result ≡ program_edge trace.now u v (option_copied step.entry) }
{
    match step {
        _ if is_one_operation(trace, u, v) => FieldEdge::Swap,
        Some(step) => kept_by(&step.reason),
        None => FieldEdge::Program,
    }
}

/// Program order with this reason, and what keeps it.
fn kept_by(reason: &Reason) -> FieldEdge
    ensures { result ≡ kept_by reason.now }
{
    match reason {
        Reason::Base(BaseRule::Membar) => FieldEdge::ByMembar,
        Reason::Base(BaseRule::Stbar) => FieldEdge::ByStbar,
        Reason::Base(_) => FieldEdge::Program,
        Reason::Inferred { rule, .. } => {
            if is_of_swaps(*rule) {
                FieldEdge::BySwap
            } else {
                FieldEdge::Program
            }
        }
    }
}

/// The edge from an event to one on another processor, or to an earlier one, by the step that is the edge, if there is one.
fn other_edge(trace: &Trace, u: usize, v: usize, step: Option<&CertStep>) -> FieldEdge
    ensures { result ≡ other_edge trace.now u v (option_copied step.entry) }
{
    if reads_from(trace, u, v) {
        FieldEdge::ReadsFrom
    } else if is_one_operation(trace, u, v) || is_by_swap(step) {
        FieldEdge::Swap
    } else if is_load(trace, u) {
        FieldEdge::FromRead
    } else {
        FieldEdge::Coherence
    }
}

/// Whether the reason of the step, if there is one, is that a swap is atomic.
fn is_by_swap(step: Option<&CertStep>) -> bool
    ensures { result ≡ is_by_swap (option_copied step.entry) }
{
    match step {
        Some(step) => match &step.reason {
            Reason::Inferred { rule, .. } => is_of_swaps(*rule),
            Reason::Base(_) => false,
        },
        None => false,
    }
}

/// Whether an inferred rule rests on that a swap is atomic.
fn is_of_swaps(rule: InferredRule) -> bool
    ensures { result ≡ is_of_swaps rule }
{
    match rule {
        InferredRule::LoadPast | InferredRule::StorePast => false,
        InferredRule::SwapBefore | InferredRule::SwapAfter => true,
    }
}
