//! The shape of a cycle of events: the kinds of its edges, as the tool diy names them.
ghost use Rattle.std.specs.Prelude.{◌≡◌, ◌==◌, ◌&&◌, ◌++◌, suc, string_bytes, OnOk, IfOk};
ghost use Rattle.trace_explanation.specs.Names.{source_of};
ghost use Rattle.trace_explanation.specs.Steps.{is_number};
ghost use Rattle.trace_explanation.specs.CycleShapes.{communication_text, cycle_shape, edge_text, edges_after, is_load_at, is_one_operation, is_swap_load_at, last_or_zero, letter_of, on_one_processor, program_order_text};

use crate::names::{address_of, source_of};
use crate::unfolded_cycles::item;
use std::alloc::{AllocError, Global};
use std::fmt::Write;
use tso_ops::Trace;

/// The shape of a cycle: its edges between processors, and program order between them. OutOfMemory where an allocation was
/// refused.
#[tactic(auto, unfolding(crate::specs::CycleShapes::cycle_shape))]
pub(crate) fn cycle_shape(alloc: Global, trace: &Trace, cycle: &[u64]) -> Result<String, AllocError>
    ensures { IfOk result (λ text. string_bytes text ≡ cycle_shape trace.now cycle.now) }
{
    let mut text = String::new(alloc);
    match cycle {
        [] => {}
        [first, rest @ ..] => {
            push_edges(&mut text, trace, *first as usize, rest)?;
            push_edge(&mut text, trace, last_of(cycle) as usize, *first as usize)?;
        }
    }
    Ok(text)
}

/// The last of these numbers: 0 where there is none.
pub(crate) fn last_of(numbers: &[u64]) -> u64
    ensures { result ≡ last_or_zero numbers.now }
{
    item(numbers, numbers.len().saturating_sub(1))
}

/// Appends the edges from number `first` along these numbers.
#[tactic(auto, unfolding(crate::specs::CycleShapes::edges_after))]
fn push_edges(
    text: &mut String,
    trace: &Trace,
    first: usize,
    rest: &[u64],
) -> Result<(), AllocError>
    ensures { OnOk result (string_bytes text.new ≡ string_bytes text.old ++ edges_after trace.now first first rest.now) }
{
    let mut begin = first;
    let mut last = first;
    for number in rest {
        let next = *number as usize;
        if !on_one_processor(trace, last, next) {
            push_program_order(text, trace, begin, last)?;
            push_edge(text, trace, last, next)?;
            text.push_str(" ")?;
            begin = next;
        }
        last = next;
    }
    push_program_order(text, trace, begin, last)
}

/// Appends program order between two events of a processor: nothing where they are of one operation.
#[tactic(auto, unfolding(crate::specs::CycleShapes::program_order_text))]
fn push_program_order(
    text: &mut String,
    trace: &Trace,
    begin: usize,
    last: usize,
) -> Result<(), AllocError>
    ensures { OnOk result (string_bytes text.new ≡ string_bytes text.old ++ program_order_text trace.now begin last) }
{
    if is_one_operation(trace, begin, last) {
        return Ok(());
    }
    let addresses = if address_of(trace, begin) == address_of(trace, last) {
        "s"
    } else {
        "d"
    };
    let from = letter_of(trace, begin);
    let to = letter_of(trace, last);
    write!(text, "Po{addresses}{from}{to} ")
}

/// Appends an edge between processors, or the one that closes a cycle.
#[tactic(auto, unfolding(crate::specs::CycleShapes::edge_text))]
fn push_edge(text: &mut String, trace: &Trace, from: usize, to: usize) -> Result<(), AllocError>
    ensures { OnOk result (string_bytes text.new ≡ string_bytes text.old ++ edge_text trace.now from to) }
{
    let communication = communication_text(trace, from, to);
    let side = if on_one_processor(trace, from, to) {
        "i"
    } else {
        "e"
    };
    write!(text, "{communication}{side}")
}

/// From a load to a later store, from a store to a load that read it, or from a store to a later one.
fn communication_text(trace: &Trace, from: usize, to: usize) -> &'static str
    ensures { result.now ≡ communication_text trace.now from to }
{
    if is_load(trace, from) {
        "Fr"
    } else if reads_from(trace, from, to) {
        "Rf"
    } else {
        "Co"
    }
}

/// Whether event `l` is a load that read what number `s` wrote.
pub(crate) fn reads_from(trace: &Trace, s: usize, l: usize) -> bool
    ensures { result ≡ is_number s (source_of trace.now l) }
{
    match source_of(trace, l) {
        Some(source) => source == s,
        None => false,
    }
}

/// R for a load, W for a store and the first values.
fn letter_of(trace: &Trace, n: usize) -> &'static str
    ensures { result.now ≡ letter_of trace.now n }
{
    if is_load(trace, n) { "R" } else { "W" }
}

/// Whether event `n` is a load.
pub(crate) fn is_load(trace: &Trace, n: usize) -> bool
    ensures { result ≡ is_load_at trace.now n }
{
    match trace.event(n) {
        Some(event) => event.load,
        None => false,
    }
}

/// Whether event `n` is the load of a swap.
fn is_swap_load(trace: &Trace, n: usize) -> bool
    ensures { result ≡ is_swap_load_at trace.now n }
{
    match trace.event(n) {
        Some(event) => event.swap && event.load,
        None => false,
    }
}

/// Whether two numbers are of one operation.
#[tactic(auto, unfolding(crate::specs::CycleShapes::is_one_operation))]
pub(crate) fn is_one_operation(trace: &Trace, one: usize, other: usize) -> bool
    ensures { result ≡ is_one_operation trace.now one other }
{
    one == other || is_swap_of(trace, one, other) || is_swap_of(trace, other, one)
}

/// Whether the numbers are the load and the store of a swap.
fn is_swap_of(trace: &Trace, load: usize, store: usize) -> bool
    ensures { result ≡ ((suc load == store) && is_swap_load_at trace.now load) }
{
    store > 0 && store - 1 == load && is_swap_load(trace, load)
}

/// Whether two numbers are events of one processor.
#[tactic(auto, unfolding(crate::specs::CycleShapes::on_one_processor))]
pub(crate) fn on_one_processor(trace: &Trace, one: usize, other: usize) -> bool
    ensures { result ≡ on_one_processor trace.now one other }
{
    match (trace.event(one), trace.event(other)) {
        (Some(e), Some(f)) => e.proc == f.proc,
        _ => false,
    }
}
