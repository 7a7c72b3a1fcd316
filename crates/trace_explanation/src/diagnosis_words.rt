//! What a diagnosis says of loads and stores.
ghost use Rattle.std.specs.Prelude.{◌≡◌, ◌==◌, ◌&&◌, find, reverse, string_bytes, IfOk};
ghost use Rattle.trace_explanation.specs.Diagnoses.{arrival_words, arrives, before_words, load_words, order_words, place_words, seen_words, store_words, stored_words};

use crate::cycle_shapes::{is_load, is_one_operation, on_one_processor, reads_from};
use crate::links::list_links;
use crate::names::NamedTrace;
use crate::namings::EventNames;
use crate::subjects::Subject;
use std::alloc::{AllocError, Global};
use tso_ops::Trace;

/// An event by its number, or by its line in the log. OutOfMemory where an allocation was refused.
#[tactic(auto, unfolding(crate::specs::Diagnoses::place_words))]
pub(crate) fn place_words(alloc: Global, names: &EventNames, n: usize) -> Result<String, AllocError>
    ensures { IfOk result (λ text. string_bytes text ≡ place_words names.now n) }
{
    match names.subject() {
        Subject::Trace => format!(in alloc; "({n})"),
        Subject::Log => {
            let line = names.line(n);
            format!(in alloc; "(line {line})")
        }
    }
}

/// That load `l` read its address. OutOfMemory where an allocation was refused.
#[tactic(auto, unfolding(crate::specs::Diagnoses::load_words))]
pub(crate) fn load_words(alloc: Global, names: &EventNames, l: usize) -> Result<String, AllocError>
    ensures { IfOk result (λ text. string_bytes text ≡ load_words names.now l) }
{
    let processor = names.processor(l);
    let address = names.address(l);
    format!(in alloc; "P{processor} read address {address}")
}

/// Store `s`, said of the processor of load `l`. OutOfMemory where an allocation was refused.
#[tactic(auto, unfolding(crate::specs::Diagnoses::store_words))]
pub(crate) fn store_words(
    alloc: Global,
    named: &NamedTrace<'_>,
    l: usize,
    s: usize,
) -> Result<String, AllocError>
    ensures { IfOk result (λ text. string_bytes text ≡ store_words named.now.names.now named.now.trace.now l s) }
{
    let place = place_words(alloc, named.names, s)?;
    if on_one_processor(named.trace, s, l) {
        format!(in alloc; "its own store {place}")
    } else {
        let processor = named.names.processor(s);
        format!(in alloc; "P{processor}'s store {place}")
    }
}

/// That the load of the line only shows that store `w` comes before store `s`. OutOfMemory where an allocation was refused.
#[tactic(auto, unfolding(crate::specs::Diagnoses::order_words))]
pub(crate) fn order_words(
    alloc: Global,
    names: &EventNames,
    w: usize,
    s: usize,
) -> Result<String, AllocError>
    ensures { IfOk result (λ text. string_bytes text ≡ order_words names.now w s) }
{
    let first = place_words(alloc, names, w)?;
    let second = place_words(alloc, names, s)?;
    format!(in alloc; ", which only shows that store {first} comes before store {second}")
}

/// What the processor of load `l` had seen or stored, by the last edge of the walk from store `w` that leads to it.
/// OutOfMemory where an allocation was refused.
pub(crate) fn before_words(
    alloc: Global,
    named: &NamedTrace<'_>,
    walk: &[u64],
    w: usize,
    l: usize,
) -> Result<String, AllocError>
    ensures { IfOk result (λ text. string_bytes text ≡ before_words named.now.names.now named.now.trace.now walk.now w l) }
{
    match last_arrival(named.trace, l, &list_links(alloc, walk)?) {
        Some(edge) => arrival_words(alloc, named, w, l, edge),
        None => Ok(String::new(alloc)),
    }
}

/// The last of these edges that leads to the processor of load `l` from elsewhere.
fn last_arrival(trace: &Trace, l: usize, links: &[(u64, u64)]) -> Option<(u64, u64)>
    ensures { result ≡ find (arrives trace.now l) (reverse links.now) }
{
    let mut last = None;
    for link in links {
        if arrives(trace, l, *link) {
            last = Some(*link);
        }
    }
    last
}

/// Whether an edge leads to the processor of load `l` from elsewhere.
fn arrives(trace: &Trace, l: usize, edge: (u64, u64)) -> bool
    ensures { result ≡ arrives trace.now l edge }
{
    on_one_processor(trace, edge.1 as usize, l) && !on_one_processor(trace, edge.0 as usize, l)
}

/// What the processor of load `l` had seen or stored, by the edge that leads to it.
#[tactic(auto, unfolding(crate::specs::Diagnoses::arrival_words))]
fn arrival_words(
    alloc: Global,
    named: &NamedTrace<'_>,
    w: usize,
    l: usize,
    edge: (u64, u64),
) -> Result<String, AllocError>
    ensures { IfOk result (λ text. string_bytes text ≡ arrival_words named.now.names.now named.now.trace.now w l edge) }
{
    let from = edge.0 as usize;
    let to = edge.1 as usize;
    if !is_load(named.trace, to) {
        stored_words(alloc, named, l, to)
    } else if to < l && 0 < from && reads_from(named.trace, from, to) {
        seen_words(alloc, named.names, w, from)
    } else {
        Ok(String::new(alloc))
    }
}

/// That an earlier load of the processor read store `x`, which is store `w` or comes later.
fn seen_words(alloc: Global, names: &EventNames, w: usize, x: usize) -> Result<String, AllocError>
    ensures { IfOk result (λ text. string_bytes text ≡ seen_words names.now w x) }
{
    if x == w {
        String::from_str(alloc, ", though it had seen that store")
    } else {
        let place = place_words(alloc, names, x)?;
        format!(in alloc; ", though it had seen the later store {place}")
    }
}

/// That store `y`, of the processor of load `l` or of its swap, comes later.
#[tactic(auto, unfolding(crate::specs::Diagnoses::stored_words))]
fn stored_words(
    alloc: Global,
    named: &NamedTrace<'_>,
    l: usize,
    y: usize,
) -> Result<String, AllocError>
    ensures { IfOk result (λ text. string_bytes text ≡ stored_words named.now.names.now named.now.trace.now l y) }
{
    let place = place_words(alloc, named.names, y)?;
    if y < l {
        format!(in alloc; ", though it had made the later store {place}")
    } else if is_one_operation(named.trace, l, y) {
        format!(in alloc; ", though the store {place} of its swap comes after that")
    } else {
        Ok(String::new(alloc))
    }
}
