//! The explanation of an unwritten load.
ghost use Rattle.std.specs.Prelude.{◌≡◌, ◌++◌, ◌==◌, [], string_bytes, OnOk, IfOk};
ghost use Rattle.std.specs.List.{find, flat_map};
ghost use Rattle.std.specs.Option.{option_map_or};
ghost use Rattle.tso_ops.specs.Events.{event_at};
ghost use Rattle.trace_explanation.specs.Names.{event_numbers, is_store_where};
ghost use Rattle.trace_explanation.specs.Namings.{address_named};
ghost use Rattle.trace_explanation.specs.Places.{place_text};
ghost use Rattle.trace_explanation.specs.Explanations.{elsewhere_text, more_text, store_numbers, stores_text, unwritten_by, unwritten_load_text};

use crate::names::NamedTrace;
use crate::prefixes::first_of;
use std::alloc::{AllocError, Global};
use std::fmt::Write;
use tso_ops::{Event, Trace};

/// How many stores to an unwritten load's address are named at most.
const NAMED_STORES: usize = 16;

/// Appends the explanation of load `n`, whose value nothing wrote to its address; nothing where there is no such event.
/// OutOfMemory where an allocation was refused.
pub(crate) fn push_unwritten(
    alloc: Global,
    text: &mut String,
    named: &NamedTrace<'_>,
    n: usize,
) -> Result<(), AllocError>
    ensures { OnOk result (string_bytes text.new ≡ string_bytes text.old ++ option_map_or (unwritten_by named.now.names.now named.now.trace.now n)
        (event_at named.now.trace.now n) []) }
{
    match named.trace.event(n) {
        Some(event) => {
            push_unread(text, named, n, event)?;
            push_elsewhere(alloc, text, named, event.value)?;
            push_stores(alloc, text, named, n, event.a)
        },
        None => Ok(()),
    }
}

/// Appends what load `n` read, and the first value of its address.
#[tactic(auto, unfolding(crate::specs::Explanations::unwritten_load_text))]
fn push_unread(
    text: &mut String,
    named: &NamedTrace<'_>,
    n: usize,
    event: Event,
) -> Result<(), AllocError>
    ensures { OnOk result (string_bytes text.new ≡ string_bytes text.old ++ unwritten_load_text named.now.names.now named.now.trace.now n event) }
{
    let line = named.names.line(n);
    let name = named.names.name(n);
    let value = event.value;
    let address = named.names.address(n);
    let first = named.trace.first(event.a);
    write!(
        text,
        "\nA load read a value that nothing wrote to its address:\n\n  line {line}: {name} read {value}\n\nThe first value of address {address} is {first}.\n"
    )
}

/// Appends the store of the value, where there is one.
fn push_elsewhere(
    alloc: Global,
    text: &mut String,
    named: &NamedTrace<'_>,
    value: u64,
) -> Result<(), AllocError>
    ensures { OnOk result (string_bytes text.new ≡ string_bytes text.old ++ option_map_or (elsewhere_text named.now.names.now named.now.trace.now value)
        (find (is_store_where named.now.trace.now (λ s. s.value == value)) (event_numbers named.now.trace.now)) []) }
{
    match store_of(named.trace, value) {
        Some(m) => push_elsewhere_at(alloc, text, named, value, m),
        None => Ok(()),
    }
}

/// Appends that event `m` stored the value.
fn push_elsewhere_at(
    alloc: Global,
    text: &mut String,
    named: &NamedTrace<'_>,
    value: u64,
    m: usize,
) -> Result<(), AllocError>
    ensures { OnOk result (string_bytes text.new ≡ string_bytes text.old ++ elsewhere_text named.now.names.now named.now.trace.now value m) }
{
    let address = named.names.address(m);
    write!(
        text,
        "The value {value} was stored to address {address} instead:\n\n"
    )?;
    named.push_place(alloc, text, m)?;
    text.push_str("\n")
}

/// The least store of the value, to any address.
fn store_of(trace: &Trace, value: u64) -> Option<usize>
    ensures { result ≡ find (is_store_where trace.now (λ s. s.value == value)) (event_numbers trace.now) }
{
    for m in 0..trace.events() {
        if stores_value(trace, value, m + 1) {
            return Some(m + 1);
        }
    }
    None
}

/// Whether event `m` is a store of the value.
fn stores_value(trace: &Trace, value: u64, m: usize) -> bool
    ensures { result ≡ is_store_where trace.now (λ s. s.value == value) m }
{
    match trace.event(m) {
        Some(event) => !event.load && event.value == value,
        None => false,
    }
}

/// Whether event `m` is a store to the address.
fn is_store_to(trace: &Trace, a: u16, m: usize) -> bool
    ensures { result ≡ is_store_where trace.now (λ s. s.a == a) m }
{
    match trace.event(m) {
        Some(event) => !event.load && event.a == a,
        None => false,
    }
}

/// The stores to the address, in the order of their numbers. OutOfMemory where an allocation was refused.
pub fn list_stores(alloc: Global, trace: &Trace, a: u16) -> Result<Vec<usize>, AllocError>
    ensures { IfOk result (λ stores. stores.items ≡ store_numbers trace.now a) }
{
    let mut stores = Vec::new(alloc);
    for m in 0..trace.events() {
        if is_store_to(trace, a, m + 1) {
            stores.push(m + 1)?;
        }
    }
    Ok(stores)
}

/// Appends the stores to the address, that of load `n`, of which the first 16 are named.
fn push_stores(
    alloc: Global,
    text: &mut String,
    named: &NamedTrace<'_>,
    n: usize,
    a: u16,
) -> Result<(), AllocError>
    ensures { OnOk result (string_bytes text.new ≡ string_bytes text.old ++ stores_text named.now.names.now named.now.trace.now
        (address_named named.now.names.now n) (store_numbers named.now.trace.now a)) }
{
    let stores = list_stores(alloc, named.trace, a)?;
    push_store_lines(alloc, text, named, named.names.address(n), &stores)
}

/// Appends these stores to the address, of which the first 16 are named.
#[tactic(auto, unfolding(crate::specs::Explanations::stores_text))]
fn push_store_lines(
    alloc: Global,
    text: &mut String,
    named: &NamedTrace<'_>,
    address: u64,
    stores: &[usize],
) -> Result<(), AllocError>
    ensures { OnOk result (string_bytes text.new ≡ string_bytes text.old ++ stores_text named.now.names.now named.now.trace.now address stores.now) }
{
    match stores {
        [] => write!(text, "No operation stores to address {address}.\n"),
        [_, ..] => {
            let count = stores.len();
            write!(text, "The stores to address {address}, {count} in all:\n\n")?;
            push_places(alloc, text, named, first_of(stores, NAMED_STORES))?;
            push_more(text, count)
        },
    }
}

/// Appends the lines of these events. OutOfMemory where an allocation was refused.
pub(crate) fn push_places(
    alloc: Global,
    text: &mut String,
    named: &NamedTrace<'_>,
    events: &[usize],
) -> Result<(), AllocError>
    ensures { OnOk result (string_bytes text.new ≡ string_bytes text.old ++ flat_map (place_text named.now.names.now named.now.trace.now) events.now) }
{
    for event in events {
        named.push_place(alloc, text, *event)?;
    }
    Ok(())
}

/// Appends how many more than 16 there are.
fn push_more(text: &mut String, count: usize) -> Result<(), AllocError>
    ensures { OnOk result (string_bytes text.new ≡ string_bytes text.old ++ more_text count) }
{
    if count > NAMED_STORES {
        let more = count - NAMED_STORES;
        write!(text, "  and {more} more\n")
    } else {
        Ok(())
    }
}
