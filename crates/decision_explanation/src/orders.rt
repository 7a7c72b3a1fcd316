//! The text that explains an order.
ghost use Rattle.std.specs.Prelude.{◌≡◌, ◌++◌, ◌<◌, ℕ, [], codes, cond, length, string_bytes, IfOk, OnOk};
ghost use Rattle.std.specs.Option.{option_map_or};
ghost use Rattle.std.specs.List.{enumerate_from, flat_map};
ghost use Rattle.trace_explanation.specs.Names.{source_of};
ghost use Rattle.decision_explanation.specs.Orders.{entry_text, is_forwarded, order_head, order_text, what_read};
ghost use Rattle.decision_explanation.specs.Internal.Tables.{ArePlaces, ArePlacesIn};

use crate::named::NamedEvents;
use crate::places::list_places;
use std::alloc::{AllocError, Global};
use std::fmt::Write;
use trace_explanation::{model_name, order_sentences, source_of};
use tso_ops::{Order, Trace};

/// An order, and for number 0 and each event its place in it.
#[derive(Debug, Drop)]
pub(crate) struct PlacedOrder<'o> {
    pub(crate) numbers: &'o [u64],
    pub(crate) places: Vec<usize>,
}

/// Appends the explanation of an order. OutOfMemory where an allocation was refused.
#[tactic(auto, unfolding(crate::specs::Orders::order_text))]
pub(crate) fn push_order(
    alloc: Global,
    text: &mut String,
    trace: &Trace,
    numbers: &[u64],
) -> Result<(), AllocError>
    ensures { OnOk result (string_bytes text.new ≡ string_bytes text.old ++ order_text trace.now numbers.now) }
{
    let named = NamedEvents::new(alloc, trace)?;
    let places = list_places(alloc, trace, numbers)?;
    let order = PlacedOrder { numbers, places };
    push_head(text, trace.order())?;
    push_entries(alloc, text, &named, &order)
}

/// Appends what a memory order is, and that the list is one.
#[tactic(auto, unfolding(crate::specs::Orders::order_head))]
fn push_head(text: &mut String, order: Order) -> Result<(), AllocError>
    ensures { OnOk result (string_bytes text.new ≡ string_bytes text.old ++ order_head order) }
{
    let model = model_name(order);
    let sentences = order_sentences();
    write!(
        text,
        "\n{model}{sentences}The memory order below explains this trace, so the trace is allowed.\nA load marked 'forwarded' read an earlier store of its own processor that comes after it in that order: the store was still in the store buffer.\n\n"
    )
}

/// Appends the lines of the order's numbers.
fn push_entries(
    alloc: Global,
    text: &mut String,
    named: &NamedEvents<'_>,
    order: &PlacedOrder<'_>,
) -> Result<(), AllocError>
    requires { ArePlacesIn named.now order.now }
    ensures { OnOk result (string_bytes text.new ≡ string_bytes text.old ++ flat_map (λ n. entry_text named.now order.now.numbers.now n.0 n.1)
        (enumerate_from 1 order.now.numbers.now)) }
{
    for k in 0..order.numbers.len() {
        push_entry(alloc, text, named, order, k + 1, order.numbers[k] as usize)?;
    }
    Ok(())
}

/// Appends the line of number `n`, which has this place, from 1.
#[tactic(auto, unfolding(crate::specs::Orders::entry_text))]
fn push_entry(
    alloc: Global,
    text: &mut String,
    named: &NamedEvents<'_>,
    order: &PlacedOrder<'_>,
    place: usize,
    n: usize,
) -> Result<(), AllocError>
    requires { ArePlacesIn named.now order.now }
    ensures { OnOk result (string_bytes text.new ≡ string_bytes text.old ++ entry_text named.now order.now.numbers.now place n) }
{
    let line = named.line(n);
    let name = named.name(n);
    let read = what_read(alloc, named, order, n)?;
    write!(text, "  {place}. line {line}: {name}{read}\n")
}

/// What load `l` read, and whether it was forwarded: nothing where it is no load or has no source.
fn what_read(
    alloc: Global,
    named: &NamedEvents<'_>,
    order: &PlacedOrder<'_>,
    l: usize,
) -> Result<String, AllocError>
    requires { ArePlacesIn named.now order.now }
    ensures { IfOk result (λ text. string_bytes text ≡ option_map_or (what_read named.now order.now.numbers.now l) (source_of named.now l) []) }
{
    match source_of(named.trace(), l) {
        Some(s) => {
            let source = named.source_text(alloc, l, s)?;
            let way = way_text(is_forwarded(order, l, s));
            format!(in alloc; " read {source}{way}")
        },
        None => Ok(String::new(alloc)),
    }
}

/// Whether number `s`, which load `l` read, is a store that comes after it.
fn is_forwarded(order: &PlacedOrder<'_>, l: usize, s: usize) -> bool
    requires l { l < length order.now.places.items }
    requires s { s < length order.now.places.items }
    ensures { (count : ℕ) → ArePlaces order.now.numbers.now count order.now.places.items → result ≡ is_forwarded order.now.numbers.now l s }
{
    s > 0 && order.places[l] < order.places[s]
}

/// How a load read a store: nothing where it wasn't forwarded.
fn way_text(forwarded: bool) -> &'static str
    ensures { result.now ≡ cond forwarded (codes ", forwarded") [] }
{
    if forwarded { ", forwarded" } else { "" }
}
