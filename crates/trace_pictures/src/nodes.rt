//! The nodes of a picture, and the edges from each to the one below it.
ghost use Rattle.std.specs.Prelude.{◌≡◌, ◌++◌, ◌+◌, ◌*◌, ◌%◌, ◌^◌, ◌<◌, ◌≤◌, ◌&&◌, ℕ, [], codes, cond, false, length, not, string_bytes, IfOk, OnOk};
ghost use Rattle.std.specs.Fmt.{decimal};
ghost use Rattle.std.specs.List.{flat_map, range_with_len};
ghost use Rattle.std.specs.Option.{option_map_or};
ghost use Rattle.tso_ops.specs.Events.{processor_count};
ghost use Rattle.trace_explanation.specs.Steps.{is_number};
ghost use Rattle.trace_pictures.specs.Nodes.{border_mark, down_text, first_values_text, init_text, is_close, node_text, processor_nodes_text, row_arrows, row_label, row_marks, row_name, row_number, row_step, row_words, rows_text, small_lines};

use crate::arrows::Arrow;
use crate::labels::{event_label, number_at, number_label};
use crate::lines::{arrows_at, small_lines};
use crate::looks::NodeLooks;
use crate::members::is_among;
use crate::placed::PlacedTrace;
use crate::rows::{Row, rows_of};
use std::alloc::{AllocError, Global};
use std::fmt::Write;
use trace_explanation::{outcome_text, source_of};
use tso_cert::CertStep;
use tso_ops::Event;

/// A processor and where its column stands, in points.
#[derive(Clone, Copy, Debug)]
pub(crate) struct Column {
    proc: usize,
    x: u128,
}

/// Appends the node of the first values, where the cycle has them. OutOfMemory where an allocation was refused.
#[tactic(auto, unfolding(crate::specs::Nodes::first_values_text))]
pub(crate) fn push_first_values(
    alloc: Global,
    text: &mut String,
    looks: &NodeLooks<'_>,
    width: u128,
    processors: usize,
    cycle: &[usize],
) -> Result<(), AllocError>
    requires processors { processors ≤ 16 }
    requires width { width < 2 ^ 70 }
    ensures { OnOk result (string_bytes text.new ≡ string_bytes text.old ++ first_values_text looks.now width processors cycle.now) }
{
    if is_among(0, cycle) {
        let x = width * processors.saturating_sub(1) as u128 / 2;
        let arrows = arrows_at(alloc, looks.arrows(), 0)?;
        push_init(alloc, text, looks.steps(), &arrows, x)
    } else {
        Ok(())
    }
}

/// Appends the node of the first values, with the small lines of these arrows.
#[tactic(auto, unfolding(crate::specs::Nodes::init_text))]
fn push_init(
    alloc: Global,
    text: &mut String,
    steps: &[CertStep],
    arrows: &[Arrow],
    x: u128,
) -> Result<(), AllocError>
    requires { length arrows.now ≤ 40 }
    ensures { OnOk result (string_bytes text.new ≡ string_bytes text.old ++ init_text steps.now arrows.now x) }
{
    let lines = small_lines(alloc, steps, arrows)?;
    let height = 8 * arrows.len();
    write!(
        text,
        "  init [label=<first values{lines}>, shape=ellipse, pos=\"{x},{height}!\", color=\"#c00000\", penwidth=2];\n"
    )
}

/// Appends the nodes of all processors, of which these events are drawn. OutOfMemory where an allocation was refused.
pub(crate) fn push_processors(
    alloc: Global,
    text: &mut String,
    placed: &PlacedTrace<'_>,
    drawn: &[usize],
    looks: &NodeLooks<'_>,
    width: u128,
) -> Result<(), AllocError>
    requires { width < 2 ^ 70 }
    ensures { OnOk result (string_bytes text.new ≡ string_bytes text.old ++ flat_map (processor_nodes_text placed.now drawn.now looks.now width)
        (range_with_len 0 (processor_count placed.now))) }
{
    let mut x = 0;
    for proc in 0..placed.trace().processors() {
        push_processor(alloc, text, placed, drawn, looks, Column { proc, x })?;
        x += width;
    }
    Ok(())
}

/// Appends the nodes of a processor.
#[tactic(auto, unfolding(crate::specs::Nodes::processor_nodes_text))]
fn push_processor(
    alloc: Global,
    text: &mut String,
    placed: &PlacedTrace<'_>,
    drawn: &[usize],
    looks: &NodeLooks<'_>,
    column: Column,
) -> Result<(), AllocError>
    requires { column.proc < processor_count placed.now }
    ensures { (width : ℕ) → column.x ≡ width * column.proc →
        OnOk result (string_bytes text.new ≡ string_bytes text.old ++ processor_nodes_text placed.now drawn.now looks.now width column.proc) }
{
    let rows = rows_of(alloc, placed, drawn, column.proc)?;
    let proc = column.proc;
    let x = column.x;
    write!(
        text,
        "  p{proc} [label=\"P{proc}\", shape=plaintext, fontsize=14, pos=\"{x},-70!\"];\n"
    )?;
    push_rows(alloc, text, placed, looks, column, &rows)
}

/// Appends these rows of a processor, below its head.
fn push_rows(
    alloc: Global,
    text: &mut String,
    placed: &PlacedTrace<'_>,
    looks: &NodeLooks<'_>,
    column: Column,
    rows: &[Row],
) -> Result<(), AllocError>
    ensures { OnOk result (string_bytes text.new ≡ string_bytes text.old ++ rows_text placed.now looks.now column.proc column.x (70 + 26 * (column.proc % 2))
        (codes "p" ++ decimal column.proc) rows.now) }
{
    let mut y = first_height(column.proc);
    let mut above = head_name(alloc, column.proc)?;
    for row in rows {
        let name = row_name(alloc, column.proc, *row)?;
        let arrows = row_arrows(alloc, looks.arrows(), *row)?;
        let label = whole_label(alloc, placed, looks, &arrows, *row)?;
        let marks = row_marks(alloc, placed, looks, *row)?;
        let close = is_close(placed, *row);
        let top = y + row_step(close);
        let count = arrows.len() as u128;
        push_node(text, &name, &label, &marks, column.x, top + 6 * count)?;
        push_down(text, &above, &name, close)?;
        y = top + 12 * count;
        above = name;
    }
    Ok(())
}

/// The height of a processor's head: of every second one's rows it is as if the head stood lower.
fn first_height(proc: usize) -> u128
    ensures is { result ≡ 70 + 26 * (proc % 2) }
    ensures most { result ≤ 96 }
{
    70 + 26 * (proc % 2) as u128
}

/// How far a row stands below the one above it.
fn row_step(close: bool) -> u128
    ensures is { result ≡ row_step close }
    ensures most { result ≤ 52 }
{
    if close { 36 } else { 52 }
}

/// The name of a processor's head.
fn head_name(alloc: Global, proc: usize) -> Result<String, AllocError>
    ensures { IfOk result (λ text. string_bytes text ≡ codes "p" ++ decimal proc) }
{
    format!(in alloc; "p{proc}")
}

/// The name of a row of processor `p`.
#[tactic(auto, unfolding(crate::specs::Nodes::row_name))]
fn row_name(alloc: Global, p: usize, row: Row) -> Result<String, AllocError>
    ensures { IfOk result (λ text. string_bytes text ≡ row_name p row) }
{
    match row {
        Row::Event(n) => format!(in alloc; "e{n}"),
        Row::Barrier { place, .. } => format!(in alloc; "b{p}_{place}"),
        Row::Gap { place, .. } => format!(in alloc; "g{p}_{place}"),
    }
}

/// What a row says.
#[tactic(auto, unfolding(crate::specs::Nodes::row_label))]
fn row_label(alloc: Global, placed: &PlacedTrace<'_>, row: Row) -> Result<String, AllocError>
    ensures { IfOk result (λ text. string_bytes text ≡ row_label placed.now row) }
{
    match row {
        Row::Event(n) => event_label(alloc, placed, n),
        Row::Barrier { outcome, .. } => outcome_text(alloc, outcome),
        Row::Gap { count, .. } => format!(in alloc; "{count} more"),
    }
}

/// The arrows of which a row speaks.
fn row_arrows(alloc: Global, arrows: &[Arrow], row: Row) -> Result<Vec<Arrow>, AllocError>
    ensures is { IfOk result (λ here. here.items ≡ row_arrows arrows.now row) }
    ensures most { IfOk result (λ here. length here.items ≤ 40) }
{
    match row {
        Row::Event(n) => arrows_at(alloc, arrows, n),
        Row::Barrier { .. } | Row::Gap { .. } => Ok(Vec::new(alloc)),
    }
}

/// What stands after a row's label: the number of its event in an order.
fn row_number(alloc: Global, order: &[u64], row: Row) -> Result<String, AllocError>
    ensures { IfOk result (λ text. string_bytes text ≡ row_number order.now row) }
{
    match row {
        Row::Event(n) => number_label(alloc, number_at(order, n)),
        Row::Barrier { .. } | Row::Gap { .. } => Ok(String::new(alloc)),
    }
}

/// What a row says, with its number and the small lines of these arrows.
#[tactic(auto, unfolding(crate::specs::Nodes::row_words))]
fn whole_label(
    alloc: Global,
    placed: &PlacedTrace<'_>,
    looks: &NodeLooks<'_>,
    arrows: &[Arrow],
    row: Row,
) -> Result<String, AllocError>
    ensures { IfOk result (λ text. string_bytes text ≡ row_words placed.now looks.now arrows.now row) }
{
    let label = row_label(alloc, placed, row)?;
    let number = row_number(alloc, looks.order(), row)?;
    let lines = small_lines(alloc, looks.steps(), arrows)?;
    format!(in alloc; "{label}{number}{lines}")
}

/// What a row looks like.
#[tactic(auto, unfolding(crate::specs::Nodes::row_marks))]
fn row_marks(
    alloc: Global,
    placed: &PlacedTrace<'_>,
    looks: &NodeLooks<'_>,
    row: Row,
) -> Result<String, AllocError>
    ensures { IfOk result (λ text. string_bytes text ≡ row_marks placed.now looks.now.red looks.now.orange row) }
{
    match row {
        Row::Event(n) => {
            let first = first_mark(source_of(placed.trace(), n));
            let border = border_mark(looks.red(), looks.orange(), n);
            format!(in alloc; "{first}{border}")
        },
        Row::Barrier { .. } => String::from_str(
            alloc,
            ", color=\"#dddddd\", fillcolor=\"#dddddd\", fontsize=10, height=0.15",
        ),
        Row::Gap { .. } => {
            String::from_str(alloc, ", shape=plaintext, fontsize=10, height=0.15")
        },
    }
}

/// The mark of a load with this source that read the first value of its address.
fn first_mark(source: Option<usize>) -> &'static str
    ensures { result.now ≡ cond (is_number 0 source) (codes ", fillcolor=\"#d8e6f8\"") [] }
{
    match source {
        Some(0) => ", fillcolor=\"#d8e6f8\"",
        _ => "",
    }
}

/// The mark of the border of event `n`, where these numbers are red and these orange.
fn border_mark(red: &[usize], orange: &[usize], n: usize) -> &'static str
    ensures { result.now ≡ border_mark red.now orange.now n }
{
    if is_among(n, red) {
        ", color=\"#c00000\", penwidth=2"
    } else if is_among(n, orange) {
        ", color=\"#e07b00\", penwidth=2"
    } else {
        ""
    }
}

/// Whether a row is that of a swap's store.
fn is_close(placed: &PlacedTrace<'_>, row: Row) -> bool
    ensures { result ≡ is_close placed.now row }
{
    match row {
        Row::Event(n) => stores_swap(placed.trace().event(n)),
        Row::Barrier { .. } | Row::Gap { .. } => false,
    }
}

/// Whether the event is the store of a swap.
fn stores_swap(event: Option<Event>) -> bool
    ensures { result ≡ option_map_or (λ e. e.swap && not e.load) event false }
{
    match event {
        Some(event) => event.swap && !event.load,
        None => false,
    }
}

/// Appends the node of this name, label and marks at a place.
#[tactic(auto, unfolding(crate::specs::Nodes::node_text))]
fn push_node(
    text: &mut String,
    name: &str,
    label: &str,
    marks: &str,
    x: u128,
    y: u128,
) -> Result<(), AllocError>
    ensures { OnOk result (string_bytes text.new ≡ string_bytes text.old ++ node_text name.now label.now marks.now x y) }
{
    write!(
        text,
        "  {name} [label=<{label}>, pos=\"{x},-{y}!\"{marks}];\n"
    )
}

/// Appends the edge from the node above to the node of this name.
#[tactic(auto, unfolding(crate::specs::Nodes::down_text))]
fn push_down(text: &mut String, above: &str, name: &str, close: bool) -> Result<(), AllocError>
    ensures { OnOk result (string_bytes text.new ≡ string_bytes text.old ++ down_text above.now name.now close) }
{
    let mark = close_mark(close);
    write!(
        text,
        "  {above} -> {name} [color=\"#b0b0b0\", arrowhead=none{mark}];\n"
    )
}

/// The mark of an edge within a swap.
fn close_mark(close: bool) -> &'static str
    ensures { result.now ≡ cond close (codes ", penwidth=50") [] }
{
    if close { ", penwidth=50" } else { "" }
}
