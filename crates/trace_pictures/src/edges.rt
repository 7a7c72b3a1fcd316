//! Which numbers have nodes, and the edges from stores to loads that read them.
ghost use Rattle.std.specs.Prelude.{◌≡◌, ◌++◌, string_bytes, IfOk, OnOk};
ghost use Rattle.std.specs.List.{flat_map};
ghost use Rattle.trace_explanation.specs.Names.{event_numbers};
ghost use Rattle.trace_pictures.specs.Edges.{node_name, nodes_of, read_edge};

use crate::cycles::LinkedCycle;
use crate::members::{is_among, is_beside};
use std::alloc::{AllocError, Global};
use std::fmt::Write;
use trace_explanation::source_of;
use tso_ops::Trace;

/// The numbers that have nodes: the drawn events, and the first values where the cycle has them. OutOfMemory where an
/// allocation was refused.
pub(crate) fn list_nodes(
    alloc: Global,
    drawn: &[usize],
    cycle: &LinkedCycle,
) -> Result<Vec<usize>, AllocError>
    ensures { IfOk result (λ nodes. nodes.items ≡ nodes_of drawn.now cycle.now) }
{
    let mut nodes = Vec::new(alloc);
    if is_among(0, cycle.numbers()) {
        nodes.push(0)?;
    }
    nodes.extend_from_slice(drawn)?;
    Ok(nodes)
}

/// Appends the edges from stores to drawn loads that read them, without these. OutOfMemory where an allocation was refused.
pub(crate) fn push_reads(
    text: &mut String,
    trace: &Trace,
    drawn: &[usize],
    shown: &[(u64, u64)],
) -> Result<(), AllocError>
    ensures { OnOk result (string_bytes text.new ≡ string_bytes text.old ++ flat_map (read_edge trace.now drawn.now shown.now) (event_numbers trace.now)) }
{
    for n in 0..trace.events() {
        push_read(text, trace, drawn, shown, n + 1)?;
    }
    Ok(())
}

/// Appends the edge to load `l` from what it read, if both are drawn and it is none of these.
fn push_read(
    text: &mut String,
    trace: &Trace,
    drawn: &[usize],
    shown: &[(u64, u64)],
    l: usize,
) -> Result<(), AllocError>
    ensures { OnOk result (string_bytes text.new ≡ string_bytes text.old ++ read_edge trace.now drawn.now shown.now l) }
{
    match source_of(trace, l) {
        Some(s) if is_beside(drawn, shown, s, l) => {
            write!(text, "  e{s} -> e{l} [color=\"#3b6fb6\"];\n")
        },
        _ => Ok(()),
    }
}

/// The name of a number's node. OutOfMemory where an allocation was refused.
pub(crate) fn node_name(alloc: Global, n: usize) -> Result<String, AllocError>
    ensures { IfOk result (λ text. string_bytes text ≡ node_name n) }
{
    if n == 0 {
        String::from_str(alloc, "init")
    } else {
        format!(in alloc; "e{n}")
    }
}
