//! The operations that a violation needs, as those of a log that are kept.

use crate::derivation::Derivation;
use crate::explanations::Explanation;
use crate::nodes::{Kind, Node};
use log_selections::Kept;
use search_memory::Memory;
use tso_ops::Part;

/// No operations of so many processors.
pub(crate) fn empty_lists(memory: &Memory, processors: usize) -> Vec<Vec<Kept>> {
    let alloc = memory.alloc();
    let mut lists = Vec::new(alloc);
    for _ in 0..processors {
        memory.note(lists.push(Vec::new(alloc)).is_err());
    }
    lists
}

/// Pushes an operation to those of its processor.
pub(crate) fn push_kept(memory: &Memory, lists: &mut [Vec<Kept>], processor: usize, kept: Kept) {
    if let Some(list) = lists.get_mut(processor) {
        memory.push(list, kept);
    }
}

/// Keeps an operation after those of its processor, or another part of the last one.
fn keep(memory: &Memory, lists: &mut [Vec<Kept>], processor: usize, kept: Kept) {
    let Some(list) = lists.get_mut(processor) else {
        return;
    };
    if let Some(last) = list.last_mut()
        && last.index == kept.index
    {
        if last.part != kept.part {
            last.part = Part::Whole;
        }
        return;
    }
    memory.push(list, kept);
}

/// What is selected: a processor, an index among its operations, and which part of a swap it is.
type Pick = (u32, u32, Part);

/// The operations of an explanation: its nodes, the sources of its loads, and its barriers. `loads` gets its loads.
pub(crate) fn select(
    memory: &Memory,
    derivation: &Derivation,
    explanation: &Explanation,
    loads: &mut Vec<u32>,
) -> Vec<Vec<Kept>> {
    let mut picks = Vec::new(memory.alloc());
    for number in &explanation.nodes {
        push_node(memory, derivation, *number, loads, &mut picks);
    }
    push_barriers(memory, derivation, &explanation.barriers, &mut picks);
    picks.sort_unstable_by_key(|pick: &Pick| (pick.0, pick.1));
    let processors = derivation.graph.firsts.len().saturating_sub(1);
    gather(memory, processors, &picks)
}

fn push_barriers(
    memory: &Memory,
    derivation: &Derivation,
    barriers: &[(u32, u32)],
    picks: &mut Vec<Pick>,
) {
    for (number, barrier) in barriers {
        if let Some(node) = derivation.graph.node(*number) {
            memory.push(picks, (node.processor, *barrier, Part::Whole));
        }
    }
}

/// What picks keep, which are in the order of their processors and operations.
fn gather(memory: &Memory, processors: usize, picks: &[Pick]) -> Vec<Vec<Kept>> {
    let mut lists = empty_lists(memory, processors);
    for (processor, operation, part) in picks {
        let kept = Kept {
            index: *operation as usize,
            part: *part,
        };
        keep(memory, &mut lists, *processor as usize, kept);
    }
    lists
}

/// Picks a node, and with a load, if it isn't left out, its source.
fn push_node(
    memory: &Memory,
    derivation: &Derivation,
    number: u32,
    loads: &mut Vec<u32>,
    picks: &mut Vec<Pick>,
) {
    let Some(node) = derivation.graph.node(number) else {
        return;
    };
    if node.is_live_load() {
        memory.push(loads, number);
        if let Some(source) = derivation.graph.node(node.source) {
            memory.push(picks, pick_of(source));
        }
    } else if node.is_load() {
        return;
    }
    memory.push(picks, pick_of(node));
}

fn pick_of(node: Node) -> Pick {
    let part = match node.kind {
        Kind::SwapLoad => Part::SwapLoad,
        Kind::SwapStore | Kind::LoneSwapStore => Part::SwapStore,
        Kind::Load | Kind::Store | Kind::Stbar => Part::Whole,
    };
    (node.processor, node.operation, part)
}
