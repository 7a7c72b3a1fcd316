//! What was found, in the order in which it was, for evidence.

use crate::edges::Why;
use crate::graphs::Graph;
use crate::lookups::number_of;
use crate::nodes::Kind;
use log_selections::KnownLog;
use search_memory::Memory;
use std::alloc::Global;
use value_evidence::ValueStep;

/// An edge from `u` to `v`, or `u`, the source of `v`.
#[derive(Clone, Copy)]
struct Note {
    u: u32,
    v: u32,
    why: Why,
}

/// The notes, and whether some are made.
#[derive(Drop)]
pub(crate) struct Notes {
    /// Sources of loads that can have read one thing alone by their values: they hold before all else.
    sources: Vec<Note>,
    notes: Vec<Note>,
    is_on: bool,
}

impl Notes {
    /// None are made.
    pub(crate) fn new(alloc: Global) -> Notes {
        Notes {
            sources: Vec::new(alloc),
            notes: Vec::new(alloc),
            is_on: false,
        }
    }

    /// From now on notes are made.
    pub(crate) fn turn_on(&mut self) {
        self.is_on = true;
    }

    /// Whether notes are made.
    #[inline]
    pub(crate) fn is_on(&self) -> bool {
        self.is_on
    }

    /// Notes that `u` comes before `v`, or is its source, if notes are made.
    pub(crate) fn add(&mut self, memory: &Memory, u: u32, v: u32, why: Why) {
        if self.is_on {
            memory.push(&mut self.notes, Note { u, v, why });
        }
    }

    /// Notes that `u` is the source of `v`, by the values alone where `is_only`.
    pub(crate) fn add_source(&mut self, memory: &Memory, u: u32, v: u32, is_only: bool) {
        let note = Note {
            u,
            v,
            why: Why::Source,
        };
        if is_only {
            memory.push(&mut self.sources, note);
        } else {
            memory.push(&mut self.notes, note);
        }
    }

    /// How many notes there are, but for those of sources that the values alone tell.
    pub(crate) fn len(&self) -> usize {
        self.notes.len()
    }

    /// The notes as steps of evidence: sources that the values alone tell stand before all.
    pub(crate) fn steps(&self, memory: &Memory, known: &KnownLog, graph: &Graph) -> Vec<ValueStep> {
        let all = self.sources.len().saturating_add(self.notes.len());
        let mut steps = memory.room(all);
        push_steps(memory, known, graph, &self.sources, &mut steps);
        push_steps(memory, known, graph, &self.notes, &mut steps);
        steps
    }

    /// The notes from one on as steps, but for those of sources that the values alone tell.
    pub(crate) fn steps_from(
        &self,
        memory: &Memory,
        known: &KnownLog,
        graph: &Graph,
        first: usize,
    ) -> Vec<ValueStep> {
        let first = first.min(self.notes.len());
        let mut steps = Vec::new(memory.alloc());
        push_steps(memory, known, graph, &self.notes[first..], &mut steps);
        steps
    }
}

fn push_steps(
    memory: &Memory,
    known: &KnownLog,
    graph: &Graph,
    notes: &[Note],
    steps: &mut Vec<ValueStep>,
) {
    for note in notes {
        if let Some(step) = step_of(known, graph, *note) {
            memory.push(steps, step);
        }
    }
}

/// The number of the event of a node, from 1; 0 where it is none.
pub(crate) fn event_of(known: &KnownLog, graph: &Graph, number: u32) -> usize {
    let Some(node) = graph.node(number) else {
        return 0;
    };
    let first = number_of(known, node.processor as usize, node.operation as usize).unwrap_or(0);
    match node.kind {
        Kind::Stbar => 0,
        Kind::SwapStore | Kind::LoneSwapStore => first.saturating_add(1),
        Kind::Load | Kind::Store | Kind::SwapLoad => first,
    }
}

/// The step that a note is; None for an edge that the program gives.
fn step_of(known: &KnownLog, graph: &Graph, note: Note) -> Option<ValueStep> {
    let u = event_of(known, graph, note.u);
    let v = event_of(known, graph, note.v);
    match note.why {
        Why::Source => Some(ValueStep::Read { load: v, source: u }),
        Why::Read | Why::AgreeIn(_) => Some(ValueStep::In { from: u, load: v }),
        Why::StorePast(_) | Why::AgreeOut(_) => Some(ValueStep::Out { load: u, to: v }),
        Why::Own(load) | Why::LoadPast(load) => Some(ValueStep::Over {
            from: u,
            to: v,
            load: event_of(known, graph, load),
        }),
        Why::SwapBefore(_) => Some(ValueStep::SwapBefore { from: u, swap: v }),
        Why::SwapAfter(load) => Some(ValueStep::SwapAfter {
            swap: event_of(known, graph, load),
            to: v,
        }),
        Why::Chain | Why::LoadOp | Why::Stbar | Why::Membar(_) | Why::Supposed => None,
    }
}
