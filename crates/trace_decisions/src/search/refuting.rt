//! Parts of refutations, from links that close cycles.

use crate::search::bases::base_lines;
use crate::search::explaining::explain;
use crate::search::links::Links;
use crate::search::paths::{EdgesBefore, Hop, shortest_path};
use search_memory::Memory;
use tso_cert::{CertStep, NumList, Reason};
use tso_evidence::RefutationLine;
use tso_ops::Trace;

/// Lines that end a part of a refutation, and which links they rest on that stand before them.
#[derive(Drop)]
pub(crate) struct Part {
    pub(crate) lines: Vec<RefutationLine>,
    needs: Vec<bool>,
}

/// What parts of refutations are made of: the trace, and its links.
#[derive(Drop)]
pub(crate) struct Refuting<'a> {
    pub(crate) memory: &'a Memory,
    pub(crate) trace: &'a Trace,
    pub(crate) links: Links<'a>,
}

impl Part {
    /// A part without lines, which needs none of so many links.
    fn new(memory: &Memory, links: usize) -> Part {
        let alloc = memory.alloc();
        Part {
            lines: Vec::new(alloc),
            needs: memory.list(vec![in alloc; false; links]),
        }
    }

    /// Whether the part rests on the link at this place.
    pub(crate) fn needs(&self, place: usize) -> bool {
        matches!(self.needs.get(place), Some(true))
    }

    /// Notes that the part rests on a link.
    fn need(&mut self, place: usize) {
        if let Some(entry) = self.needs.get_mut(place) {
            *entry = true;
        }
    }

    /// Notes that the part rests on the links of a path.
    fn need_links(&mut self, hops: &[Hop]) {
        for hop in hops {
            if let Some(place) = hop.link {
                self.need(place);
            }
        }
    }

    /// Notes that the part rests on what the other part rests on.
    fn need_all(&mut self, other: &Part) {
        for place in 0..other.needs.len() {
            if other.needs(place) {
                self.need(place);
            }
        }
    }

    /// The part of a case: this part refutes that `first` comes before `second`, the other that `second` comes before `first`.
    pub(crate) fn with_second_half(
        self,
        memory: &Memory,
        first: u64,
        second: u64,
        other: Part,
    ) -> Part {
        let Part { lines, needs } = self;
        let mut part = Part {
            lines: Vec::new(memory.alloc()),
            needs,
        };
        part.need_all(&other);
        memory.push(&mut part.lines, RefutationLine::Case { first, second });
        part.append(memory, lines);
        let (first, second) = (second, first);
        memory.push(&mut part.lines, RefutationLine::Else { first, second });
        part.append(memory, other.lines);
        part
    }

    /// Appends lines.
    fn append(&mut self, memory: &Memory, lines: Vec<RefutationLine>) {
        for line in lines {
            memory.push(&mut self.lines, line);
        }
    }

    /// Puts steps, from the last to the first, before the lines of the part.
    fn put_before(self, memory: &Memory, steps: Vec<CertStep>) -> Part {
        let Part { lines, needs } = self;
        let mut part = Part {
            lines: steps_in_order(memory, steps),
            needs,
        };
        part.append(memory, lines);
        part
    }
}

/// Lines of steps, which are given from the last to the first.
fn steps_in_order(memory: &Memory, steps: Vec<CertStep>) -> Vec<RefutationLine> {
    let mut reversed = steps;
    reversed.reverse();
    let mut lines = memory.list(Vec::with_capacity(memory.alloc(), reversed.len()));
    for step in reversed {
        memory.push(&mut lines, RefutationLine::Step(step));
    }
    lines
}

/// Numbers as a path or a cycle.
fn path_of(memory: &Memory, numbers: &[usize]) -> NumList {
    match NumList::from_numbers(memory.alloc(), numbers) {
        Ok(list) => list,
        Err(_) => {
            memory.note(true);
            NumList::new(Vec::new(memory.alloc()))
        }
    }
}

impl Refuting<'_> {
    /// The edges before the link at a place.
    fn edges_before(&self, place: usize) -> EdgesBefore<'_> {
        EdgesBefore {
            trace: self.trace,
            links: &self.links,
            limit: place,
        }
    }

    /// The part that ends with the cycle that the link at this place closes, without steps. None where no path leads back, which
    /// doesn't happen.
    pub(crate) fn cycle_part(&self, place: usize) -> Option<Part> {
        let Some(link) = self.links.at(place) else {
            return None;
        };
        let Some(path) = shortest_path(self.edges_before(place), link.to, link.from) else {
            return None;
        };
        let mut part = Part::new(self.memory, self.links.count());
        part.need(place);
        part.need_links(&path.hops);
        let cycle = path_of(self.memory, &path.numbers);
        self.memory
            .push(&mut part.lines, RefutationLine::Cycle(cycle));
        Some(part)
    }

    /// Puts the steps of the needed links from this place on before the lines of a part, but for those of cases.
    pub(crate) fn with_steps(&self, part: Part, first: usize) -> Part {
        let mut part = part;
        let mut steps = Vec::new(self.memory.alloc());
        for place in (first..self.links.count()).rev() {
            if part.needs(place)
                && let Some(step) = self.step_of(&mut part, place)
            {
                self.memory.push(&mut steps, step);
            }
        }
        part.put_before(self.memory, steps)
    }

    /// The step of a link, if it is none of a case; what its path uses is needed then.
    fn step_of(&self, part: &mut Part, place: usize) -> Option<CertStep> {
        let Some(link) = self.links.at(place) else {
            return None;
        };
        if link.is_case {
            return None;
        }
        let Some(found) = explain(self.edges_before(place), link.from, link.to) else {
            return None;
        };
        part.need_links(&found.path.hops);
        Some(CertStep {
            from: link.from as u64,
            to: link.to as u64,
            reason: Reason::Inferred {
                rule: found.rule,
                load: found.load as u64,
                path: path_of(self.memory, &found.path.numbers),
            },
        })
    }

    /// The lines of a whole refutation: the base edges that the lines of the part use, and then these lines.
    pub(crate) fn whole(&self, part: Part) -> Vec<RefutationLine> {
        let mut lines = base_lines(self.memory, self.trace, &part.lines);
        for line in part.lines {
            self.memory.push(&mut lines, line);
        }
        lines
    }
}
