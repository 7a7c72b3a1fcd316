//! Shortest paths over base edges and links.

use crate::search::links::Links;
use tso_ops::Trace;
use tso_rules::base_words;

/// How a number was reached: from which one, and by which link, if it wasn't a base edge.
#[derive(Clone, Copy)]
pub(crate) struct Hop {
    pub(crate) from: usize,
    pub(crate) link: Option<usize>,
}

/// A path, and the hop to each of its numbers but the first.
#[derive(Drop)]
pub(crate) struct Path {
    pub(crate) numbers: Vec<usize>,
    pub(crate) hops: Vec<Hop>,
}

/// The edges of a trace that stood before a link: base edges, and the links before it.
#[derive(Clone, Copy)]
pub(crate) struct EdgesBefore<'a> {
    pub(crate) trace: &'a Trace,
    pub(crate) links: &'a Links<'a>,
    pub(crate) limit: usize,
}

/// Numbers that paths of one or more edges lead to from a start, the nearest first, and how each was reached.
#[derive(Drop)]
pub(crate) struct Reached<'a> {
    edges: EdgesBefore<'a>,
    start: usize,
    hops: Vec<Option<Hop>>,
    queue: Vec<usize>,
}

impl<'a> Reached<'a> {
    /// Nothing reached yet from a start.
    fn new(edges: EdgesBefore<'a>, start: usize) -> Reached<'a> {
        let memory = edges.links.memory;
        let nodes = edges.trace.node_count();
        let mut hops = memory.list(Vec::with_capacity(memory.alloc(), nodes));
        for _ in 0..nodes {
            memory.push(&mut hops, None);
        }
        Reached {
            edges,
            start,
            hops,
            queue: Vec::new(memory.alloc()),
        }
    }

    /// The numbers that were reached, the nearest first.
    pub(crate) fn numbers(&self) -> &[usize] {
        &self.queue
    }

    fn has(&self, n: usize) -> bool {
        matches!(self.hops.get(n), Some(Some(_)))
    }

    /// Notes what the edges from a number reach that wasn't reached before.
    fn spread(&mut self, from: usize) {
        let memory = self.edges.links.memory;
        let words = memory.list(base_words(memory.alloc(), self.edges.trace, from));
        for (place, word) in words.iter().enumerate() {
            self.spread_word(from, place, *word);
        }
        self.spread_links(from);
    }

    /// Notes the ends of the links from a number.
    fn spread_links(&mut self, from: usize) {
        let edges = self.edges;
        for place in edges.links.from(from) {
            if *place < edges.limit
                && let Some(link) = edges.links.at(*place)
            {
                let link_place = Some(*place);
                self.note(link.to, from, link_place);
            }
        }
    }

    /// Notes the numbers of a word of a row of base edges.
    fn spread_word(&mut self, from: usize, place: usize, word: u64) {
        let mut left = word;
        for _ in 0..64 {
            if left == 0 {
                return;
            }
            let n = place
                .saturating_mul(64)
                .saturating_add(left.trailing_zeros() as usize);
            self.note(n, from, None);
            left &= left.wrapping_sub(1);
        }
    }

    /// Notes how a number was reached, if it wasn't before.
    fn note(&mut self, n: usize, from: usize, link: Option<usize>) {
        if let Some(entry) = self.hops.get_mut(n)
            && entry.is_none()
        {
            *entry = Some(Hop { from, link });
            self.edges.links.memory.push(&mut self.queue, n);
        }
    }

    /// The shortest path to a number, if it was reached.
    pub(crate) fn path_to(&self, to: usize) -> Option<Path> {
        let memory = self.edges.links.memory;
        let mut path = Path {
            numbers: Vec::new(memory.alloc()),
            hops: Vec::new(memory.alloc()),
        };
        if self.go_back(&mut path, to) {
            path.numbers.reverse();
            path.hops.reverse();
            Some(path)
        } else {
            None
        }
    }

    /// Goes back from a number to the start: whether it was reached.
    fn go_back(&self, path: &mut Path, to: usize) -> bool {
        let memory = self.edges.links.memory;
        let mut at = to;
        memory.push(&mut path.numbers, at);
        for _ in 0..self.hops.len() {
            let Some(Some(hop)) = self.hops.get(at).copied() else {
                return false;
            };
            memory.push(&mut path.hops, hop);
            memory.push(&mut path.numbers, hop.from);
            at = hop.from;
            if at == self.start {
                return true;
            }
        }
        false
    }
}

/// What is reached from a number, up to this goal or to the end.
pub(crate) fn reached_from<'a>(
    edges: EdgesBefore<'a>,
    start: usize,
    goal: Option<usize>,
) -> Reached<'a> {
    let mut reached = Reached::new(edges, start);
    reached.spread(start);
    for place in 0..edges.trace.node_count() {
        if let Some(goal) = goal
            && reached.has(goal)
        {
            break;
        }
        let Some(next) = reached.queue.get(place).copied() else {
            break;
        };
        reached.spread(next);
    }
    reached
}

/// A shortest path of one or more edges from a number to another, if there is one.
pub(crate) fn shortest_path(edges: EdgesBefore<'_>, from: usize, to: usize) -> Option<Path> {
    let reached = reached_from(edges, from, Some(to));
    reached.path_to(to)
}
