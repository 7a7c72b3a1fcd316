//! Edges beyond the base edges, in the order in which they were found.

use round_pool::{Edge, Ranked};
use search_memory::Memory;

/// An edge that an inferred rule gave by edges before it, or that a case supposes.
#[derive(Clone, Copy)]
pub(crate) struct Link {
    pub(crate) from: usize,
    pub(crate) to: usize,
    pub(crate) is_case: bool,
}

/// Links in the order in which they came: the edges that the rounds over a trace added, round by round, and then others.
#[derive(Drop)]
pub(crate) struct Links<'a> {
    pub(crate) memory: &'a Memory,
    ranked: &'a Ranked,
    nodes: usize,
    /// How many links there are up to each round.
    ends: Vec<usize>,
    /// The links after those of the rounds.
    later: Vec<Link>,
    /// The places of the links from each number, once they were asked for: there may be millions.
    from: Vec<Vec<usize>>,
}

impl<'a> Links<'a> {
    /// The edges that the rounds over a trace added.
    pub(crate) fn of_rounds(memory: &'a Memory, nodes: usize, ranked: &'a Ranked) -> Links<'a> {
        let mut links = Links {
            memory,
            ranked,
            nodes,
            ends: Vec::new(memory.alloc()),
            later: Vec::new(memory.alloc()),
            from: Vec::new(memory.alloc()),
        };
        let mut count: usize = 0;
        for k in 0..ranked.rounds() as usize {
            count = count.saturating_add(round(ranked, k).len());
            memory.push(&mut links.ends, count);
        }
        links
    }

    /// How many links the rounds gave.
    pub(crate) fn of_all_rounds(&self) -> usize {
        self.ends.last().copied().unwrap_or(0)
    }

    /// How many links there are.
    pub(crate) fn count(&self) -> usize {
        self.of_all_rounds().saturating_add(self.later.len())
    }

    /// Adds a link, and answers its place, from 0.
    pub(crate) fn add(&mut self, link: Link) -> usize {
        let place = self.count();
        self.memory.push(&mut self.later, link);
        self.list(link.from, place);
        place
    }

    /// Takes back the links from this place on, which is none of the rounds.
    pub(crate) fn cut(&mut self, place: usize) {
        for _ in place..self.count() {
            self.take_last();
        }
    }

    /// Takes back the last link.
    fn take_last(&mut self) {
        if let Some(link) = self.later.pop()
            && let Some(list) = self.from.get_mut(link.from)
        {
            list.pop();
        }
    }

    /// The link at a place.
    pub(crate) fn at(&self, place: usize) -> Option<Link> {
        match place.checked_sub(self.of_all_rounds()) {
            Some(later) => self.later.get(later).copied(),
            None => self.of_round_at(place),
        }
    }

    /// The link of the rounds at a place.
    fn of_round_at(&self, place: usize) -> Option<Link> {
        let mut begin = 0;
        for (k, end) in self.ends.iter().enumerate() {
            if place < *end {
                return match round(self.ranked, k).get(place.saturating_sub(begin)) {
                    Some(edge) => Some(link_of(*edge)),
                    None => None,
                };
            }
            begin = *end;
        }
        None
    }

    /// Makes lists of the links from each number, if that wasn't done.
    pub(crate) fn list_all(&mut self) {
        if !self.from.is_empty() {
            return;
        }
        for _ in 0..self.nodes {
            let none = Vec::new(self.memory.alloc());
            self.memory.push(&mut self.from, none);
        }
        for k in 0..self.ends.len() {
            self.list_round(k);
        }
        self.list_later();
    }

    /// Lists the links after those of the rounds.
    fn list_later(&mut self) {
        for place in self.of_all_rounds()..self.count() {
            if let Some(link) = self.at(place) {
                self.list(link.from, place);
            }
        }
    }

    /// Lists the links of a round, from 0.
    fn list_round(&mut self, k: usize) {
        let begin = self.begin_of(k);
        for (index, edge) in round(self.ranked, k).iter().enumerate() {
            self.list(edge.from as usize, begin.saturating_add(index));
        }
    }

    /// The place of the first link of a round, from 0.
    fn begin_of(&self, k: usize) -> usize {
        match k.checked_sub(1) {
            Some(before) => self.ends.get(before).copied().unwrap_or(0),
            None => 0,
        }
    }

    /// Lists the place of a link from a number, if there are lists.
    fn list(&mut self, from: usize, place: usize) {
        if let Some(list) = self.from.get_mut(from) {
            self.memory.push(list, place);
        }
    }

    /// The places of the links from a number, as listed.
    pub(crate) fn from(&self, n: usize) -> &[usize] {
        match self.from.get(n) {
            Some(list) => list,
            None => &[],
        }
    }
}

/// The edges that a round added, from 0; none where there is no such round.
fn round(ranked: &Ranked, k: usize) -> &[Edge] {
    if k < ranked.rounds() as usize {
        ranked.added(k + 1)
    } else {
        &[]
    }
}

/// The edge as a link.
fn link_of(edge: Edge) -> Link {
    Link {
        from: edge.from as usize,
        to: edge.to as usize,
        is_case: false,
    }
}
