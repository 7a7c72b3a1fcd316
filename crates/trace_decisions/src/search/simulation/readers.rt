//! How many loads of each store are left.

use bitsets::has_number;
use search_memory::Memory;
use tso_ops::Trace;

/// For each store how many loads of what it wrote haven't come.
#[derive(Drop)]
pub(crate) struct Readers {
    left: Vec<usize>,
}

impl Readers {
    /// Of all stores of a trace, with all loads left.
    pub(crate) fn new(memory: &Memory, trace: &Trace) -> Readers {
        let nodes = trace.node_count();
        let mut readers = Readers {
            left: memory.filled(0, nodes),
        };
        for n in 0..nodes {
            readers.add(trace, n);
        }
        readers
    }

    /// Adds a load, if the event is one, to those of its source.
    fn add(&mut self, trace: &Trace, n: usize) {
        if let Some(source) = trace.source_number(n)
            && let Some(entry) = self.left.get_mut(source)
        {
            *entry = entry.saturating_add(1);
        }
    }

    /// Counts that a load has come.
    pub(crate) fn count(&mut self, trace: &Trace, load: usize) {
        if let Some(source) = trace.source_number(load)
            && let Some(entry) = self.left.get_mut(source)
        {
            *entry = entry.saturating_sub(1);
        }
    }

    /// How many loads of a store are left.
    pub(crate) fn left(&self, store: usize) -> usize {
        self.left.get(store).copied().unwrap_or(0)
    }

    /// How many are left besides this event, which may be one of them.
    pub(crate) fn left_besides(&self, trace: &Trace, store: usize, besides: usize) -> usize {
        let left = self.left(store);
        if besides != 0 && has_number(trace.reader_words(store), besides) {
            left.saturating_sub(1)
        } else {
            left
        }
    }
}
