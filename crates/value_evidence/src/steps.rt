//! The steps of evidence, and how it ends.

/// What holds in each order of a log's memory model, by its values and by the steps before.
///
/// Numbers are those of events, from 1, processor after processor in program order: a swap gives its load and then its store,
/// barriers give none. As a source, 0 stands for the first value. A load can have read a store to its address of its value, or the
/// first value if that is the same. It can't have read what comes after it, what another store follows that it sees, or what another
/// swap read, if it is a swap's too.
#[derive(Clone, Copy, Debug, PartialEq, Eq)]
pub enum ValueStep {
    /// The load read this source: it can have read no other.
    Read { load: usize, source: usize },
    /// `from` comes before the load: it is, or comes before, each store that the load can have read, and none of these may have been
    /// forwarded to the load.
    In { from: usize, load: usize },
    /// The load comes before the store `to`, which is one to its address: each store that it can have read comes before `to`.
    Out { load: usize, to: usize },
    /// The store `from`, which is one to the load's address that the load sees, comes before the store `to`: this is, or comes after,
    /// each number that the load can have read.
    Over { from: usize, to: usize, load: usize },
    /// The store of the swap whose load is `swap` comes before the store `to`, as the swap's load does.
    SwapAfter { swap: usize, to: usize },
    /// The store `from` comes before the load `swap` of a swap, as it comes before the swap's store.
    SwapBefore { from: usize, swap: usize },
}

/// Why there is no order in which the steps hold.
#[derive(Clone, Copy, Debug, PartialEq, Eq)]
pub enum ValueEnd {
    /// The load of this number can have read nothing.
    NoSource(usize),
    /// The event of this number comes before itself.
    Cycle(usize),
}

/// Steps, each of which follows from those before it, and why they leave no order.
#[derive(Debug, Drop)]
pub struct ValueEvidence {
    /// The steps.
    pub steps: Vec<ValueStep>,
    /// How they end.
    pub end: ValueEnd,
}
