use tso_ops::Order;

/// What a processor did, and the value that it read.
#[derive(Clone, Copy, Debug, PartialEq, Eq)]
pub enum LogOperation {
    /// A load from address `a` that read `r`.
    Ld { a: u64, r: u64 },
    /// A store of the value `v` to address `a`.
    St { a: u64, v: u64 },
    /// A swap at address `a` that read `r` and stored `v`.
    Sw { a: u64, r: u64, v: u64 },
    /// A barrier, MEMBAR #StoreLoad (SPARC V9 manual, appendix A, memory barrier).
    Mb,
    /// An STBAR (SPARC V8 manual, chapter 6 and appendix K). Under TSO it says nothing.
    Sb,
}

/// An operation of a log, and the number that it has among the pieces of the lines of the log's text, from 1: that of its line, where
/// no line is cut.
#[derive(Clone, Copy, Debug, PartialEq, Eq)]
pub struct LoggedOperation {
    /// The number.
    pub line: usize,
    /// The operation.
    pub operation: LogOperation,
}

/// A log: its memory model, the first values of memory, and what each processor did.
///
/// The operations on what a line `un` names aren't there.
#[derive(Debug, Drop)]
pub struct Log {
    /// The memory model.
    pub order: Order,
    /// Addresses, in ascending order, and what memory has there at first: 0 at all others.
    pub first: Vec<(u64, u64)>,
    /// The operations of processors 0, 1, .. up to the last that has one or a line `un`, each in program order.
    pub lists: Vec<Vec<LoggedOperation>>,
    /// How many operations aren't there, since a line `un` names their address.
    pub left_out: usize,
}
