//! The words of operations in texts of traces, programs and logs, and those that begin and end their lists.

/// A load.
pub const LD: &str = "ld";

/// A store.
pub const ST: &str = "st";

/// A swap.
pub const SW: &str = "sw";

/// A barrier, MEMBAR #StoreLoad (SPARC V9 manual, appendix A, memory barrier).
pub const MB: &str = "mb";

/// An STBAR (SPARC V8 manual, chapter 6 and appendix K).
pub const STBAR: &str = "stbar";

/// The beginning of a processor's operations.
pub(crate) const PROC: &str = "proc";

/// The end of a text.
pub(crate) const END: &str = "end";
