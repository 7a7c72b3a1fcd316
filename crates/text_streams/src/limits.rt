//! How often calls of readers and writers are made.

/// How often `read` is called on one reader at most, where it is read to its end.
pub(crate) const MAX_READS: usize = 2_097_152;

/// How often an interrupted call is tried again at most.
pub(crate) const MAX_INTERRUPTS: usize = 1_048_576;
