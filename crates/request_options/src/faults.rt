//! How a faulty unit deviates.

/// How a faulty unit deviates from a store-buffer unit, and at which occasions.
#[derive(Clone, Copy, Debug, PartialEq, Eq)]
pub enum FaultKind {
    /// Each drain of a buffer that isn't empty is an occasion: the newest entry goes to memory in place of the oldest.
    NewestFirst,
    /// Each load whose address waits in the own buffer is an occasion: it answers memory's word.
    NoForward,
    /// Each load whose address doesn't wait in the own buffer is an occasion: it answers what memory had there before its
    /// latest write, which is the first value until the second write.
    StaleLoad,
    /// Each swap is an occasion: its new value enters the own buffer in place of memory.
    TornSwap,
    /// Each membar is an occasion: it drains nothing.
    IdleMembar,
    /// Each drain of a buffer that isn't empty is an occasion: the oldest entry leaves, and memory stays.
    LostDrain,
}
