//! What is said of a trace, of a log, or of what the runs of a program leave.

/// What is said of a trace, of a log, or of what the runs of a program leave.
#[derive(Clone, Copy, Debug, PartialEq, Eq)]
pub enum Answer {
    /// What was asked is answered, and no violation was found; only a decision or evidence proves that there is an order.
    Clear,
    /// Not all was judged, or nothing was decided; no violation was found.
    Undecided,
    /// A text is none of its kind, evidence doesn't hold, or runs reach too many states.
    Refused,
    /// There is a violation: no order of memory meets the axioms, or no run leaves what was recorded.
    Violation,
    /// One of several texts couldn't be read, and of the others something else is said.
    Unread,
}
