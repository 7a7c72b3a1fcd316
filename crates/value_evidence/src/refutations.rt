//! Refutations by values: steps, and cases of which each order of the log keeps one.

use crate::steps::{ValueEnd, ValueStep};

/// A line of a refutation by values.
///
/// A part of a refutation is some steps, and then its end or a case. A case has two parts: what it supposes is in force in the first,
/// which the line `Else` follows, and then comes the second.
#[derive(Clone, Copy, Debug, PartialEq, Eq)]
pub enum ValueRefutationLine {
    /// It follows from what is in force here, and is in force up to the end of its part.
    Step(ValueStep),
    /// Suppose that the load read this source. In the second part it read another one, so the source is set aside.
    ReadCase { load: usize, source: usize },
    /// Suppose that the event `first` comes before the event `second`. In the second part `second` comes before `first`.
    BeforeCase { first: usize, second: usize },
    /// The second part of the last case whose second part hasn't begun.
    Else,
    /// The end of a part. In `NoSource` the load can have read nothing but what is set aside.
    End(ValueEnd),
}

/// Evidence on whether a log has an order of its memory model.
#[derive(Debug, Drop)]
pub enum LogEvidence {
    /// It has this one: all events, in the order in which memory takes them.
    Order(Vec<usize>),
    /// It has none, by these lines.
    Refutation(Vec<ValueRefutationLine>),
}
