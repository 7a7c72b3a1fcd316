use crate::refutations::LineList;
use tso_cert::NumList;

/// Evidence on whether a trace has an order that meets the axioms of its memory model.
#[derive(Debug, Drop)]
pub enum Evidence {
    /// It has none: the load of this number read a value that nothing wrote.
    Unwritten(u64),
    /// It has this one: all events, in the order in which memory takes them.
    Order(NumList),
    /// It has none, by these lines.
    Refutation(LineList),
}
