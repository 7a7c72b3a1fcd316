/// One act of a schedule, on the processor that it names.
#[derive(Clone, Copy, Debug, PartialEq, Eq)]
pub enum Act {
    /// The processor's next operation is issued.
    Issue(usize),
    /// One of the processor's waiting stores is drained, if any waits: which one is the memory unit's choice.
    Drain(usize),
}
