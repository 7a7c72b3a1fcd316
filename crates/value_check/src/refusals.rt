/// Why evidence is refused. Steps count from 1.
#[derive(Clone, Copy, Debug, PartialEq, Eq)]
pub enum ValueRefusal {
    /// The step of this number doesn't follow from those before it, all of which do.
    StepRefused(usize),
    /// All steps follow, but they don't end as the evidence says.
    EndRefused,
}

/// Why lines are no refutation by values that holds, in the order in which it is looked for: their structure first, then the first line
/// with a fault. Lines count from 1.
#[derive(Clone, Copy, Debug, PartialEq, Eq)]
pub enum ValueRefutationFault {
    /// The lines before this one are the beginning of a refutation, and with it they aren't: as a line after the last end, or one
    /// other than `Else` after the end of a case's first part.
    Misplaced(usize),
    /// The lines are the beginning of a refutation, and no whole one; also where there are none.
    Unfinished,
    /// The step on this line doesn't follow from what is in force there.
    StepRefused(usize),
    /// The load of the case on this line is none, or its numbers aren't two events.
    CaseRefused(usize),
    /// What is in force at the end on this line doesn't end as it says.
    EndRefused(usize),
}
