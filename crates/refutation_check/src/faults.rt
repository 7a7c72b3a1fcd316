use thiserror::Error;

/// Why lines are no refutation that holds, in the order in which it is looked for. Lines count from 1.
#[derive(Clone, Copy, Debug, PartialEq, Eq, Error)]
pub enum RefutationFault {
    /// The lines before this one are the beginning of a refutation, and with it they aren't: as a line after the last
    /// cycle, one other than its second part after the cycle of a case's first part, or such a line with other numbers.
    #[error("Misplaced line {0}")]
    Misplaced(usize),
    /// The lines are the beginning of a refutation, and no whole one; also where there are none.
    #[error("Unfinished")]
    Unfinished,
    /// A number is above the number of events.
    #[error("EventRange")]
    EventRange,
    /// The condition of the base rule of the step on this line isn't met.
    #[error("BaseRefused line {0}")]
    BaseRefused(usize),
    /// The condition of the inferred rule of the step on this line isn't met, or its path's ends aren't the rule's.
    #[error("SideRefused line {0}")]
    SideRefused(usize),
    /// Two neighbours of the path on this line are no pair in force.
    #[error("PathUnlisted line {0}")]
    PathUnlisted(usize),
    /// The numbers of the case on this line aren't two events.
    #[error("CaseRefused line {0}")]
    CaseRefused(usize),
    /// Two neighbours of the cycle on this line, or its last and first number, are no pair in force.
    #[error("CycleUnlisted line {0}")]
    CycleUnlisted(usize),
    /// The cycle on this line has no number.
    #[error("EmptyCycle line {0}")]
    EmptyCycle(usize),
}
