use thiserror::Error;

/// Why a certificate doesn't hold, in the order in which it is looked for. Steps count from 1.
#[derive(Clone, Copy, Debug, PartialEq, Eq, Error)]
pub enum CertFault {
    /// A number of the certificate is above the number of events, or `init` stands as the unwritten load.
    #[error("EventRange")]
    EventRange,
    /// The load that is said to be unwritten is no load, or has a source.
    #[error("NotUnwritten")]
    NotUnwritten,
    /// The condition of this step's base rule isn't met.
    #[error("BaseRefused step {0}")]
    BaseRefused(usize),
    /// The condition of this step's inferred rule isn't met, or its path's ends aren't the rule's.
    #[error("SideRefused step {0}")]
    SideRefused(usize),
    /// Two neighbours of this step's path are no earlier step.
    #[error("PathUnlisted step {0}")]
    PathUnlisted(usize),
    /// Two neighbours of the cycle, or its last and first number, are no step.
    #[error("CycleUnlisted")]
    CycleUnlisted,
    /// The cycle has no number.
    #[error("EmptyCycle")]
    EmptyCycle,
}
