//! How the outcomes of a program are printed.

/// In which form the outcomes of a program are printed.
#[derive(Clone, Copy, Debug, PartialEq, Eq)]
pub enum OutcomeForm {
    /// The traces that complete runs leave, one after the other.
    Traces,
    /// A line for each final state.
    States,
}

/// How the outcomes of a program are looked for and printed.
#[derive(Clone, Copy, Debug, PartialEq, Eq)]
pub struct OutcomeOptions {
    /// How many states runs of the program may reach, at most.
    pub limit: u64,
    /// In which form they are printed.
    pub form: OutcomeForm,
}
