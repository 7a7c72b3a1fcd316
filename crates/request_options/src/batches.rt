//! What is said and printed of the traces of a batch.

/// How the lines of a batch are written.
#[derive(Clone, Copy, Debug, PartialEq, Eq)]
pub enum BatchFormat {
    /// In words, as `trace 1 VIOLATION`.
    Words,
    /// As an object of JSON each, as `{"trace":1,"verdict":"violation"}`.
    Json,
    /// As a document in JUnit's XML, with a suite of one test case for each trace.
    Junit,
}

/// How it is found out what is said of a trace.
#[derive(Clone, Copy, Debug, PartialEq, Eq)]
pub enum BatchMethod {
    /// By the rules: a violation, or none was found.
    Judge,
    /// By a decision: whether it has an order that meets the axioms of its memory model.
    Decide {
        /// With how many steps at most, for each trace.
        effort: u64,
    },
}

/// What is said and printed of the traces of a batch.
#[derive(Clone, Copy, Debug, PartialEq, Eq)]
pub struct BatchPrinting {
    /// How it is found out what is said of a trace.
    pub method: BatchMethod,
    /// How lines are written.
    pub format: BatchFormat,
    /// Whether the lines of traces without a violation, or of consistent ones, are left out.
    pub quiet: bool,
    /// Whether the texts of violations are printed in place of all lines.
    pub violations: bool,
    /// How many traces have to be judged, at least, and neither refused nor undecided; none where any number will do.
    pub required: Option<u64>,
}
