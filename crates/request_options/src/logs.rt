//! How a log is reported on.

/// What is printed of a log.
#[derive(Clone, Copy, Debug, PartialEq, Eq)]
pub enum LogForm {
    /// The report: the lines of each violation.
    Lines,
    /// The report, and after each violation's lines its explanation; or the line of a refusal, and what explains it.
    Explained,
    /// The texts of the violations' traces, one after another, and no report. That of a load of what nothing wrote has such a load
    /// alone.
    Traces,
    /// The text of the evidence by values of a violation, and no report; nothing where no evidence by values is found.
    Evidence,
}

/// How a log is reported on.
#[derive(Clone, Copy, Debug, PartialEq, Eq)]
pub struct LogOptions {
    /// How many violations are listed at most, and beside them how many loads of what nothing wrote.
    pub most: usize,
    /// How many steps the search may do for each load and store of the log, and for 50,000 more.
    pub effort: usize,
    /// How many of a hundred loads may have a source that the values don't tell, where all is said to be judged.
    pub max_unknown: usize,
    /// Whether a text without the line `end` is refused.
    pub needs_end: bool,
    /// What is printed.
    pub form: LogForm,
}
