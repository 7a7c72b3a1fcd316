//! How a run that says its own order is followed.

/// In what is told of a run that is followed.
#[derive(Clone, Copy, Debug, PartialEq, Eq)]
pub enum RunFormat {
    /// In lines of words.
    Words,
    /// In one line of JSON.
    Json,
}

/// How a run is followed.
#[derive(Clone, Copy, Debug, PartialEq, Eq)]
pub struct FollowOptions {
    /// Of how many refusals is told at most.
    pub most: usize,
    /// Whether a text without the line `end` is refused.
    pub needs_end: bool,
    /// Whether the first line that is no step ends the run.
    pub is_fast: bool,
    /// In what is told of it.
    pub format: RunFormat,
    /// Whether each refusal is explained.
    pub is_explained: bool,
}
