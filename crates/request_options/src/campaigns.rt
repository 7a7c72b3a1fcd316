//! How a campaign executes programs, and what is printed of it.

/// How the program of a seed is executed on its unit.
#[derive(Clone, Copy, Debug, PartialEq, Eq)]
pub enum Execution {
    /// By a thread per processor, with drains by the seed. Two campaigns may record different traces.
    Threads {
        /// How many turns a drainer takes beside the processors: none with 0, and 1,000,000 at most.
        drain_turns: u64,
    },
    /// By a replay of the schedule of the seed, on the thread of the worker.
    Replay,
}

/// What is printed of a campaign.
#[derive(Clone, Copy, Debug, PartialEq, Eq)]
pub enum CampaignPrinting {
    /// A line for each seed, and a last line with their numbers.
    Lines,
    /// The traces that were recorded, one after the other.
    Traces,
}
