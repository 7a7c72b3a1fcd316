//! The command line of `tsobench`: which arguments ask for what.
//!
//! `README.md` says what is proved of it.
#![tactic(auto)]

mod found;
mod help;
pub mod laws;
mod options;
mod parameters;
mod requests;
mod subcommands;
mod values;

pub use options::{
    CampaignOptions, MAX_CAPACITY, MAX_DRAIN_TURNS, MAX_LOG_EFFORT, MAX_LOG_VIOLATIONS,
    MAX_REQUESTED_WORKERS, MAX_RUN_TIMES, MakeOptions, Presentation, Printing, RunOptions,
    ShapeNumbers, UnitKind, UnitOptions,
};
pub use requests::{
    BatchRequest, CheckRequest, CommandLine, DecideLogRequest, DecideRequest, FollowRequest,
    JudgeRequest, LogRequest, Notes, OutcomesRequest, ReduceRequest, Request, RunRequest,
    RunTimesRequest, SeenRequest, TextPair, read_arguments,
};
