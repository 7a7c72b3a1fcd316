//! Traces and certificates for tests, made by hand and drawn, and readers and writers that fail.
#![tactic(auto)]

pub use drawn::{
    Drawn, UNDER_PSO, UNDER_PSO_WITH_FIRST_VALUES, UNDER_TSO, WITH_FIRST_VALUES, drawn_trace,
};
pub use draws::next_word;
pub use equality::expect_equal;
pub use examples::{
    Example, INDEPENDENT_READS, STORE_BUFFERING_WITH_BARRIERS, TWO_SWAPS_BOTH_FIRST, UNWRITTEN_LOAD,
};
pub use listed::{Listed, cycle_of, step_of};
pub use machine::DrawingMachine;
pub use outcomes::{
    STORE_BUFFERING, independent_reads, ld, program_of, st, store_buffering, sw, trace_from,
    trace_of, two_swaps_both_first,
};
pub use readers::{EndedReader, FailingReader, SlowReader, TornReader};
pub use sources::has_unwritten_load;
pub use texts::repeated;
pub use writers::{FlushedWriter, Full, InterruptedWriter, ShortWriter, SlowWriter};

mod drawn;
mod draws;
mod equality;
mod examples;
mod listed;
mod machine;
mod outcomes;
mod readers;
mod sources;
mod texts;
mod writers;
