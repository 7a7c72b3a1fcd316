//! Campaigns over units in boxes, of one kind or of several: what is written, which calls the units get, and of how many seeds a
//! meter hears; and the programs of seeds. A box is a unit like any other.

mod campaigns;
mod running;
mod seeded_programs;

/// The text of the seeds 1, 2 and 3 without a violation.
const THREE_SEEDS: &str =
    "seed 1 NO VIOLATION FOUND\nseed 2 NO VIOLATION FOUND\nseed 3 NO VIOLATION FOUND\nseeds 3 violations 0\n";
