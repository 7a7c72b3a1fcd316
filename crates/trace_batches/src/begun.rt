//! A batch that has begun.
ghost use Rattle.std.specs.Prelude.{◌≤◌};

use crate::batches::BatchOptions;
use crate::tallies::Tally;
use std::alloc::Global;

/// A batch that has begun: `begin` begins it, `judge` judges one text more, `leave_out` says that one can't be read, and `end` ends
/// it.
///
/// At a fault of one of them the batch has ended: what was written is a prefix of what the batch of these texts writes.
#[derive(Drop)]
pub struct Batch {
    pub(crate) alloc: Global,
    pub(crate) options: BatchOptions,
    /// The numbers of all texts so far.
    pub(crate) tally: Tally,
    /// Whether one of them couldn't be read.
    pub(crate) is_unread: bool,
    ghost some: { 1 ≤ options.workers },
}
