//! The pairs that program order gives, and those of the number 0.
ghost use Rattle.std.specs.Prelude.{◌≡◌, ◌<◌, ◌≤◌, suc, length};
ghost use Rattle.tso_ops.specs.Events.{event_total};
ghost use Rattle.acyclic_traces.specs.Internal.Pairs.{AreOrderPairs};

use crate::pairs::joined_rows;
use tso_ops::Trace;
use tso_rules::later_word;

/// Puts into a table the pairs of 0, the writer of the first values, with all events, and those that program order gives, with some
/// that follow from them.
pub(crate) fn put_order(trace: &Trace, rows: &mut [u64])
    requires sized { length rows.old ≡ 64 }
    requires few { suc (event_total trace.now) ≤ 64 }
    ensures sized { length rows.new ≡ 64 }
    ensures order { AreOrderPairs trace.now rows.new }
{
    for u in (1..trace.node_count()).rev() {
        let later = later_word(trace, u, 0);
        rows[u] = later | joined_rows(rows, later);
        rows[0] |= 1 << u;
    }
}
