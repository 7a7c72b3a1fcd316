//! The pairs that a load gives by what it reads.
ghost use Rattle.std.specs.Prelude.{◌≡◌, ◌≤◌, suc, false};
ghost use Rattle.tso_ops.specs.Events.{event_total};
ghost use Rattle.acyclic_traces.specs.Internal.Pairs.{IsClosedForReads};

use crate::pairs::Pairs;
use bitsets::{word_above, word_at};
use tso_ops::Trace;

/// Adds the pairs that the rules Read, Own, LoadPast and StorePast give for load `l`, where the table's pairs stand for paths, and
/// some that follow from them. Whether there was a new one; else nothing is changed.
pub(crate) fn add_by_load(trace: &Trace, pairs: &mut Pairs, l: usize) -> bool
    requires { suc (event_total trace.now) ≤ 64 }
    ensures same { result ≡ false → pairs.new ≡ pairs.old }
    ensures closed { result ≡ false → IsClosedForReads trace.now pairs.old l }
{
    let Some(s) = trace.source_number(l) else {
        return false;
    };
    let Some(event) = trace.event(l) else {
        return false;
    };
    let others = word_at(trace.store_words(event.a), 0) & !(1 << s);
    let own = word_at(trace.processor_words(event.proc), 0) & !word_above(l, 0);
    let read = pairs.add_before((1 << s) & !own, l);
    let seen = (pairs.earlier(l) | own) & others;
    let by_seen = pairs.add_before(seen, s);
    let unseen = pairs.later(s) & others;
    let by_unseen = pairs.add_after(l, unseen);
    read | by_seen | by_unseen
}
