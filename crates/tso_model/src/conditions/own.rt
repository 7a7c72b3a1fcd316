//! The condition of the base rule Own.
ghost use Rattle.std.specs.Prelude.{◌↔◌, ◌<◌, ℕ, IsTrue};
ghost use Rattle.bitsets.specs.Rows.{HasNumber};
ghost use Rattle.tso_model.specs.Rules.{IsOwnBy};

use bitsets::{word_above, word_at};
use tso_ops::Trace;

/// Whether some load reads past its own store `u` what `v` wrote: whether a load of what `v` wrote is after `u`, on its
/// processor and of its address. It looks at three words for each 64 numbers above `u`.
pub(crate) fn is_own_pair(trace: &Trace, u: usize, v: usize) -> bool
    ensures { IsTrue result ↔ ((l : ℕ) × IsOwnBy trace.now l u v) }
{
    match trace.event(u) {
        Some(store) if !store.load && u != v => {
            let readers = trace.reader_words(v);
            let own = trace.processor_words(store.proc);
            let loads = trace.load_words(store.a);
            share_above(readers, own, loads, u)
        },
        _ => false,
    }
}

/// Whether some number above `u` is in each of three rows of bits.
fn share_above(first: &[u64], second: &[u64], third: &[u64], u: usize) -> bool
    ensures { IsTrue result ↔ ((l : ℕ) × (u < l) × HasNumber first.now l × HasNumber second.now l × HasNumber third.now l) }
{
    for j in u / 64..first.len() {
        let shared = first[j] & word_at(second, j) & word_at(third, j) & word_above(u, j);
        if shared != 0 {
            return true;
        }
    }
    false
}
