//! Loads whose values nothing wrote.
ghost use Rattle.std.specs.Prelude.{◌↔◌, ℕ, IsTrue};
ghost use Rattle.tso_ops.specs.Events.{IsUnwritten};

use tso_ops::Trace;

/// Whether there is a load whose value nothing wrote.
pub fn has_unwritten_load(trace: &Trace) -> bool
    ensures { IsTrue result ↔ ((l : ℕ) × IsUnwritten trace.now l) }
{
    for l in 0..trace.node_count() {
        if trace.is_unwritten(l) {
            return true;
        }
    }
    false
}
