//! Whether the loads of a selection read from where they are known to read in the log.
ghost use Rattle.std.specs.Prelude.{◌≡◌, ℕ, Some, true, IfSome};
ghost use Rattle.tso_ops.specs.Events.{HasSource, IsLoad};
ghost use Rattle.log_selections.specs.Cuts.{origin_in};
ghost use Rattle.log_selections.specs.Internal.Known.{source_at, source_in};

use tso_ops::{Source, Trace};

/// Whether each load of the trace reads from where it is known to read in the log, by the numbers of the trace's events in
/// the log and the log's sources.
pub(crate) fn keeps_sources(trace: &Trace, origins: &[usize], sources: &[Option<usize>]) -> bool
    ensures { result ≡ true → (l : ℕ) → IsLoad trace.now l →
        (s : ℕ) × HasSource trace.now l s × (source_in sources.now (origin_in origins.now l) ≡ Some (origin_in origins.now s)) }
{
    for k in 0..trace.events() {
        match trace.source(k + 1) {
            None => {}
            Some(source) if is_known(k + 1, source, origins, sources) => {}
            Some(_) => return false,
        }
    }
    true
}

/// Whether load `l` is known to read from this source in the log.
fn is_known(l: usize, source: Source, origins: &[usize], sources: &[Option<usize>]) -> bool
    ensures { result ≡ true → (s : ℕ) × (source ≡ source_at s) × (source_in sources.now (origin_in origins.now l) ≡ Some (origin_in origins.now s)) }
{
    let Some(s) = number_of(source) else {
        return false;
    };
    match (origin_of(origins, l), origin_of(origins, s)) {
        (Some(load), Some(store)) => source_in(sources, load) == Some(store),
        _ => false,
    }
}

/// The number of a source: 0 for the first value.
fn number_of(source: Source) -> Option<usize>
    ensures { IfSome result (λ s. source ≡ source_at s) }
{
    match source {
        Source::Init => Some(0),
        Source::Store(s) if s > 0 => Some(s),
        _ => None,
    }
}

/// The source of number `n` of the log, where it is known.
fn source_in(sources: &[Option<usize>], n: usize) -> Option<usize>
    ensures { result ≡ source_in sources.now n }
{
    match sources.get(n) {
        Some(source) => *source,
        None => None,
    }
}

/// The number in the log of event `n` of the trace, where it has one. Number 0, the writer of the first values, is itself.
fn origin_of(origins: &[usize], n: usize) -> Option<usize>
    ensures { IfSome result (λ origin. origin ≡ origin_in origins.now n) }
{
    match n.checked_sub(1) {
        None => Some(0),
        Some(k) => origins.get(k).copied(),
    }
}
