//! The sources of the loads of a log that its values tell.
ghost use Rattle.std.specs.Prelude.{◌≡◌, ◌≢◌, ◌+◌, ◌<◌, ◌^◌, ℕ, List, [], length, IfOk, OnOk, unwrap_or, nat_eq};
ghost use Rattle.std.specs.HashMap.{get};
ghost use Rattle.tso_ops.specs.Settings.{first_value};
ghost use Rattle.log_selections.specs.Sources.{IsCountOf};
ghost use Rattle.log_selections.specs.Internal.Known.{AreAllListed, AreSources, IsAmbiguousLoad, IsFound, known_number, with_found};
ghost use Rattle.log_selections.specs.Internal.Writers.{FindsWriters};
ghost use Rattle.log_selections.specs.declared.sources.LoadSource.{LoadSource};

use crate::accesses::Access;
use crate::writers::{Writers, find_first_values, find_writers};
use std::alloc::Global;
use std::collections::HashMap;
use tso_ops::OutOfMemory;

/// What the values of a log tell of a load's source.
#[derive(Clone, Copy)]
pub(crate) enum LoadSource {
    /// The number of the store that alone wrote the value, or 0 for the first value.
    Known(usize),
    /// Several may have written it.
    Ambiguous,
    /// Nothing wrote it.
    Unwritten,
}

/// The sources of the loads of a log by their numbers, and which loads have none that is known.
#[derive(Drop)]
pub(crate) struct Sources {
    pub(crate) numbers: Vec<Option<usize>>,
    /// How many loads have a value that several may have written.
    pub(crate) ambiguous: usize,
    /// The numbers of the loads of values that nothing wrote.
    pub(crate) unwritten: Vec<usize>,
}

/// Finds the sources of the loads among the accesses of a log with these first values.
pub(crate) fn find_sources(
    alloc: Global,
    first: &[(u64, u64)],
    accesses: &[Access],
) -> Result<Sources, OutOfMemory>
    ensures numbers { IfOk result (λ sources. AreSources first.now accesses.now sources.numbers.items) }
    ensures ambiguous { IfOk result (λ sources. IsCountOf (IsAmbiguousLoad first.now accesses.now) sources.ambiguous) }
    ensures unwritten { IfOk result (λ sources. AreAllListed first.now accesses.now sources.unwritten.items) }
{
    let writers = find_writers(alloc, accesses)?;
    let values = find_first_values(alloc, first)?;
    let mut sources = Sources {
        numbers: Vec::new(alloc),
        ambiguous: 0,
        unwritten: Vec::new(alloc),
    };
    // Number 0 is no event.
    sources.numbers.push(None)?;
    for access in accesses {
        let number = if access.load {
            let load = sources.numbers.len();
            sources.note(load, source_of(&writers, &values, *access))?
        } else {
            None
        };
        sources.numbers.push(number)?;
    }
    Ok(sources)
}

impl Sources {
    /// Notes the load of this number, where its source isn't known: the number of its source, where that is known.
    fn note(&mut self, load: usize, found: LoadSource) -> Result<Option<usize>, OutOfMemory>
        ensures number { IfOk result (λ number. number ≡ known_number found) }
        ensures kept { self.new.numbers ≡ self.old.numbers }
        ensures ambiguous { OnOk result (self.old.ambiguous + 1 < 2 ^ 64 → self.new.ambiguous ≡ with_found self.old.ambiguous found) }
        ensures unwritten { OnOk result (self.new.unwritten.items ≡ [] → (self.old.unwritten.items ≡ []) × (found ≢ LoadSource.Unwritten)) }
    {
        match found {
            LoadSource::Known(number) => return Ok(Some(number)),
            LoadSource::Ambiguous => self.ambiguous = self.ambiguous.saturating_add(1),
            LoadSource::Unwritten => self.unwritten.push(load)?,
        }
        Ok(None)
    }
}

/// What the stores and the first values tell of a load's source.
fn source_of(
    writers: &HashMap<(u64, u64), Writers>,
    values: &HashMap<u64, u64>,
    load: Access,
) -> LoadSource
    ensures { (first : List (ℕ × ℕ)) (accesses : List Access) → FindsWriters accesses (length accesses) writers.now →
        ((a : ℕ) → unwrap_or (get nat_eq values.now a) 0 ≡ first_value first a) →
        IsFound first accesses (load.a, load.value) result }
{
    let first = values.get(&load.a).copied().unwrap_or(0);
    match writers.get(&(load.a, load.value)).copied() {
        None if first == load.value => LoadSource::Known(0),
        None => LoadSource::Unwritten,
        Some(found) => match found {
            Writers::One(number) if first != load.value => LoadSource::Known(number),
            _ => LoadSource::Ambiguous,
        },
    }
}
