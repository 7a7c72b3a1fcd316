//! The sources of the loads of one address on one processor, from a load on.
ghost use Rattle.std.specs.Prelude.{◌≡◌, ◌↔◌, ◌+◌, ◌*◌, ◌/◌, ◌<◌, ◌≤◌, ℕ, suc, length, IfOk, MatchOption};
ghost use Rattle.bitsets.specs.Rows.{HasNumber};
ghost use Rattle.bitsets.specs.Tables.{IsSet, Adds};
ghost use Rattle.tso_ops.specs.Events.{event_total, HasSource};
ghost use Rattle.tso_rules.specs.SourceMasks.{AreSourceMasks};
ghost use Rattle.tso_rules.specs.Internal.MaskTables.{AreMasksFrom, IsLaterLoad, IsNextLoad, IsSourceAfter};

use crate::above::{first_above, processor_row};
use bitsets::{set_bit, set_word};
use std::alloc::Global;
use tso_ops::{OutOfMemory, Trace};

/// For each load of a trace, the sources of the loads of its address on its processor from it on.
#[derive(Debug, Drop)]
pub struct SourceMasks {
    words: Vec<u64>,
    width: usize,
}

impl SourceMasks {
    /// The masks of this trace, or OutOfMemory where an allocation was refused.
    ///
    /// They take a row of `node_count()` bits for each number, and the time for a few looks at each word of the rows of
    /// the loads.
    pub fn new(alloc: Global, trace: &Trace) -> Result<SourceMasks, OutOfMemory>
        ensures { IfOk result (AreSourceMasks trace.now) }
    {
        let rows = trace.node_count();
        let width = rows.div_ceil(64);
        let mut words = vec![in alloc; 0; rows * width]?;
        for load in (0..rows).rev() {
            add_load(trace, &mut words, width, load);
        }
        Ok(SourceMasks { words, width })
    }

    /// The sources of the load and of the program-later loads of its address, as a row of bits.
    #[inline]
    pub(crate) fn sources_from(&self, load: usize) -> &[u64]
        requires { load * self.now.width + self.now.width ≤ length self.now.words.items }
        ensures { (v : ℕ) → HasNumber result.now v ↔ ((v / 64 < self.now.width) × IsSet self.now.words.items self.now.width load v) }
    {
        let start = load * self.width;
        &self.words[start..start + self.width]
    }
}

/// Makes the row of number `load`, if it is a load, where those of the greater numbers are made.
fn add_load(trace: &Trace, words: &mut [u64], width: usize, load: usize)
    requires within { load < suc (event_total trace.now) }
    requires fits { width ≡ (event_total trace.now + 64) / 64 }
    requires later { AreMasksFrom trace.now words.old width (suc load) }
    ensures { AreMasksFrom trace.now words.new width load }
{
    if !trace.is_load(load) {
        return;
    }
    add_later(trace, words, width, load);
    add_source(trace, words, width, load);
}

/// Gives the row of the load the sources of the program-later loads of its address: those that the row of the next one
/// has.
fn add_later(trace: &Trace, words: &mut [u64], width: usize, load: usize)
    requires within { load < suc (event_total trace.now) }
    requires later { AreMasksFrom trace.now words.old width (suc load) }
    ensures { Adds words.old words.new width (λ l v. (l ≡ load) × IsSourceAfter trace.now load v) }
{
    if let Some(next) = next_load(trace, load) {
        copy_row(words, width, load, next);
    }
}

/// Gives the row of the load its source, if it has one.
fn add_source(trace: &Trace, words: &mut [u64], width: usize, load: usize)
    requires within { load < suc (event_total trace.now) }
    requires fits { width ≡ (event_total trace.now + 64) / 64 }
    requires sized { length words.old ≡ suc (event_total trace.now) * width }
    ensures { Adds words.old words.new width (λ l v. (l ≡ load) × HasSource trace.now load v) }
{
    if let Some(source) = trace.source_number(load) {
        set_bit(words, width, load, source);
    }
}

/// The next load of the event's address on its processor.
pub(crate) fn next_load(trace: &Trace, n: usize) -> Option<usize>
    ensures { MatchOption result ((m : ℕ) → IsLaterLoad trace.now n m → ⊥) (IsNextLoad trace.now n) }
{
    let _events = trace.events();
    let event = trace.event(n)?;
    first_above(trace.load_words(event.a), processor_row(trace, n), &[], n)
}

/// Gives row `row` of a table the columns of row `from` of the same table.
fn copy_row(table: &mut [u64], width: usize, row: usize, from: usize)
    requires row { row * width + width ≤ length table.old }
    requires from { from * width + width ≤ length table.old }
    ensures { Adds table.old table.new width (λ l v. (l ≡ row) × IsSet table.old width from v) }
{
    for j in 0..width {
        let word = table[from * width + j];
        set_word(table, width, row, j, word);
    }
}
