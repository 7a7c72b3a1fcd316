//! The base rules as rounds use them: with masks of sources made once for the trace.
ghost use Rattle.std.specs.Prelude.{◌↔◌, ℕ, IfOk, OnOk};
ghost use Rattle.bitsets.specs.Rows.{HasNumber, Marks};
ghost use Rattle.tso_model.specs.Rules.{BasePair};
ghost use Rattle.tso_model.specs.Ranks.{RankSet};
ghost use Rattle.tso_rules.specs.SourceMasks.{AreSourceMasks};

use crate::base::{mark_all_but_own, word_count};
use crate::masks::{SourceMasks, next_load};
use crate::over_base::mark_unreached;
use std::alloc::Global;
use tso_cert::BaseRule;
use tso_ops::{OutOfMemory, Trace};

/// The numbers to which the base rules give an edge from `u`, as a row of bits: that of the number v is bit `v % 64` of
/// word `v / 64`. OutOfMemory where an allocation was refused.
///
/// It answers what `base_words` does, and looks at no single load: the mask of the next load of a store's address has the
/// sources of all program-later ones. For 0 it takes one look at each event; else a few looks at each word of the trace's
/// rows.
pub fn masked_base_words(
    alloc: Global,
    trace: &Trace,
    masks: &SourceMasks,
    u: usize,
) -> Result<Vec<u64>, OutOfMemory>
    requires masks { AreSourceMasks trace.now masks.now }
    ensures { IfOk result (λ row. (v : ℕ) → HasNumber row.items v ↔ RankSet trace.now 0 u v) }
{
    let mut marks = Vec::with_capacity(alloc, word_count(trace))?;
    mark_all_but_own(trace, &mut marks, u)?;
    mark_masked_own(trace, masks, &mut marks, u)?;
    Ok(marks)
}

/// Marks the numbers to which the rule Own gives an edge from `u`, if it is a store: the other sources of the program-later
/// loads of its address, which the mask of the next one has.
fn mark_masked_own(
    trace: &Trace,
    masks: &SourceMasks,
    marks: &mut Vec<u64>,
    u: usize,
) -> Result<(), OutOfMemory>
    requires masks { AreSourceMasks trace.now masks.now }
    ensures { OnOk result (Marks marks.old.items marks.new.items (BasePair trace.now BaseRule.Own u)) }
{
    if !trace.is_store(u) {
        return Ok(());
    }
    match next_load(trace, u) {
        // No number is left out for being reached.
        Some(next) => mark_unreached(marks, masks.sources_from(next), &[], u),
        None => Ok(()),
    }
}
