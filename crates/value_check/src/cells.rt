//! Events in cells: those of one class that lie in one chain.
ghost use Rattle.std.specs.Prelude.{◌≡◌, ◌<◌, ◌^◌, ℕ, List, All, length, slice_index, IfOk};
ghost use Rattle.bitsets.specs.Rows.{IsListOf};
ghost use Rattle.chain_reach.specs.Groups.{IsIn, count_of, node_count, group_of};
ghost use Rattle.chain_reach.specs.declared.types.Groups.{Groups};
ghost use Rattle.value_check.specs.Internal.Cells.{AreCells, class_in};
ghost use Rattle.value_check.specs.Internal.Numbering.{pair_at};

use crate::numbering::{Numbering, number_pairs};
use chain_reach::Groups;
use std::alloc::Global;
use tso_ops::OutOfMemory;

/// The cells of some events, and those of each class.
#[derive(Drop)]
pub(crate) struct Cells {
    /// The class of each event.
    pub(crate) class_of: Vec<u32>,
    /// The cells of each class.
    pub(crate) classes: Groups,
    /// The events of each cell.
    pub(crate) cells: Groups,
}

impl Cells {
    /// The cells of events with these keys, of which two are of one class where they are equal, in these chains.
    pub(crate) fn new(
        alloc: Global,
        keys: &[(u64, u64)],
        chains: &Groups,
    ) -> Result<Cells, OutOfMemory>
        requires few { length keys.now < 2 ^ 32 }
        requires whole { node_count chains.now ≡ length keys.now }
        ensures { IfOk result (AreCells keys.now chains.now) }
    {
        let classes = number_pairs(alloc, keys)?;
        let pairs = pairs_of(alloc, &classes.numbers, chains)?;
        let cells = number_pairs(alloc, &pairs)?;
        let class_keys = classes_of_cells(alloc, &classes, &cells)?;
        let count = classes.count;
        Ok(Cells {
            class_of: classes.numbers,
            classes: Groups::of_keys(alloc, class_keys, count)?,
            cells: Groups::of_keys(alloc, cells.numbers, cells.count)?,
        })
    }

    /// The cells of an event's class; none where there is no such event.
    pub(crate) fn cells_of(&self, event: usize) -> &[u32]
        ensures { (keys : List (ℕ × ℕ)) (chains : Groups) → AreCells keys chains self.now → event < length keys →
            IsListOf result.now (IsIn self.now.classes (class_in self.now event)) }
    {
        match self.class_of.get(event) {
            Some(class) if (*class as usize) < self.classes.count() => self
                .classes
                .list(*class as usize),
            _ => &[],
        }
    }

    /// The events of a cell, ascending; none where there is no such cell.
    pub(crate) fn members(&self, cell: u32) -> &[u32]
        ensures { cell < count_of self.now.cells → IsListOf result.now (IsIn self.now.cells cell) }
    {
        if (cell as usize) < self.cells.count() {
            self.cells.list(cell as usize)
        } else {
            &[]
        }
    }
}

/// The class of each event with its chain.
fn pairs_of(alloc: Global, classes: &[u32], chains: &Groups) -> Result<Vec<(u64, u64)>, OutOfMemory>
    requires { node_count chains.now ≡ length classes.now }
    ensures whole { IfOk result (λ pairs. length pairs.items ≡ length classes.now) }
    ensures is { IfOk result (λ pairs. (i : ℕ) → i < length classes.now → pair_at pairs.items i ≡ (slice_index classes.now i, group_of chains.now i)) }
{
    let mut pairs = Vec::with_capacity(alloc, classes.len())?;
    for i in 0..classes.len() {
        pairs.push((classes[i] as u64, chains.group(i) as u64))?;
    }
    Ok(pairs)
}

/// The class of the events of each cell.
fn classes_of_cells(
    alloc: Global,
    classes: &Numbering,
    cells: &Numbering,
) -> Result<Vec<u32>, OutOfMemory>
    requires whole { length classes.now.numbers.items ≡ length cells.now.numbers.items }
    requires cells { All (λ n. n < cells.now.count) cells.now.numbers.items }
    requires classes { All (λ n. n < classes.now.count) classes.now.numbers.items }
    requires apart { (i j : ℕ) → i < length cells.now.numbers.items → j < length cells.now.numbers.items →
        slice_index cells.now.numbers.items i ≡ slice_index cells.now.numbers.items j →
        slice_index classes.now.numbers.items i ≡ slice_index classes.now.numbers.items j }
    requires some { 0 < cells.now.count → 0 < classes.now.count }
    ensures whole { IfOk result (λ keys. length keys.items ≡ cells.now.count) }
    ensures below { IfOk result (λ keys. All (λ n. n < classes.now.count) keys.items) }
    ensures is { IfOk result (λ keys. (i : ℕ) → i < length cells.now.numbers.items →
        slice_index keys.items (slice_index cells.now.numbers.items i) ≡ slice_index classes.now.numbers.items i) }
{
    let mut keys = vec![in alloc; 0; cells.count]?;
    for i in 0..cells.numbers.len() {
        keys[cells.numbers[i] as usize] = classes.numbers[i];
    }
    Ok(keys)
}
