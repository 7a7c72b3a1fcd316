//! What some operations of a log have that fewer of them don't.

use log_selections::{Kept, KnownLog};
use log_text::LogOperation;
use std::alloc::Global;
use tso_ops::{OutOfMemory, Part};

/// A load, a store or a barrier of a processor's operations.
#[derive(Clone, Copy)]
pub(crate) struct Loss {
    pub(crate) processor: usize,
    pub(crate) kept: Kept,
}

/// What is lost: how many loads, stores and barriers, the first of them, and the first load.
#[derive(Clone, Copy)]
pub(crate) struct Losses {
    count: usize,
    first: Option<Loss>,
    load: Option<Loss>,
}

impl Losses {
    /// What these operations have that fewer of them don't.
    pub(crate) fn new(known: &KnownLog, kept: &[Vec<Kept>], fewer: &[Vec<Kept>]) -> Losses {
        let mut losses = Losses {
            count: 0,
            first: None,
            load: None,
        };
        for (processor, list) in kept.iter().enumerate() {
            match fewer.get(processor) {
                Some(left) => losses.compare(known, processor, list, left),
                None => losses.compare(known, processor, list, &[]),
            }
        }
        losses
    }

    /// One that can go alone: a load, and where none is lost a barrier, or a store that no load needs. None where nothing is
    /// lost.
    pub(crate) fn single(&self) -> Option<Loss> {
        self.load.or(self.first)
    }

    /// Whether only one is lost.
    pub(crate) fn is_one(&self) -> bool {
        self.count == 1
    }

    /// Notes what is lost of a processor's operations.
    fn compare(&mut self, known: &KnownLog, processor: usize, list: &[Kept], left: &[Kept]) {
        let mut place: usize = 0;
        for kept in list {
            let found = found_at(left, place, kept.index);
            if found.is_some() {
                place = place.saturating_add(1);
            }
            if let Some(kept) = lost_part(*kept, found) {
                self.note(known, Loss { processor, kept });
            }
        }
    }

    /// Notes a loss: of a whole swap its load and its store.
    fn note(&mut self, known: &KnownLog, loss: Loss) {
        let mut single = loss;
        if is_whole_swap(known, loss) {
            single.kept.part = Part::SwapLoad;
            self.count = self.count.saturating_add(1);
        }
        self.count = self.count.saturating_add(1);
        self.first = self.first.or(Some(single));
        if is_load(known, single) {
            self.load = self.load.or(Some(single));
        }
    }
}

/// The part at a place that is kept of an operation: None where another operation stands there.
fn found_at(list: &[Kept], place: usize, index: usize) -> Option<Part> {
    let kept = list.get(place)?;
    if kept.index == index {
        Some(kept.part)
    } else {
        None
    }
}

/// What is lost of an operation of which this part is found.
fn lost_part(kept: Kept, found: Option<Part>) -> Option<Kept> {
    let index = kept.index;
    let part = match found {
        Some(found) => rest_of(kept.part, found)?,
        None => kept.part,
    };
    Some(Kept { index, part })
}

/// What is left of a part of an operation without another part of it.
fn rest_of(part: Part, other: Part) -> Option<Part> {
    match (part, other) {
        (Part::Whole, Part::SwapLoad) => Some(Part::SwapStore),
        (Part::Whole, Part::SwapStore) => Some(Part::SwapLoad),
        _ => None,
    }
}

/// The operation of a loss.
fn operation_of(known: &KnownLog, loss: Loss) -> Option<LogOperation> {
    let list = known.log().lists.get(loss.processor)?;
    let logged = list.get(loss.kept.index)?;
    Some(logged.operation)
}

fn is_whole_swap(known: &KnownLog, loss: Loss) -> bool {
    loss.kept.part == Part::Whole
        && matches!(operation_of(known, loss), Some(LogOperation::Sw { .. }))
}

/// Whether a loss is a load, that of a swap or another.
fn is_load(known: &KnownLog, loss: Loss) -> bool {
    loss.kept.part == Part::SwapLoad
        || matches!(operation_of(known, loss), Some(LogOperation::Ld { .. }))
}

/// The operations without a load, a store or a barrier. OutOfMemory where an allocation was refused.
pub(crate) fn without(
    alloc: Global,
    kept: &[Vec<Kept>],
    loss: Loss,
) -> Result<Vec<Vec<Kept>>, OutOfMemory> {
    let mut fewer = Vec::new(alloc);
    for (processor, list) in kept.iter().enumerate() {
        if processor == loss.processor {
            fewer.push(list_without(alloc, list, loss.kept)?)?;
        } else {
            fewer.push(Vec::from_slice(alloc, list)?)?;
        }
    }
    Ok(fewer)
}

/// A processor's operations without this part of one.
fn list_without(alloc: Global, list: &[Kept], lost: Kept) -> Result<Vec<Kept>, OutOfMemory> {
    let mut fewer = Vec::new(alloc);
    for kept in list {
        if kept.index != lost.index {
            fewer.push(*kept)?;
        } else if let Some(part) = rest_of(kept.part, lost.part) {
            let index = kept.index;
            fewer.push(Kept { index, part })?;
        }
    }
    Ok(fewer)
}
