//! Numbers that steps noted at the places of a table.
ghost use Rattle.std.specs.Prelude.{◌≡◌, ◌↔◌, IsTrue, IfOk, length};
ghost use Rattle.value_check.specs.Internal.Noted.{HasOther, IsNotedAt, Notes, IsEmptyTable, noted_at};

use std::alloc::Global;
use tso_ops::OutOfMemory;

/// The numbers noted at a place. Of several it matters only that there are.
#[derive(Clone, Copy)]
pub(crate) enum Noted {
    Nothing,
    One(usize),
    Several,
}

impl Noted {
    /// With a further number, which may be there already.
    fn with(self, number: usize) -> Noted
        ensures { Notes self number result }
    {
        match self {
            Noted::Nothing => Noted::One(number),
            Noted::One(known) if known == number => self,
            Noted::One(_) | Noted::Several => Noted::Several,
        }
    }

    /// Whether there is another number than this.
    pub(crate) fn has_other(self, number: usize) -> bool
        ensures { IsTrue result ↔ HasOther self number }
    {
        match self {
            Noted::Nothing => false,
            Noted::One(known) => known != number,
            Noted::Several => true,
        }
    }
}

/// What is noted at a place of a table; nothing past its end.
pub(crate) fn noted_at(table: &[Noted], place: usize) -> Noted
    ensures { result ≡ noted_at table.now place }
{
    if place < table.len() {
        table[place]
    } else {
        Noted::Nothing
    }
}

/// Notes a number at a place of a table, if there is such a place.
pub(crate) fn note(table: &mut Vec<Noted>, place: usize, number: usize)
    ensures { IsNotedAt table.old.items table.new.items place number }
{
    if place < table.len() {
        table[place] = table[place].with(number);
    }
}

/// A table with so many places, at which nothing is noted.
pub(crate) fn empty_table(alloc: Global, count: usize) -> Result<Vec<Noted>, OutOfMemory>
    ensures { IfOk result (λ table. IsEmptyTable count table.items) }
{
    Ok(vec![in alloc; Noted::Nothing; count]?)
}
