//! What a cell of memory holds, and what is written into it.
ghost use Rattle.std.specs.Prelude.{◌≡◌, option_map};
ghost use Rattle.run_steps.specs.Reads.{seen_in, written_in};

/// What memory holds in a byte or a location.
#[derive(Clone, Copy, Debug, PartialEq, Eq)]
pub enum Cell {
    /// The first value.
    First(u64),
    /// What a store left there.
    Stored {
        value: u64,
        /// The number of the store's line.
        store: u64,
        /// The number of the line at which it reached memory.
        reached: u64,
    },
    /// Something that isn't known.
    Unknown,
}

impl Cell {
    /// The value that is seen. None where it isn't known.
    pub(crate) fn value(&self) -> Option<u64>
        ensures { result ≡ option_map (λ seen. seen.value) (seen_in self.now) }
    {
        match *self {
            Cell::First(value) | Cell::Stored { value, .. } => Some(value),
            Cell::Unknown => None,
        }
    }
}

/// What is written into memory, beside the value.
#[derive(Clone, Copy)]
pub(crate) enum Written {
    /// A first value.
    First,
    /// What the store of one line leaves there, which reaches memory at another.
    Stored { store: u64, reached: u64 },
    /// Something that isn't known.
    Unknown,
}

/// What is in a cell, where this part of a value is written into it.
pub(crate) fn cell_of(written: Written, part: u64) -> Cell
    ensures { result ≡ written_in written part }
{
    match written {
        Written::First => Cell::First(part),
        Written::Stored { store, reached } => Cell::Stored {
            value: part,
            store,
            reached,
        },
        Written::Unknown => Cell::Unknown,
    }
}
