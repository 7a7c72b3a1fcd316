//! The lines of a run.
use crate::places::Place;

/// What a line of a run says.
#[derive(Clone, Copy, Debug, PartialEq, Eq)]
pub enum RunStep {
    /// A load that read a value.
    Load {
        place: Place,
        value: u64,
    },
    /// A store, which waits.
    Store {
        place: Place,
        value: u64,
    },
    /// The oldest store that waits reaches memory: of all or of those at a place. It has this value, where one is said.
    Drain {
        at: Option<Place>,
        value: Option<u64>,
    },
    /// A store that reaches memory at once.
    Write {
        place: Place,
        value: u64,
    },
    /// A swap that read a value and stored another.
    Swap {
        place: Place,
        read: u64,
        value: u64,
    },
    /// A load that reserves its place.
    Reserve {
        place: Place,
        value: u64,
    },
    /// A store on a reservation, which reaches memory at once.
    StoreReserved {
        place: Place,
        value: u64,
    },
    /// A MEMBAR #StoreLoad.
    Membar,
    /// An STBAR.
    Stbar,
    /// Something else changed the place.
    Unknown {
        place: Place,
    },
    /// Memory holds a value there.
    Last {
        place: Place,
        value: u64,
    },
}

/// A line of a run.
#[derive(Clone, Copy, Debug, PartialEq, Eq)]
pub struct RunLine {
    /// The number of the line.
    pub number: u64,
    /// The processor, 0 to 4,095.
    pub processor: usize,
    /// What the processor did.
    pub step: RunStep,
}
