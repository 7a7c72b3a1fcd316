/// A store that waits in a store buffer.
#[derive(Clone, Copy, Debug, PartialEq, Eq)]
pub struct StoreEntry {
    /// The address, from 0 to 255.
    pub a: u16,
    /// The value that is stored.
    pub v: u64,
}
