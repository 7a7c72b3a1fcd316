/// An event of a trace: a load or a store, also the load or the store of a swap.
#[derive(Clone, Copy, Debug, PartialEq, Eq)]
pub struct Event {
    /// The processor, from 0.
    pub proc: usize,
    /// Whether it is a load; else it is a store.
    pub load: bool,
    /// Whether it is the load or the store of a swap.
    pub swap: bool,
    /// The address, from 0 to 255.
    pub a: u16,
    /// The value that it read or stored.
    pub value: u64,
    /// How many barriers (`Mb`) stand before it on its processor.
    pub bars: usize,
    /// How many STBARs stand before it on its processor.
    pub stbars: usize,
}

/// Where the value that a load read comes from.
#[derive(Clone, Copy, Debug, PartialEq, Eq)]
pub enum Source {
    /// The load read the first value of its address.
    Init,
    /// The number of the store to its address that wrote the value.
    Store(usize),
    /// No store to its address wrote the value.
    Unwritten,
}
