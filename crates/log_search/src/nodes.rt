//! The nodes of the derived order: the events of a log that can matter, and under PSO its STBARs.

ghost use Rattle.std.specs.Prelude.{◌≡◌, Decides};

use crate::numbers::NONE;

/// In place of the source of a load: the first value.
pub(crate) const FIRST: u32 = u32::MAX - 1;

/// In place of the source of a load that isn't known yet, though the load is looked at.
pub(crate) const OPEN: u32 = u32::MAX - 2;

/// What a node is.
#[derive(Clone, Copy, PartialEq, Eq)]
pub(crate) enum Kind {
    /// A load.
    Load,
    /// A store.
    Store,
    /// A swap's load: the next node is the swap's store.
    SwapLoad,
    /// A swap's store.
    SwapStore,
    /// The store of a swap whose load is left out.
    LoneSwapStore,
    /// An STBAR.
    Stbar,
}

/// A node. Those of a processor stand one after the other, in program order.
#[derive(Clone, Copy)]
pub(crate) struct Node {
    /// The processor.
    pub(crate) processor: u32,
    /// The index of the operation among the processor's.
    pub(crate) operation: u32,
    /// What it is.
    pub(crate) kind: Kind,
    /// The number of its address.
    pub(crate) address: u32,
    /// The chain that it stands in.
    pub(crate) chain: u32,
    /// Its place in the chain, from 1.
    pub(crate) place: u32,
    /// Of a load the node of its source, `FIRST`, `OPEN` or, where it is left out, `NONE`; of a store its first reader.
    pub(crate) source: u32,
    /// Of a load the next reader of its source; of a store the processor's store to its address before it.
    pub(crate) before: u32,
    /// Of a load its processor's last store to its address before it; of a store the next one to its address.
    pub(crate) own: u32,
    /// Of a store under PSO the place of the last load before it.
    pub(crate) load_place: u32,
    /// Of a store under PSO the place of the last STBAR before it.
    pub(crate) stbar_place: u32,
}

impl Node {
    /// A node of a processor's operation, in no chain yet.
    pub(crate) fn new(processor: u32, operation: u32, kind: Kind, address: u32) -> Node {
        Node {
            processor,
            operation,
            kind,
            address,
            chain: NONE,
            place: 0,
            source: NONE,
            before: NONE,
            own: NONE,
            load_place: 0,
            stbar_place: 0,
        }
    }

    /// Whether the other is a node of the same operation.
    #[inline]
    pub(crate) fn is_with(self, other: Node) -> bool
        ensures { Decides result ((self.processor ≡ other.processor) × (self.operation ≡ other.operation)) }
    {
        self.processor == other.processor && self.operation == other.operation
    }

    /// Whether it is a load.
    pub(crate) fn is_load(&self) -> bool {
        matches!(self.kind, Kind::Load | Kind::SwapLoad)
    }

    /// Whether it is a store.
    pub(crate) fn is_store(&self) -> bool {
        matches!(
            self.kind,
            Kind::Store | Kind::SwapStore | Kind::LoneSwapStore
        )
    }

    /// Whether it is a load whose source isn't known yet.
    pub(crate) fn is_open(&self) -> bool {
        self.is_load() && self.source == OPEN
    }

    /// Whether it is a load with a source, which isn't left out.
    pub(crate) fn is_live_load(&self) -> bool {
        self.is_load() && self.source != NONE
    }
}

/// The node of this number.
#[inline]
pub(crate) fn node_at(nodes: &[Node], node: u32) -> Option<Node> {
    nodes.get(node as usize).copied()
}
