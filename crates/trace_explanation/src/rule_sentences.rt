//! The words of each rule, but for the names in them: `specs/Words.antt` cites these texts, so that each stands once.

// In short.

pub(crate) const INIT_SHORT: &str = "they come before every event";

pub(crate) const PROGRAM_ORDER: &str = "program order";

pub(crate) const STBAR_SHORT: &str = "program order, with 'stbar' between";

pub(crate) const MEMBAR_SHORT: &str = "program order, with 'mb' between";

pub(crate) const READ_SHORT: &str = "the load read this store";

/// After the name of the load.
pub(crate) const SEES_ONE_READ_OTHER: &str = " sees the former, yet it read the latter";

pub(crate) const READ_OLDER: &str = "the load read something older than the store";

pub(crate) const ATOMIC_SWAP: &str = "a swap is atomic";

// In full.

pub(crate) const INIT_LONG: &str = "they come before every event.";

pub(crate) const LOAD_OP_LONG: &str =
    "program order; a load comes before all that follows it on its processor.";

pub(crate) const TSO_STORES_LONG: &str = "program order; a processor keeps its stores in order.";

pub(crate) const PSO_STORES_LONG: &str =
    "program order; a processor keeps its stores to one address in order.";

pub(crate) const STBAR_LONG: &str = "program order, with 'stbar' between the two stores.";

pub(crate) const MEMBAR_LONG: &str = "program order, with 'mb' between the store and the load.";

pub(crate) const READ_LONG: &str =
    "the load read this store.\n   It sees the store, which is not earlier on its own processor, so the store comes before it.";

pub(crate) const SEES_STORE: &str = "a load sees the store, yet read something else.";

pub(crate) const READS_LAST: &str =
    "A load reads the last of the stores that it sees, so what it read comes after this store.";

pub(crate) const WOULD_HAVE_READ: &str =
    "Had the store come before the load, the load would have read it or a later store.";

pub(crate) const BEFORE_BOTH: &str =
    "No other store comes between a swap's load and its store, so this store comes before both.";

pub(crate) const AFTER_BOTH: &str =
    "No other store comes between a swap's load and its store, so this store comes after both.";
