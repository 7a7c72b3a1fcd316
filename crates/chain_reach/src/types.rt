//! Numbers in groups, and which of them lead to which.
ghost use Rattle.std.specs.Prelude.{◌≡◌, ◌*◌, length, map};
ghost use Rattle.chain_reach.specs.Internal.Lists.{AreGroups};
ghost use Rattle.chain_reach.specs.Internal.FirstTables.{KeepsReach};

/// The numbers below a bound, each in a group.
#[derive(Debug, Drop)]
pub struct Groups {
    /// The group of each number.
    pub(crate) keys: Vec<u32>,
    /// The numbers of each group, ascending.
    pub(crate) lists: Vec<Vec<u32>>,
    ghost grouped: { AreGroups keys.items (map (λ list. list.items) lists.items) },
}

/// Which of the numbers of some chains lead to which: each to those after it in its chain, and to what was joined.
///
/// What a number leads to within a chain is the rest of it from some member on, so that a number is kept for each number and
/// each chain.
#[derive(Debug, Drop)]
pub struct Reach {
    /// The chains.
    pub(crate) chains: Groups,
    /// A row for each number, which has for each chain a number: the row's number leads to those of the chain from there on,
    /// and to no others of it.
    pub(crate) first: Vec<u32>,
    /// A row to work in: what `join` gives those that lead to the edge's start.
    pub(crate) given: Vec<u32>,
    /// A bit for each number: whether it has come to lead to more since this was made or last settled.
    pub(crate) grown: Vec<u64>,
    /// For each two chains c and d, at c * count + d, where the last search in d for those that lead to a number of c ended:
    /// the next one begins there. It is only a guess, which no answer depends on.
    pub(crate) near: Vec<u32>,
    ghost near_sized: { length near.items ≡ length chains.lists.items * length chains.lists.items },
    ghost kept: { KeepsReach chains.keys.items (length chains.lists.items) first.items given.items grown.items },
}
