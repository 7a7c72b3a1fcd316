//! What the rules look up by chains.

use chain_reach::Groups;

/// The loads and stores of a trace by processor and address, the stores of its swaps by chain, and for each load and each
/// chain the least source of the load and the program-later loads of its address.
#[derive(Debug, Drop)]
pub struct RuleTables {
    /// How many groups of loads, and how many of stores, each processor has: one more than the greatest address.
    pub(crate) addresses: usize,
    /// The loads by processor and address: those of processor p and address a are group p * addresses + a. The other numbers
    /// are the last group.
    pub(crate) loads: Groups,
    /// The stores by processor and address, in the same way.
    pub(crate) stores: Groups,
    /// The stores of swaps by chain: group d has those of chain d. The other numbers are the last group.
    pub(crate) swaps: Groups,
    /// A row for each number, which has for each chain the least source; the number of numbers where there is none.
    pub(crate) least: Vec<u16>,
}
