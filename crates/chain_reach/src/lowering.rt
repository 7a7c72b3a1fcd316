//! Rows of first numbers that are lowered, since an edge was added.
ghost use Rattle.std.specs.Prelude.{◌≡◌, ◌<◌, ◌≤◌, ◌+◌, ◌*◌, ◌^◌, ℕ, length, slice_index};
ghost use Rattle.chain_reach.specs.Groups.{count_of};
ghost use Rattle.chain_reach.specs.Internal.FirstTables.{Reaches, GrowsBy, GrowsIn, KeepsReach, IsEdge, IsReadyChain, IsGiven, LowersRows, MarksRows};
ghost use Rattle.chain_reach.specs.Internal.Lists.{IsCut};

use crate::types::Groups;
use bitsets::set_bit;

/// An edge that is added: its ends with their chains, and for each chain the first number that its end is or leads to.
#[derive(Clone, Copy)]
pub struct NewEdge<'a> {
    pub from: usize,
    pub from_chain: usize,
    pub to: usize,
    pub to_chain: usize,
    pub given: &'a [u32],
}

/// Lowers row `x` to what is given, where that is less.
fn lower_row(first: &mut [u32], x: usize, given: &[u32])
    requires { x * length given.now + length given.now ≤ length first.old }
    ensures { LowersRows first.old first.new (length given.now) given.now (λ z. z ≡ x) }
{
    let start = x * given.len();
    for d in 0..given.len() {
        first[start + d] = first[start + d].min(given[d]);
    }
}

/// The place that a search from `low` to below `high` looks at next: at first those beside the place that is guessed, then the
/// middle.
fn next_place(low: usize, high: usize, guess: usize, looks: usize) -> usize
    requires { low < high }
    ensures from { low ≤ result }
    ensures below { result < high }
{
    let place = match looks {
        0 => guess.saturating_sub(1),
        1 => guess,
        _ => low + (high - low) / 2,
    };
    place.max(low).min(high - 1)
}

/// How many of the members of a chain, which are ascending, are the edge's first number or lead to it: none after the others.
/// Where the guess is right it takes two looks, else it goes by halves.
fn reaching(first: &[u32], members: &[u32], edge: NewEdge<'_>, guess: usize) -> usize
    requires chain { edge.from_chain < length edge.given.now }
    requires rows { (k : ℕ) → k < length members.now → slice_index members.now k * length edge.given.now + length edge.given.now ≤ length first.now }
    requires first { (i j : ℕ) → i < j → j < length members.now →
        Reaches first.now (length edge.given.now) edge.from edge.from_chain (slice_index members.now j) →
        Reaches first.now (length edge.given.now) edge.from edge.from_chain (slice_index members.now i) }
    ensures { IsCut members.now (Reaches first.now (length edge.entry.given.now) edge.entry.from edge.entry.from_chain) result }
{
    let count = edge.given.len();
    let mut low = 0;
    let mut high = members.len();
    let mut looks: usize = 0;
    while low < high {
        let middle = next_place(low, high, guess, looks);
        looks = looks.saturating_add(1);
        let x = members[middle] as usize;
        if x == edge.from || first[x * count + edge.from_chain] as usize <= edge.from {
            low = middle + 1;
        } else {
            high = middle;
        }
    }
    low
}

/// Lowers and marks the rows of those in chain `d` that are the edge's first number or lead to it, but those that lead to its
/// end: these have all that is given.
fn lower_chain(
    first: &mut [u32],
    grown: &mut [u64],
    near: &mut [u32],
    chains: &Groups,
    d: usize,
    edge: NewEdge<'_>,
)
    requires chain { d < count_of chains.now }
    requires count { count_of chains.now ≡ length edge.given.now }
    requires near { length near.old ≡ length edge.given.now * length edge.given.now }
    requires edge { IsEdge chains.now.keys.items (length edge.given.now) edge.from edge.from_chain edge.to edge.to_chain }
    requires ready { IsReadyChain chains.now.keys.items (length edge.given.now) d first.old grown.old edge.from edge.to }
    ensures lowered { LowersRows first.old first.new (length edge.entry.given.now) edge.entry.given.now
        (GrowsIn chains.now.keys.items (length edge.entry.given.now) d first.old edge.entry.from edge.entry.to) }
    ensures marked { MarksRows grown.old grown.new (GrowsIn chains.now.keys.items (length edge.entry.given.now) d first.old edge.entry.from edge.entry.to) }
{
    let members = chains.list(d);
    let place = edge.from_chain * edge.given.len() + d;
    let mut i = reaching(first, members, edge, near[place] as usize);
    near[place] = i.min(u32::MAX as usize) as u32;
    while i > 0 {
        let x = members[i - 1] as usize;
        if first[x * edge.given.len() + edge.to_chain] as usize <= edge.to {
            return;
        }
        lower_row(first, x, edge.given);
        set_bit(grown, grown.len(), 0, x);
        i -= 1;
    }
}

/// Lowers and marks the rows of all numbers that are the edge's first number or lead to it, but those that lead to its end.
pub fn lower_chains(
    first: &mut [u32],
    grown: &mut [u64],
    near: &mut [u32],
    chains: &Groups,
    edge: NewEdge<'_>,
)
    requires count { count_of chains.now ≡ length edge.given.now }
    requires near { length near.old ≡ length edge.given.now * length edge.given.now }
    requires edge { IsEdge chains.now.keys.items (length edge.given.now) edge.from edge.from_chain edge.to edge.to_chain }
    requires kept { KeepsReach chains.now.keys.items (length edge.given.now) first.old edge.given.now grown.old }
    ensures lowered { LowersRows first.old first.new (length edge.entry.given.now) edge.entry.given.now
        (GrowsBy chains.now.keys.items (length edge.entry.given.now) first.old edge.entry.from edge.entry.to) }
    ensures marked { MarksRows grown.old grown.new (GrowsBy chains.now.keys.items (length edge.entry.given.now) first.old edge.entry.from edge.entry.to) }
{
    for d in 0..chains.count() {
        lower_chain(first, grown, near, chains, d, edge);
    }
}

/// Writes what row `x` gives a number that leads to x: the row, with x itself.
pub fn give_row(given: &mut [u32], first: &[u32], x: usize, chain: usize)
    requires chain { chain < length given.old }
    requires row { x * length given.old + length given.old ≤ length first.now }
    requires small { x < 2 ^ 32 }
    ensures { IsGiven first.now (length given.old) x chain given.new }
{
    let count = given.len();
    for d in 0..count {
        given[d] = first[x * count + d];
    }
    given[chain] = given[chain].min(x as u32);
}
