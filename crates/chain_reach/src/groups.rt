//! Numbers in groups.
ghost use Rattle.std.specs.Prelude.{◌≡◌, ◌<◌, ◌≤◌, ◌^◌, ℕ, [], length, slice_index, All, IfOk, MatchOption};
ghost use Rattle.chain_reach.specs.Groups.{node_count, count_of, group_of, IsIn, IsFirstFrom, IsLastBefore};
ghost use Rattle.chain_reach.specs.Internal.Lists.{IsCut};
ghost use Rattle.bitsets.specs.Rows.{IsListOf, IsAscending};

use crate::types::Groups;
use std::alloc::{AllocError, Global};

impl Groups {
    /// The numbers below the length of `keys` in `count` groups, from 0: number n is in group `keys[n]`, which is below
    /// `count`. There are fewer than 2^32 numbers. OutOfMemory where an allocation was refused.
    pub fn of_keys(alloc: Global, keys: Vec<u32>, count: usize) -> Result<Groups, AllocError>
        requires most { length keys.items < 2 ^ 32 }
        requires within { All (λ key. key < count) keys.items }
        ensures nodes { IfOk result (λ g. node_count g ≡ length keys.items) }
        ensures keys { IfOk result (λ g. (n : ℕ) → n < length keys.items → group_of g n ≡ slice_index keys.items n) }
        ensures count { IfOk result (λ g. count_of g ≡ count) }
    {
        let mut lists = empty_lists(alloc, count)?;
        for n in 0..keys.len() {
            lists[keys[n] as usize].push(n as u32)?;
        }
        Ok(Groups { keys, lists })
    }

    /// How many numbers there are: each is below it.
    #[inline]
    pub fn nodes(&self) -> usize
        ensures nodes { result ≡ node_count self.now }
        ensures small { result < 2 ^ 32 }
    {
        self.keys.len()
    }

    /// How many groups there are.
    #[inline]
    pub fn count(&self) -> usize
        ensures { result ≡ count_of self.now }
    {
        self.lists.len()
    }

    /// The group of number `n`, which is below `nodes`.
    #[inline]
    pub fn group(&self, n: usize) -> usize
        requires { n < node_count self.now }
        ensures group { result ≡ group_of self.now n }
        ensures within { result < count_of self.now }
    {
        self.keys[n] as usize
    }

    /// The numbers of group `d`, which is below `count`, ascending.
    #[inline]
    pub fn list(&self, d: usize) -> &[u32]
        requires { d < count_of self.now }
        ensures { IsListOf result.now (IsIn self.now d) }
    {
        &self.lists[d]
    }

    /// The least number of group `d`, which is below `count`, from `n` on; None where there is none.
    pub fn first_from(&self, d: usize, n: usize) -> Option<usize>
        requires { d < count_of self.now }
        ensures { MatchOption result ((v : ℕ) → IsIn self.now d v → v < n) (IsFirstFrom self.now d n) }
    {
        let list = self.list(d);
        let i = place_of(list, n);
        if i == list.len() {
            return None;
        }
        Some(list[i] as usize)
    }

    /// The greatest number of group `d`, which is below `count`, that is below `n`; None where there is none.
    pub fn last_before(&self, d: usize, n: usize) -> Option<usize>
        requires { d < count_of self.now }
        ensures { MatchOption result ((v : ℕ) → IsIn self.now d v → n ≤ v) (IsLastBefore self.now d n) }
    {
        let list = self.list(d);
        let i = place_of(list, n);
        if i == 0 {
            return None;
        }
        Some(list[i - 1] as usize)
    }
}

/// So many empty lists.
fn empty_lists(alloc: Global, count: usize) -> Result<Vec<Vec<u32>>, AllocError>
    ensures count { IfOk result (λ lists. length lists.items ≡ count) }
    ensures empty { IfOk result (λ lists. All (λ list. list.items ≡ []) lists.items) }
{
    let mut lists = Vec::with_capacity(alloc, count)?;
    for _ in 0..count {
        lists.push(Vec::new(alloc))?;
    }
    Ok(lists)
}

/// The place of the first item of an ascending list that isn't less than `n`: the list's length where all are less.
fn place_of(list: &[u32], n: usize) -> usize
    requires { IsAscending list.now }
    ensures { IsCut list.now (λ x. x < n) result }
{
    let mut low = 0;
    let mut high = list.len();
    while low < high {
        let middle = low + (high - low) / 2;
        if (list[middle] as usize) < n {
            low = middle + 1;
        } else {
            high = middle;
        }
    }
    low
}
