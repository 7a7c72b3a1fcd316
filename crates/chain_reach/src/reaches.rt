//! Which numbers lead to which.
ghost use Rattle.std.specs.Prelude.{◌≡◌, ◌↔◌, ◌<◌, ◌≤◌, ℕ, IsTrue, IfOk, MatchBool};
ghost use Rattle.chain_reach.specs.Groups.{node_count, count_of, group_of, IsLaterIn};
ghost use Rattle.chain_reach.specs.Leading.{Leads, LeadsToMore, Joins};
ghost use Rattle.bitsets.specs.Rows.{IsListOf};

use crate::lowering::{NewEdge, give_row, lower_chains};
use crate::types::{Groups, Reach};
use bitsets::marked;
use std::alloc::{AllocError, Global};

impl Reach {
    /// Each number leads to those after it in its chain, and to no other; none has grown. OutOfMemory where an allocation was
    /// refused.
    pub fn new(alloc: Global, chains: Groups) -> Result<Reach, AllocError>
        ensures chains { IfOk result (λ r. r.chains ≡ chains) }
        ensures leads { IfOk result (λ r. (x y : ℕ) → Leads r x y ↔ IsLaterIn chains x y) }
        ensures settled { IfOk result (λ r. (x : ℕ) → LeadsToMore r x → ⊥) }
    {
        let nodes = chains.nodes();
        let count = chains.count();
        // a product past usize is the greatest one, and no allocation is that large
        let mut first = vec![in alloc; nodes as u32; nodes.saturating_mul(count)]?;
        for x in 0..nodes {
            first[x * count + chains.group(x)] = x as u32 + 1;
        }
        let given = vec![in alloc; 0; count]?;
        let grown = vec![in alloc; 0; nodes.div_ceil(64)]?;
        let near = vec![in alloc; 0; count.saturating_mul(count)]?;
        Ok(Reach {
            chains,
            first,
            given,
            grown,
            near,
        })
    }

    /// The chains. Each number leads to those after it in its chain, and what a number leads to leads on.
    #[inline]
    pub fn chains(&self) -> &Groups
        ensures chains { result.now ≡ self.now.chains }
        ensures ordered { (x y : ℕ) → IsLaterIn self.now.chains x y → Leads self.now x y }
        ensures transitive { (x y z : ℕ) → Leads self.now x y → Leads self.now y z → Leads self.now x z }
    {
        &self.chains
    }

    /// Whether x leads to y: both are numbers of the chains.
    #[inline]
    pub fn leads(&self, x: usize, y: usize) -> bool
        requires from { x < node_count self.now.chains }
        requires to { y < node_count self.now.chains }
        ensures { IsTrue result ↔ Leads self.now x y }
    {
        self.first_led(x, self.chains.group(y)) <= y
    }

    /// Whether a number leads to itself.
    pub fn has_cycle(&self) -> bool
        ensures { MatchBool result ((x : ℕ) × Leads self.now x x) ((x : ℕ) → Leads self.now x x → ⊥) }
    {
        for x in 0..self.chains.nodes() {
            if self.leads(x, x) {
                return true;
            }
        }
        false
    }

    /// A number such that x, a number of the chains, leads to those of chain `d` that aren't less, and to no others of it.
    #[inline]
    pub fn first_led(&self, x: usize, d: usize) -> usize
        requires from { x < node_count self.now.chains }
        requires chain { d < count_of self.now.chains }
        ensures { (y : ℕ) → y < node_count self.now.chains → group_of self.now.chains y ≡ d → Leads self.now x y ↔ (result ≤ y) }
    {
        self.first[x * self.chains.count() + d] as usize
    }

    /// Lets u lead to v, and so each number that is or leads to u to v and to what v leads to. Both are numbers of the
    /// chains.
    pub fn join(&mut self, u: usize, v: usize)
        requires from { u < node_count self.old.chains }
        requires to { v < node_count self.old.chains }
        ensures { Joins self.old self.new u v }
    {
        if self.leads(u, v) {
            return;
        }
        let to_chain = self.chains.group(v);
        give_row(&mut self.given, &self.first, v, to_chain);
        let edge = NewEdge {
            from: u,
            from_chain: self.chains.group(u),
            to: v,
            to_chain,
            given: &self.given,
        };
        lower_chains(
            &mut self.first,
            &mut self.grown,
            &mut self.near,
            &self.chains,
            edge,
        );
    }

    /// The numbers that have come to lead to more since this was made or last settled, ascending. OutOfMemory where an
    /// allocation was refused.
    pub fn grown(&self, alloc: Global) -> Result<Vec<usize>, AllocError>
        ensures { IfOk result (λ list. IsListOf list.items (LeadsToMore self.now)) }
    {
        marked(alloc, &self.grown, self.chains.nodes())
    }

    /// From now on `grown` tells of what is joined after this call.
    pub fn settle(&mut self)
        ensures chains { self.new.chains ≡ self.old.chains }
        ensures leads { (x y : ℕ) → Leads self.new x y ↔ Leads self.old x y }
        ensures settled { (x : ℕ) → LeadsToMore self.new x → ⊥ }
    {
        self.grown.fill(0);
    }
}
