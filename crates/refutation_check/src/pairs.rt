//! The pairs in force, and the open cases.
ghost use Rattle.std.specs.Prelude.{◌≡◌, ◌↔◌, ◌<◌, ◌^◌, ◌+◌, ◌-◌, [], IsTrue, IfOk, OnOk, take, reverse};
ghost use Rattle.refutation_check.specs.Refusals.{IsLineUpTo};
ghost use Rattle.refutation_check.specs.Internal.Pairs.{InForce, IsKept, IsTableOf, IsWith};
ghost use Rattle.refutation_check.specs.Internal.Walks.{IsAfter};

use cert_check::pair_tables::PairTable;
use std::alloc::{AllocError, Global};
use tso_evidence::RefutationLine;

/// Two numbers, of which the first comes before the second.
#[derive(Clone, Copy, Debug)]
pub(crate) struct Pair {
    from: usize,
    to: usize,
}

/// The pairs in force at a line of a refutation, and the cases that are open there.
#[derive(Debug, Drop)]
pub(crate) struct PairsInForce {
    /// The pairs, where one is looked up.
    table: PairTable,
    /// The pairs once each, in the order in which they came in force.
    pairs: Vec<Pair>,
    /// For each open case, the last one at the end, how many pairs were in force where it came.
    cases: Vec<usize>,
}

impl PairsInForce {
    /// No pair, with room for those of numbers up to `last`, and no case. OutOfMemory where an allocation was refused.
    pub(crate) fn new(alloc: Global, last: usize) -> Result<PairsInForce, AllocError>
        requires { last < 2 ^ 31 }
        ensures kept { IfOk result IsKept }
        ensures nodes { IfOk result (λ state. state.table.nodes ≡ last + 1) }
        ensures pairs { IfOk result (λ state. state.pairs.items ≡ []) }
        ensures cases { IfOk result (λ state. state.cases.items ≡ []) }
    {
        Ok(PairsInForce {
            table: PairTable::new(alloc, last + 1)?,
            pairs: Vec::new(alloc),
            cases: Vec::new(alloc),
        })
    }

    /// Whether the pair is in force.
    #[inline]
    pub(crate) fn has(&self, u: usize, v: usize) -> bool
        requires { IsTableOf self.now.table self.now.pairs.items }
        ensures { IsTrue result ↔ InForce self.now.pairs.items u v }
    {
        self.table.has(u, v)
    }

    /// Goes on behind a line: to the pairs in force and the open cases there. OutOfMemory where an allocation was refused.
    pub(crate) fn follow(&mut self, line: &RefutationLine) -> Result<(), AllocError>
        requires kept { IsKept self.old }
        requires range { IsLineUpTo (self.old.table.nodes - 1) line.now }
        ensures kept { OnOk result (IsKept self.new) }
        ensures nodes { self.new.table.nodes ≡ self.old.table.nodes }
        ensures after { OnOk result (IsAfter line.now self.old.pairs.items (reverse self.old.cases.items) self.new.pairs.items (reverse self.new.cases.items)) }
    {
        match line {
            RefutationLine::Step(step) => self.add(step.from as usize, step.to as usize),
            RefutationLine::Case { first, second } => {
                self.cases.push(self.pairs.len())?;
                self.add(*first as usize, *second as usize)
            },
            RefutationLine::Else { first, second } => {
                if let Some(count) = self.cases.pop() {
                    self.cut(count);
                }
                self.add(*first as usize, *second as usize)
            },
            RefutationLine::Cycle(_) => Ok(()),
        }
    }

    /// Puts a pair in force.
    fn add(&mut self, from: usize, to: usize) -> Result<(), AllocError>
        requires kept { IsKept self.old }
        requires from { from < self.old.table.nodes }
        requires to { to < self.old.table.nodes }
        ensures kept { OnOk result (IsKept self.new) }
        ensures nodes { self.new.table.nodes ≡ self.old.table.nodes }
        ensures pairs { OnOk result (IsWith self.old.pairs.items from to self.new.pairs.items) }
        ensures cases { self.new.cases.items ≡ self.old.cases.items }
    {
        if !self.table.has(from, to) {
            self.pairs.push(Pair { from, to })?;
            self.table.add(from, to);
        }
        Ok(())
    }

    /// Leaves the first `count` pairs in force, and no others.
    fn cut(&mut self, count: usize)
        requires { IsKept self.old }
        ensures kept { IsKept self.new }
        ensures nodes { self.new.table.nodes ≡ self.old.table.nodes }
        ensures pairs { self.new.pairs.items ≡ take count self.old.pairs.items }
        ensures cases { self.new.cases.items ≡ self.old.cases.items }
    {
        while self.pairs.len() > count {
            if let Some(pair) = self.pairs.pop() {
                self.table.remove(pair.from, pair.to);
            }
        }
    }
}
