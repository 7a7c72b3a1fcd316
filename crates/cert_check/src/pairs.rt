//! Where the checker looks up the pairs of the steps so far.
ghost use Rattle.std.specs.Prelude.{◌↔◌, ◌<◌, ◌^◌, ◌∷◌, ◌++◌, ℕ, [], List, IsTrue, IfOk};
ghost use Rattle.tso_cert.specs.declared.steps.CertStep.{CertStep};
ghost use Rattle.tso_model.specs.Certs.{IsStep};
ghost use Rattle.cert_check.specs.Internal.Pairs.{Fits, ListsUpTo, ListsOf};

use crate::pair_tables::PairTable;
use std::alloc::{AllocError, Global};
use tso_cert::CertStep;

/// Where a pair is looked up among the steps so far.
#[derive(Debug, Drop)]
pub(crate) enum Pairs {
    /// In the steps themselves, from the last one back: that takes no memory, and as long as there are steps.
    Steps,
    /// In a table of their pairs, whatever the number of steps.
    Table(PairTable),
}

impl Pairs {
    /// A table without a pair, for numbers up to `last`, or OutOfMemory where its allocation was refused.
    pub(crate) fn in_table(alloc: Global, last: usize) -> Result<Pairs, AllocError>
        requires { last < 2 ^ 31 }
        ensures { IfOk result (λ pairs. ListsUpTo last pairs []) }
    {
        Ok(Pairs::Table(PairTable::new(alloc, last + 1)?))
    }

    /// Takes note of the next step.
    pub(crate) fn add(&mut self, step: &CertStep)
        requires { Fits self.old step.now }
        ensures { (last : ℕ) (steps : List CertStep) → ListsUpTo last self.old steps → ListsUpTo last self.new (steps ++ step.now ∷ []) }
    {
        match self {
            Pairs::Steps => {},
            Pairs::Table(table) => table.add(step.from as usize, step.to as usize),
        }
    }

    /// Whether one of the steps so far is the edge from `u` to `v`.
    pub(crate) fn lists(&self, steps: &[CertStep], u: u64, v: u64) -> bool
        requires { ListsOf self.now steps.now }
        ensures { IsTrue result ↔ IsStep steps.now u v }
    {
        match self {
            Pairs::Steps => is_step(steps, u, v),
            Pairs::Table(table) => table.has(u as usize, v as usize),
        }
    }
}

/// Whether one of the steps is the edge from `u` to `v`. The last steps are looked at first: paths mostly use those.
fn is_step(steps: &[CertStep], u: u64, v: u64) -> bool
    ensures { IsTrue result ↔ IsStep steps.now u v }
{
    for k in (0..steps.len()).rev() {
        let step = &steps[k];
        if step.from == u && step.to == v {
            return true;
        }
    }
    false
}
