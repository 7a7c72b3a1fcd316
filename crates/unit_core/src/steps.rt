ghost use Rattle.std.specs.Prelude.{◌≡◌, IfSome};
ghost use Rattle.tso_ops.specs.Values.{ReadFits};
ghost use Rattle.unit_core.specs.Machine.{outcome_for};

use tso_ops::Outcome;

/// One step of the store-buffer machine: what a memory unit did.
///
/// Processors go from 0 to 15, addresses from 0 to 255, stored values from 1 to 2^64 - 1.
#[derive(Clone, Copy, Debug, PartialEq, Eq)]
pub enum Step {
    /// A store of processor `p` entered its buffer.
    Store { p: usize, a: u16, v: u64 },
    /// The oldest entry of processor `p`'s buffer went to memory.
    Drain { p: usize },
    /// The oldest entry of address `a` in processor `p`'s buffer went to memory. PSO alone has this step.
    DrainAt { p: usize, a: u16 },
    /// A load of processor `p` from address `a` read `r`.
    Load { p: usize, a: u16, r: u64 },
    /// A swap of processor `p` at address `a` read `r` and stored `v`.
    Swap { p: usize, a: u16, r: u64, v: u64 },
    /// A barrier of processor `p`, MEMBAR #StoreLoad (SPARC V9 manual, appendix A, memory barrier).
    Membar { p: usize },
    /// An STBAR of processor `p` (SPARC V8 manual, chapter 6 and appendix K).
    Stbar { p: usize },
}

impl Step {
    /// What the step answered processor `p`: None where it is a drain or another processor's.
    pub fn outcome_of(self, p: usize) -> Option<Outcome>
        ensures is { result ≡ outcome_for p self }
        ensures fits { IfSome result ReadFits }
    {
        let (q, outcome) = match self {
            Step::Store { p, a, v } => (p, Outcome::St { a, v }),
            Step::Load { p, a, r } => (p, Outcome::Ld { a, r }),
            Step::Swap { p, a, r, v } => (p, Outcome::Sw { a, r, v }),
            Step::Membar { p } => (p, Outcome::Mb),
            Step::Stbar { p } => (p, Outcome::Sb),
            Step::Drain { .. } | Step::DrainAt { .. } => return None,
        };
        if q == p { Some(outcome) } else { None }
    }
}
