ghost use Rattle.std.specs.Prelude.{◌≡◌};
ghost use Rattle.tso_ops.specs.Limits.{address_of, barrier_count, event_count, stored_by};
ghost use Rattle.tso_ops.specs.declared.ops.Op.{Op};
ghost use Rattle.tso_ops.specs.Values.{op_of, ReadFits};

/// One operation of a program: what a processor asks of the memory unit.
///
/// Addresses are word addresses from 0 to 255, and stored values go from 1 to 2^64 - 1, each stored once in a
/// program (`Program::new` sees to that).
#[derive(Clone, Copy, Debug, PartialEq, Eq)]
pub enum Op {
    /// A load from address `a`.
    Ld { a: u16 },
    /// A store of the value `v` to address `a`.
    St { a: u16, v: u64 },
    /// A swap: one atomic load from address `a` and store of `v` to it.
    Sw { a: u16, v: u64 },
    /// A barrier, MEMBAR #StoreLoad (SPARC V9 manual, appendix A, memory barrier).
    Mb,
    /// STBAR: the processor's stores before it come before those after it (SPARC V8 manual, chapter 6 and appendix K). A
    /// program under TSO has none.
    Sb,
}

/// One operation of a trace: an operation of a program with the value that it read.
#[derive(Clone, Copy, Debug, PartialEq, Eq)]
pub enum Outcome {
    /// A load from address `a` that read `r`.
    Ld { a: u16, r: u64 },
    /// A store of the value `v` to address `a`.
    St { a: u16, v: u64 },
    /// A swap at address `a` that read `r` and stored `v`.
    Sw { a: u16, r: u64, v: u64 },
    /// A barrier, MEMBAR #StoreLoad.
    Mb,
    /// An STBAR.
    Sb,
}

impl Op {
    /// How many events the operation gives: 2 for a swap, 0 for a barrier of either kind, else 1.
    pub(crate) fn events(self) -> usize
        ensures { result ≡ event_count self }
    {
        match self {
            Op::Ld { .. } | Op::St { .. } => 1,
            Op::Sw { .. } => 2,
            Op::Mb | Op::Sb => 0,
        }
    }

    /// How many barriers the operation is: 1 for a barrier of either kind, else 0.
    pub(crate) fn barriers(self) -> usize
        ensures { result ≡ barrier_count self }
    {
        match self {
            Op::Ld { .. } | Op::St { .. } | Op::Sw { .. } => 0,
            Op::Mb | Op::Sb => 1,
        }
    }

    /// The address that the operation reads or writes.
    pub(crate) fn address(self) -> Option<u16>
        ensures { result ≡ address_of self }
    {
        match self {
            Op::Ld { a } | Op::St { a, .. } | Op::Sw { a, .. } => Some(a),
            Op::Mb | Op::Sb => None,
        }
    }

    /// The value that the operation writes, if it is a store or a swap.
    pub fn stored(self) -> Option<u64>
        ensures { result ≡ stored_by self }
    {
        match self {
            Op::St { v, .. } | Op::Sw { v, .. } => Some(v),
            Op::Ld { .. } | Op::Mb | Op::Sb => None,
        }
    }
}

impl Outcome {
    /// The operation, without what it read.
    pub fn op(self) -> Op
        ensures { result ≡ op_of self }
    {
        match self {
            Outcome::Ld { a, .. } => Op::Ld { a },
            Outcome::St { a, v } => Op::St { a, v },
            Outcome::Sw { a, v, .. } => Op::Sw { a, v },
            Outcome::Mb => Op::Mb,
            Outcome::Sb => Op::Sb,
        }
    }
}

/// What the lists of programs and of traces are made of.
pub(crate) trait Operation: Copy {
    ghost op: { Self → Op };

    ghost fits: { Self → Type 0 };

    /// The operation, without what it read.
    fn op(self) -> Op
        ensures is { result ≡ op self }
        ensures fits { fits self };
}

impl Operation for Op {
    ghost op = { λ op. op };

    ghost fits = { λ _. Unit {0} };

    fn op(self) -> Op {
        self
    }
}

impl Operation for Outcome {
    ghost op = { op_of };

    ghost fits = { ReadFits };

    fn op(self) -> Op {
        self.op()
    }
}
