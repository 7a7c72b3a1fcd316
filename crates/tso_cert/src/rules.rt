ghost use Rattle.std.specs.Prelude.{◌≡◌};
ghost use Rattle.tso_cert.specs.Printed.{base_name, inferred_name};

/// A rule that gives edges of rank 0, in the order in which a justification tries them.
#[derive(Clone, Copy, Debug, PartialEq, Eq)]
pub enum BaseRule {
    /// From `init` to any event.
    Init,
    /// From a load to a program-later event (the axiom LoadOp: SPARC Architecture Manual Version 8, K.2).
    LoadOp,
    /// From a store to a program-later store: under TSO to any, under PSO to one to the same address (the axiom StoreStore:
    /// SPARC Architecture Manual Version 8, K.2; for PSO 6.3 and appendix K).
    StoreStore,
    /// From a store to a program-later store after an STBAR (SPARC Architecture Manual Version 8, 6.3 and appendix K).
    Stbar,
    /// From a store to a program-later load after a barrier (MEMBAR #StoreLoad: SPARC Architecture Manual Version 9, 8.4.3 and appendix D).
    Membar,
    /// From the store that is the source of a load, and isn't program-earlier, to the load.
    Read,
    /// From a program-earlier store to a load's address, which isn't the load's source, to that source.
    Own,
}

impl BaseRule {
    /// All base rules, in the order in which a justification tries them.
    pub const ALL: [BaseRule; 7] = [
        BaseRule::Init,
        BaseRule::LoadOp,
        BaseRule::StoreStore,
        BaseRule::Stbar,
        BaseRule::Membar,
        BaseRule::Read,
        BaseRule::Own,
    ];

    /// The name in the text of a certificate.
    pub fn name(self) -> &'static str
        ensures { result.now ≡ base_name self }
    {
        match self {
            BaseRule::Init => "Init",
            BaseRule::LoadOp => "LoadOp",
            BaseRule::StoreStore => "StoreStore",
            BaseRule::Stbar => "Stbar",
            BaseRule::Membar => "Membar",
            BaseRule::Read => "Read",
            BaseRule::Own => "Own",
        }
    }
}

/// A rule that gives edges by a path over the edges of lesser rank, in the order in which a justification tries them.
#[derive(Clone, Copy, Debug, PartialEq, Eq)]
pub enum InferredRule {
    /// From a store to a load's address, which comes before the load and isn't its source, to that source.
    LoadPast,
    /// From a load to a store to its address, which comes after its source.
    StorePast,
    /// From a store that comes before the store of a swap, to the load of the swap.
    SwapBefore,
    /// From the store of a swap to another store, which comes after the load of the swap.
    SwapAfter,
}

impl InferredRule {
    /// All inferred rules, in the order in which a justification tries them.
    pub const ALL: [InferredRule; 4] = [
        InferredRule::LoadPast,
        InferredRule::StorePast,
        InferredRule::SwapBefore,
        InferredRule::SwapAfter,
    ];

    /// The name in the text of a certificate.
    pub fn name(self) -> &'static str
        ensures { result.now ≡ inferred_name self }
    {
        match self {
            InferredRule::LoadPast => "LoadPast",
            InferredRule::StorePast => "StorePast",
            InferredRule::SwapBefore => "SwapBefore",
            InferredRule::SwapAfter => "SwapAfter",
        }
    }
}
