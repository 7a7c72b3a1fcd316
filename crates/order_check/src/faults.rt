ghost use Rattle.std.specs.Prelude.{◌≡◌};
ghost use Rattle.order_check.specs.Refusals.{axiom_name};

use thiserror::Error;

/// An axiom of the memory models, in the order in which the axioms are looked at where an order breaks several at one event.
#[derive(Clone, Copy, Debug, PartialEq, Eq)]
pub enum Axiom {
    /// What a processor does after a load, memory orders after that load (SPARC Architecture Manual Version 8, K.2). A swap's
    /// load comes before its store by this axiom.
    LoadOp,
    /// Memory keeps the order of a processor's stores: under TSO of any two, under PSO of two to one address (SPARC
    /// Architecture Manual Version 8, K.2; for PSO 6.3 and appendix K).
    StoreStore,
    /// Memory keeps the order of two stores with an STBAR between them (SPARC Architecture Manual Version 8, 6.3 and appendix
    /// K).
    Stbar,
    /// Memory orders a store before each load after the barrier (MEMBAR #StoreLoad: SPARC Architecture Manual Version 9, 8.4.3
    /// and appendix D).
    Membar,
    /// No other store, to any address, comes between a swap's load and its store (SPARC Architecture Manual Version 8, K.2).
    Atomicity,
    /// A load returns what the last store that it sees wrote, and the first value of its address where it sees none (SPARC
    /// Architecture Manual Version 8, K.2).
    Value,
}

impl Axiom {
    /// All axioms, in the order in which they are looked at.
    pub const ALL: [Axiom; 6] = [
        Axiom::LoadOp,
        Axiom::StoreStore,
        Axiom::Stbar,
        Axiom::Membar,
        Axiom::Atomicity,
        Axiom::Value,
    ];

    /// The name, as it is displayed.
    pub fn name(self) -> &'static str
        ensures { result.now ≡ axiom_name self }
    {
        match self {
            Axiom::LoadOp => "LoadOp",
            Axiom::StoreStore => "StoreStore",
            Axiom::Stbar => "Stbar",
            Axiom::Membar => "Membar",
            Axiom::Atomicity => "Atomicity",
            Axiom::Value => "Value",
        }
    }
}

/// Why a list of numbers is no order of a trace's memory model, in the order in which it is looked for. Places count from 1.
#[derive(Clone, Copy, Debug, PartialEq, Eq, Error)]
pub enum OrderFault {
    /// The number at this place is no event of the trace; those before it are.
    #[error("NotAnEvent place {0}")]
    NotAnEvent(usize),
    /// All numbers are events. That at this place stands at an earlier place too, and none before it does.
    #[error("Repeated place {0}")]
    Repeated(usize),
    /// All numbers are events, and none stands in the list twice. This event is the least that doesn't stand there.
    #[error("Missing event {0}")]
    Missing(usize),
    /// Each event stands in the list once, and nothing else does. This event is the first in the list at which an axiom isn't
    /// met, and this axiom the first that isn't met there.
    #[error("{} event {event}", .axiom.name())]
    Broken { axiom: Axiom, event: usize },
}
