//! Occasions to deviate.
ghost use Rattle.std.specs.Prelude.{◌≡◌};
ghost use Rattle.unit_faulty.specs.Faulty.{has_occasion};

use request_options::FaultKind;

/// What may be an occasion to deviate.
#[derive(Clone, Copy, Debug, PartialEq, Eq)]
pub enum Occasion {
    /// One entry leaves its buffer. A call that makes several drains has as many of these.
    DrainMade,
    /// A load whose address waits in the own buffer.
    LoadForwarded,
    /// A load whose address doesn't.
    LoadFromMemory,
    /// A swap, after its drains.
    SwapMade,
    /// A membar, before its drains.
    MembarMade,
}

/// Whether this is an occasion of the kind.
pub fn has_occasion(kind: FaultKind, occasion: Occasion) -> bool
    ensures { result ≡ has_occasion kind occasion }
{
    match kind {
        FaultKind::NewestFirst | FaultKind::LostDrain => { matches!(occasion, Occasion::DrainMade) }
        FaultKind::NoForward => matches!(occasion, Occasion::LoadForwarded),
        FaultKind::StaleLoad => matches!(occasion, Occasion::LoadFromMemory),
        FaultKind::TornSwap => matches!(occasion, Occasion::SwapMade),
        FaultKind::IdleMembar => matches!(occasion, Occasion::MembarMade),
    }
}
