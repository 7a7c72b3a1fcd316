//! A trace with the operations of its events.
ghost use Rattle.std.specs.Prelude.{◌≡◌, ◌<◌, ◌^◌, Some, IfOk};
ghost use Rattle.tso_ops.specs.Values.{TraceValue};
ghost use Rattle.tso_ops.specs.declared.operations.EventOperation.{EventOperation};
ghost use Rattle.tso_ops.specs.Operations.{operation_at, operations_of};

use std::alloc::{AllocError, Global};
use std::marker::Model;
use tso_ops::{EventOperation, Operations, Trace};

/// A trace with the operations of its events.
#[derive(Debug, Drop)]
pub(crate) struct PlacedTrace<'t> {
    trace: &'t Trace,
    operations: Operations,
}

impl<'t> Model for PlacedTrace<'t> {
    ghost use Rattle.std.specs.Prelude.{◌≡◌};
    ghost use Rattle.tso_ops.specs.Values.{TraceValue};
    ghost use Rattle.tso_ops.specs.Operations.{operations_of};

    ghost Value = { TraceValue };

    ghost view = { λ p. p.trace.now };

    ghost invariant = { λ p. p.operations.operations.items ≡ operations_of p.trace.now };
}

impl<'t> PlacedTrace<'t> {
    /// The trace with its operations, or OutOfMemory where an allocation was refused.
    pub(crate) fn new(alloc: Global, trace: &'t Trace) -> Result<PlacedTrace<'t>, AllocError>
        ensures { IfOk result (λ placed. placed ≡ trace.now) }
    {
        let operations = trace.operations(alloc)?;
        Ok(PlacedTrace { trace, operations })
    }

    /// The trace.
    pub(crate) fn trace(&self) -> &'t Trace
        ensures { result.now ≡ self.now }
    {
        self.trace
    }

    /// The operation of event `n`, or None where there is no such event.
    pub(crate) fn operation(&self, n: usize) -> Option<EventOperation>
        ensures is { result ≡ operation_at self.now n }
        ensures near { (o : EventOperation) → result ≡ Some o → n < 2 ^ 63 }
    {
        self.operations.operation_of(n)
    }
}
