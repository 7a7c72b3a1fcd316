//! What the definitions say of each other, proved of all values.

ghost use Rattle.std.specs.Prelude.{◌≡◌, ℕ, Some};
ghost use Rattle.tso_ops.specs.declared.events.Event.{Event};
ghost use Rattle.tso_ops.specs.declared.faults.ValueFault.{ValueFault};
ghost use Rattle.tso_ops.specs.declared.operations.EventOperation.{EventOperation};
ghost use Rattle.tso_ops.specs.Values.{ProgramValue, TraceValue, program_of};
ghost use Rattle.tso_ops.specs.Events.{event_at};
ghost use Rattle.tso_ops.specs.Operations.{operation_at, IsOperationOf};
ghost use Rattle.tso_ops.specs.Limits.{IsProgram, IsValueRefusal, IsTrace};

/// Lists get one refusal at most, and those of a program or a trace get none.
pub fn refusals()
    ensures one { (p : ProgramValue) (why other : ValueFault) → IsValueRefusal p why → IsValueRefusal p other → why ≡ other }
    ensures of_program { (p : ProgramValue) (why : ValueFault) → IsProgram p → IsValueRefusal p why → ⊥ }
    ensures of_trace { (t : TraceValue) (why : ValueFault) → IsTrace t → IsValueRefusal (program_of t) why → ⊥ }
{}

/// Each event has an operation, which stands at its place of the event's processor, and the event is that part of it.
pub fn operations_give_their_events()
    ensures { (t : TraceValue) (n : ℕ) (e : Event) → event_at t n ≡ Some e → (o : EventOperation) × (operation_at t n ≡ Some o) × IsOperationOf t e o }
{}
