//! What axioms say of the traces that complete runs of a program leave, proved of all programs.

ghost use Rattle.std.specs.Prelude.{◌≡◌, ◌↔◌};
ghost use Rattle.tso_ops.specs.declared.settings.Order.TheVariants.{Tso};
ghost use Rattle.tso_ops.specs.Values.{ProgramValue, TraceValue, program_of};
ghost use Rattle.tso_ops.specs.Limits.{IsTrace};
ghost use Rattle.tso_model.specs.Axioms.{IsConsistent};
ghost use Rattle.final_states.specs.FinalStates.{IsRunTrace};

/// The trace that a complete run of a program leaves, under TSO or PSO, has an order that meets the axioms. Under TSO each trace of the program
/// within the limits has such an order exactly if some complete run of the program leaves it.
pub fn outcomes_are_consistent_traces()
    ensures consistent { (program : ProgramValue) (t : TraceValue) → IsRunTrace program t → IsConsistent t }
    ensures exactly { (program : ProgramValue) (t : TraceValue) → program.setting.order ≡ Tso → IsTrace t → program_of t ≡ program →
        IsRunTrace program t ↔ IsConsistent t }
{}
