//! What a complete run of the store-buffer machine says of its trace, proved of all values.

ghost use Rattle.std.specs.Prelude.{ℕ, List};
ghost use Rattle.tso_ops.specs.Events.{IsUnwritten};
ghost use Rattle.tso_ops.specs.Limits.{IsTrace};
ghost use Rattle.tso_ops.specs.Settings.{SettingValue};
ghost use Rattle.tso_model.specs.Axioms.{IsConsistent, IsModelOrder};
ghost use Rattle.tso_model.specs.Rules.{HasDerivedCycle};
ghost use Rattle.unit_core.specs.declared.steps.Step.{Step};
ghost use Rattle.unit_core.specs.Machine.{IsCompleteRun, trace_of};
ghost use Rattle.embedding.specs.Sizes.{Sizes, IsCompleteRunIn};
ghost use Rattle.embedding.specs.RunOrder.{memory_order_of};

/// A complete run of either memory model, from any first values, gives an order that meets the axioms of its trace's model. There is one also where the machine
/// has other numbers of buffers and words than a unit.
pub fn complete_runs_have_orders()
    ensures order { (setting : SettingValue) (count : ℕ) (steps : List Step) (run : IsCompleteRun setting count steps) →
        IsModelOrder (trace_of setting count steps) (memory_order_of count run.memory steps) }
    ensures consistent { (setting : SettingValue) (count : ℕ) (steps : List Step) → IsCompleteRun setting count steps →
        IsConsistent (trace_of setting count steps) }
    ensures in_any_sizes { (sizes : Sizes) (setting : SettingValue) (count : ℕ) (steps : List Step) → IsCompleteRunIn sizes setting count steps →
        IsConsistent (trace_of setting count steps) }
{}

/// The trace of a complete run is no violation: it has no unwritten load, and, where it keeps the limits of traces, its derived order has no cycle.
pub fn complete_runs_are_never_violations()
    ensures written { (setting : SettingValue) (count : ℕ) (steps : List Step) (l : ℕ) → IsCompleteRun setting count steps →
        IsUnwritten (trace_of setting count steps) l → ⊥ }
    ensures derived { (setting : SettingValue) (count : ℕ) (steps : List Step) → IsCompleteRun setting count steps → IsTrace (trace_of setting count steps) →
        HasDerivedCycle (trace_of setting count steps) → ⊥ }
{}
