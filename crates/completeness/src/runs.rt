//! Which traces complete runs of the store-buffer machine have, proved of all traces.

ghost use Rattle.std.specs.Prelude.{◌≡◌, ◌↔◌, ℕ, List};
ghost use Rattle.tso_ops.specs.declared.settings.Order.TheVariants.{Tso};
ghost use Rattle.tso_ops.specs.Values.{TraceValue};
ghost use Rattle.tso_ops.specs.Limits.{IsTrace};
ghost use Rattle.tso_model.specs.Axioms.{IsConsistent, IsModelOrder};
ghost use Rattle.completeness.specs.RecordedTraces.{IsTraceOfRun};
ghost use Rattle.completeness.specs.SwapsTogether.{HasSwapsTogether};

/// Each trace with an order of its model, TSO or PSO, has one in which each swap's store stands right after its load. No limit of traces is needed
/// for this.
pub fn swaps_can_be_neighbours()
    ensures { (t : TraceValue) (order : List ℕ) → IsModelOrder t order → (together : List ℕ) × IsModelOrder t together × HasSwapsTogether t together }
{}

/// A trace within the limits under TSO has an order that meets the axioms exactly if it is the trace of some complete run of the store-buffer
/// machine.
pub fn consistent_traces_have_runs()
    ensures run { (t : TraceValue) → t.setting.order ≡ Tso → IsTrace t → IsConsistent t → IsTraceOfRun t }
    ensures exactly { (t : TraceValue) → t.setting.order ≡ Tso → IsTrace t → IsConsistent t ↔ IsTraceOfRun t }
{}
