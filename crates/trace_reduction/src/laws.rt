//! What the definitions of reductions say, proved of all traces and inputs.

ghost use Rattle.std.specs.Prelude.{◌≡◌, ◌↔◌, ℕ, List};
ghost use Rattle.tso_ops.specs.Values.{TraceValue};
ghost use Rattle.tso_text.specs.Texts.{SpellsTrace};
ghost use Rattle.tso_model.specs.Axioms.{IsConsistent};
ghost use Rattle.trace_reports.specs.Reports.{SpellsViolation};
ghost use Rattle.trace_reports.specs.declared.verdicts.Verdict.{Verdict};
ghost use Rattle.trace_reduction.specs.Reductions.{IsReduction, IsReductionOf};

/// What is reduced to a small trace that shows a violation has no order of its model. An input is Violation exactly where it
/// spells a violation.
pub fn reductions()
    ensures trace { (t small : TraceValue) → IsReduction t small → IsConsistent t → ⊥ }
    ensures input { (input text : List ℕ) → IsReductionOf input text Verdict.Violation → (t : TraceValue) → SpellsTrace input t → IsConsistent t → ⊥ }
    ensures violation { (input text : List ℕ) (verdict : Verdict) → IsReductionOf input text verdict → (verdict ≡ Verdict.Violation) ↔ SpellsViolation input }
{}
