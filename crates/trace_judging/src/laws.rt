//! What the definitions of reports say, proved of all inputs.

ghost use Rattle.std.specs.Prelude.{◌≡◌, ◌⊎◌, ◌↔◌, ◌≤◌, ℕ, List, length};
ghost use Rattle.tso_ops.specs.Values.{TraceValue};
ghost use Rattle.tso_text.specs.Refusals.{IsRefusedTrace};
ghost use Rattle.tso_text.specs.Texts.{SpellsTrace};
ghost use Rattle.tso_model.specs.Axioms.{IsConsistent};
ghost use Rattle.trace_reports.specs.declared.verdicts.Verdict.{Verdict};
ghost use Rattle.trace_judging.specs.Checks.{IsCheckReport, SpellHolding};
ghost use Rattle.trace_judging.specs.Limits.{certificate_byte_limit};
ghost use Rattle.trace_reports.specs.declared.findings.Finding.{Finding};
ghost use Rattle.trace_reports.specs.Renderings.{IsTextOfInput, RendersRefusal};
ghost use Rattle.trace_reports.specs.Reports.{IsReport, ShowsViolationOf, SpellsViolation};

/// Each input has one report. It says VIOLATION exactly where the input spells a trace that is a violation, which then
/// has no order of its model, as the certificate at its end shows, and it is Refused exactly where the input spells no trace.
pub fn reports()
    ensures exists { (input : List ℕ) → (text : List ℕ) × (verdict : Verdict) × IsReport input text verdict }
    ensures one { (input text other : List ℕ) (v w : Verdict) → IsReport input text v → IsReport input other w → (text ≡ other) × (v ≡ w) }
    ensures violation { (input text : List ℕ) (v : Verdict) → IsReport input text v → (v ≡ Verdict.Violation) ↔ SpellsViolation input }
    ensures no_order { (input text : List ℕ) → IsReport input text Verdict.Violation → (t : TraceValue) → SpellsTrace input t → IsConsistent t → ⊥ }
    ensures holds { (input text : List ℕ) → IsReport input text Verdict.Violation → (t : TraceValue) × SpellsTrace input t × ShowsViolationOf t text }
    ensures refused { (input text : List ℕ) (v : Verdict) → IsReport input text v → (v ≡ Verdict.Refused) ↔ IsRefusedTrace input }
{}

/// Each input has one text of any rendering, whatever is said of traces and of refusals, with the verdict of its report, which is
/// Violation exactly where the input spells a trace that is a violation.
pub fn texts()
    ensures exists { (said : TraceValue → Finding → List ℕ) (refused : RendersRefusal) (input : List ℕ) →
        (text : List ℕ) × (verdict : Verdict) × IsTextOfInput said refused input text verdict }
    ensures one { (said : TraceValue → Finding → List ℕ) (refused : RendersRefusal) (input text other : List ℕ) (v w : Verdict) →
        IsTextOfInput said refused input text v → IsTextOfInput said refused input other w → (text ≡ other) × (v ≡ w) }
    ensures verdict { (said : TraceValue → Finding → List ℕ) (refused : RendersRefusal) (input text report : List ℕ) (v w : Verdict) →
        IsTextOfInput said refused input text v → IsReport input report w → v ≡ w }
    ensures violation { (said : TraceValue → Finding → List ℕ) (refused : RendersRefusal) (input text : List ℕ) (v : Verdict) →
        IsTextOfInput said refused input text v → (v ≡ Verdict.Violation) ↔ SpellsViolation input }
{}

/// Two texts have one report at most, and one where the second has 67,108,864 bytes at most. It says that the
/// certificate holds exactly where the first spells a trace and the second a certificate that holds for it, and it is
/// Refused otherwise.
pub fn checks()
    ensures exists { (trace cert : List ℕ) → length cert ≤ certificate_byte_limit → (text : List ℕ) × (verdict : Verdict) ×
        IsCheckReport trace cert text verdict }
    ensures one { (trace cert text other : List ℕ) (v w : Verdict) → IsCheckReport trace cert text v → IsCheckReport trace cert other w →
        (text ≡ other) × (v ≡ w) }
    ensures violation { (trace cert text : List ℕ) (v : Verdict) → IsCheckReport trace cert text v → (v ≡ Verdict.Violation) ↔ SpellHolding trace cert }
    ensures otherwise { (trace cert text : List ℕ) (v : Verdict) → IsCheckReport trace cert text v → (v ≡ Verdict.Violation) ⊎ (v ≡ Verdict.Refused) }
{}
