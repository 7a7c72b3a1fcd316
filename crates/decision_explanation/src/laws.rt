//! The laws of the sentences: what each says is true.
ghost use Rattle.std.specs.Prelude.{◌≡◌, ◌↔◌, ◌∷◌, ℕ, List, Some};
ghost use Rattle.tso_ops.specs.Values.{TraceValue};
ghost use Rattle.tso_ops.specs.Limits.{IsTrace};
ghost use Rattle.tso_ops.specs.Events.{IsLoad};
ghost use Rattle.tso_cert.specs.declared.steps.Certificate.{Certificate};
ghost use Rattle.tso_evidence.specs.declared.evidence.Evidence.{Evidence};
ghost use Rattle.tso_evidence.specs.Certificates.{evidence_of};
ghost use Rattle.tso_evidence.specs.Refutations.{lines_of, Refutation};
ghost use Rattle.tso_evidence.specs.declared.refutations.RefutationLine.TheVariants.{Case, Else};
ghost use Rattle.tso_model.specs.Axioms.{IsModelOrder};
ghost use Rattle.trace_explanation.specs.Names.{source_of};
ghost use Rattle.decision_explanation.specs.Certificates.{certificate_of_evidence};
ghost use Rattle.decision_explanation.specs.Claims.{EntrySays};
ghost use Rattle.decision_explanation.specs.InForce.{standing_after, after_lines, case_number, Standing};

/// In an order that meets the axioms each load has a source, which its line names, and what the line says of it is true.
pub fn entries_are_true()
    ensures { (t : TraceValue) (order : List ℕ) → IsTrace t → IsModelOrder t order → (l : ℕ) → IsLoad t l →
        (s : ℕ) × (source_of t l ≡ Some s) × EntrySays t order l s }
{}

/// In the second part of a case the lines are in force that were so before the case, and the part's own: no line of the first
/// part. The cases that are open there are those before the case. At the end of the first part its case is the last open one,
/// which is the one that the text of the second part names.
pub fn second_parts_forget_first_parts()
    ensures { (s : Standing) (u v : ℕ) (first : Refutation) → let inside = after_lines (standing_after s (Case u v)) (lines_of first) in
        (case_number inside.cases ≡ s.next) × ((standing_after inside (Else v u)).pairs ≡ record { number = inside.next; from = v; to = u } ∷ s.pairs) ×
        ((standing_after inside (Else v u)).cases ≡ s.cases) }
{}

/// Evidence that is a certificate has that certificate's explanation, and no other evidence has one.
pub fn certificates_are_found()
    ensures { (e : Evidence) (c : Certificate) → certificate_of_evidence e ≡ Some c ↔ e ≡ evidence_of c }
{}
