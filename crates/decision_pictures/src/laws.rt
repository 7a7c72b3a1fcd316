//! What the pictures of evidence show, proved of all traces and all evidence.
ghost use Rattle.std.specs.Prelude.{◌≡◌, ◌≢◌, ◌≤◌, ◌↔◌, ℕ, suc, List, [], Some, slice_get};
ghost use Rattle.tso_ops.specs.Values.{TraceValue};
ghost use Rattle.tso_ops.specs.Events.{IsEvent};
ghost use Rattle.tso_cert.specs.declared.steps.Certificate.{Certificate};
ghost use Rattle.tso_model.specs.Axioms.{occurrences, IsModelOrder};
ghost use Rattle.tso_evidence.specs.declared.evidence.Evidence.TheVariants.{Refutation};
ghost use Rattle.tso_evidence.specs.declared.refutations.RefutationLine.{RefutationLine};
ghost use Rattle.tso_evidence.specs.Certificates.{evidence_of};
ghost use Rattle.trace_pictures.specs.declared.captions.Caption.TheVariants.{Refuted};
ghost use Rattle.trace_pictures.specs.Labels.{number_in_order};
ghost use Rattle.trace_pictures.specs.Pictures.{numbered_picture, picture_text};
ghost use Rattle.decision_pictures.specs.Pictures.{evidence_picture};

/// Evidence that is a certificate has the picture of the certificate; the lines of a refutation that are none have that of the
/// trace alone, with a caption that names the command that prints the cases.
pub fn pictures_of_certificates()
    ensures certificates { (t : TraceValue) (c : Certificate) → evidence_picture t (evidence_of c) ≡ picture_text t (Some c) }
    ensures others { (t : TraceValue) (lines : List RefutationLine) → ((c : Certificate) → Refutation lines ≢ evidence_of c) →
        evidence_picture t (Refutation lines) ≡ numbered_picture t [] Refuted }
{}

/// A number that stands at most once in an order has there the number k where it is the kth. So each event has its place in an
/// order of the trace's model.
pub fn numbers_are_places()
    ensures places { (order : List ℕ) (n k : ℕ) → occurrences n order ≤ 1 → (number_in_order order n ≡ Some (suc k)) ↔ (slice_get order k ≡ Some n) }
    ensures model { (t : TraceValue) (order : List ℕ) (n k : ℕ) → IsModelOrder t order → IsEvent t n →
        (number_in_order order n ≡ Some (suc k)) ↔ (slice_get order k ≡ Some n) }
{}
