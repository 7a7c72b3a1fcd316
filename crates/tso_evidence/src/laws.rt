//! What the definitions of spelling say of each other, proved of all texts.

ghost use Rattle.std.specs.Prelude.{◌≡◌, ◌⊎◌, ◌↔◌, ℕ, List};
ghost use Rattle.tso_cert.specs.Printed.{cert_text};
ghost use Rattle.tso_cert.specs.Spelling.{SpellsCertificate};
ghost use Rattle.tso_cert.specs.declared.steps.Certificate.{Certificate};
ghost use Rattle.tso_evidence.specs.Printed.{evidence_text, EvidenceFits};
ghost use Rattle.tso_evidence.specs.Certificates.{evidence_of};
ghost use Rattle.tso_evidence.specs.Spelling.{SpellsEvidence, IsEvidenceTextRefusal, IsSpelledEvidence, IsRefusedEvidence};
ghost use Rattle.tso_evidence.specs.declared.faults.EvidenceFault.{EvidenceFault};
ghost use Rattle.tso_evidence.specs.declared.evidence.Evidence.{Evidence};

/// Each text spells evidence or is refused, never both; it spells one evidence, and gets one refusal;
/// what spells evidence is its printed text, and the printed text of evidence spells it.
pub fn texts_of_evidence()
    ensures spelled_or_refused { (text : List ℕ) → IsSpelledEvidence text ⊎ IsRefusedEvidence text }
    ensures never_both { (text : List ℕ) → IsSpelledEvidence text → IsRefusedEvidence text → ⊥ }
    ensures one_value { (text : List ℕ) (d e : Evidence) → SpellsEvidence text d → SpellsEvidence text e → d ≡ e }
    ensures one_text { (text : List ℕ) (e : Evidence) → SpellsEvidence text e → text ≡ evidence_text e }
    ensures one_refusal { (text : List ℕ) (j k : ℕ) (v w : EvidenceFault) → IsEvidenceTextRefusal text j v → IsEvidenceTextRefusal text k w →
        (j ≡ k) × (v ≡ w) }
    ensures printed { (e : Evidence) → EvidenceFits e → SpellsEvidence (evidence_text e) e }
{}

/// A certificate is evidence: an unwritten load, or a refutation of its steps and its cycle. Both have the same text, and a
/// text spells the one where it spells the other.
pub fn certificates_are_evidence()
    ensures same_text { (c : Certificate) → cert_text c ≡ evidence_text (evidence_of c) }
    ensures same_spelling { (text : List ℕ) (c : Certificate) → SpellsCertificate text c ↔ SpellsEvidence text (evidence_of c) }
{}
