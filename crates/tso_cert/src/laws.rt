//! What the definitions of spelling say of each other, proved of all texts.

ghost use Rattle.std.specs.Prelude.{◌≡◌, ◌⊎◌, ℕ, List};
ghost use Rattle.tso_cert.specs.Printed.{cert_text, CertFits};
ghost use Rattle.tso_cert.specs.Spelling.{SpellsCertificate, IsCertTextRefusal, IsSpelled, IsRefused};
ghost use Rattle.tso_cert.specs.declared.faults.CertificateRefusal.{CertificateRefusal};
ghost use Rattle.tso_cert.specs.declared.steps.Certificate.{Certificate};

/// Each text spells a certificate or is refused, never both; it spells one certificate, and gets one refusal;
/// what spells a certificate is its printed text, and the printed text of a certificate spells it.
pub fn certificates()
    ensures spelled_or_refused { (text : List ℕ) → IsSpelled text ⊎ IsRefused text }
    ensures never_both { (text : List ℕ) → IsSpelled text → IsRefused text → ⊥ }
    ensures one_value { (text : List ℕ) (c d : Certificate) → SpellsCertificate text c → SpellsCertificate text d → c ≡ d }
    ensures one_text { (text : List ℕ) (c : Certificate) → SpellsCertificate text c → text ≡ cert_text c }
    ensures one_refusal { (text : List ℕ) (j k : ℕ) (v w : CertificateRefusal) → IsCertTextRefusal text j v → IsCertTextRefusal text k w → (j ≡ k) × (v ≡ w) }
    ensures printed { (c : Certificate) → CertFits c → SpellsCertificate (cert_text c) c }
{}
