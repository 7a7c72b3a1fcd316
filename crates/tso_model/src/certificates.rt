//! Laws on certificates: one that holds leaves no order of the trace's model, and a trace has one of its own, which holds, exactly if it has an unwritten load or a derived cycle.
ghost use Rattle.std.specs.Prelude.{◌≡◌, ◌⊎◌, ◌↔◌, ℕ};
ghost use Rattle.tso_ops.specs.Values.{TraceValue};
ghost use Rattle.tso_ops.specs.Limits.{IsTrace};
ghost use Rattle.tso_ops.specs.Events.{IsUnwritten};
ghost use Rattle.tso_cert.specs.declared.steps.Certificate.{Certificate};
ghost use Rattle.tso_cert.specs.declared.steps.Certificate.TheVariants.{Unwritten};
ghost use Rattle.tso_model.specs.Axioms.{IsConsistent};
ghost use Rattle.tso_model.specs.Rules.{HasDerivedCycle};
ghost use Rattle.tso_model.specs.Certs.{Holds, IsCertificateOf};

/// A certificate that holds for a trace leaves no order of its model.
pub fn holding_certificate_leaves_no_order()
    ensures { (t : TraceValue) (certificate : Certificate) → IsTrace t → Holds t certificate → IsConsistent t → ⊥ }
{}

/// The certificate of a trace holds.
pub fn certificate_of_trace_holds()
    ensures { (t : TraceValue) (certificate : Certificate) → IsCertificateOf t certificate → Holds t certificate }
{}

/// A trace has at most one certificate.
pub fn certificate_is_unique()
    ensures { (t : TraceValue) (certificate other : Certificate) → IsTrace t → IsCertificateOf t certificate → IsCertificateOf t other → certificate ≡ other }
{}

/// A trace that has a certificate has an unwritten load or a derived cycle.
pub fn certificate_has_cause()
    ensures { (t : TraceValue) (certificate : Certificate) → IsCertificateOf t certificate → ((l : ℕ) × IsUnwritten t l) ⊎ HasDerivedCycle t }
{}

/// The certificate of a trace names an unwritten load exactly if the trace has one, and else has a cycle.
pub fn certificate_has_right_form()
    ensures { (t : TraceValue) (certificate : Certificate) → IsCertificateOf t certificate → ((l : ℕ) × IsUnwritten t l) ↔
        ((n : ℕ) × (certificate ≡ Unwritten n)) }
{}

/// A trace that has an unwritten load or a derived cycle has a certificate.
pub fn certificate_exists()
    ensures { (t : TraceValue) → ((l : ℕ) × IsUnwritten t l) ⊎ HasDerivedCycle t → (certificate : Certificate) × IsCertificateOf t certificate }
{}
