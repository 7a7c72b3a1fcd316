//! What the refusals of certificates say of each other, proved of all traces and certificates.
ghost use Rattle.std.specs.Prelude.{◌≡◌, ◌⊎◌};
ghost use Rattle.tso_ops.specs.Values.{TraceValue};
ghost use Rattle.tso_cert.specs.declared.steps.Certificate.{Certificate};
ghost use Rattle.tso_model.specs.Certs.{Holds};
ghost use Rattle.cert_check.specs.declared.faults.CertFault.{CertFault};
ghost use Rattle.cert_check.specs.Refusals.{IsCertRefusal};

/// A certificate holds or gets a refusal, never both, and it gets one refusal at most.
pub fn refusals()
    ensures some { (t : TraceValue) (c : Certificate) → Holds t c ⊎ ((fault : CertFault) × IsCertRefusal t c fault) }
    ensures one { (t : TraceValue) (c : Certificate) (fault other : CertFault) → IsCertRefusal t c fault → IsCertRefusal t c other → fault ≡ other }
    ensures none { (t : TraceValue) (c : Certificate) (fault : CertFault) → Holds t c → IsCertRefusal t c fault → ⊥ }
{}
