//! What refutations say of traces, certificates and each other, proved of all traces and lines.
ghost use Rattle.std.specs.Prelude.{◌≡◌, ◌⊎◌, ◌↔◌, ℕ, List};
ghost use Rattle.tso_ops.specs.Values.{TraceValue};
ghost use Rattle.tso_ops.specs.Limits.{IsTrace};
ghost use Rattle.tso_cert.specs.declared.steps.CertStep.{CertStep};
ghost use Rattle.tso_cert.specs.declared.steps.Certificate.TheVariants.{Cycle};
ghost use Rattle.tso_evidence.specs.declared.refutations.RefutationLine.{RefutationLine};
ghost use Rattle.tso_evidence.specs.Certificates.{certificate_lines};
ghost use Rattle.tso_evidence.specs.Refutations.{Refutation, lines_of};
ghost use Rattle.tso_model.specs.Axioms.{IsConsistent};
ghost use Rattle.tso_model.specs.Certs.{Holds};
ghost use Rattle.refutation_check.specs.declared.faults.RefutationFault.{RefutationFault};
ghost use Rattle.refutation_check.specs.Refutations.{RefutationHolds};
ghost use Rattle.refutation_check.specs.Refusals.{IsRefutationRefusal};

/// A refutation that holds for a trace leaves no order of its model.
pub fn holding_refutation_leaves_no_order()
    ensures { (t : TraceValue) (lines : List RefutationLine) → IsTrace t → RefutationHolds t lines → IsConsistent t → ⊥ }
{}

/// A certificate with a cycle holds exactly where its lines hold as a refutation without cases.
pub fn certificate_is_refutation()
    ensures { (t : TraceValue) (steps : List CertStep) (cycle : List ℕ) → Holds t (Cycle steps cycle) ↔ RefutationHolds t (certificate_lines steps cycle) }
{}

/// Lines are those of one refutation at most.
pub fn refutation_is_unique()
    ensures { (r other : Refutation) → lines_of r ≡ lines_of other → r ≡ other }
{}

/// Lines are a refutation that holds or get a refusal, never both, and they get one refusal at most.
pub fn refusals()
    ensures some { (t : TraceValue) (lines : List RefutationLine) → RefutationHolds t lines ⊎ ((fault : RefutationFault) × IsRefutationRefusal t lines fault) }
    ensures one { (t : TraceValue) (lines : List RefutationLine) (fault other : RefutationFault) → IsRefutationRefusal t lines fault →
        IsRefutationRefusal t lines other → fault ≡ other }
    ensures none { (t : TraceValue) (lines : List RefutationLine) (fault : RefutationFault) → RefutationHolds t lines → IsRefutationRefusal t lines fault → ⊥ }
{}
