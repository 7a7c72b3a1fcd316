//! Evidence and refutations that hold leave no order, and evidence is a refutation without cases.

ghost use Rattle.std.specs.Prelude.{◌↔◌, List};
ghost use Rattle.tso_ops.specs.Values.{TraceValue};
ghost use Rattle.tso_model.specs.Axioms.{IsConsistent};
ghost use Rattle.value_evidence.specs.declared.steps.ValueEvidence.{ValueEvidence};
ghost use Rattle.value_evidence.specs.declared.refutations.ValueRefutationLine.{ValueRefutationLine};
ghost use Rattle.value_evidence.specs.Evidence.{EvidenceHolds};
ghost use Rattle.value_evidence.specs.Refutations.{ValueRefutationHolds, evidence_lines};

/// Where evidence holds of operations, whatever their number, addresses and values, they have no order of their memory model.
pub fn evidence_leaves_no_order()
    ensures { (t : TraceValue) (evidence : ValueEvidence) → EvidenceHolds t evidence → IsConsistent t → ⊥ }
{}

/// Where a refutation by values holds of operations, whatever their number, addresses and values, they have no order of their memory
/// model.
pub fn refutation_by_values_leaves_no_order()
    ensures { (t : TraceValue) (lines : List ValueRefutationLine) → ValueRefutationHolds t lines → IsConsistent t → ⊥ }
{}

/// Evidence holds exactly where its lines hold as a refutation without cases.
pub fn evidence_is_refutation()
    ensures holds { (t : TraceValue) (e : ValueEvidence) → EvidenceHolds t e → ValueRefutationHolds t (evidence_lines e.steps.items e.end) }
    ensures only { (t : TraceValue) (e : ValueEvidence) → ValueRefutationHolds t (evidence_lines e.steps.items e.end) → EvidenceHolds t e }
{}
