//! Of the model and the independent checkers.

use cert_check::{CertFault, check};
use log_order_check::check_log_order;
use log_text::Log;
use order_check::{OrderFault, check_order};
use refutation_check::{RefutationFault, check_refutation};
use std::alloc::{AllocError, Global};
use tso_cert::{BaseRule, Certificate};
use tso_evidence::LineList;
use tso_model::conditions::first_base_rule;
use tso_ops::{OutOfMemory, Trace};
use value_check::{ValueRefusal, ValueRefutationFault, check_value_refutation, check_values};
use value_evidence::{ValueEnd, ValueEvidence, ValueRefutationLine, ValueStep};

/// `tso_model`: the base rule that puts event 1 before event 2.
pub fn rule_of_an_edge(trace: &Trace) -> Option<BaseRule> {
    first_base_rule(trace, 1, 2)
}

/// `cert_check`: whether a certificate holds for a trace.
pub fn check_a_certificate(trace: &Trace, certificate: &Certificate) -> Result<(), CertFault> {
    check(trace, certificate)
}

/// `order_check`: whether an order of four events meets the axioms of a trace's model.
pub fn check_an_order(alloc: Global, trace: &Trace) -> Result<Result<(), OrderFault>, AllocError> {
    let answer = check_order(alloc, trace, &[4, 2, 3, 1])?;
    Ok(answer)
}

/// `log_order_check`: whether an order of four events meets the axioms of a log's model.
pub fn check_an_order_of_a_log(
    alloc: Global,
    log: &Log,
) -> Result<Result<(), OrderFault>, OutOfMemory> {
    let answer = check_log_order(alloc, log, &[1, 3, 2, 4])?;
    Ok(answer)
}

/// `refutation_check`: whether lines are a refutation that holds for a trace.
pub fn check_the_lines_of_a_refutation(
    alloc: Global,
    trace: &Trace,
    lines: &LineList,
) -> Result<Result<(), RefutationFault>, AllocError> {
    let answer = check_refutation(alloc, trace, lines.items())?;
    Ok(answer)
}

/// `value_evidence`: evidence that load 3 can have read nothing, after these steps.
pub fn evidence_of_a_load(steps: Vec<ValueStep>) -> ValueEvidence {
    let end = ValueEnd::NoSource(3);
    let evidence = ValueEvidence { steps, end };
    evidence
}

/// `value_check`: whether evidence shows that a log has no order of its memory model.
pub fn check_evidence_of_a_log(
    alloc: Global,
    log: &Log,
    evidence: ValueEvidence,
) -> Result<Result<(), ValueRefusal>, OutOfMemory> {
    let answer = check_values(alloc, log, &evidence)?;
    Ok(answer)
}

/// `value_check`: whether lines are a refutation by values that holds of a log.
pub fn check_the_lines_by_values(
    alloc: Global,
    log: &Log,
    lines: &[ValueRefutationLine],
) -> Result<Result<(), ValueRefutationFault>, OutOfMemory> {
    let answer = check_value_refutation(alloc, log, lines)?;
    Ok(answer)
}
