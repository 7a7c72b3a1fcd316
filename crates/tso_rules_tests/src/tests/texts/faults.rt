//! The names of faults, and an STBAR that is refused.

use std::alloc::{AllocError, Global};
use std::test::Fail;
use traces_for_tests::expect_equal;
use tso_evidence::EvidenceFault;
use tso_ops::{Op, Outcome, Refused, RefusedFirst, Trace, ValueFault};
use tso_text::Why;

/// Faults of texts, of certificates and of evidence, with their names.
static TEXT_FAULTS: [(Why, &str); 19] = [
    (Why::BadHeader, "BadHeader"),
    (Why::BadLine, "BadLine"),
    (Why::BadNumber, "BadNumber"),
    (Why::BeforeProc, "BeforeProc"),
    (Why::TooManyProcessors, "TooManyProcessors"),
    (Why::TooManyEvents, "TooManyEvents"),
    (Why::AddressRange, "AddressRange"),
    (Why::ZeroValue, "ZeroValue"),
    (Why::RepeatedValue, "RepeatedValue"),
    (Why::MissingEnd, "MissingEnd"),
    (Why::AfterEnd, "AfterEnd"),
    (Why::TooLong, "TooLong"),
    (Why::ProcessorRange, "ProcessorRange"),
    (Why::OutOfMemory, "OutOfMemory"),
    (Why::BadModel, "BadModel"),
    (Why::InitOrder, "InitOrder"),
    (Why::MixedWidths, "MixedWidths"),
    (Why::TooManyWaiting, "TooManyWaiting"),
    (Why::Widths, "Widths"),
];

static CERTIFICATE_FAULTS: [(tso_cert::CertificateRefusal, &str); 6] = [
    (tso_cert::CertificateRefusal::BadLine, "BadLine"),
    (tso_cert::CertificateRefusal::BadNumber, "BadNumber"),
    (tso_cert::CertificateRefusal::BadRule, "BadRule"),
    (tso_cert::CertificateRefusal::NoCycle, "NoCycle"),
    (tso_cert::CertificateRefusal::AfterCycle, "AfterCycle"),
    (tso_cert::CertificateRefusal::OutOfMemory, "OutOfMemory"),
];

static EVIDENCE_FAULTS: [(EvidenceFault, &str); 5] = [
    (EvidenceFault::BadLine, "BadLine"),
    (EvidenceFault::BadNumber, "BadNumber"),
    (EvidenceFault::BadRule, "BadRule"),
    (EvidenceFault::AfterEnd, "AfterEnd"),
    (EvidenceFault::OutOfMemory, "OutOfMemory"),
];

/// Compares the texts of faults.
fn expect_names<T: Copy + std::fmt::Display>(
    alloc: Global,
    names: &[(T, &str)],
) -> Result<(), Fail> {
    for (fault, name) in names {
        let text = format!(in alloc; "{fault}")?;
        expect_equal(name, text.as_str(), *name)?;
    }
    Ok(())
}

#[test]
fn names_of_faults(rt: HostRuntime) -> Result<(), Fail> {
    expect_names(rt.alloc(), &TEXT_FAULTS)?;
    expect_names(rt.alloc(), &CERTIFICATE_FAULTS)?;
    expect_names(rt.alloc(), &EVIDENCE_FAULTS)
}

/// Faults of values, and their texts, which are also those of refusals.
static VALUE_FAULTS: [(ValueFault, &str); 8] = [
    (
        ValueFault::TooManyProcessors,
        "TooManyProcessors TooManyProcessors TooManyProcessors",
    ),
    (
        ValueFault::TooManyEvents,
        "TooManyEvents TooManyEvents TooManyEvents",
    ),
    (
        ValueFault::AddressRange,
        "AddressRange AddressRange AddressRange",
    ),
    (ValueFault::ZeroValue, "ZeroValue ZeroValue ZeroValue"),
    (
        ValueFault::RepeatedValue,
        "RepeatedValue RepeatedValue RepeatedValue",
    ),
    (
        ValueFault::OutOfMemory,
        "OutOfMemory OutOfMemory OutOfMemory",
    ),
    (ValueFault::StbarInTso, "StbarInTso StbarInTso StbarInTso"),
    (ValueFault::InitOrder, "InitOrder InitOrder InitOrder"),
];

/// The text of a fault, and those of both refusals for it.
fn texts_of(alloc: Global, why: ValueFault) -> Result<String, AllocError> {
    let refused = Refused::<Op> {
        why,
        lists: Vec::new(alloc),
    };
    let refused_first = RefusedFirst::<Op> {
        why,
        first: Vec::new(alloc),
        lists: Vec::new(alloc),
    };
    format!(in alloc; "{why} {refused} {refused_first}")
}

#[test]
fn texts_of_faults_of_values(rt: HostRuntime) -> Result<(), Fail> {
    for (why, texts) in &VALUE_FAULTS {
        let found = texts_of(rt.alloc(), *why)?;
        expect_equal(*texts, found.as_str(), *texts)?;
    }
    Ok(())
}

/// The lists of one processor that did an STBAR.
fn stbar_alone(alloc: Global) -> Result<Vec<Vec<Outcome>>, AllocError> {
    let mut lists = Vec::new(alloc);
    lists.push(vec![in alloc; Outcome::Sb; 1]?)?;
    Ok(lists)
}

/// The lists are handed back.
#[test]
fn stbar_is_refused_under_tso(rt: HostRuntime) -> Result<(), Fail> {
    let lists = stbar_alone(rt.alloc())?;
    let found = match Trace::new(rt.alloc(), lists) {
        Ok(_) => None,
        Err(refused) => Some((refused.why, refused.lists.len())),
    };
    expect_equal("refused", found, Some((ValueFault::StbarInTso, 1)))
}
