//! The texts of reports on certificates.
ghost use Rattle.std.specs.Prelude.{◌≡◌, IfOk, string_bytes};
ghost use Rattle.tso_cert.specs.declared.faults.CertificateRefusal.{CertificateRefusal};
ghost use Rattle.tso_model.specs.Axioms.{IsConsistent};
ghost use Rattle.trace_reports.specs.declared.verdicts.Verdict.{Verdict};
ghost use Rattle.trace_judging.specs.Checks.{IsCertReport, certificate_refusal_text, fails_text};

use crate::evidence::EvidenceKind;
use cert_check::{CertFault, check_with_table};
use std::alloc::Global;
use trace_reports::{Report, Verdict};
use tso_cert::{CertificateRefusal, CertificateTextFault, read_cert};
use tso_ops::{OutOfMemory, Trace};

/// Certificates of violations, as evidence.
#[derive(Clone, Copy)]
pub struct Certificates;

impl EvidenceKind for Certificates {
    type Verdict = Verdict;

    ghost is_report = { IsCertReport };

    ghost refusing = { Verdict.Refused };

    ghost says = { λ t verdict. verdict ≡ Verdict.Violation → IsConsistent t → ⊥ };

    fn report(
        &self,
        alloc: Global,
        trace: &Trace,
        input: &[u8],
    ) -> Result<Report<Verdict>, OutOfMemory> {
        // Its clause `kept`, that the trace is within the limits of traces, is what `says` rests on.
        let _events = trace.events();
        match read_cert(alloc, input) {
            Ok(certificate) => match check_with_table(alloc, trace, &certificate)? {
                Ok(()) => Ok(Report {
                    verdict: Verdict::Violation,
                    text: String::from_str(alloc, "CERTIFICATE HOLDS\n")?,
                }),
                Err(fault) => Ok(Report {
                    verdict: Verdict::Refused,
                    text: fails_text(alloc, fault)?,
                }),
            },
            Err(fault) if fault.why == CertificateRefusal::OutOfMemory => Err(OutOfMemory),
            Err(fault) => Ok(Report {
                verdict: Verdict::Refused,
                text: unread_text(alloc, fault)?,
            }),
        }
    }

    fn refusal(&self) -> Verdict {
        Verdict::Refused
    }
}

/// The line of a refused text of a certificate.
fn unread_text(alloc: Global, fault: CertificateTextFault) -> Result<String, OutOfMemory>
    ensures { IfOk result (λ text. string_bytes text ≡ certificate_refusal_text fault.line fault.why) }
{
    let name = fault.why.name();
    let line = fault.line;
    format!(in alloc; "CERTIFICATE REFUSED {name} line {line}\n")
}

/// The line of a certificate that doesn't hold.
fn fails_text(alloc: Global, fault: CertFault) -> Result<String, OutOfMemory>
    ensures { IfOk result (λ text. string_bytes text ≡ fails_text fault) }
{
    match fault {
        CertFault::EventRange => String::from_str(alloc, "CERTIFICATE REFUSED EventRange\n"),
        CertFault::NotUnwritten => String::from_str(alloc, "CERTIFICATE REFUSED NotUnwritten\n"),
        CertFault::BaseRefused(step) => {
            format!(in alloc; "CERTIFICATE REFUSED BaseRefused step {step}\n")
        },
        CertFault::SideRefused(step) => {
            format!(in alloc; "CERTIFICATE REFUSED SideRefused step {step}\n")
        },
        CertFault::PathUnlisted(step) => {
            format!(in alloc; "CERTIFICATE REFUSED PathUnlisted step {step}\n")
        },
        CertFault::CycleUnlisted => String::from_str(alloc, "CERTIFICATE REFUSED CycleUnlisted\n"),
        CertFault::EmptyCycle => String::from_str(alloc, "CERTIFICATE REFUSED EmptyCycle\n"),
    }
}
