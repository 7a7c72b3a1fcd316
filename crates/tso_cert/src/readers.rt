ghost use Rattle.std.specs.Prelude.{◌≡◌, ◌≢◌, [], Result, MatchResult, IfOk, IfErr};
ghost use Rattle.line_text.specs.Lines.{parts_of};
ghost use Rattle.line_text.specs.Readings.{read_parts};
ghost use Rattle.tso_cert.specs.Spelling.{SpellsCertificate, IsCertTextRefusal};
ghost use Rattle.tso_cert.specs.Internal.ReadTexts.{cert_reading, unended_cert_fault};
ghost use Rattle.tso_cert.specs.declared.faults.CertificateRefusal.{CertificateRefusal};
ghost use Rattle.tso_cert.specs.declared.steps.Certificate.{Certificate};

use crate::faults::{CertificateRefusal, CertificateTextFault};
use crate::lines::{Line, read_line};
use crate::steps::{Certificate, StepList};
use line_text::{at_end, next_line};
use std::alloc::Global;

/// Reads the text of a certificate.
///
/// Refused: the least line that has a fault, and there the fault of the least number; or OutOfMemory where an allocation
/// was refused.
pub fn read_cert(alloc: Global, text: &[u8]) -> Result<Certificate, CertificateTextFault>
    ensures found { IfOk result (SpellsCertificate text.now) }
    ensures only { (c : Certificate) → SpellsCertificate text.now c → MatchResult result (λ d. d ≡ c) (λ fault. fault.why ≡ CertificateRefusal.OutOfMemory) }
    ensures refused { IfErr result (λ fault. fault.why ≢ CertificateRefusal.OutOfMemory → IsCertTextRefusal text.now fault.line fault.why) }
    ensures memory { IfErr result (λ fault. fault.why ≡ CertificateRefusal.OutOfMemory → fault.line ≡ 0) }
{
    read(alloc, text)
}

/// The certificate that a text spells, or its refusal.
fn read(alloc: Global, text: &[u8]) -> Result<Certificate, CertificateTextFault>
    ensures found { IfOk result (λ c. read_parts cert_reading [] (parts_of text.now) ≡ Result.Ok c) }
    ensures refused { IfErr result (λ fault. fault.why ≢ CertificateRefusal.OutOfMemory →
        read_parts cert_reading [] (parts_of text.now) ≡ Result.Err (fault.line, fault.why)) }
    ensures memory { IfErr result (λ fault. fault.why ≡ CertificateRefusal.OutOfMemory → fault.line ≡ 0) }
{
    let mut steps = Vec::new(alloc);
    let mut rest = text;
    let mut number: usize = 1;
    'lines: loop {
        let Some((line, after)) = next_line(rest) else {
            return Err(fault_of(number, unended(rest)));
        };
        let said = match read_line(alloc, number, line) {
            Ok(said) => said,
            Err(why) => return Err(fault_of(number, why)),
        };
        rest = after;
        number += 1;
        let why = CertificateRefusal::AfterCycle;
        let refusal = CertificateTextFault { line: number, why };
        match said {
            Line::Step(step) => match steps.push(step) {
                Ok(()) => {}
                Err(_) => return Err(fault_of(number, CertificateRefusal::OutOfMemory)),
            },
            Line::Cycle(cycle) => {
                let steps = StepList::new(steps);
                return at_end(Certificate::Cycle { steps, cycle }, rest, refusal);
            }
            Line::Unwritten(n) => return at_end(Certificate::Unwritten(n), rest, refusal),
        }
    }
}

/// What stands after the last line end, where no last line came.
fn unended(part: &[u8]) -> CertificateRefusal
    ensures { result ≡ unended_cert_fault part.now }
{
    if part.is_empty() {
        CertificateRefusal::NoCycle
    } else {
        CertificateRefusal::BadLine
    }
}

/// The refusal at this line, but for OutOfMemory, which is of the whole text.
fn fault_of(line: usize, why: CertificateRefusal) -> CertificateTextFault
    ensures why { result.why ≡ why }
    ensures line { why ≢ CertificateRefusal.OutOfMemory → result.line ≡ line }
    ensures memory { why ≡ CertificateRefusal.OutOfMemory → result.line ≡ 0 }
{
    match why {
        CertificateRefusal::OutOfMemory => CertificateTextFault { line: 0, why },
        _ => CertificateTextFault { line, why },
    }
}
