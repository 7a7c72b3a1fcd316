ghost use Rattle.std.specs.Prelude.{◌≡◌, ◌≢◌, [], Result, MatchResult, IfOk, IfErr};
ghost use Rattle.line_text.specs.Lines.{parts_of};
ghost use Rattle.line_text.specs.Readings.{read_parts};
ghost use Rattle.tso_evidence.specs.Spelling.{SpellsEvidence, IsEvidenceTextRefusal};
ghost use Rattle.tso_evidence.specs.Internal.LineValues.{line_fault};
ghost use Rattle.tso_evidence.specs.Internal.ReadTexts.{evidence_reading};
ghost use Rattle.tso_cert.specs.declared.faults.CertificateRefusal.{CertificateRefusal};
ghost use Rattle.tso_evidence.specs.declared.faults.EvidenceFault.{EvidenceFault};
ghost use Rattle.tso_evidence.specs.declared.evidence.Evidence.{Evidence};

use crate::evidence::Evidence;
use crate::faults::{EvidenceFault, EvidenceTextFault};
use crate::lines::{Line, number_after, read_line};
use crate::refutations::LineList;
use line_text::{at_end, next_line};
use std::alloc::Global;
use tso_cert::CertificateRefusal;

/// Reads the text of evidence.
///
/// Refused: the least line that has a fault, and there the fault of the least number; or OutOfMemory where an allocation
/// was refused.
pub fn read_evidence(alloc: Global, text: &[u8]) -> Result<Evidence, EvidenceTextFault>
    ensures found { IfOk result (SpellsEvidence text.now) }
    ensures only { (e : Evidence) → SpellsEvidence text.now e → MatchResult result (λ d. d ≡ e) (λ fault. fault.why ≡ EvidenceFault.OutOfMemory) }
    ensures refused { IfErr result (λ fault. fault.why ≢ EvidenceFault.OutOfMemory → IsEvidenceTextRefusal text.now fault.line fault.why) }
    ensures memory { IfErr result (λ fault. fault.why ≡ EvidenceFault.OutOfMemory → fault.line ≡ 0) }
{
    read(alloc, text)
}

/// The evidence that a text spells, or its refusal.
fn read(alloc: Global, text: &[u8]) -> Result<Evidence, EvidenceTextFault>
    ensures found { IfOk result (λ e. read_parts evidence_reading [] (parts_of text.now) ≡ Result.Ok e) }
    ensures refused { IfErr result (λ fault. fault.why ≢ EvidenceFault.OutOfMemory →
        read_parts evidence_reading [] (parts_of text.now) ≡ Result.Err (fault.line, fault.why)) }
    ensures memory { IfErr result (λ fault. fault.why ≡ EvidenceFault.OutOfMemory → fault.line ≡ 0) }
{
    let mut lines = Vec::new(alloc);
    let mut rest = text;
    let mut line: usize = 1;
    let mut number: usize = 1;
    'lines: loop {
        let Some((bytes, after)) = next_line(rest) else {
            let lines = LineList::new(lines);
            return at_end(
                Evidence::Refutation(lines),
                rest,
                fault_of(line, CertificateRefusal::BadLine),
            );
        };
        let said = match read_line(alloc, line, number, bytes) {
            Ok(said) => said,
            Err(why) => return Err(fault_of(line, why)),
        };
        rest = after;
        line += 1;
        let why = EvidenceFault::AfterEnd;
        let refusal = EvidenceTextFault { line, why };
        match said {
            Line::Refuting(refuting) => {
                number = number_after(number, &refuting);
                match lines.push(refuting) {
                    Ok(()) => {}
                    Err(_) => return Err(fault_of(line, CertificateRefusal::OutOfMemory)),
                }
            }
            Line::Unwritten(n) => return at_end(Evidence::Unwritten(n), rest, refusal),
            Line::Order(numbers) => return at_end(Evidence::Order(numbers), rest, refusal),
        }
    }
}

/// The refusal at this line, but for OutOfMemory, which is of the whole text.
fn fault_of(line: usize, why: CertificateRefusal) -> EvidenceTextFault
    ensures why { result.why ≡ line_fault why }
    ensures line { why ≢ CertificateRefusal.OutOfMemory → result.line ≡ line }
    ensures memory { why ≡ CertificateRefusal.OutOfMemory → result.line ≡ 0 }
{
    let (line, why) = match why {
        CertificateRefusal::OutOfMemory => (0, EvidenceFault::OutOfMemory),
        CertificateRefusal::BadNumber => (line, EvidenceFault::BadNumber),
        CertificateRefusal::BadRule => (line, EvidenceFault::BadRule),
        // The last two are faults of whole certificates, and of no line.
        CertificateRefusal::BadLine
        | CertificateRefusal::NoCycle
        | CertificateRefusal::AfterCycle => (line, EvidenceFault::BadLine),
    };
    EvidenceTextFault { line, why }
}
