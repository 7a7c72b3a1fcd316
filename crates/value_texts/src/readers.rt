ghost use Rattle.std.specs.Prelude.{◌≡◌, ◌≢◌, [], List, MatchResult, Result, IfOk, IfErr};
ghost use Rattle.line_text.specs.Lines.{parts_of};
ghost use Rattle.line_text.specs.Readings.{read_parts};
ghost use Rattle.value_texts.specs.Printed.{LogEvidenceValue, log_evidence_value};
ghost use Rattle.value_texts.specs.Spelling.{SpellsLogEvidence, IsValueTextRefusal};
ghost use Rattle.value_texts.specs.Internal.ReadTexts.{evidence_reading};
ghost use Rattle.value_texts.specs.declared.refusals.ValueTextRefusal.{ValueTextRefusal};

use crate::lines::{Line, read_line};
use crate::names::EventName;
use crate::refusals::{ValueTextFault, ValueTextRefusal};
use crate::tables::NumberedNames;
use line_text::{at_end, next_line};
use std::alloc::Global;
use value_evidence::LogEvidence;

/// Reads the text of evidence about a log, whose events have these names. An empty text is a refutation without lines.
///
/// Refused: the first line that has a fault, and its fault; or OutOfMemory where an allocation was refused.
pub fn read_log_evidence(
    alloc: Global,
    names: &[EventName],
    text: &[u8],
) -> Result<LogEvidence, ValueTextFault>
    ensures found { IfOk result (λ e. SpellsLogEvidence names.now text.now (log_evidence_value e)) }
    ensures only { (e : LogEvidenceValue) → SpellsLogEvidence names.now text.now e →
        MatchResult result (λ d. log_evidence_value d ≡ e) (λ fault. fault.why ≡ ValueTextRefusal.OutOfMemory) }
    ensures refused { IfErr result (λ fault. fault.why ≢ ValueTextRefusal.OutOfMemory → IsValueTextRefusal names.now text.now fault.line fault.why) }
    ensures memory { IfErr result (λ fault. fault.why ≡ ValueTextRefusal.OutOfMemory → fault.line ≡ 0) }
{
    match NumberedNames::new(alloc, names) {
        Ok(numbered) => read(alloc, &numbered, text),
        Err(_) => Err(fault_of(0, ValueTextRefusal::OutOfMemory)),
    }
}

/// The evidence that a text spells, or its refusal.
fn read(
    alloc: Global,
    names: &NumberedNames<'_>,
    text: &[u8],
) -> Result<LogEvidence, ValueTextFault>
    ensures found { IfOk result (λ e. read_parts (evidence_reading names.now) [] (parts_of text.now) ≡ Result.Ok (log_evidence_value e)) }
    ensures refused { IfErr result (λ fault. fault.why ≢ ValueTextRefusal.OutOfMemory →
        read_parts (evidence_reading names.now) [] (parts_of text.now) ≡ Result.Err (fault.line, fault.why)) }
    ensures memory { IfErr result (λ fault. fault.why ≡ ValueTextRefusal.OutOfMemory → fault.line ≡ 0) }
{
    let mut lines = Vec::new(alloc);
    let mut rest = text;
    let mut number: usize = 1;
    'lines: loop {
        let Some((line, after)) = next_line(rest) else {
            let refusal = fault_of(number, ValueTextRefusal::BadLine);
            return at_end(LogEvidence::Refutation(lines), rest, refusal);
        };
        let said = match read_line(alloc, names, number, line) {
            Ok(said) => said,
            Err(why) => return Err(fault_of(number, why)),
        };
        rest = after;
        number += 1;
        match said {
            Line::Refuting(refuting) => match lines.push(refuting) {
                Ok(()) => {}
                Err(_) => return Err(fault_of(number, ValueTextRefusal::OutOfMemory)),
            },
            Line::Order(numbers) => {
                let refusal = fault_of(number, ValueTextRefusal::AfterEnd);
                return at_end(LogEvidence::Order(numbers), rest, refusal);
            }
        }
    }
}

/// The refusal at this line, but for OutOfMemory, which is of the whole text.
fn fault_of(line: usize, why: ValueTextRefusal) -> ValueTextFault
    ensures why { result.why ≡ why }
    ensures line { why ≢ ValueTextRefusal.OutOfMemory → result.line ≡ line }
    ensures memory { why ≡ ValueTextRefusal.OutOfMemory → result.line ≡ 0 }
{
    match why {
        ValueTextRefusal::OutOfMemory => ValueTextFault { line: 0, why },
        _ => ValueTextFault { line, why },
    }
}
