//! The way of a log and evidence about it: read and parse the one, then the other, check, render, write.
ghost use Rattle.std.specs.Prelude.{◌≡◌, ◌≢◌, ◌⊎◌, string_bytes, IfSome, IfOk, IfErr};
ghost use Rattle.std.specs.Io.KnownBytes.{Consumes};
ghost use Rattle.text_streams.specs.Streams.{LosesPrefix};
ghost use Rattle.text_streams.specs.WrittenTexts.{LeavesAtFault, WritesWhole};
ghost use Rattle.text_streams.specs.declared.faults.Fault.{Fault};
ghost use Rattle.tso_model.specs.Axioms.{IsConsistent};
ghost use Rattle.log_text.specs.LogTexts.{SpellsLog};
ghost use Rattle.log_text.specs.LogValues.{NumberedLog, log_operations};
ghost use Rattle.trace_judging.specs.Limits.{certificate_read_limit};
ghost use Rattle.trace_reports.specs.declared.answers.Answer.{Answer};
ghost use Rattle.log_evidence.specs.LogChecks.{IsLogCheckOfReader, IsLogCheckOfReaders, IsRefusedLog};

use crate::lines::line_on_text;
use log_text::read_log;
use std::alloc::Global;
use std::io::{Read, Write};
use text_streams::{Fault, read_all, write_text};
use trace_judging::read_evidence_text;
use trace_reports::{Answer, AsReport, Report, render_refused};

/// Checks evidence about a log: reads the text of the log, then that of the evidence, and writes the line that says whether it holds.
///
/// The answer is Clear where it is an order that holds, which the log then has; Violation where it is a refutation that holds, which
/// leaves the log no order of its memory model; else Refused. The evidence speaks of the log as `read_idle_swaps` reads it, and names
/// events by lines of the log. The log needs no line `end`. A first text
/// that is no log is reported by its refusal, and the evidence isn't read then. The log is read to its end; at most 67,108,865 bytes
/// of the evidence are read. Faults: OutOfMemory where an allocation was refused, or the log has 2^32 loads and stores or more; Read
/// where a reader failed, didn't show its end within 2,097,152 calls of `read`, or has evidence of more than 67,108,864 bytes; with
/// each nothing was written. Write where the writer failed, took no byte or was interrupted more than 1,048,576 times: then what was
/// written is a prefix of the line.
pub fn check_log_evidence<L: Read, E: Read, W: Write>(
    alloc: Global,
    logs: &mut L,
    evidence: &mut E,
    writer: &mut W,
) -> Result<Answer, Fault>
    ensures report { IfOk result (WritesWhole (IsLogCheckOfReaders (L.remaining logs.old) (E.remaining evidence.old)) (W.contents writer.old)
        (W.contents writer.new)) }
    ensures no_order { IfOk result (λ answer. answer ≡ Answer.Violation →
        IfSome (L.remaining logs.old) (λ all. (log : NumberedLog) → SpellsLog all log → IsConsistent (log_operations log) → ⊥)) }
    ensures order { IfOk result (λ answer. answer ≡ Answer.Clear →
        IfSome (L.remaining logs.old) (λ all. (log : NumberedLog) → SpellsLog all log → IsConsistent (log_operations log))) }
    ensures taken { IfOk result (λ _. IfSome (L.remaining logs.old) (λ all. Consumes (L.remaining logs.old) (L.remaining logs.new) all)) }
    ensures taken_after { IfOk result (λ _. evidence.new ≡ evidence.old ⊎
        LosesPrefix certificate_read_limit (E.remaining evidence.old) (E.remaining evidence.new)) }
    ensures unread { IfSome (L.remaining logs.old) (λ bytes. IsRefusedLog bytes → evidence.new ≡ evidence.old) }
    ensures fault { IfErr result (LeavesAtFault (IsLogCheckOfReaders (L.remaining logs.old) (E.remaining evidence.old)) (W.contents writer.old)
        (W.contents writer.new)) }
    ensures no_thread { IfErr result (λ fault. fault ≢ Fault.NoThread) }
{
    let report = report_readers(alloc, logs, evidence)?;
    write_text(writer, report.text.as_bytes())?;
    Ok(report.verdict)
}

/// The report on what two readers have.
fn report_readers<L: Read, E: Read>(
    alloc: Global,
    logs: &mut L,
    evidence: &mut E,
) -> Result<Report<Answer>, Fault>
    ensures report { IfOk result (λ report. IsLogCheckOfReaders (L.remaining logs.old) (E.remaining evidence.old) (string_bytes report.text) report.verdict) }
    ensures taken { IfOk result (λ _. IfSome (L.remaining logs.old) (λ all. Consumes (L.remaining logs.old) (L.remaining logs.new) all)) }
    ensures taken_after { IfOk result (λ _. evidence.new ≡ evidence.old ⊎
        LosesPrefix certificate_read_limit (E.remaining evidence.old) (E.remaining evidence.new)) }
    ensures unread { IfSome (L.remaining logs.old) (λ bytes. IsRefusedLog bytes → evidence.new ≡ evidence.old) }
    ensures fault { IfErr result (λ fault. (fault ≡ Fault.OutOfMemory) ⊎ (fault ≡ Fault.Read)) }
{
    let input = read_all(alloc, logs, usize::MAX)?;
    report_log_evidence(alloc, &input, evidence)
}

/// The report on the evidence that a reader has, about the log that a text spells; or that of the text's refusal, and then
/// the evidence isn't read. At most 67,108,865 bytes of the evidence are read.
///
/// Faults: OutOfMemory where an allocation was refused, or the log has 2^32 loads and stores or more; Read where the reader failed or
/// passed 2,097,152 calls, or the text of the evidence has more than 67,108,864 bytes.
pub fn report_log_evidence<E: Read>(
    alloc: Global,
    input: &[u8],
    evidence: &mut E,
) -> Result<Report<Answer>, Fault>
    ensures report { IfOk result (λ report. IsLogCheckOfReader (E.remaining evidence.old) input.now (string_bytes report.text) report.verdict) }
    ensures taken { IfOk result (λ _. evidence.new ≡ evidence.old ⊎ LosesPrefix certificate_read_limit (E.remaining evidence.old) (E.remaining evidence.new)) }
    ensures unread { IsRefusedLog input.now → evidence.new ≡ evidence.old }
    ensures fault { IfErr result (λ fault. (fault ≡ Fault.OutOfMemory) ⊎ (fault ≡ Fault.Read)) }
{
    match read_log(alloc, input, false) {
        Ok(log) => {
            let text = read_evidence_text(alloc, evidence)?;
            Ok(line_on_text(alloc, &log, &text)?)
        }
        Err(fault) => Ok(render_refused(alloc, input, fault, &AsReport, Answer::Refused)?),
    }
}
