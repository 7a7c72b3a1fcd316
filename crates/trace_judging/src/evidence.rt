//! The way of a trace and evidence about it: read and parse the one, then the other, check, render, write.
ghost use Rattle.std.specs.Prelude.{◌≡◌, ◌≢◌, ◌⊎◌, ◌≤◌, length, take, string_bytes, IfSome, IfOk, IfErr};
ghost use Rattle.tso_ops.specs.Values.{TraceValue};
ghost use Rattle.tso_text.specs.Refusals.{IsRefusedTrace};
ghost use Rattle.tso_text.specs.Texts.{SpellsTrace};
ghost use Rattle.trace_streams.specs.Limits.{trace_read_limit};
ghost use Rattle.text_streams.specs.declared.faults.Fault.{Fault};
ghost use Rattle.trace_judging.specs.Evidence.{IsReportOfEvidence, IsReportOfReaders, ReportsEvidence};
ghost use Rattle.trace_judging.specs.Limits.{certificate_byte_limit, certificate_read_limit};
ghost use Rattle.text_streams.specs.Streams.{LosesPrefix};
ghost use Rattle.text_streams.specs.WrittenTexts.{LeavesAtFault, WritesWhole};

use std::alloc::Global;
use std::io::{Read, Write};
use text_streams::{Fault, read_all, write_text};
use trace_reports::{AsReport, Report, render_refused};
use tso_ops::{OutOfMemory, Trace};
use tso_text::{MAX_TEXT_BYTES, read_trace};

/// The greatest number of bytes of the text of a certificate, and of other evidence.
pub const MAX_CERTIFICATE_BYTES: usize = 67_108_864;

/// A kind of evidence about traces, as certificates are: how a text of it is checked, and what is said of it.
pub trait EvidenceKind {
    /// What a report says.
    type Verdict: Drop;

    /// What is the report of a text of this kind on a trace.
    ghost is_report: { ReportsEvidence Self.Verdict };

    /// What is said where the first text is no trace.
    ghost refusing: { Self.Verdict };

    /// What a verdict says of a trace.
    ghost says: { TraceValue → Self.Verdict → Type 0 };

    /// The report of a text of this kind on a trace. OutOfMemory where an allocation was refused.
    fn report(
        &self,
        alloc: Global,
        trace: &Trace,
        input: &[u8],
    ) -> Result<Report<Self::Verdict>, OutOfMemory>
        ensures report { IfOk result (λ report. is_report trace.now input.now (string_bytes report.text) report.verdict) }
        ensures says { IfOk result (λ report. says trace.now report.verdict) };

    /// What is said where the first text is no trace.
    fn refusal(&self) -> Self::Verdict
        ensures { result ≡ refusing };
}

/// Checks evidence of a kind against a trace: reads the text of the trace, then that of the evidence, builds the whole report of
/// both, and then writes it.
///
/// A first text that is no trace is reported by its refusal, and the evidence isn't read then. At most 1,048,577 bytes of the trace
/// are read and 67,108,865 of the evidence. Faults: OutOfMemory where an allocation was refused; Read where a reader failed or
/// passed 2,097,152 calls, or the text of the evidence has more than 67,108,864 bytes; with each nothing was written. Write where
/// the writer failed, took no byte or was interrupted more than 1,048,576 times: then what was written is a prefix of the report.
pub fn check_evidence<T: Read, E: Read, W: Write, K: EvidenceKind>(
    alloc: Global,
    kind: &K,
    traces: &mut T,
    evidence: &mut E,
    writer: &mut W,
) -> Result<K::Verdict, Fault>
    ensures report { IfOk result (WritesWhole (IsReportOfReaders K.is_report K.refusing (T.remaining traces.old) (E.remaining evidence.old))
        (W.contents writer.old) (W.contents writer.new)) }
    ensures says { IfOk result (λ verdict. IfSome (T.remaining traces.old) (λ all. (t : TraceValue) → SpellsTrace all t → K.says t verdict)) }
    ensures taken { IfOk result (λ _. LosesPrefix trace_read_limit (T.remaining traces.old) (T.remaining traces.new)) }
    ensures taken_after { IfOk result (λ _. evidence.new ≡ evidence.old ⊎
        LosesPrefix certificate_read_limit (E.remaining evidence.old) (E.remaining evidence.new)) }
    ensures unread { IfSome (T.remaining traces.old) (λ trace. IsRefusedTrace trace → evidence.new ≡ evidence.old) }
    ensures fault { IfErr result (LeavesAtFault (IsReportOfReaders K.is_report K.refusing (T.remaining traces.old) (E.remaining evidence.old))
        (W.contents writer.old) (W.contents writer.new)) }
    ensures no_thread { IfErr result (λ fault. fault ≢ Fault.NoThread) }
{
    let report = report_texts(alloc, kind, traces, evidence)?;
    write_text(writer, report.text.as_bytes())?;
    Ok(report.verdict)
}

/// The report of what two readers have.
fn report_texts<T: Read, E: Read, K: EvidenceKind>(
    alloc: Global,
    kind: &K,
    traces: &mut T,
    evidence: &mut E,
) -> Result<Report<K::Verdict>, Fault>
    ensures report { IfOk result (λ report. IsReportOfReaders K.is_report K.refusing (T.remaining traces.old) (E.remaining evidence.old)
        (string_bytes report.text) report.verdict) }
    ensures says { IfOk result (λ report. IfSome (T.remaining traces.old) (λ all. (t : TraceValue) → SpellsTrace all t → K.says t report.verdict)) }
    ensures taken { IfOk result (λ _. LosesPrefix trace_read_limit (T.remaining traces.old) (T.remaining traces.new)) }
    ensures taken_after { IfOk result (λ _. evidence.new ≡ evidence.old ⊎
        LosesPrefix certificate_read_limit (E.remaining evidence.old) (E.remaining evidence.new)) }
    ensures unread { IfSome (T.remaining traces.old) (λ trace. IsRefusedTrace trace → evidence.new ≡ evidence.old) }
    ensures fault { IfErr result (λ fault. (fault ≡ Fault.OutOfMemory) ⊎ (fault ≡ Fault.Read)) }
{
    let input = read_all(alloc, traces, MAX_TEXT_BYTES)?;
    report_text(alloc, kind, &input, evidence)
}

/// The report of the evidence that a reader has, on the trace that a text spells; or that of the text's refusal, and then the
/// evidence isn't read. Of the evidence at most 67,108,865 bytes are read.
///
/// Faults: OutOfMemory where an allocation was refused; Read where the reader failed or passed 2,097,152 calls, or the text of the
/// evidence has more than 67,108,864 bytes.
pub fn report_text<E: Read, K: EvidenceKind>(
    alloc: Global,
    kind: &K,
    input: &[u8],
    evidence: &mut E,
) -> Result<Report<K::Verdict>, Fault>
    ensures report { IfOk result (λ report. IsReportOfEvidence K.is_report K.refusing (E.remaining evidence.old) input.now
        (string_bytes report.text) report.verdict) }
    ensures says { IfOk result (λ report. (t : TraceValue) → SpellsTrace input.now t → K.says t report.verdict) }
    ensures taken { IfOk result (λ _. evidence.new ≡ evidence.old ⊎ LosesPrefix certificate_read_limit (E.remaining evidence.old) (E.remaining evidence.new)) }
    ensures unread { IsRefusedTrace input.now → evidence.new ≡ evidence.old }
    ensures fault { IfErr result (λ fault. (fault ≡ Fault.OutOfMemory) ⊎ (fault ≡ Fault.Read)) }
{
    match read_trace(alloc, input) {
        Ok(trace) => {
            let text = read_evidence_text(alloc, evidence)?;
            Ok(kind.report(alloc, &trace, &text)?)
        }
        Err(fault) => {
            let refusing = kind.refusal();
            Ok(render_refused(alloc, input, fault, &AsReport, refusing)?)
        }
    }
}

/// All bytes of a reader, which are no more than the text of a certificate may have, or other evidence. Faults: OutOfMemory where
/// an allocation was refused; Read where the reader failed or passed 2,097,152 calls, or has more than 67,108,864 bytes.
pub fn read_evidence_text<C: Read>(alloc: Global, reader: &mut C) -> Result<Vec<u8>, Fault>
    ensures prefix { IfOk result (λ bytes. IfSome (C.remaining reader.old) (λ all. bytes.items ≡ take certificate_read_limit all)) }
    ensures taken { IfOk result (λ _. LosesPrefix certificate_read_limit (C.remaining reader.old) (C.remaining reader.new)) }
    ensures within { IfOk result (λ bytes. length bytes.items ≤ certificate_byte_limit) }
    ensures fault { IfErr result (λ fault. (fault ≡ Fault.OutOfMemory) ⊎ (fault ≡ Fault.Read)) }
{
    let input = read_all(alloc, reader, MAX_CERTIFICATE_BYTES)?;
    if input.len() > MAX_CERTIFICATE_BYTES {
        return Err(Fault::Read);
    }
    Ok(input)
}
