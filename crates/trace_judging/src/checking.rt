//! The check of a certificate's text against a trace's.
ghost use Rattle.std.specs.Prelude.{◌≡◌, ◌≢◌, ◌⊎◌, ◌↔◌, IfSome, IfOk, IfErr};
ghost use Rattle.tso_ops.specs.Values.{TraceValue};
ghost use Rattle.tso_text.specs.Refusals.{IsRefusedTrace};
ghost use Rattle.tso_text.specs.Texts.{SpellsTrace};
ghost use Rattle.trace_streams.specs.Limits.{trace_read_limit};
ghost use Rattle.tso_model.specs.Axioms.{IsConsistent};
ghost use Rattle.text_streams.specs.declared.faults.Fault.{Fault};
ghost use Rattle.trace_reports.specs.declared.verdicts.Verdict.{Verdict};
ghost use Rattle.trace_judging.specs.Checks.{SpellHolding};
ghost use Rattle.trace_judging.specs.Limits.{certificate_read_limit};
ghost use Rattle.text_streams.specs.Streams.{LosesPrefix};
ghost use Rattle.trace_judging.specs.WrittenReports.{IsCheckReportOfReaders};
ghost use Rattle.text_streams.specs.WrittenTexts.{LeavesAtFault, WritesWhole};

use crate::cert_rendering::Certificates;
use crate::evidence::check_evidence;
use std::alloc::Global;
use std::io::{Read, Write};
use text_streams::Fault;
use trace_reports::Verdict;

/// Checks a certificate against a trace: reads the text of the trace, then that of the certificate, builds the whole
/// report of both, and then writes it.
///
/// The verdict is Violation where the certificate holds, which leaves the trace no order of its model, else Refused. A first
/// text that is no trace is reported by its refusal, and the certificate isn't read then. At most 1,048,577 bytes of
/// the trace are read and 67,108,865 of the certificate. Faults: OutOfMemory where an allocation was refused; Read
/// where a reader failed or passed 2,097,152 calls, or the text of the certificate has more than 67,108,864 bytes; with
/// each nothing was written. Write where the writer failed, took no byte or was interrupted more than 1,048,576 times:
/// then what was written is a prefix of the report.
pub fn check_texts<T: Read, C: Read, W: Write>(
    alloc: Global,
    trace_reader: &mut T,
    cert_reader: &mut C,
    writer: &mut W,
) -> Result<Verdict, Fault>
    ensures report { IfOk result (WritesWhole (IsCheckReportOfReaders (T.remaining trace_reader.old) (C.remaining cert_reader.old)) (W.contents writer.old)
        (W.contents writer.new)) }
    ensures violation { IfOk result (λ verdict. IfSome (T.remaining trace_reader.old)
        (λ trace. IfSome (C.remaining cert_reader.old) (λ cert. (verdict ≡ Verdict.Violation) ↔ SpellHolding trace cert))) }
    ensures otherwise { IfOk result (λ verdict. (verdict ≡ Verdict.Violation) ⊎ (verdict ≡ Verdict.Refused)) }
    ensures no_order { IfOk result (λ verdict. verdict ≡ Verdict.Violation →
        IfSome (T.remaining trace_reader.old) (λ trace. (t : TraceValue) → SpellsTrace trace t → IsConsistent t → ⊥)) }
    ensures taken { IfOk result (λ _. LosesPrefix trace_read_limit (T.remaining trace_reader.old) (T.remaining trace_reader.new)) }
    ensures taken_after { IfOk result (λ _. cert_reader.new ≡ cert_reader.old ⊎
        LosesPrefix certificate_read_limit (C.remaining cert_reader.old) (C.remaining cert_reader.new)) }
    ensures unread { IfSome (T.remaining trace_reader.old) (λ trace. IsRefusedTrace trace → cert_reader.new ≡ cert_reader.old) }
    ensures fault { IfErr result (LeavesAtFault (IsCheckReportOfReaders (T.remaining trace_reader.old) (C.remaining cert_reader.old)) (W.contents writer.old)
        (W.contents writer.new)) }
    ensures no_thread { IfErr result (λ fault. fault ≢ Fault.NoThread) }
{
    check_evidence(alloc, &Certificates, trace_reader, cert_reader, writer)
}
