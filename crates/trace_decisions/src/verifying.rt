//! The check of evidence's text against a trace's.
ghost use Rattle.std.specs.Prelude.{◌≡◌, ◌≢◌, ◌⊎◌, IfSome, IfOk, IfErr};
ghost use Rattle.tso_ops.specs.Values.{TraceValue};
ghost use Rattle.tso_text.specs.Refusals.{IsRefusedTrace};
ghost use Rattle.tso_text.specs.Texts.{SpellsTrace};
ghost use Rattle.trace_streams.specs.Limits.{trace_read_limit};
ghost use Rattle.text_streams.specs.declared.faults.Fault.{Fault};
ghost use Rattle.trace_judging.specs.Limits.{certificate_read_limit};
ghost use Rattle.text_streams.specs.Streams.{LosesPrefix};
ghost use Rattle.text_streams.specs.WrittenTexts.{LeavesAtFault, WritesWhole};
ghost use Rattle.trace_decisions.specs.DecisionTexts.{AnswerSays};
ghost use Rattle.trace_decisions.specs.EvidenceReports.{IsVerificationOfReaders};

use crate::evidence_lines::OrdersAndRefutations;
use std::alloc::Global;
use std::io::{Read, Write};
use text_streams::Fault;
use trace_judging::check_evidence;
use trace_reports::Answer;

/// Checks evidence against a trace: reads the text of the trace, then that of the evidence, and writes the line that says
/// whether it holds.
///
/// The answer is Consistent where an order holds, Violation where an unwritten load or a refutation does, else Refused. A first
/// text that is no trace is reported by its refusal, and the evidence isn't read then. At most 1,048,577 bytes of the trace are
/// read and 67,108,865 of the evidence. Faults: OutOfMemory where an allocation was refused; Read where a reader failed or passed
/// 2,097,152 calls, or the text of the evidence has more than 67,108,864 bytes; with each nothing was written. Write where the
/// writer failed, took no byte or was interrupted more than 1,048,576 times: then what was written is a prefix of the line.
pub fn verify_texts<T: Read, E: Read, W: Write>(
    alloc: Global,
    traces: &mut T,
    evidence: &mut E,
    writer: &mut W,
) -> Result<Answer, Fault>
    ensures report { IfOk result (WritesWhole (IsVerificationOfReaders (T.remaining traces.old) (E.remaining evidence.old)) (W.contents writer.old)
        (W.contents writer.new)) }
    ensures says { IfOk result (λ answer. IfSome (T.remaining traces.old) (λ all. (t : TraceValue) → SpellsTrace all t → AnswerSays t answer)) }
    ensures taken { IfOk result (λ _. LosesPrefix trace_read_limit (T.remaining traces.old) (T.remaining traces.new)) }
    ensures taken_after { IfOk result (λ _. evidence.new ≡ evidence.old ⊎
        LosesPrefix certificate_read_limit (E.remaining evidence.old) (E.remaining evidence.new)) }
    ensures unread { IfSome (T.remaining traces.old) (λ trace. IsRefusedTrace trace → evidence.new ≡ evidence.old) }
    ensures fault { IfErr result (LeavesAtFault (IsVerificationOfReaders (T.remaining traces.old) (E.remaining evidence.old)) (W.contents writer.old)
        (W.contents writer.new)) }
    ensures no_thread { IfErr result (λ fault. fault ≢ Fault.NoThread) }
{
    check_evidence(alloc, &OrdersAndRefutations, traces, evidence, writer)
}
