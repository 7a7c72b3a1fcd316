//! `check` and `verify`: a certificate, or evidence of whether a trace has an order that meets the axioms of its memory model, against its
//! trace.
ghost use Rattle.std.specs.Prelude.{◌≡◌, ◌≢◌, IfOk, IfErr, OnOk, true, false};
ghost use Rattle.command_line.specs.Requests.{asked_of};
ghost use Rattle.command_line.specs.declared.requests.Request.TheVariants.{Check};
ghost use Rattle.text_streams.specs.declared.faults.Fault.TheVariants.{NoThread};
ghost use Rattle.text_streams.specs.WrittenTexts.{LeavesAtFault, WritesWhole};
ghost use Rattle.request_serving.specs.Evidence.{IsReportAsAsked};
ghost use Rattle.request_texts.specs.OpenedFiles.{HasRefusedFirstText, OpensFirst, OpensNext, TakesInput, files_named, reads_input};

use crate::serving::reporting::{report_fewer, write_report};
use command_line::CheckRequest;
use request_texts::{Environment, open_pair, read_asked};
use std::alloc::Global;
use std::io::{Read, Write};
use text_streams::Fault;
use trace_judging::{EvidenceKind, report_text};

/// Checks evidence of a kind against a trace, or against the one of a number among those of the first text. The files of both are
/// opened before one is read, and the second isn't read where the first is refused.
pub(crate) fn check_named<K: EvidenceKind, O: Environment, R: Read, W: Write>(
    alloc: Global,
    kind: &K,
    request: &CheckRequest<'_>,
    files: &mut O,
    reader: &mut R,
    writer: &mut W,
) -> Result<K::Verdict, Fault>
    ensures report { let is_text = IsReportAsAsked K.is_report K.refusing request.now (R.remaining reader.old) (O.bytes files.old) in
        IfOk result (WritesWhole is_text (W.contents writer.old) (W.contents writer.new)) }
    ensures fault { let is_text = IsReportAsAsked K.is_report K.refusing request.now (R.remaining reader.old) (O.bytes files.old) in
        IfErr result (LeavesAtFault is_text (W.contents writer.old) (W.contents writer.new)) }
    ensures no_thread { IfErr result (λ fault. fault ≢ NoThread) }
    ensures first { OpensFirst (O.opened files.old) (O.opened files.new) (files_named (asked_of (Check request.now))) }
    ensures opened { OnOk result (OpensNext (O.opened files.old) (O.opened files.new) (files_named (asked_of (Check request.now)))) }
    ensures unread { reads_input (asked_of (Check request.now)) ≡ false → reader.new ≡ reader.old }
    ensures unread_after_refusal { HasRefusedFirstText (asked_of (Check request.now)) (O.bytes files.old) → reader.new ≡ reader.old }
    ensures taken { reads_input (asked_of (Check request.now)) ≡ true →
        OnOk result (TakesInput (asked_of (Check request.now)) (R.remaining reader.old) (R.remaining reader.new)) }
{
    let opened = open_pair(files, request.texts)?;
    let second = opened.second;
    match read_asked(alloc, request.nth, opened.first, reader)? {
        None => {
            let refusing = kind.refusal();
            let report = report_fewer(alloc, refusing)?;
            write_report(writer, report)
        }
        Some(input) => match second {
            None => {
                let report = report_text(alloc, kind, &input, reader)?;
                write_report(writer, report)
            }
            Some(mut evidence) => {
                let report = report_text(alloc, kind, &input, &mut evidence)?;
                write_report(writer, report)
            }
        },
    }
}
