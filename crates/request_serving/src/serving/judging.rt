//! `judge`, `explain` and `draw`: the verdict on one trace.
ghost use Rattle.std.specs.Prelude.{◌≡◌, ◌⊎◌, IfOk, IfErr, IfSome, None, option_map, string_bytes};
ghost use Rattle.command_line.specs.Requests.{asked_of};
ghost use Rattle.command_line.specs.declared.requests.Request.TheVariants.{Judge};
ghost use Rattle.text_streams.specs.WrittenTexts.{LeavesAtFault, WritesWhole};
ghost use Rattle.text_streams.specs.declared.faults.Fault.{Fault};
ghost use Rattle.trace_judging.specs.Limits.{HasWorkerRange};
ghost use Rattle.trace_reports.specs.Renderings.{IsTextOfInput};
ghost use Rattle.trace_reports.specs.declared.verdicts.Verdict.{Verdict};
ghost use Rattle.request_serving.specs.Endings.{IsVerdictAsAsked};
ghost use Rattle.request_serving.specs.Presentations.{refused_as, rendered_as};
ghost use Rattle.request_texts.specs.NthTraces.{IsWrittenOf, TakesTrace};
ghost use Rattle.request_texts.specs.OpenedFiles.{OpensNext, files_named, name_in, text_bytes};

use crate::serving::reporting::{report_fewer, write_report};
use command_line::{JudgeRequest, Presentation};
use request_texts::{Environment, read_named};
use std::io::{Read, Write};
use std::sync::Wait;
use std::thread::Threads;
use text_streams::Fault;
use trace_explanation::AsExplanation;
use trace_judging::{ByRules, answer_text};
use trace_pictures::{AsFieldPicture, AsPicture};
use trace_reports::{AsReport, Report, Verdict};

/// Judges the trace in a file, or else in what the reader has, and presents the verdict.
pub(crate) fn judge_named<
    H: Threads + Wait + Sync + AllocGlobal,
    O: Environment,
    R: Read,
    W: Write,
>(
    rt: &H,
    request: &JudgeRequest<'_>,
    files: &mut O,
    reader: &mut R,
    writer: &mut W,
) -> Result<Verdict, Fault>
    requires { HasWorkerRange request.now.workers }
    ensures presented { let remaining = text_bytes (name_in request.now.file) (R.remaining reader.old) (O.bytes files.old) in
        IfOk result (WritesWhole (IsVerdictAsAsked request.now.presentation request.now.nth remaining) (W.contents writer.old) (W.contents writer.new)) }
    ensures fault { let remaining = text_bytes (name_in request.now.file) (R.remaining reader.old) (O.bytes files.old) in
        IfErr result (LeavesAtFault (IsVerdictAsAsked request.now.presentation request.now.nth remaining) (W.contents writer.old) (W.contents writer.new)) }
    ensures opened { OpensNext (O.opened files.old) (O.opened files.new) (files_named (asked_of (Judge request.now))) }
    ensures unread { IfSome request.now.file (λ _. reader.new ≡ reader.old) }
    ensures taken { request.now.file ≡ None → IfOk result (λ _. TakesTrace request.now.nth (R.remaining reader.old) (R.remaining reader.new)) }
{
    let asked = read_named(rt.alloc(), request.file, request.nth, files, reader)?;
    let report = report_asked(rt, request, asked)?;
    write_report(writer, report)
}

/// What is said of the trace that was asked for, in the form that the request asks for.
fn report_asked<H: Threads + Wait + Sync + AllocGlobal>(
    rt: &H,
    request: &JudgeRequest<'_>,
    asked: Option<Vec<u8>>,
) -> Result<Report<Verdict>, Fault>
    requires { HasWorkerRange request.now.workers }
    ensures said { IfOk result (λ report. IsWrittenOf Verdict.Refused
        (IsTextOfInput (rendered_as request.now.presentation) (refused_as request.now.presentation))
        (option_map (λ text. text.items) asked) (string_bytes report.text) report.verdict) }
    ensures fault { IfErr result (λ fault. (fault ≡ Fault.OutOfMemory) ⊎ (fault ≡ Fault.NoThread)) }
{
    let alloc = rt.alloc();
    let Some(input) = asked else {
        return report_fewer(alloc, Verdict::Refused);
    };
    let question = ByRules {
        workers: request.workers,
    };
    match request.presentation {
        Presentation::Report => answer_text(rt, alloc, &input, &question, &AsReport),
        Presentation::Explanation => answer_text(rt, alloc, &input, &question, &AsExplanation),
        Presentation::Picture => answer_text(rt, alloc, &input, &question, &AsPicture),
        Presentation::FieldPicture => answer_text(rt, alloc, &input, &question, &AsFieldPicture),
    }
}
