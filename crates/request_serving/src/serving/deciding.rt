//! `decide`: whether one trace has an order that meets the axioms of its memory model, with evidence for the answer.
ghost use Rattle.std.specs.Prelude.{◌≡◌, ◌⊎◌, IfOk, IfErr, IfSome, None, option_map, string_bytes};
ghost use Rattle.command_line.specs.Requests.{asked_of};
ghost use Rattle.command_line.specs.declared.requests.Request.TheVariants.{Decide};
ghost use Rattle.text_streams.specs.WrittenTexts.{LeavesAtFault, WritesWhole};
ghost use Rattle.text_streams.specs.declared.faults.Fault.{Fault};
ghost use Rattle.trace_decisions.specs.DecisionTexts.{IsDecisionOf};
ghost use Rattle.trace_judging.specs.Limits.{HasWorkerRange};
ghost use Rattle.trace_reports.specs.declared.answers.Answer.{Answer};
ghost use Rattle.request_serving.specs.Deciding.{IsDecided};
ghost use Rattle.request_serving.specs.Presentations.{decided_as, refused_as};
ghost use Rattle.request_texts.specs.NthTraces.{IsWrittenOf, TakesTrace};
ghost use Rattle.request_texts.specs.OpenedFiles.{OpensNext, files_named, name_in, text_bytes};

use crate::serving::reporting::{report_fewer, write_report};
use command_line::{DecideRequest, Presentation};
use decision_explanation::AsDecisionExplanation;
use decision_pictures::AsDecisionPicture;
use request_texts::{Environment, read_named};
use std::io::{Read, Write};
use std::sync::Wait;
use std::thread::Threads;
use text_streams::Fault;
use trace_decisions::{AsDecision, ByDecision};
use trace_judging::answer_text;
use trace_reports::{Answer, Report};

/// Decides on the trace in a file, or else in what the reader has, with at most as many steps as the request names, and presents
/// the decision.
pub(crate) fn decide_named<H: Threads + Wait + AllocGlobal, O: Environment, R: Read, W: Write>(
    rt: &H,
    request: &DecideRequest<'_>,
    files: &mut O,
    reader: &mut R,
    writer: &mut W,
) -> Result<Answer, Fault>
    requires { HasWorkerRange request.now.workers }
    ensures decided { let remaining = text_bytes (name_in request.now.file) (R.remaining reader.old) (O.bytes files.old) in
        IfOk result (WritesWhole (IsDecided request.now.presentation request.now.effort request.now.nth remaining) (W.contents writer.old)
        (W.contents writer.new)) }
    ensures fault { let remaining = text_bytes (name_in request.now.file) (R.remaining reader.old) (O.bytes files.old) in
        IfErr result (LeavesAtFault (IsDecided request.now.presentation request.now.effort request.now.nth remaining) (W.contents writer.old)
        (W.contents writer.new)) }
    ensures opened { OpensNext (O.opened files.old) (O.opened files.new) (files_named (asked_of (Decide request.now))) }
    ensures unread { IfSome request.now.file (λ _. reader.new ≡ reader.old) }
    ensures taken { request.now.file ≡ None → IfOk result (λ _. TakesTrace request.now.nth (R.remaining reader.old) (R.remaining reader.new)) }
{
    let asked = read_named(rt.alloc(), request.file, request.nth, files, reader)?;
    let report = report_asked(rt, request, asked)?;
    write_report(writer, report)
}

/// The decision on the trace that was asked for, in the form that the request asks for.
fn report_asked<H: Threads + Wait + AllocGlobal>(
    rt: &H,
    request: &DecideRequest<'_>,
    asked: Option<Vec<u8>>,
) -> Result<Report<Answer>, Fault>
    requires { HasWorkerRange request.now.workers }
    ensures said { IfOk result (λ report. IsWrittenOf Answer.Refused
        (IsDecisionOf (decided_as request.now.presentation) (refused_as request.now.presentation) request.now.effort) (option_map (λ text. text.items) asked)
        (string_bytes report.text) report.verdict) }
    ensures fault { IfErr result (λ fault. (fault ≡ Fault.OutOfMemory) ⊎ (fault ≡ Fault.NoThread)) }
{
    let alloc = rt.alloc();
    let Some(input) = asked else {
        return report_fewer(alloc, Answer::Refused);
    };
    let question = ByDecision {
        workers: request.workers,
        effort: request.effort,
    };
    match request.presentation {
        Presentation::Report => answer_text(rt, alloc, &input, &question, &AsDecision),
        Presentation::Explanation => {
            answer_text(rt, alloc, &input, &question, &AsDecisionExplanation)
        }
        Presentation::Picture | Presentation::FieldPicture => {
            answer_text(rt, alloc, &input, &question, &AsDecisionPicture)
        }
    }
}
