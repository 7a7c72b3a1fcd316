//! `log --decide`: the decision on a log.
ghost use Rattle.std.specs.Prelude.{◌≡◌, ◌≢◌, IfOk, IfErr, IfSome, None};
ghost use Rattle.std.specs.Io.KnownBytes.{Consumes};
ghost use Rattle.command_line.specs.Requests.{asked_of};
ghost use Rattle.command_line.specs.declared.requests.Request.TheVariants.{DecideLog};
ghost use Rattle.request_serving.specs.Deciding.{IsDecidedLog};
ghost use Rattle.text_streams.specs.declared.faults.Fault.TheVariants.{NoThread};
ghost use Rattle.text_streams.specs.WrittenTexts.{LeavesAtFault, WritesWhole};
ghost use Rattle.request_texts.specs.OpenedFiles.{OpensNext, files_named, name_in, text_bytes};

use command_line::DecideLogRequest;
use log_decisions::{LogQuestion, decide_log};
use request_texts::{Environment, open};
use std::alloc::Global;
use std::io::{Read, Write};
use text_streams::Fault;
use trace_reports::Answer;

/// Writes the decision on the log in a file, or else on that which the reader has.
pub(crate) fn decide_log_named<O: Environment, R: Read, W: Write>(
    alloc: Global,
    request: &DecideLogRequest<'_>,
    files: &mut O,
    reader: &mut R,
    writer: &mut W,
) -> Result<Answer, Fault>
    ensures whole { let remaining = text_bytes (name_in request.now.file) (R.remaining reader.old) (O.bytes files.old) in
        IfOk result (WritesWhole (IsDecidedLog request.now.effort request.now.needs_end remaining) (W.contents writer.old) (W.contents writer.new)) }
    ensures fault { let remaining = text_bytes (name_in request.now.file) (R.remaining reader.old) (O.bytes files.old) in
        IfErr result (LeavesAtFault (IsDecidedLog request.now.effort request.now.needs_end remaining) (W.contents writer.old) (W.contents writer.new)) }
    ensures no_thread { IfErr result (λ fault. fault ≢ NoThread) }
    ensures opened { OpensNext (O.opened files.old) (O.opened files.new) (files_named (asked_of (DecideLog request.now))) }
    ensures unread { IfSome request.now.file (λ _. reader.new ≡ reader.old) }
    ensures taken { request.now.file ≡ None →
        IfOk result (λ _. IfSome (R.remaining reader.old) (λ all. Consumes (R.remaining reader.old) (R.remaining reader.new) all)) }
{
    let question = LogQuestion {
        effort: request.effort,
        needs_end: request.needs_end,
    };
    match request.file {
        None => decide_log(alloc, question, reader, writer),
        Some(name) => {
            let mut file = open(files, name)?;
            decide_log(alloc, question, &mut file, writer)
        }
    }
}
