//! `outcomes --seen`: how often a stream of traces has each trace of a program's runs.
ghost use Rattle.std.specs.Prelude.{◌≡◌, ◌≢◌, IfOk, IfErr, OnOk, true, false};
ghost use Rattle.command_line.specs.Requests.{asked_of, files_of};
ghost use Rattle.command_line.specs.declared.requests.Request.TheVariants.{Seen};
ghost use Rattle.outcome_reports.specs.SeenTraces.{IsSeenOfReaders};
ghost use Rattle.text_streams.specs.declared.faults.Fault.TheVariants.{NoThread};
ghost use Rattle.text_streams.specs.WrittenTexts.{LeavesAtFault, WritesWhole};
ghost use Rattle.request_texts.specs.OpenedFiles.{HasRefusedFirstText, OpensFirst, OpensNext, TakesInput, files_named, reads_input, text_bytes};

use command_line::{SeenRequest, TextPair};
use outcome_reports::count_seen;
use request_texts::{Environment, open};
use std::alloc::Global;
use std::io::{Read, Write};
use text_streams::Fault;
use trace_reports::Answer;

/// Writes how often a stream of traces has each trace of a program's runs. The files of both are opened before one is read.
pub(crate) fn count_named<O: Environment, R: Read, W: Write>(
    alloc: Global,
    request: &SeenRequest<'_>,
    files: &mut O,
    reader: &mut R,
    writer: &mut W,
) -> Result<Answer, Fault>
    ensures whole { let programs = text_bytes (files_of request.now.texts).0 (R.remaining reader.old) (O.bytes files.old) in
        let streams = text_bytes (files_of request.now.texts).1 (R.remaining reader.old) (O.bytes files.old) in
        IfOk result (WritesWhole (IsSeenOfReaders request.now.limit programs streams) (W.contents writer.old) (W.contents writer.new)) }
    ensures fault { let programs = text_bytes (files_of request.now.texts).0 (R.remaining reader.old) (O.bytes files.old) in
        let streams = text_bytes (files_of request.now.texts).1 (R.remaining reader.old) (O.bytes files.old) in
        IfErr result (LeavesAtFault (IsSeenOfReaders request.now.limit programs streams) (W.contents writer.old) (W.contents writer.new)) }
    ensures no_thread { IfErr result (λ fault. fault ≢ NoThread) }
    ensures first { OpensFirst (O.opened files.old) (O.opened files.new) (files_named (asked_of (Seen request.now))) }
    ensures opened { OnOk result (OpensNext (O.opened files.old) (O.opened files.new) (files_named (asked_of (Seen request.now)))) }
    ensures unread { reads_input (asked_of (Seen request.now)) ≡ false → reader.new ≡ reader.old }
    ensures unread_after_refusal { HasRefusedFirstText (asked_of (Seen request.now)) (O.bytes files.old) → reader.new ≡ reader.old }
    ensures taken { reads_input (asked_of (Seen request.now)) ≡ true →
        OnOk result (TakesInput (asked_of (Seen request.now)) (R.remaining reader.old) (R.remaining reader.new)) }
{
    let limit = request.limit;
    match request.texts {
        TextPair::Files(program, stream) => {
            let mut program = open(files, program)?;
            let mut stream = open(files, stream)?;
            count_seen(alloc, &mut program, &mut stream, writer, limit)
        }
        TextPair::InputAndFile(stream) => {
            let mut stream = open(files, stream)?;
            count_seen(alloc, reader, &mut stream, writer, limit)
        }
        TextPair::FileAndInput(program) => {
            let mut program = open(files, program)?;
            count_seen(alloc, &mut program, reader, writer, limit)
        }
    }
}
