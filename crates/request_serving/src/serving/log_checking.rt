//! `verify --log`: evidence about a log.
ghost use Rattle.std.specs.Prelude.{◌≡◌, ◌≢◌, IfOk, IfErr, OnOk, true, false};
ghost use Rattle.command_line.specs.Requests.{asked_of, files_of};
ghost use Rattle.command_line.specs.declared.requests.Request.TheVariants.{VerifyLog};
ghost use Rattle.log_evidence.specs.LogChecks.{IsLogCheckOfReaders};
ghost use Rattle.text_streams.specs.declared.faults.Fault.TheVariants.{NoThread};
ghost use Rattle.text_streams.specs.WrittenTexts.{LeavesAtFault, WritesWhole};
ghost use Rattle.request_texts.specs.OpenedFiles.{HasRefusedFirstText, OpensFirst, OpensNext, TakesInput, files_named, reads_input, text_bytes};

use command_line::TextPair;
use log_evidence::check_log_evidence;
use request_texts::{Environment, open};
use std::alloc::Global;
use std::io::{Read, Write};
use text_streams::Fault;
use trace_reports::Answer;

/// Checks evidence, the second text, about a log, the first. The files of both are opened before one is read, and the
/// second isn't read where the first is no log.
pub(crate) fn check_log_named<O: Environment, R: Read, W: Write>(
    alloc: Global,
    texts: TextPair<'_>,
    files: &mut O,
    reader: &mut R,
    writer: &mut W,
) -> Result<Answer, Fault>
    ensures whole { let logs = text_bytes (files_of texts.entry).0 (R.remaining reader.old) (O.bytes files.old) in
        let evidence = text_bytes (files_of texts.entry).1 (R.remaining reader.old) (O.bytes files.old) in
        IfOk result (WritesWhole (IsLogCheckOfReaders logs evidence) (W.contents writer.old) (W.contents writer.new)) }
    ensures fault { let logs = text_bytes (files_of texts.entry).0 (R.remaining reader.old) (O.bytes files.old) in
        let evidence = text_bytes (files_of texts.entry).1 (R.remaining reader.old) (O.bytes files.old) in
        IfErr result (LeavesAtFault (IsLogCheckOfReaders logs evidence) (W.contents writer.old) (W.contents writer.new)) }
    ensures no_thread { IfErr result (λ fault. fault ≢ NoThread) }
    ensures first { OpensFirst (O.opened files.old) (O.opened files.new) (files_named (asked_of (VerifyLog texts.entry))) }
    ensures opened { OnOk result (OpensNext (O.opened files.old) (O.opened files.new) (files_named (asked_of (VerifyLog texts.entry)))) }
    ensures unread { reads_input (asked_of (VerifyLog texts.entry)) ≡ false → reader.new ≡ reader.old }
    ensures unread_after_refusal { HasRefusedFirstText (asked_of (VerifyLog texts.entry)) (O.bytes files.old) → reader.new ≡ reader.old }
    ensures taken { reads_input (asked_of (VerifyLog texts.entry)) ≡ true →
        OnOk result (TakesInput (asked_of (VerifyLog texts.entry)) (R.remaining reader.old) (R.remaining reader.new)) }
{
    match texts {
        TextPair::Files(log, evidence) => {
            let mut log = open(files, log)?;
            let mut evidence = open(files, evidence)?;
            check_log_evidence(alloc, &mut log, &mut evidence, writer)
        }
        TextPair::InputAndFile(evidence) => {
            let mut evidence = open(files, evidence)?;
            check_log_evidence(alloc, reader, &mut evidence, writer)
        }
        TextPair::FileAndInput(log) => {
            let mut log = open(files, log)?;
            check_log_evidence(alloc, &mut log, reader, writer)
        }
    }
}
