//! `outcomes`: the outcomes of a program are listed.
ghost use Rattle.std.specs.Prelude.{◌≡◌, ◌≢◌, IfOk, IfErr, IfSome, None};
ghost use Rattle.command_line.specs.Requests.{asked_of};
ghost use Rattle.command_line.specs.declared.requests.Request.TheVariants.{Outcomes};
ghost use Rattle.outcome_reports.specs.Outcomes.{IsOutcomesOfReader};
ghost use Rattle.text_streams.specs.declared.faults.Fault.TheVariants.{NoThread};
ghost use Rattle.trace_streams.specs.Limits.{trace_read_limit};
ghost use Rattle.text_streams.specs.Streams.{LosesPrefix};
ghost use Rattle.text_streams.specs.WrittenTexts.{LeavesAtFault, WritesWhole};
ghost use Rattle.request_texts.specs.OpenedFiles.{OpensNext, files_named, name_in, text_bytes};

use command_line::OutcomesRequest;
use outcome_reports::list_outcomes;
use request_texts::{Environment, open};
use std::alloc::Global;
use std::io::{Read, Write};
use text_streams::Fault;
use trace_reports::Answer;

/// Writes the outcomes of the program in a file, or else of that which the reader has.
pub(crate) fn list_named<O: Environment, R: Read, W: Write>(
    alloc: Global,
    request: &OutcomesRequest<'_>,
    files: &mut O,
    reader: &mut R,
    writer: &mut W,
) -> Result<Answer, Fault>
    ensures whole { let programs = text_bytes (name_in request.now.program) (R.remaining reader.old) (O.bytes files.old) in
        IfOk result (WritesWhole (IsOutcomesOfReader request.now.options programs) (W.contents writer.old) (W.contents writer.new)) }
    ensures fault { let programs = text_bytes (name_in request.now.program) (R.remaining reader.old) (O.bytes files.old) in
        IfErr result (LeavesAtFault (IsOutcomesOfReader request.now.options programs) (W.contents writer.old) (W.contents writer.new)) }
    ensures no_thread { IfErr result (λ fault. fault ≢ NoThread) }
    ensures opened { OpensNext (O.opened files.old) (O.opened files.new) (files_named (asked_of (Outcomes request.now))) }
    ensures unread { IfSome request.now.program (λ _. reader.new ≡ reader.old) }
    ensures taken { request.now.program ≡ None → IfOk result (λ _. LosesPrefix trace_read_limit (R.remaining reader.old) (R.remaining reader.new)) }
{
    let options = request.options;
    match request.program {
        None => list_outcomes(alloc, reader, writer, options),
        Some(name) => {
            let mut program = open(files, name)?;
            list_outcomes(alloc, &mut program, writer, options)
        }
    }
}
