//! `follow`: a run is followed.
ghost use Rattle.std.specs.Prelude.{◌≡◌, ◌≢◌, ℕ, List, IfOk, IfErr, IfSome, None};
ghost use Rattle.std.specs.Io.KnownBytes.{Consumes};
ghost use Rattle.command_line.specs.Requests.{asked_of};
ghost use Rattle.command_line.specs.declared.requests.Request.TheVariants.{Follow};
ghost use Rattle.request_serving.specs.Endings.{IsFollowedRun};
ghost use Rattle.text_streams.specs.declared.faults.Fault.TheVariants.{NoThread};
ghost use Rattle.text_streams.specs.WrittenTexts.{LeavesAtFault, WritesWhole};
ghost use Rattle.request_texts.specs.OpenedFiles.{OpensNext, files_named, name_in, text_bytes};

use command_line::FollowRequest;
use progress_meters::Meter;
use request_options::{FollowOptions, RunFormat};
use request_texts::{Environment, open};
use run_following::{AsRunJson, AsRunWords, follow_run};
use std::alloc::Global;
use std::io::{Read, Write};
use text_streams::Fault;
use trace_reports::Answer;

/// Writes the report on the run in a file, or else on that which the reader has.
pub(crate) fn follow_named<O: Environment, R: Read, W: Write>(
    alloc: Global,
    request: &FollowRequest<'_>,
    files: &mut O,
    reader: &mut R,
    writer: &mut W,
) -> Result<Answer, Fault>
    ensures whole { let remaining = text_bytes (name_in request.now.file) (R.remaining reader.old) (O.bytes files.old) in
        IfOk result (WritesWhole (IsFollowedRun request.now.options remaining) (W.contents writer.old) (W.contents writer.new)) }
    ensures fault { let remaining = text_bytes (name_in request.now.file) (R.remaining reader.old) (O.bytes files.old) in
        IfErr result (LeavesAtFault (IsFollowedRun request.now.options remaining) (W.contents writer.old) (W.contents writer.new)) }
    ensures no_thread { IfErr result (λ fault. fault ≢ NoThread) }
    ensures opened { OpensNext (O.opened files.old) (O.opened files.new) (files_named (asked_of (Follow request.now))) }
    ensures unread { IfSome request.now.file (λ _. reader.new ≡ reader.old) }
    ensures taken { request.now.file ≡ None → IfOk result (λ _. (bytes : List ℕ) × Consumes (R.remaining reader.old) (R.remaining reader.new) bytes) }
{
    let options = request.options;
    let meter = files.meter("lines", None);
    match request.file {
        None => follow_reader(alloc, options, &meter, reader, writer),
        Some(name) => {
            let mut file = open(files, name)?;
            follow_reader(alloc, options, &meter, &mut file, writer)
        }
    }
}

/// Writes the report on the run that a reader has, in the form that the options name.
fn follow_reader<M: Meter, R: Read, W: Write>(
    alloc: Global,
    options: FollowOptions,
    meter: &M,
    reader: &mut R,
    writer: &mut W,
) -> Result<Answer, Fault>
    ensures whole { IfOk result (WritesWhole (IsFollowedRun options (R.remaining reader.old)) (W.contents writer.old) (W.contents writer.new)) }
    ensures fault { IfErr result (LeavesAtFault (IsFollowedRun options (R.remaining reader.old)) (W.contents writer.old) (W.contents writer.new)) }
    ensures no_thread { IfErr result (λ fault. fault ≢ NoThread) }
    ensures taken { IfOk result (λ _. (bytes : List ℕ) × Consumes (R.remaining reader.old) (R.remaining reader.new) bytes) }
{
    let is_explained = options.is_explained;
    match options.format {
        RunFormat::Words => {
            let words = AsRunWords { is_explained };
            follow_run(alloc, options, &words, meter, reader, writer)
        }
        RunFormat::Json => {
            let json = AsRunJson { is_explained };
            follow_run(alloc, options, &json, meter, reader, writer)
        }
    }
}
