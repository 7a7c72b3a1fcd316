//! `reduce`: a small trace that shows the violation of a trace.
ghost use Rattle.std.specs.Prelude.{◌≡◌, ℕ, List, IfErr, IfOk, IfSome, OnErr, None};
ghost use Rattle.std.specs.Io.KnownBytes.{Keeps};
ghost use Rattle.command_line.specs.Requests.{asked_of};
ghost use Rattle.command_line.specs.declared.requests.Request.TheVariants.{Reduce};
ghost use Rattle.text_streams.specs.Streams.{AppendsPrefix};
ghost use Rattle.text_streams.specs.WrittenTexts.{LeavesAtFault, WritesWhole};
ghost use Rattle.request_texts.specs.NthTraces.{TakesTrace};
ghost use Rattle.request_texts.specs.OpenedFiles.{OpensNext, files_named, name_in, text_bytes};
ghost use Rattle.request_serving.specs.Reducing.{IsReduced};

use crate::serving::reporting::{report_fewer, write_report};
use command_line::ReduceRequest;
use request_texts::{Environment, read_named};
use std::io::{Read, Write};
use std::sync::Wait;
use std::thread::Threads;
use text_streams::Fault;
use trace_reduction::reduce_trace;
use trace_reports::Verdict;

/// Reduces the trace in a file, or else in what the reader has. Nothing is written to the errors at a fault.
pub(crate) fn reduce_named<
    H: Threads + Wait + AllocGlobal,
    O: Environment,
    R: Read,
    W: Write,
    E: Write,
>(
    rt: &H,
    request: &ReduceRequest<'_>,
    files: &mut O,
    reader: &mut R,
    writer: &mut W,
    errors: &mut E,
) -> Result<Verdict, Fault>
    ensures whole { let remaining = text_bytes (name_in request.now.file) (R.remaining reader.old) (O.bytes files.old) in
        IfOk result (WritesWhole (IsReduced request.now.nth remaining) (W.contents writer.old) (W.contents writer.new)) }
    ensures left { let remaining = text_bytes (name_in request.now.file) (R.remaining reader.old) (O.bytes files.old) in
        IfErr result (LeavesAtFault (IsReduced request.now.nth remaining) (W.contents writer.old) (W.contents writer.new)) }
    ensures told { IfOk result (λ _. (text : List ℕ) × AppendsPrefix (E.contents errors.old) (E.contents errors.new) text) }
    ensures untold { OnErr result (Keeps (E.contents errors.old) (E.contents errors.new)) }
    ensures opened { OpensNext (O.opened files.old) (O.opened files.new) (files_named (asked_of (Reduce request.now))) }
    ensures unread { IfSome request.now.file (λ _. reader.new ≡ reader.old) }
    ensures taken { request.now.file ≡ None → IfOk result (λ _. TakesTrace request.now.nth (R.remaining reader.old) (R.remaining reader.new)) }
{
    let alloc = rt.alloc();
    match read_named(alloc, request.file, request.nth, files, reader)? {
        Some(text) => reduce_trace(rt, alloc, &mut text.as_slice(), writer, errors),
        None => {
            let report = report_fewer(alloc, Verdict::Refused)?;
            write_report(writer, report)
        }
    }
}
