//! `log`: the violations of a log.
ghost use Rattle.std.specs.Prelude.{◌≡◌, ℕ, List, IfOk, IfErr, IfSome, OnErr, None};
ghost use Rattle.std.specs.Io.KnownBytes.{Consumes, Keeps};
ghost use Rattle.log_reports.specs.LogReports.{IsLogReportOfReader};
ghost use Rattle.request_serving.specs.Endings.{IsLogged};
ghost use Rattle.request_serving.specs.Presentations.{log_refused_as, logged_as};
ghost use Rattle.text_streams.specs.Streams.{AppendsPrefix};
ghost use Rattle.text_streams.specs.WrittenTexts.{LeavesAtFault, WritesWhole};
ghost use Rattle.request_texts.specs.OpenedFiles.{OpensNext, files_named, name_in, text_bytes};
ghost use Rattle.command_line.specs.Requests.{asked_of};
ghost use Rattle.command_line.specs.declared.requests.Request.TheVariants.{Log};

use command_line::LogRequest;
use log_reports::{
    AsExplainedLog, AsLogEvidence, AsLogLines, AsLogTraces, LogReporting, report_log,
};
use progress_meters::TotalMeter;
use request_options::{LogForm, LogOptions};
use request_texts::{Environment, open};
use std::io::{Read, Write};
use std::sync::Wait;
use std::thread::Threads;
use text_streams::Fault;
use trace_reports::Answer;

/// Reports on the log in a file, or else in what the reader has. Nothing is written to the errors at a fault.
pub(crate) fn log_named<
    H: Threads + Wait + AllocGlobal,
    O: Environment,
    R: Read,
    W: Write,
    E: Write,
>(
    rt: &H,
    request: &LogRequest<'_>,
    files: &mut O,
    reader: &mut R,
    writer: &mut W,
    errors: &mut E,
) -> Result<Answer, Fault>
    ensures whole { let remaining = text_bytes (name_in request.now.file) (R.remaining reader.old) (O.bytes files.old) in
        IfOk result (WritesWhole (IsLogged request.now.options remaining) (W.contents writer.old) (W.contents writer.new)) }
    ensures left { let remaining = text_bytes (name_in request.now.file) (R.remaining reader.old) (O.bytes files.old) in
        IfErr result (LeavesAtFault (IsLogged request.now.options remaining) (W.contents writer.old) (W.contents writer.new)) }
    ensures told { IfOk result (λ _. (text : List ℕ) × AppendsPrefix (E.contents errors.old) (E.contents errors.new) text) }
    ensures untold { OnErr result (Keeps (E.contents errors.old) (E.contents errors.new)) }
    ensures opened { OpensNext (O.opened files.old) (O.opened files.new) (files_named (asked_of (Log request.now))) }
    ensures unread { IfSome request.now.file (λ _. reader.new ≡ reader.old) }
    ensures taken { request.now.file ≡ None →
        IfOk result (λ _. IfSome (R.remaining reader.old) (λ all. Consumes (R.remaining reader.old) (R.remaining reader.new) all)) }
{
    let meter = files.meter("operations", None);
    match request.file {
        None => log_reader(rt, &request.options, &meter, reader, writer, errors),
        Some(name) => {
            let mut file = open(files, name)?;
            log_reader(rt, &request.options, &meter, &mut file, writer, errors)
        }
    }
}

/// Reports on the log that a reader has, in the form that the options name. Nothing is written to the errors at a fault.
fn log_reader<H: Threads + Wait + AllocGlobal, M: TotalMeter, R: Read, W: Write, E: Write>(
    rt: &H,
    options: &LogOptions,
    meter: &M,
    reader: &mut R,
    writer: &mut W,
    errors: &mut E,
) -> Result<Answer, Fault>
    ensures whole { IfOk result (WritesWhole
        (IsLogReportOfReader (logged_as options.now.form) (log_refused_as options.now.form) options.now (R.remaining reader.old)) (W.contents writer.old)
        (W.contents writer.new)) }
    ensures left { IfErr result (LeavesAtFault
        (IsLogReportOfReader (logged_as options.now.form) (log_refused_as options.now.form) options.now (R.remaining reader.old)) (W.contents writer.old)
        (W.contents writer.new)) }
    ensures told { IfOk result (λ _. (text : List ℕ) × AppendsPrefix (E.contents errors.old) (E.contents errors.new) text) }
    ensures untold { OnErr result (Keeps (E.contents errors.old) (E.contents errors.new)) }
    ensures taken { IfOk result (λ _. IfSome (R.remaining reader.old) (λ all. Consumes (R.remaining reader.old) (R.remaining reader.new) all)) }
{
    match options.form {
        LogForm::Lines => {
            let reporting = LogReporting {
                options: *options,
                rendering: &AsLogLines,
            };
            report_log(rt, &reporting, meter, reader, writer, errors)
        }
        LogForm::Explained => {
            let reporting = LogReporting {
                options: *options,
                rendering: &AsExplainedLog,
            };
            report_log(rt, &reporting, meter, reader, writer, errors)
        }
        LogForm::Traces => {
            let reporting = LogReporting {
                options: *options,
                rendering: &AsLogTraces,
            };
            report_log(rt, &reporting, meter, reader, writer, errors)
        }
        LogForm::Evidence => {
            let reporting = LogReporting {
                options: *options,
                rendering: &AsLogEvidence,
            };
            report_log(rt, &reporting, meter, reader, writer, errors)
        }
    }
}
