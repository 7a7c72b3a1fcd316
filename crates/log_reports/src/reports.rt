//! From the text of a log to its report.
ghost use Rattle.std.specs.Prelude.{◌≡◌, ◌≢◌, ◌⊎◌, ℕ, List, IfErr, IfOk, IfSome, OnErr, string_bytes};
ghost use Rattle.std.specs.Io.KnownBytes.{Consumes, Keeps};
ghost use Rattle.text_streams.specs.Streams.{AppendsPrefix};
ghost use Rattle.text_streams.specs.WrittenTexts.{LeavesAtFault, WritesWhole};
ghost use Rattle.text_streams.specs.declared.faults.Fault.{Fault};
ghost use Rattle.tso_model.specs.Axioms.{IsConsistent};
ghost use Rattle.tso_ops.specs.Events.{IsUnwritten};
ghost use Rattle.log_text.specs.LogTexts.{SpellsLog};
ghost use Rattle.log_text.specs.Tags.{AreTagsOf};
ghost use Rattle.log_text.specs.LogValues.{NumberedLog, log_operations, log_value};
ghost use Rattle.tso_text.specs.declared.faults.Why.{Why};
ghost use Rattle.log_reports.specs.LogReports.{IsLogReportOfReader, IsReportOf, verdict_of};

use crate::counts::LogCounts;
use crate::findings::find_violations;
use crate::forms::LogFound;
use crate::notes::render_notes;
use log_selections::KnownLog;
use log_text::{LineTags, Log, read_log, read_tags};
use progress_meters::TotalMeter;
use request_options::LogOptions;
use std::alloc::Global;
use std::io::{Read, Write};
use std::sync::Wait;
use std::thread::Threads;
use text_streams::{Fault, read_all, write_text};
use trace_reports::{Answer, Rendering, Report, render_refused};
use tso_ops::OutOfMemory;
use tso_text::TextFault;

/// How a log is reported on: what is looked for in it, and how what was found is rendered.
#[derive(Drop)]
pub struct LogReporting<'a, P> {
    /// What is looked for, and for how long. Its form is that of the rendering: as traces, which name no line, notes name the lines.
    pub options: LogOptions,
    /// What is rendered of what was found, and of a text that is no log.
    pub rendering: &'a P,
}

/// What is printed of a log, and notes on what isn't.
#[derive(Drop)]
struct LogReport {
    text: String,
    notes: String,
    verdict: Answer,
}

/// Reports on the log that a reader has: writes what is rendered of what was found in it, or of a text that is no log.
///
/// Notes on what was left out go to `errors`; what that doesn't take is lost. The meter hears how many operations the log has, and
/// of each once, when the search passed it: of all, unless the search ended early or found more violations than are listed. Where a search
/// by values follows, it hears that there are so many more, and of these likewise.
///
/// Faults: OutOfMemory where an allocation was refused; Read where the reader failed, or didn't show its end within 2,097,152
/// calls of `read`; NoThread where the system refused a thread; Write where the writer failed, took no byte or was interrupted
/// more than 1,048,576 times.
pub fn report_log<
    H: Threads + Wait + AllocGlobal,
    P: Rendering<KnownLog, LogFound>,
    M: TotalMeter,
    R: Read,
    W: Write,
    E: Write,
>(
    rt: &H,
    reporting: &LogReporting<'_, P>,
    meter: &M,
    reader: &mut R,
    writer: &mut W,
    errors: &mut E,
) -> Result<Answer, Fault>
    ensures report { IfOk result (WritesWhole
        (IsLogReportOfReader (P.rendered reporting.now.rendering.now) (P.refused reporting.now.rendering.now) reporting.now.options (R.remaining reader.old))
        (W.contents writer.old) (W.contents writer.new)) }
    ensures no_order { IfOk result (λ verdict. verdict ≡ Answer.Violation →
        IfSome (R.remaining reader.old) (λ all. (log : NumberedLog) → SpellsLog all log → IsConsistent (log_operations log) → ⊥)) }
    ensures written { IfOk result (λ verdict. verdict ≡ Answer.Clear →
        IfSome (R.remaining reader.old) (λ all. (log : NumberedLog) → SpellsLog all log → (l : ℕ) → IsUnwritten (log_operations log) l → ⊥)) }
    ensures taken { IfOk result (λ _. IfSome (R.remaining reader.old) (λ all. Consumes (R.remaining reader.old) (R.remaining reader.new) all)) }
    ensures left { IfErr result (LeavesAtFault
        (IsLogReportOfReader (P.rendered reporting.now.rendering.now) (P.refused reporting.now.rendering.now) reporting.now.options (R.remaining reader.old))
        (W.contents writer.old) (W.contents writer.new)) }
    ensures told { (text : List ℕ) × AppendsPrefix (E.contents errors.old) (E.contents errors.new) text }
    ensures untold { OnErr result (Keeps (E.contents errors.old) (E.contents errors.new)) }
{
    let report = read_report(rt, reporting, meter, reader)?;
    write_text(writer, report.text.as_bytes())?;
    // The report is written: nothing can be done where notes on it can't be.
    let _ = write_text(errors, report.notes.as_bytes());
    Ok(report.verdict)
}

/// The report on the log that a reader has.
fn read_report<
    H: Threads + Wait + AllocGlobal,
    P: Rendering<KnownLog, LogFound>,
    M: TotalMeter,
    R: Read,
>(rt: &H, reporting: &LogReporting<'_, P>, meter: &M, reader: &mut R) -> Result<LogReport, Fault>
    ensures report { IfOk result (λ report. IsLogReportOfReader (P.rendered reporting.now.rendering.now)
        (P.refused reporting.now.rendering.now) reporting.now.options (R.remaining reader.old) (string_bytes report.text) report.verdict) }
    ensures taken { IfOk result (λ _. IfSome (R.remaining reader.old) (λ all. Consumes (R.remaining reader.old) (R.remaining reader.new) all)) }
    ensures fault { IfErr result (λ fault. (fault ≡ Fault.OutOfMemory) ⊎ (fault ≡ Fault.NoThread) ⊎ (fault ≡ Fault.Read)) }
{
    let alloc = rt.alloc();
    let text = read_all(alloc, reader, usize::MAX)?;
    match read_log(alloc, &text, reporting.options.needs_end) {
        Ok(log) => {
            let tags = read_tags(alloc, &text)?;
            // A long log's text takes memory that the search needs.
            drop(text);
            report_on(rt, reporting, meter, log, tags)
        }
        Err(fault) => Ok(refuse(alloc, reporting.rendering, &text, fault)?),
    }
}

/// The report on a log, the lines of which have these tags.
fn report_on<H: Threads + Wait + AllocGlobal, P: Rendering<KnownLog, LogFound>, M: TotalMeter>(
    rt: &H,
    reporting: &LogReporting<'_, P>,
    meter: &M,
    log: Log,
    tags: LineTags,
) -> Result<LogReport, Fault>
    ensures report { IfOk result (λ report. (bytes : List ℕ) → AreTagsOf bytes tags → IsReportOf (P.rendered reporting.now.rendering.now) (log_value log) bytes
        reporting.now.options (string_bytes report.text) report.verdict) }
    ensures fault { IfErr result (λ fault. (fault ≡ Fault.OutOfMemory) ⊎ (fault ≡ Fault.NoThread)) }
{
    let alloc = rt.alloc();
    let options = reporting.options;
    let rendering = reporting.rendering;
    let known = KnownLog::new(alloc, log)?;
    let several = known.ambiguous_loads();
    let mut counts = LogCounts::new(known.log(), several)?;
    meter.expect_total(counts.operations as u64);
    let findings = find_violations(rt, alloc, &known, options, meter)?;
    counts.unknown = findings.unknown;
    counts.repeated = findings.repeated;
    let found = LogFound {
        options,
        counts,
        findings,
        tags,
    };
    Ok(LogReport {
        text: rendering.text_of_found(alloc, &known, &found)?,
        notes: render_notes(alloc, &found)?,
        verdict: verdict_of(&found)?,
    })
}

/// What is said of a log by what was found in it. OutOfMemory where it has more loads than memory holds.
fn verdict_of(found: &LogFound) -> Result<Answer, OutOfMemory>
    ensures { IfOk result (λ verdict. verdict ≡ verdict_of found.now) }
{
    let LogFound {
        options,
        counts,
        findings,
        ..
    } = found;
    let is_too_unknown = counts.is_too_unknown(options.max_unknown)?;
    if !findings.violations.is_empty() {
        return Ok(Answer::Violation);
    }
    if findings.is_early
        || findings.has_unjudged()
        || counts.is_nothing_judged()
        || is_too_unknown
    {
        Ok(Answer::Undecided)
    } else {
        Ok(Answer::Clear)
    }
}

/// What is rendered of a text that is refused for this fault. OutOfMemory where an allocation was refused, also where the fault says
/// so.
fn refuse<P: Rendering<KnownLog, LogFound>>(
    alloc: Global,
    rendering: &P,
    input: &[u8],
    fault: TextFault,
) -> Result<LogReport, OutOfMemory>
    ensures { IfOk result (λ report. (fault.why ≢ Why.OutOfMemory) × (string_bytes report.text ≡ P.refused rendering.now input.now fault.line fault.why) ×
        (report.verdict ≡ Answer.Refused)) }
{
    let Report { verdict, text } = render_refused(alloc, input, fault, rendering, Answer::Refused)?;
    let notes = String::new(alloc);
    Ok(LogReport {
        text,
        notes,
        verdict,
    })
}
