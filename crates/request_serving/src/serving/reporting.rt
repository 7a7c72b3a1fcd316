//! Reports that are written, and the one where there are fewer traces than were asked for.
ghost use Rattle.std.specs.Prelude.{◌≡◌, IfOk, IfErr, string_bytes};
ghost use Rattle.std.specs.Io.KnownBytes.{Appends};
ghost use Rattle.request_texts.specs.NthTraces.{nth_refusal};
ghost use Rattle.text_streams.specs.Streams.{AppendsPrefix};
ghost use Rattle.text_streams.specs.declared.faults.Fault.{Fault};

use std::alloc::Global;
use std::io::Write;
use text_streams::{Fault, write_text};
use trace_reports::Report;

/// Writes the text of a report, and answers what it says.
pub(crate) fn write_report<V: Drop, W: Write>(writer: &mut W, report: Report<V>) -> Result<V, Fault>
    ensures whole { IfOk result (λ said. (said ≡ report.verdict) × Appends (W.contents writer.old) (W.contents writer.new) (string_bytes report.text)) }
    ensures fault { IfErr result (λ fault. (fault ≡ Fault.Write) × AppendsPrefix (W.contents writer.old) (W.contents writer.new) (string_bytes report.text)) }
{
    write_text(writer, report.text.as_bytes())?;
    Ok(report.verdict)
}

/// The report that there are fewer traces, which says what is said of a refusal. The fault is OutOfMemory.
pub(crate) fn report_fewer<V: Drop>(alloc: Global, refusing: V) -> Result<Report<V>, Fault>
    ensures fewer { IfOk result (λ report. (string_bytes report.text ≡ nth_refusal) × (report.verdict ≡ refusing)) }
    ensures fault { IfErr result (λ fault. fault ≡ Fault.OutOfMemory) }
{
    Ok(Report {
        verdict: refusing,
        text: String::from_str(alloc, "REFUSED Nth\n")?,
    })
}
