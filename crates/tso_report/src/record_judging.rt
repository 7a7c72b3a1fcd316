//! Judges the trace of a unit's record, and writes the report.
ghost use Rattle.std.specs.Prelude.{◌≡◌, ◌≢◌, ◌⊎◌, ◌↔◌, ◌≤◌, ℕ, List, true, string_bytes, IfOk, IfErr};
ghost use Rattle.std.specs.Io.KnownBytes.{Appends};
ghost use Rattle.trace_judging.specs.Limits.{worker_limit};
ghost use Rattle.tso_model.specs.Axioms.{IsConsistent};
ghost use Rattle.text_streams.specs.declared.faults.Fault.{Fault};
ghost use Rattle.trace_reports.specs.declared.verdicts.Verdict.{Verdict};
ghost use Rattle.trace_reports.specs.Violations.{IsViolation};
ghost use Rattle.trace_reports.specs.Reports.{IsTraceReport, ShowsNoViolationOf, ShowsViolationOf};
ghost use Rattle.text_streams.specs.WrittenTexts.{LeavesAtFault, WritesWhole};

use std::alloc::Global;
use std::io::Write;
use std::sync::Wait;
use std::thread::Threads;
use text_streams::{Fault, write_text};
use trace_judging::{ByRules, answer_trace};
use trace_reports::{AsReport, Report, Verdict};
use unit_core::Recorded;

/// Judges the trace of a unit's record on `workers` workers (1 to 64), builds its whole report, and then writes it.
///
/// What is written is the one report of the record's trace, for each number of workers, and the verdict is the one that
/// it says: NoViolation or Violation. It is NoViolation where the record is `lawful()`, of either memory model. Faults:
/// OutOfMemory where an allocation was refused; NoThread where the system refused a thread; with each nothing was
/// written. Write where the writer failed, took no byte or was interrupted more than 1,048,576 times: then what was
/// written is a prefix of the report.
pub fn judge_recorded<H: Threads + Wait, W: Write>(
    rt: &H,
    alloc: Global,
    recorded: &Recorded,
    writer: &mut W,
    workers: usize,
) -> Result<Verdict, Fault>
    requires some { 1 ≤ workers }
    requires most { workers ≤ worker_limit }
    ensures report { IfOk result (WritesWhole (IsTraceReport recorded.now.trace) (W.contents writer.old) (W.contents writer.new)) }
    ensures violation { IfOk result (λ verdict. (verdict ≡ Verdict.Violation) ↔ IsViolation recorded.now.trace) }
    ensures otherwise { IfOk result (λ verdict. (verdict ≡ Verdict.Violation) ⊎ (verdict ≡ Verdict.NoViolation)) }
    ensures no_order { IfOk result (λ verdict. verdict ≡ Verdict.Violation → IsConsistent recorded.now.trace → ⊥) }
    ensures holds { IfOk result (λ verdict. verdict ≡ Verdict.Violation → (text : List ℕ) × ShowsViolationOf recorded.now.trace text ×
        Appends (W.contents writer.old) (W.contents writer.new) text) }
    ensures no_false_alarm { IfOk result (λ verdict. recorded.now.lawful ≡ true → (verdict ≡ Verdict.NoViolation) ×
        ((text : List ℕ) × ShowsNoViolationOf recorded.now.trace text × Appends (W.contents writer.old) (W.contents writer.new) text)) }
    ensures fault { IfErr result (LeavesAtFault (IsTraceReport recorded.now.trace) (W.contents writer.old) (W.contents writer.new)) }
    ensures no_read { IfErr result (λ fault. fault ≢ Fault.Read) }
{
    let report = report_of_record(rt, alloc, recorded, workers)?;
    write_text(writer, report.text.as_bytes())?;
    Ok(report.verdict)
}

/// Judges the trace of a unit's record on `workers` workers (1 to 64): its report, and the verdict that it says.
///
/// The report is the same for each number of workers. The verdict is NoViolation where the record is `lawful()`, of
/// either memory model. Faults: OutOfMemory where an allocation was refused, NoThread where the system refused a thread.
pub fn report_of_record<H: Threads + Wait>(
    rt: &H,
    alloc: Global,
    recorded: &Recorded,
    workers: usize,
) -> Result<Report<Verdict>, Fault>
    requires some { 1 ≤ workers }
    requires most { workers ≤ worker_limit }
    ensures report { IfOk result (λ report. IsTraceReport recorded.now.trace (string_bytes report.text) report.verdict) }
    ensures no_order { IfOk result (λ report. report.verdict ≡ Verdict.Violation → IsConsistent recorded.now.trace → ⊥) }
    ensures no_false_alarm { IfOk result (λ report. recorded.now.lawful ≡ true → report.verdict ≡ Verdict.NoViolation) }
    ensures fault { IfErr result (λ fault. (fault ≡ Fault.OutOfMemory) ⊎ (fault ≡ Fault.NoThread)) }
{
    let question = ByRules { workers };
    let report = answer_trace(rt, alloc, recorded.trace(), &question, &AsReport)?;
    Ok(report)
}
