//! The verdict on a trace's text.
ghost use Rattle.std.specs.Prelude.{◌≡◌, ◌↔◌, ◌≤◌, ℕ, List, IfSome, IfOk, IfErr};
ghost use Rattle.std.specs.Io.KnownBytes.{Appends};
ghost use Rattle.round_pool.specs.Workers.{worker_limit};
ghost use Rattle.tso_ops.specs.Values.{TraceValue};
ghost use Rattle.tso_text.specs.Texts.{SpellsTrace};
ghost use Rattle.trace_streams.specs.Limits.{trace_read_limit};
ghost use Rattle.tso_model.specs.Axioms.{IsConsistent};
ghost use Rattle.trace_reports.specs.declared.verdicts.Verdict.{Verdict};
ghost use Rattle.trace_reports.specs.Reports.{ShowsViolationOf, SpellsViolation};
ghost use Rattle.text_streams.specs.Streams.{LosesPrefix};
ghost use Rattle.trace_judging.specs.WrittenReports.{IsReportOfReader};
ghost use Rattle.text_streams.specs.WrittenTexts.{LeavesAtFault, WritesWhole};

use crate::findings::ByRules;
use crate::questions::answer_reader;
use std::alloc::Global;
use std::io::{Read, Write};
use std::sync::Wait;
use std::thread::Threads;
use text_streams::Fault;
use trace_reports::{AsReport, Verdict};

/// Judges a trace's text: reads it, judges it on `workers` workers (1 to 64), builds its whole report, and then writes it.
///
/// What is written is the one report of the input, for each number of workers, and the verdict is the one that it
/// says. An input that is no trace is Refused, by its report of one line. At most 1,048,577 bytes are read. Faults:
/// OutOfMemory where an allocation was refused; Read where the reader failed or passed 2,097,152 calls; NoThread where
/// the system refused a thread; with each nothing was written. Write where the writer failed, took no byte or was
/// interrupted more than 1,048,576 times: then what was written is a prefix of the report.
pub fn judge<H: Threads + Wait + Sync, R: Read, W: Write>(
    rt: &H,
    alloc: Global,
    reader: &mut R,
    writer: &mut W,
    workers: usize,
) -> Result<Verdict, Fault>
    requires some { 1 ≤ workers }
    requires most { workers ≤ worker_limit }
    ensures report { IfOk result (WritesWhole (IsReportOfReader (R.remaining reader.old)) (W.contents writer.old) (W.contents writer.new)) }
    ensures violation { IfOk result (λ verdict. IfSome (R.remaining reader.old) (λ all. (verdict ≡ Verdict.Violation) ↔ SpellsViolation all)) }
    ensures no_order { IfOk result (λ verdict. verdict ≡ Verdict.Violation →
        IfSome (R.remaining reader.old) (λ all. (t : TraceValue) → SpellsTrace all t → IsConsistent t → ⊥)) }
    ensures holds { IfOk result (λ verdict. verdict ≡ Verdict.Violation →
        IfSome (R.remaining reader.old) (λ all. (text : List ℕ) × ((t : TraceValue) × SpellsTrace all t × ShowsViolationOf t text) ×
        Appends (W.contents writer.old) (W.contents writer.new) text)) }
    ensures taken { IfOk result (λ _. LosesPrefix trace_read_limit (R.remaining reader.old) (R.remaining reader.new)) }
    ensures fault { IfErr result (LeavesAtFault (IsReportOfReader (R.remaining reader.old)) (W.contents writer.old) (W.contents writer.new)) }
{
    answer_reader(rt, alloc, reader, writer, &ByRules { workers }, &AsReport)
}
