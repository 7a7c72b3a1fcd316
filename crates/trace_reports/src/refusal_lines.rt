//! The line of a refusal.
ghost use Rattle.std.specs.Prelude.{◌≡◌, ◌≢◌, string_bytes, IfOk, IsErr};
ghost use Rattle.tso_text.specs.declared.faults.Why.{Why};
ghost use Rattle.trace_reports.specs.declared.verdicts.Verdict.{Verdict};
ghost use Rattle.trace_reports.specs.RefusalLines.{refusal_text};

use crate::renderings::{Report, render_refused};
use crate::reports::AsReport;
use crate::verdicts::Verdict;
use std::alloc::Global;
use tso_ops::OutOfMemory;
use tso_text::TextFault;

/// The report of a text that is no trace, or no program, schedule or log where it is to be one: the line of its refusal.
/// OutOfMemory where an allocation was refused, also where the fault says that one of its reader was.
pub fn render_refusal(alloc: Global, fault: TextFault) -> Result<Report<Verdict>, OutOfMemory>
    ensures refused { IfOk result (λ report. fault.why ≢ Why.OutOfMemory × (string_bytes report.text ≡ refusal_text fault.line fault.why) ×
        (report.verdict ≡ Verdict.Refused)) }
    ensures memory { fault.why ≡ Why.OutOfMemory → IsErr result }
{
    render_refused(alloc, b"", fault, &AsReport, Verdict::Refused)
}

/// The line of a refusal, as `REFUSED BadNumber line 3`.
pub(crate) fn refusal_line(alloc: Global, fault: TextFault) -> Result<String, OutOfMemory>
    ensures { IfOk result (λ text. string_bytes text ≡ refusal_text fault.line fault.why) }
{
    let name = fault.why.name();
    let line = fault.line;
    format!(in alloc; "REFUSED {name} line {line}\n")
}
