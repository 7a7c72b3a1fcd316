//! From the text of a trace to the text of a small trace that shows its violation.
ghost use Rattle.std.specs.Prelude.{◌≡◌, ◌≢◌, ◌⊎◌, ◌↔◌, ℕ, List, IfErr, IfOk, IfSome, OnErr, string_bytes};
ghost use Rattle.std.specs.Io.KnownBytes.{Keeps};
ghost use Rattle.tso_ops.specs.Values.{TraceValue};
ghost use Rattle.tso_text.specs.Texts.{SpellsTrace};
ghost use Rattle.trace_streams.specs.Limits.{trace_read_limit};
ghost use Rattle.tso_text.specs.declared.faults.Why.{Why};
ghost use Rattle.tso_model.specs.Axioms.{IsConsistent};
ghost use Rattle.text_streams.specs.Streams.{AppendsPrefix, LosesPrefix};
ghost use Rattle.text_streams.specs.WrittenTexts.{LeavesAtFault, WritesWhole};
ghost use Rattle.text_streams.specs.declared.faults.Fault.{Fault};
ghost use Rattle.trace_reports.specs.RefusalLines.{refusal_text};
ghost use Rattle.trace_reports.specs.Reports.{SpellsViolation};
ghost use Rattle.trace_reports.specs.declared.verdicts.Verdict.{Verdict};
ghost use Rattle.trace_reduction.specs.Reductions.{IsReductionOf, IsReductionOfReader};

use crate::reductions::{Reduction, reduce};
use std::alloc::Global;
use std::io::{Read, Write};
use std::sync::Wait;
use std::thread::Threads;
use text_streams::{Fault, read_all, write_text};
use trace_reports::{Verdict, render_refusal};
use tso_ops::OutOfMemory;
use tso_text::{MAX_TEXT_BYTES, TextFault, read_trace};

/// Reduces the trace that a reader has: where it is a violation, writes the text of a small trace that shows this, and else the
/// line that says that none was found, or the line of the text's refusal.
///
/// The small trace is a selection of the trace, with addresses and values renamed, from which no operation can be left out
/// without losing the violation; or a load of what nothing wrote, by itself. Its processors stand in the order of the least
/// text, where there are at most 6 of them. Each of its operations gives a line on `errors`, as `line 12 P0 'st 0 1'`, with the
/// line where it stands in the trace's text; what `errors` doesn't take is lost. At most 1,048,577 bytes are read.
///
/// Where the search for it gets too long, it ends with what it has, or doesn't begin: then operations might be left out, the
/// processors stand as in the trace, and a last line on `errors` says so. Another one says so where the whole trace is written
/// since the small one failed the check.
///
/// Faults: OutOfMemory where an allocation was refused; Read where the reader failed or passed 2,097,152 calls; NoThread where
/// the system refused a thread; with each nothing was written. Write where the writer failed, took no byte or was interrupted
/// more than 1,048,576 times: then what was written is a prefix of the text.
pub fn reduce_trace<H: Threads + Wait, R: Read, W: Write, E: Write>(
    rt: &H,
    alloc: Global,
    reader: &mut R,
    writer: &mut W,
    errors: &mut E,
) -> Result<Verdict, Fault>
    ensures reduction { IfOk result (WritesWhole (IsReductionOfReader (R.remaining reader.old)) (W.contents writer.old) (W.contents writer.new)) }
    ensures violation { IfOk result (λ verdict. IfSome (R.remaining reader.old) (λ all. (verdict ≡ Verdict.Violation) ↔ SpellsViolation all)) }
    ensures no_order { IfOk result (λ verdict. verdict ≡ Verdict.Violation →
        IfSome (R.remaining reader.old) (λ all. (t : TraceValue) → SpellsTrace all t → IsConsistent t → ⊥)) }
    ensures taken { IfOk result (λ _. LosesPrefix trace_read_limit (R.remaining reader.old) (R.remaining reader.new)) }
    ensures left { IfErr result (LeavesAtFault (IsReductionOfReader (R.remaining reader.old)) (W.contents writer.old) (W.contents writer.new)) }
    ensures told { (text : List ℕ) × AppendsPrefix (E.contents errors.old) (E.contents errors.new) text }
    ensures untold { OnErr result (Keeps (E.contents errors.old) (E.contents errors.new)) }
{
    let reduction = read_reduction(rt, alloc, reader)?;
    write_text(writer, reduction.text.as_bytes())?;
    // The small trace is written: nothing can be done where notes on it can't be.
    let _ = write_text(errors, reduction.notes.as_bytes());
    Ok(reduction.verdict)
}

/// Reduces the trace that a reader has.
fn read_reduction<H: Threads + Wait, R: Read>(
    rt: &H,
    alloc: Global,
    reader: &mut R,
) -> Result<Reduction, Fault>
    ensures reduction { IfOk result (λ reduction. IsReductionOfReader (R.remaining reader.old) (string_bytes reduction.text) reduction.verdict) }
    ensures taken { IfOk result (λ _. LosesPrefix trace_read_limit (R.remaining reader.old) (R.remaining reader.new)) }
    ensures fault { IfErr result (λ fault. (fault ≡ Fault.OutOfMemory) ⊎ (fault ≡ Fault.NoThread) ⊎ (fault ≡ Fault.Read)) }
{
    let input = read_all(alloc, reader, MAX_TEXT_BYTES)?;
    reduce_text(rt, alloc, &input)
}

/// Reduces the trace that a text spells.
fn reduce_text<H: Threads + Wait>(rt: &H, alloc: Global, input: &[u8]) -> Result<Reduction, Fault>
    ensures reduced { IfOk result (λ reduction. IsReductionOf input.now (string_bytes reduction.text) reduction.verdict) }
    ensures fault { IfErr result (λ fault. (fault ≡ Fault.OutOfMemory) ⊎ (fault ≡ Fault.NoThread)) }
{
    match read_trace(alloc, input) {
        Ok(trace) => reduce(rt, alloc, &trace),
        Err(fault) => Ok(refuse(alloc, fault)?),
    }
}

/// What is printed of a refused text. OutOfMemory where an allocation was refused, also where the fault says so.
fn refuse(alloc: Global, fault: TextFault) -> Result<Reduction, OutOfMemory>
    ensures { IfOk result (λ reduction. (fault.why ≢ Why.OutOfMemory) × (string_bytes reduction.text ≡ refusal_text fault.line fault.why) ×
        (reduction.verdict ≡ Verdict.Refused)) }
{
    let refusal = render_refusal(alloc, fault)?;
    Ok(Reduction {
        text: refusal.text,
        notes: String::new(alloc),
        verdict: Verdict::Refused,
    })
}
