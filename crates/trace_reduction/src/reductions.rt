//! From a trace to a small one that shows its violation.
ghost use Rattle.std.specs.Prelude.{◌≡◌, ◌⊎◌, ◌++◌, ℕ, List, IfErr, IfOk, IfSome, string_bytes};
ghost use Rattle.tso_ops.specs.Events.{IsUnwritten};
ghost use Rattle.tso_text.specs.Printed.{trace_text};
ghost use Rattle.tso_model.specs.Certs.{IsCertificateOf};
ghost use Rattle.text_streams.specs.declared.faults.Fault.{Fault};
ghost use Rattle.trace_reports.specs.declared.verdicts.Verdict.{Verdict};
ghost use Rattle.trace_reduction.specs.Reductions.{IsReducedText, IsReduction};
ghost use Rattle.trace_reduction.specs.Remarks.{remark_text};

use crate::candidates::Candidate;
use crate::logs::log_of;
use crate::notes::{Remark, render_notes};
use crate::searching::search;
use crate::selections::is_selection;
use log_search::Effort;
use log_selections::lone_load;
use log_text::LoggedOperation;
use std::alloc::Global;
use std::sync::Wait;
use std::thread::Threads;
use text_streams::Fault;
use trace_judging::{ByRules, Question};
use trace_reports::{Finding, Verdict, verdict_line};
use tso_cert::{Certificate, StepList};
use tso_ops::{OutOfMemory, Trace};
use tso_text::print_trace;

/// What is printed of a trace, and notes on the operations of the small trace and on the search.
#[derive(Drop)]
pub(crate) struct Reduction {
    pub(crate) text: String,
    pub(crate) notes: String,
    pub(crate) verdict: Verdict,
}

/// Reduces a trace: to a small one that shows its violation, or to the line that says that none was found.
///
/// Faults: OutOfMemory where an allocation was refused, and NoThread where the system refused a thread.
pub(crate) fn reduce<H: Threads + Wait>(
    rt: &H,
    alloc: Global,
    trace: &Trace,
) -> Result<Reduction, Fault>
    ensures reduced { IfOk result (λ reduction. IsReducedText trace.now (string_bytes reduction.text) reduction.verdict) }
    ensures fault { IfErr result (λ fault. (fault ≡ Fault.OutOfMemory) ⊎ (fault ≡ Fault.NoThread)) }
{
    let finding = ByRules { workers: 1 }.find(rt, alloc, trace)?;
    let effort = Effort::new(trace.events(), finding.rounds as usize);
    match finding.certificate {
        None => Ok(Reduction {
            text: String::from_str(alloc, verdict_line(false))?,
            notes: String::new(alloc),
            verdict: Verdict::NoViolation,
        }),
        Some(certificate) => reduce_violation(rt, alloc, trace, &certificate, effort),
    }
}

/// Reduces a trace that is a violation, by its certificate, with this effort.
fn reduce_violation<H: Threads + Wait>(
    rt: &H,
    alloc: Global,
    trace: &Trace,
    certificate: &Certificate,
    mut effort: Effort,
) -> Result<Reduction, Fault>
    requires { IsCertificateOf trace.now certificate.now }
    ensures reduced { IfOk result (λ reduction. IsReducedText trace.now (string_bytes reduction.text) reduction.verdict) }
    ensures fault { IfErr result (λ fault. (fault ≡ Fault.OutOfMemory) ⊎ (fault ≡ Fault.NoThread)) }
{
    // Its clause `kept`: the trace is within the limits of traces.
    let _processors = trace.processors();
    match certificate {
        Certificate::Unwritten(load) => Ok(reduce_unwritten(alloc, trace, *load as usize)?),
        Certificate::Cycle { steps, .. } => {
            match find_small(rt, alloc, trace, steps, &mut effort)? {
                Some(small) => Ok(tell(
                    alloc,
                    &small.trace,
                    &small.lines,
                    Remark::on_small(effort),
                )?),
                None => {
                    let lines = lines_of(alloc, trace)?;
                    Ok(tell(alloc, trace, &lines, Remark::on_whole(effort))?)
                }
            }
        }
    }
}

/// The small trace of a load that read what nothing wrote.
fn reduce_unwritten(alloc: Global, trace: &Trace, load: usize) -> Result<Reduction, OutOfMemory>
    requires { IsUnwritten trace.now load }
    ensures { IfOk result (λ reduction. IsReducedText trace.now (string_bytes reduction.text) reduction.verdict) }
{
    let small = lone_load(alloc, trace.order())?;
    let lines = lines_of_load(alloc, trace, load)?;
    tell(alloc, &small, &lines, Remark::Nothing)
}

/// The line of a load in the trace's text, as that of the one operation of one processor.
fn lines_of_load(
    alloc: Global,
    trace: &Trace,
    load: usize,
) -> Result<Vec<Vec<usize>>, OutOfMemory> {
    let mut lines = Vec::new(alloc);
    if let Some(operation) = trace.operations(alloc)?.operation_of(load) {
        lines.push(operation.line)?;
    }
    let mut lists = Vec::new(alloc);
    lists.push(lines)?;
    Ok(lists)
}

/// A small trace that shows the violation of which the trace's certificate has these steps: None where the effort is spent already,
/// or what the search gives isn't one.
fn find_small<H: Threads + Wait>(
    rt: &H,
    alloc: Global,
    trace: &Trace,
    steps: &StepList,
    effort: &mut Effort,
) -> Result<Option<Candidate>, Fault>
    ensures found { IfOk result (λ found. IfSome found (λ small. IsReduction trace.now small.trace)) }
    ensures fault { IfErr result (λ fault. (fault ≡ Fault.OutOfMemory) ⊎ (fault ≡ Fault.NoThread)) }
{
    let Some(small) = search(rt, alloc, trace, steps, effort)? else {
        return Ok(None);
    };
    if !is_selection(trace, &small.trace, &small.origins) {
        return Ok(None);
    }
    // Its clause `kept`: the small trace is within the limits of traces.
    let _processors = small.trace.processors();
    let finding = ByRules { workers: 1 }.find(rt, alloc, &small.trace)?;
    if finding.certificate.is_some() {
        Ok(Some(small))
    } else {
        Ok(None)
    }
}

/// What is printed of a violation by a small trace, the operations of which stand in these lines of the whole trace's text, with
/// what is to be said of the search.
fn tell(
    alloc: Global,
    small: &Trace,
    lines: &[Vec<usize>],
    remark: Remark,
) -> Result<Reduction, OutOfMemory>
    ensures text { IfOk result (λ reduction. string_bytes reduction.text ≡ trace_text small.now) }
    ensures verdict { IfOk result (λ reduction. reduction.verdict ≡ Verdict.Violation) }
    ensures remark { IfOk result (λ reduction. (lines : List ℕ) × (string_bytes reduction.notes ≡ lines ++ remark_text remark)) }
{
    Ok(Reduction {
        text: print_trace(alloc, small)?,
        notes: render_notes(alloc, small, lines, remark)?,
        verdict: Verdict::Violation,
    })
}

/// The lines of each processor's operations in the trace's text.
fn lines_of(alloc: Global, trace: &Trace) -> Result<Vec<Vec<usize>>, OutOfMemory> {
    let log = log_of(alloc, trace)?;
    let mut lines = Vec::new(alloc);
    for list in &log.lists {
        lines.push(lines_of_list(alloc, list)?)?;
    }
    Ok(lines)
}

/// The lines of a processor's operations.
fn lines_of_list(alloc: Global, list: &[LoggedOperation]) -> Result<Vec<usize>, OutOfMemory> {
    let mut lines = Vec::new(alloc);
    for logged in list {
        lines.push(logged.line)?;
    }
    Ok(lines)
}
