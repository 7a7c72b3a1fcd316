//! What is printed of records and of refused texts.
ghost use Rattle.std.specs.Prelude.{◌≡◌, ◌≢◌, ◌⊎◌, ◌&&◌, IfOk, IfErr};
ghost use Rattle.text_streams.specs.declared.faults.Fault.{Fault};
ghost use Rattle.trace_reports.specs.RefusalLines.{refusal_text};
ghost use Rattle.tso_text.specs.Printed.{trace_text};
ghost use Rattle.tso_text.specs.declared.faults.Why.{Why};
ghost use Rattle.command_line.specs.declared.options.Printing.TheVariants.{Explanation};
ghost use Rattle.unit_core.specs.declared.accounts.Account.{Account as AccountValue};
ghost use Rattle.trace_judging.specs.Limits.{HasWorkerRange};
ghost use Rattle.command_line.specs.Requests.{prints_trace};
ghost use Rattle.run_serving.specs.Printing.{IsRenderedRecord, PrintsRecord, following_trace};

use command_line::{Printing, RunOptions};
use std::alloc::Global;
use std::sync::Wait;
use std::thread::Threads;
use text_streams::Fault;
use trace_explanation::AsExplanation;
use trace_judging::{ByRules, answer_trace};
use trace_reports::{DONE, REFUSED, render_refusal, status_of};
use tso_ops::OutOfMemory;
use tso_report::{print_account, report_of_record};
use tso_text::{TextFault, print_trace};
use unit_core::{Account, Recorded};

/// A text to be written, and the status that the program then ends with.
#[derive(Drop)]
pub(crate) struct Printed {
    pub text: Vec<u8>,
    pub status: u8,
}

/// What is printed of a record: its trace, the report of the trace and the account, or the trace's explanation; and then the
/// trace, where it is to follow. The verdict on a lawful record is never a violation.
pub(crate) fn print_record<H: Threads + Wait + AllocGlobal>(
    rt: &H,
    options: &RunOptions,
    recorded: &Recorded,
    account: &Account,
) -> Result<Printed, Fault>
    requires workers { HasWorkerRange options.now.workers }
    ensures text { IfOk result (λ printed. PrintsRecord options.now recorded.now account.now printed.text.items printed.status) }
    ensures fault { IfErr result (λ fault. (fault ≡ Fault.OutOfMemory) ⊎ (fault ≡ Fault.NoThread)) }
{
    let Printed { mut text, status } = render_record(rt, options, recorded, account)?;
    text.extend_from_slice(&following_trace(rt.alloc(), options, recorded)?)?;
    Ok(Printed { text, status })
}

/// The trace of a record, where it is to follow what is printed, or else nothing.
fn following_trace(
    alloc: Global,
    options: &RunOptions,
    recorded: &Recorded,
) -> Result<Vec<u8>, OutOfMemory>
    ensures { IfOk result (λ text. text.items ≡ following_trace options.now recorded.now.trace) }
{
    if options.with_trace && !prints_trace(options.printing) {
        recorded_text(alloc, recorded)
    } else {
        Ok(Vec::new(alloc))
    }
}

/// The text of a record's trace.
pub(crate) fn recorded_text(alloc: Global, recorded: &Recorded) -> Result<Vec<u8>, OutOfMemory>
    ensures { IfOk result (λ text. text.items ≡ trace_text recorded.now.trace) }
{
    Ok(print_trace(alloc, recorded.trace())?.into_bytes())
}

/// Whether the trace is what is printed.
fn prints_trace(printing: Printing) -> bool
    ensures { result ≡ prints_trace printing }
{
    match printing {
        Printing::Trace => true,
        Printing::Report | Printing::Explanation => false,
    }
}

/// What the options ask for of a record, without the trace that follows.
fn render_record<H: Threads + Wait + AllocGlobal>(
    rt: &H,
    options: &RunOptions,
    recorded: &Recorded,
    account: &Account,
) -> Result<Printed, Fault>
    requires workers { HasWorkerRange options.now.workers }
    ensures text { IfOk result (λ printed. IsRenderedRecord options.now.printing recorded.now account.now printed.text.items printed.status) }
    ensures fault { IfErr result (λ fault. (fault ≡ Fault.OutOfMemory) ⊎ (fault ≡ Fault.NoThread)) }
{
    match options.printing {
        Printing::Trace => Ok(Printed {
            text: print_trace(rt.alloc(), recorded.trace())?.into_bytes(),
            status: DONE,
        }),
        Printing::Report => {
            let report = report_of_record(rt, rt.alloc(), recorded, options.workers)?;
            let status = status_of(report.verdict);
            let mut text = report.text.into_bytes();
            text.extend_from_slice(&print_account(rt.alloc(), account)?)?;
            Ok(Printed { text, status })
        }
        Printing::Explanation => print_explanation(rt, options, recorded),
    }
}

/// The explanation of a record's trace.
fn print_explanation<H: Threads + Wait + AllocGlobal>(
    rt: &H,
    options: &RunOptions,
    recorded: &Recorded,
) -> Result<Printed, Fault>
    requires workers { HasWorkerRange options.now.workers }
    ensures text { (account : AccountValue) → IfOk result (λ printed. IsRenderedRecord Explanation recorded.now account printed.text.items printed.status) }
    ensures fault { IfErr result (λ fault. (fault ≡ Fault.OutOfMemory) ⊎ (fault ≡ Fault.NoThread)) }
{
    let question = ByRules {
        workers: options.workers,
    };
    let explained = answer_trace(rt, rt.alloc(), recorded.trace(), &question, &AsExplanation)?;
    Ok(Printed {
        status: status_of(explained.verdict),
        text: explained.text.into_bytes(),
    })
}

/// The line of the refusal of a text.
pub(crate) fn print_refusal(alloc: Global, fault: TextFault) -> Result<Printed, OutOfMemory>
    ensures { IfOk result (λ printed. fault.why ≢ Why.OutOfMemory × (printed.text.items ≡ refusal_text fault.line fault.why) × (printed.status ≡ 2)) }
{
    Ok(Printed {
        text: render_refusal(alloc, fault)?.text.into_bytes(),
        status: REFUSED,
    })
}
