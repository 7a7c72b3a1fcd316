//! What is said of a refused log.
ghost use Rattle.std.specs.Prelude.{◌≡◌, ◌++◌, OnOk, string_bytes};
ghost use Rattle.log_reports.specs.LogRefusals.{log_refusal_explanation, log_sentence};

use crate::refusal_sentences::{BAD_LINE, BAD_NUMBER, WIDTHS};
use std::alloc::AllocError;
use trace_explanation::explain_refusal;
use tso_text::{TextFault, Why};

/// Appends what explains that a log is refused for this fault: the line that decided, where there is one, and the rule that it
/// breaks. It follows the line of the refusal. OutOfMemory where an allocation was refused.
pub(crate) fn explain_log_refusal(
    text: &mut String,
    input: &[u8],
    fault: TextFault,
) -> Result<(), AllocError>
    ensures { OnOk result (string_bytes text.new ≡ string_bytes text.old ++ log_refusal_explanation input.now fault.line fault.why) }
{
    // Traces have no rule of this name: of such a refusal the line alone is said.
    let alone = TextFault {
        line: fault.line,
        why: Why::ProcessorRange,
    };
    explain_refusal(text, input, alone)?;
    text.push_str(log_sentence(fault.why))?;
    Ok(())
}

/// The rule that a log with this refusal breaks. A log never gets the other refusals, and OutOfMemory is no rule.
#[tactic(auto, unfolding(crate::specs::LogRefusals::log_sentence))]
fn log_sentence(why: Why) -> &'static str
    ensures { result.now ≡ log_sentence why }
{
    match why {
        Why::BadLine => BAD_LINE,
        Why::BadNumber => BAD_NUMBER,
        Why::Widths => WIDTHS,
        Why::BadHeader
        | Why::BeforeProc
        | Why::TooManyProcessors
        | Why::TooManyEvents
        | Why::AddressRange
        | Why::ZeroValue
        | Why::RepeatedValue
        | Why::MissingEnd
        | Why::AfterEnd
        | Why::TooLong
        | Why::ProcessorRange
        | Why::BadModel
        | Why::InitOrder
        | Why::MixedWidths
        | Why::TooManyWaiting
        | Why::OutOfMemory => "",
    }
}
