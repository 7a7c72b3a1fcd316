//! What is said of a refused text.
ghost use Rattle.std.specs.Prelude.{◌≡◌, ◌++◌, ◌<◌, string_bytes, OnOk};
ghost use Rattle.std.specs.List.{flat_map};
ghost use Rattle.std.specs.Option.{option_copied};
ghost use Rattle.line_text.specs.Lines.{parts_of};
ghost use Rattle.trace_explanation.specs.Refusals.{hex_digit, line_there, numbered_line, refusal_explanation, refusal_sentence, rendered_byte, rendered_line};

use crate::prefixes::first_of;
use crate::refusal_sentences::{
    ADDRESS_RANGE, AFTER_END, BAD_HEADER, BAD_LINE, BAD_MODEL, BAD_NUMBER, BEFORE_PROC, INIT_ORDER,
    MISSING_END, REPEATED_VALUE, TOO_LONG, TOO_MANY_EVENTS, TOO_MANY_PROCESSORS, ZERO_VALUE,
};
use line_text::next_line;
use std::alloc::{AllocError, Global};
use std::fmt::Write;
use tso_text::{TextFault, Why};

/// How many bytes of a line are shown at most.
const SHOWN_BYTES: usize = 60;

/// Appends what is said of a text that is refused by this fault: the line that decided, where there is one, and the rule
/// that it breaks. It follows the line of the refusal. OutOfMemory where an allocation was refused.
#[tactic(auto, unfolding(crate::specs::Refusals::refusal_explanation))]
pub fn explain_refusal(text: &mut String, input: &[u8], fault: TextFault) -> Result<(), AllocError>
    ensures { OnOk result (string_bytes text.new ≡ string_bytes text.old ++ refusal_explanation input.now fault.line fault.why) }
{
    text.push_str("\n")?;
    push_numbered_line(text, input, fault.line)?;
    text.push_str(refusal_sentence(fault.why))
}

/// Appends the line of this number, from 1; nothing for 0, and where there is no such line.
#[tactic(auto, unfolding(crate::specs::Refusals::numbered_line))]
fn push_numbered_line(text: &mut String, input: &[u8], number: usize) -> Result<(), AllocError>
    ensures { OnOk result (string_bytes text.new ≡ string_bytes text.old ++ numbered_line input.now number) }
{
    if number == 0 {
        return Ok(());
    }
    match line_there(input, number - 1) {
        Some(line) => {
            write!(text, "Line {number} is '")?;
            push_rendered_line(text, line)?;
            text.push_str("'.\n")
        },
        None => Ok(()),
    }
}

/// The line of this place, from 0. What stands after the last line feed is one unless it is empty.
fn line_there(input: &[u8], place: usize) -> Option<&[u8]>
    ensures { option_copied result ≡ line_there (parts_of input.now) place }
{
    let mut rest = input;
    for done in 0..place {
        let _ = done;
        let (_, after) = next_line(rest)?;
        rest = after;
    }
    match next_line(rest) {
        Some((line, _)) => Some(line),
        None if rest.is_empty() => None,
        None => Some(rest),
    }
}

/// Appends a line, of which the first 60 bytes are shown.
#[tactic(auto, unfolding(crate::specs::Refusals::rendered_line))]
fn push_rendered_line(text: &mut String, line: &[u8]) -> Result<(), AllocError>
    ensures { OnOk result (string_bytes text.new ≡ string_bytes text.old ++ rendered_line line.now) }
{
    push_bytes(text, first_of(line, SHOWN_BYTES))?;
    if line.len() > SHOWN_BYTES {
        text.push_str("..")
    } else {
        Ok(())
    }
}

/// Appends these bytes as they are shown.
fn push_bytes(text: &mut String, bytes: &[u8]) -> Result<(), AllocError>
    ensures { OnOk result (string_bytes text.new ≡ string_bytes text.old ++ flat_map rendered_byte bytes.now) }
{
    for byte in bytes {
        push_byte(text, *byte)?;
    }
    Ok(())
}

/// Appends a byte as it is shown.
fn push_byte(text: &mut String, byte: u8) -> Result<(), AllocError>
    ensures { OnOk result (string_bytes text.new ≡ string_bytes text.old ++ rendered_byte byte) }
{
    if (32..=126).contains(&byte) {
        text.push(char::from(byte))
    } else {
        text.push_str("\\x")?;
        text.push(hex_digit(byte / 16))?;
        text.push(hex_digit(byte % 16))
    }
}

/// A digit of base 16.
fn hex_digit(digit: u8) -> char
    requires { digit < 16 }
    ensures { result ≡ hex_digit digit }
{
    if digit < 10 {
        char::from(48 + digit)
    } else {
        char::from(87 + digit)
    }
}

/// The rule that a text with this refusal breaks. A trace's text never gets those of logs and runs, and OutOfMemory is no rule.
#[tactic(auto, unfolding(crate::specs::Refusals::refusal_sentence))]
fn refusal_sentence(why: Why) -> &'static str
    ensures { result.now ≡ refusal_sentence why }
{
    match why {
        Why::BadHeader => BAD_HEADER,
        Why::BadLine => BAD_LINE,
        Why::BadNumber => BAD_NUMBER,
        Why::BeforeProc => BEFORE_PROC,
        Why::TooManyProcessors => TOO_MANY_PROCESSORS,
        Why::TooManyEvents => TOO_MANY_EVENTS,
        Why::AddressRange => ADDRESS_RANGE,
        Why::ZeroValue => ZERO_VALUE,
        Why::RepeatedValue => REPEATED_VALUE,
        Why::MissingEnd => MISSING_END,
        Why::AfterEnd => AFTER_END,
        Why::TooLong => TOO_LONG,
        Why::BadModel => BAD_MODEL,
        Why::InitOrder => INIT_ORDER,
        Why::ProcessorRange
        | Why::MixedWidths
        | Why::TooManyWaiting
        | Why::Widths
        | Why::OutOfMemory => "",
    }
}
