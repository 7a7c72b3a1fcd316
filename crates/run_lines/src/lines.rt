//! Whole lines.
ghost use Rattle.std.specs.Prelude.{◌≡◌, ◌<◌, IfOk, IfSome, is_some};
ghost use Rattle.line_text.specs.Lines.{tokens_after, tokens_of};
ghost use Rattle.run_lines.specs.Lines.{HasProcessor, is_plain, keyword_said, line_left, line_read, parts_said, processor_read, tokens_read};
ghost use Rattle.run_lines.specs.Numerals.{number_spelled};

use crate::arguments::{Widths, place_and_value};
use crate::numerals::numeral_of;
use crate::steps::step_said;
use crate::tags::without_tag;
use line_text::next_token;
use run_steps::{Place, RunStep};
use tso_text::Why;

/// The greatest number of a processor.
const MAX_PROCESSOR: u64 = 4095;

/// What a line of the text of a run says.
#[derive(Clone, Copy, Debug, PartialEq, Eq)]
pub enum RunText {
    /// Nothing.
    Note,
    /// The memory model is PSO.
    Pso,
    /// A first value of a place.
    First { place: Place, value: u64 },
    /// A step of a processor, 0 to 4,095.
    Step { processor: u64, step: RunStep },
    /// Nothing follows.
    End,
}

/// What a line says, without its line end, in a text whose places were these before.
///
/// A line that begins with `#` says nothing, and a tag, ` #` and what follows, says nothing of the others. A line is refused by its first
/// part from the left that can't be read: as BadLine where the line isn't ASCII, where its first part is no number, where its second is no
/// keyword, where a part is missing or is one too many; as BadNumber where a processor is above 4,095, or a part is no place, no number or
/// no value of its place; as MixedWidths where its place has a width and those before had none, or the other way round.
pub fn line_read(before: Widths, line: &[u8]) -> Result<RunText, Why>
    ensures said { line_left result ≡ line_read before line.now }
    ensures processor { IfOk result HasProcessor }
{
    if !is_plain(line) {
        return Err(Why::BadLine);
    }
    if !line.is_empty() && line[0] == 35 {
        return Ok(RunText::Note);
    }
    parts_said(before, without_tag(line))
}

/// Whether a line is ASCII.
fn is_plain(line: &[u8]) -> bool
    ensures { result ≡ is_plain line.now }
{
    line.iter().all(|byte| *byte < 128)
}

/// What a line without its tag says.
#[tactic(auto, unfolding(crate::specs::Lines::parts_said, crate::specs::Lines::tokens_read))]
fn parts_said(before: Widths, said: &[u8]) -> Result<RunText, Why>
    ensures said { line_left result ≡ parts_said before said.now }
    ensures processor { IfOk result HasProcessor }
{
    if said == b"model pso".as_slice() {
        return Ok(RunText::Pso);
    }
    if said == b"end".as_slice() {
        return Ok(RunText::End);
    }
    let (word, parts) = next_token(said);
    if word == b"init".as_slice() {
        let (place, value) = place_and_value(before, parts)?;
        return Ok(RunText::First { place, value });
    }
    let processor = processor_read(word)?;
    keyword_said(before, processor, parts)
}

/// The processor that a part is.
fn processor_read(part: &[u8]) -> Result<u64, Why>
    ensures read { result ≡ processor_read (number_spelled part.now) }
    ensures few { IfOk result (λ processor. processor < 4096) }
{
    let processor = numeral_of(part).ok_or(Why::BadLine)?;
    if processor > MAX_PROCESSOR {
        return Err(Why::BadNumber);
    }
    Ok(processor)
}

/// What the parts after a processor say of it.
fn keyword_said(before: Widths, processor: u64, parts: Option<&[u8]>) -> Result<RunText, Why>
    requires { processor < 4096 }
    ensures said { line_left result ≡ keyword_said before processor (tokens_after parts.entry) }
    ensures processor { IfOk result HasProcessor }
{
    let Some(rest) = parts else {
        return Err(Why::BadLine);
    };
    let (word, parts) = next_token(rest);
    let step = step_said(before, word, parts)?;
    Ok(RunText::Step { processor, step })
}
