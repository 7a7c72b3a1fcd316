//! What the lines of a text say to a log.
ghost use Rattle.std.specs.Prelude.{◌≡◌, ℕ, IfOk, unwrap_or};
ghost use Rattle.line_text.specs.Lines.{parts_of};
ghost use Rattle.run_lines.specs.Lines.{LineNumbers, numbers_of_step, step_word, line_read, text_numbers};
ghost use Rattle.log_text.specs.Internal.Cuts.{IsWithin};
ghost use Rattle.log_text.specs.LogLines.{line_said, line_told, refusal_told, said_told, step_told, width_told, widths_of_texts, widths_read};

use crate::logs::LogOperation;
use line_text::next_line;
use run_lines::{RunText, Widths, line_read, widths_after};
use run_steps::RunStep;
use tso_text::Why;

/// What a line says to a log.
#[derive(Clone, Copy, Debug)]
pub enum LogLine {
    /// Nothing.
    Note,
    /// The memory model is PSO.
    Pso,
    /// A first value of an address.
    First { a: u64, v: u64 },
    /// An operation of a processor.
    Issued { p: u64, x: LogOperation },
    /// A processor did something else to a place.
    Unknown { p: u64, a: u64 },
    /// A store reached memory, or what memory holds at the end: a log says neither.
    Memory,
    /// Nothing follows.
    End,
}

/// What a line says to a log, and how wide its place is.
#[derive(Clone, Copy, Debug)]
pub struct SaidLine {
    /// What it says.
    pub line: LogLine,
    /// How many bytes its place has: 0 for a location, and where it says nothing of a place.
    pub width: u64,
}

/// What a line says to a log, without its line end, in a text of such places. Refused as a line of a run is; where the places are
/// locations, as Widths for a place with a width.
#[tactic(auto, unfolding(crate::specs::LogLines::line_said))]
pub(crate) fn line_said(places: Widths, line: &[u8]) -> Result<SaidLine, Why>
    ensures is { result ≡ line_said places line.now }
    ensures within { IfOk result IsWithin }
{
    match line_read(places, line) {
        Ok(said) => Ok(said_told(said)),
        Err(why) => Err(refusal_told(places, why)),
    }
}

/// What a line of a run says to a log.
fn said_told(said: RunText) -> SaidLine
    ensures is { result ≡ said_told (text_numbers said) }
    ensures within { IsWithin result }
{
    SaidLine {
        line: line_told(said),
        width: width_told(said),
    }
}

/// What a line of a run says to a log, whatever the width of its place.
fn line_told(said: RunText) -> LogLine
    ensures { result ≡ line_told (text_numbers said) }
{
    match said {
        RunText::Note => LogLine::Note,
        RunText::Pso => LogLine::Pso,
        RunText::First { place, value } => LogLine::First {
            a: place.address,
            v: value,
        },
        RunText::Step { processor, step } => step_told(processor, step),
        RunText::End => LogLine::End,
    }
}

/// How many bytes the place has of which a line of a run says something to a log.
fn width_told(said: RunText) -> u64
    ensures { result ≡ width_told (text_numbers said) }
{
    match said {
        RunText::First { place, .. } => place.width,
        RunText::Step { step, .. } => step_width(step),
        RunText::Note | RunText::Pso | RunText::End => 0,
    }
}

/// The same of a step.
fn step_width(step: RunStep) -> u64
    ensures { (p : ℕ) → result ≡ width_told (LineNumbers.step p (step_word step) (numbers_of_step step)) }
{
    match step {
        RunStep::Load { place, .. }
        | RunStep::Reserve { place, .. }
        | RunStep::Store { place, .. }
        | RunStep::Write { place, .. }
        | RunStep::StoreReserved { place, .. }
        | RunStep::Swap { place, .. }
        | RunStep::Unknown { place } => place.width,
        RunStep::Membar | RunStep::Stbar | RunStep::Drain { .. } | RunStep::Last { .. } => 0,
    }
}

/// What a step of a run says to a log.
fn step_told(p: u64, step: RunStep) -> LogLine
    ensures { result ≡ step_told p (step_word step) (numbers_of_step step) }
{
    match step {
        RunStep::Load { place, value } | RunStep::Reserve { place, value } => LogLine::Issued {
            p,
            x: LogOperation::Ld {
                a: place.address,
                r: value,
            },
        },
        RunStep::Store { place, value }
        | RunStep::Write { place, value }
        | RunStep::StoreReserved { place, value } => LogLine::Issued {
            p,
            x: LogOperation::St {
                a: place.address,
                v: value,
            },
        },
        RunStep::Swap { place, read, value } => LogLine::Issued {
            p,
            x: LogOperation::Sw {
                a: place.address,
                r: read,
                v: value,
            },
        },
        RunStep::Membar => LogLine::Issued {
            p,
            x: LogOperation::Mb,
        },
        RunStep::Stbar => LogLine::Issued {
            p,
            x: LogOperation::Sb,
        },
        RunStep::Unknown { place } => LogLine::Unknown {
            p,
            a: place.address,
        },
        RunStep::Drain { .. } | RunStep::Last { .. } => LogLine::Memory,
    }
}

/// The refusal of a log by that of a line, in a text of such places.
fn refusal_told(places: Widths, why: Why) -> Why
    ensures { result ≡ refusal_told places why }
{
    match (places, why) {
        (Widths::Locations, Why::MixedWidths) => Why::Widths,
        (_, other) => other,
    }
}

/// Which places a text has: those of its first place, where no line before it is refused.
pub(crate) fn widths_of_text(text: &[u8]) -> Widths
    ensures { result ≡ widths_of_texts (parts_of text.now) }
{
    let mut rest = text;
    'lines: loop {
        let Some((line, after)) = next_line(rest) else {
            return widths_in(rest).unwrap_or(Widths::Unseen);
        };
        if let Some(places) = widths_in(line) {
            return places;
        }
        rest = after;
    }
}

/// Which places a line has: none where it has no place, and Unseen where it is refused.
fn widths_in(line: &[u8]) -> Option<Widths>
    ensures { (later : Widths) → unwrap_or result later ≡ widths_read (line_read Widths.Unseen line.now) later }
{
    match line_read(Widths::Unseen, line) {
        Ok(said) => match widths_after(Widths::Unseen, &said) {
            Widths::Unseen => None,
            places => Some(places),
        },
        Err(_) => Some(Widths::Unseen),
    }
}
