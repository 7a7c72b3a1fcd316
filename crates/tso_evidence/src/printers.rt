ghost use Rattle.std.specs.Prelude.{◌≡◌, ◌++◌, ◌∷◌, All, string_bytes, OnOk};
ghost use Rattle.std.specs.List.{flat_map, join_with_byte};
ghost use Rattle.std.specs.Fmt.{decimal};
ghost use Rattle.line_text.specs.Lines.{line_text};
ghost use Rattle.tso_cert.specs.Printed.{event_text, Fits};
ghost use Rattle.tso_evidence.specs.Printed.{line_tokens, lines_tokens, evidence_text, LineFits};
ghost use Rattle.tso_evidence.specs.Spelling.{SpellsEvidence};

use crate::evidence::Evidence;
use crate::lines::number_after;
use crate::refutations::RefutationLine;
use std::fmt::Write;
use tso_cert::OutOfMemory;
use tso_cert::parts::{print_event, print_events, print_reason};

/// Appends the text of the evidence. It spells the evidence, so `read_evidence` reads it back. OutOfMemory where an allocation
/// was refused: what the text holds then isn't said.
pub fn print_evidence(text: &mut String, evidence: &Evidence) -> Result<(), OutOfMemory>
    ensures lines { OnOk result (string_bytes text.new ≡ string_bytes text.old ++ evidence_text evidence.now) }
    ensures spells { OnOk result (SpellsEvidence (evidence_text evidence.now) evidence.now) }
{
    match evidence {
        Evidence::Unwritten(n) => {
            text.push_str("unwritten")?;
            print_event(text, *n)?;
            text.push_str("\n")
        }
        Evidence::Order(numbers) => {
            text.push_str("order")?;
            print_events(text, numbers.items())?;
            text.push_str("\n")
        }
        Evidence::Refutation(lines) => print_lines(text, lines.items()),
    }
}

/// Appends the lines of a refutation.
fn print_lines(text: &mut String, lines: &[RefutationLine]) -> Result<(), OutOfMemory>
    ensures lines { OnOk result (string_bytes text.new ≡ string_bytes text.old ++ flat_map line_text (lines_tokens 1 lines.now)) }
    ensures fits { OnOk result (All LineFits lines.now) }
{
    let mut number: usize = 1;
    for line in lines {
        print_line(text, number, line)?;
        number = number_after(number, line);
    }
    Ok(())
}

/// Appends a line of a refutation, whose number is this one where it has any.
fn print_line(text: &mut String, number: usize, line: &RefutationLine) -> Result<(), OutOfMemory>
    ensures line { OnOk result (string_bytes text.new ≡ string_bytes text.old ++ line_text (line_tokens number line.now)) }
    ensures fits { OnOk result (LineFits line.now) }
{
    print_tokens(text, number, line)?;
    text.push_str("\n")
}

/// Appends the tokens of a line of a refutation, with spaces between them.
fn print_tokens(text: &mut String, number: usize, line: &RefutationLine) -> Result<(), OutOfMemory>
    ensures tokens { OnOk result (string_bytes text.new ≡ string_bytes text.old ++ join_with_byte 32 (line_tokens number line.now)) }
    ensures fits { OnOk result (LineFits line.now) }
{
    match line {
        RefutationLine::Step(step) => {
            print_pair(text, number, step.from, step.to)?;
            print_reason(text, &step.reason)
        }
        RefutationLine::Case { first, second } => {
            print_pair(text, number, *first, *second)?;
            text.push_str(" Case")
        }
        RefutationLine::Else { first, second } => {
            print_pair(text, number, *first, *second)?;
            text.push_str(" Else")
        }
        RefutationLine::Cycle(cycle) => {
            text.push_str("cycle")?;
            print_events(text, cycle.items())
        }
    }
}

/// Appends the number of a line and two event numbers.
fn print_pair(text: &mut String, number: usize, from: u64, to: u64) -> Result<(), OutOfMemory>
    ensures tokens { OnOk result (string_bytes text.new ≡ ((string_bytes text.old ++ decimal number) ++ 32 ∷ event_text from) ++ 32 ∷ event_text to) }
    ensures fits { Fits from × Fits to }
{
    write!(text, "{number}")?;
    print_event(text, from)?;
    print_event(text, to)
}
