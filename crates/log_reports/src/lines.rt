//! Lines of a log.
ghost use Rattle.std.specs.Prelude.{◌≡◌, ◌++◌, string_bytes, OnOk};
ghost use Rattle.log_reports.specs.Lines.{log_line_text, log_lines_text, operation_text, log_place_text, repeated, line_operation_text, wide_operation_text};

use log_selections::Shown;
use log_text::{LineTags, LogLine, LogOperation, SaidLine};
use std::alloc::AllocError;
use std::fmt::Write;
use std::str;
use tso_text::words::{LD, MB, ST, STBAR, SW};

/// Appends the lines of these operations, each once, with their tags. OutOfMemory where an allocation was refused.
pub(crate) fn push_lines(
    text: &mut String,
    tags: &LineTags,
    shown: &[Shown],
) -> Result<(), AllocError>
    ensures { OnOk result (string_bytes text.new ≡ string_bytes text.old ++ log_lines_text tags.now shown.now) }
{
    let mut before: usize = 0;
    for s in shown {
        let line = tags.origins.line(s.logged.line);
        if line != before {
            push_line(text, tags, s)?;
        }
        before = line;
    }
    Ok(())
}

/// Appends the line of an operation: its number, how it stands in the log, and its tag.
pub(crate) fn push_line(text: &mut String, tags: &LineTags, shown: &Shown) -> Result<(), AllocError>
    ensures { OnOk result (string_bytes text.new ≡ string_bytes text.old ++ log_line_text tags.now shown.now) }
{
    let line = tags.origins.line(shown.logged.line);
    let processor = shown.processor;
    write!(text, "line {line} {processor} ")?;
    push_whole(
        text,
        tags.origins.said(shown.logged.line),
        shown.logged.operation,
    )?;
    text.push_str(repeated(tags.tag_of_line(line)))?;
    text.push_str("\n")
}

/// Appends the operation of a line as it stands there, where this is a piece of it.
fn push_whole(
    text: &mut String,
    said: Option<SaidLine>,
    piece: LogOperation,
) -> Result<(), AllocError>
    ensures { OnOk result (string_bytes text.new ≡ string_bytes text.old ++ line_operation_text said piece) }
{
    match said {
        None => push_operation(text, piece),
        Some(SaidLine { line, width }) => match line {
            LogLine::Issued { x, .. } => push_wide(text, width, x),
            LogLine::Note
            | LogLine::Pso
            | LogLine::First { .. }
            | LogLine::Unknown { .. }
            | LogLine::Memory
            | LogLine::End => push_operation(text, piece),
        },
    }
}

/// Appends an operation on a place of this width.
fn push_wide(text: &mut String, width: u64, operation: LogOperation) -> Result<(), AllocError>
    ensures { OnOk result (string_bytes text.new ≡ string_bytes text.old ++ wide_operation_text width operation) }
{
    match operation {
        LogOperation::Ld { a, r } => {
            push_place(text, LD, a, width)?;
            write!(text, " {r}")
        }
        LogOperation::St { a, v } => {
            push_place(text, ST, a, width)?;
            write!(text, " {v}")
        }
        LogOperation::Sw { a, r, v } => {
            push_place(text, SW, a, width)?;
            write!(text, " {r} {v}")
        }
        LogOperation::Mb => text.push_str(MB),
        LogOperation::Sb => text.push_str(STBAR),
    }
}

/// Appends a keyword and a place of this width.
fn push_place(text: &mut String, word: &str, address: u64, width: u64) -> Result<(), AllocError>
    ensures { OnOk result (string_bytes text.new ≡ string_bytes text.old ++ log_place_text word.now address width) }
{
    write!(text, "{word} {address}")?;
    if width != 0 {
        write!(text, "/{width}")?;
    }
    Ok(())
}

/// What is repeated of a tag: all of one of a log, which is ASCII.
fn repeated(tag: &[u8]) -> &str
    ensures { result.now ≡ repeated tag.now }
{
    match str::from_utf8(tag) {
        Ok(text) => text,
        Err(_) => "",
    }
}

/// Appends an operation as it stands in a log.
pub(crate) fn push_operation(text: &mut String, operation: LogOperation) -> Result<(), AllocError>
    ensures { OnOk result (string_bytes text.new ≡ string_bytes text.old ++ operation_text operation) }
{
    match operation {
        LogOperation::Ld { a, r } => write!(text, "{LD} {a} {r}"),
        LogOperation::St { a, v } => write!(text, "{ST} {a} {v}"),
        LogOperation::Sw { a, r, v } => write!(text, "{SW} {a} {r} {v}"),
        LogOperation::Mb => text.push_str(MB),
        LogOperation::Sb => text.push_str(STBAR),
    }
}
