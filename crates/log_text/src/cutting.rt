//! How the accesses of a text are cut, where its places are bytes.
ghost use Rattle.std.specs.Prelude.{◌≡◌, ◌/◌, ◌%◌, ◌^◌, ℕ, List, IfOk, OnOk};
ghost use Rattle.std.specs.HashSet.{keys};
ghost use Rattle.line_text.specs.Lines.{parts_of};
ghost use Rattle.log_text.specs.Internal.Cuts.{AreTextsSaid, CutsText, HasBoundaries, HasMoreBoundaries, IsWithin};
ghost use Rattle.log_text.specs.Splits.{address_in, address_of_operation, boundaries_in, boundaries_of_lines, line_on_piece, operation_on_piece, piece_value, pieces};

use crate::lines::{LogLine, SaidLine, line_said, widths_of_text};
use crate::logs::LogOperation;
use line_text::next_line;
use run_lines::Widths;
use std::alloc::Global;
use std::collections::HashSet;
use tso_ops::OutOfMemory;

/// Where the accesses of a text are cut.
#[derive(Drop)]
pub(crate) struct Cutting {
    /// What the places of the text are.
    pub(crate) places: Widths,
    /// The boundaries of all its places, where they are bytes.
    pub(crate) boundaries: HashSet<u64>,
}

impl Cutting {
    /// Where the accesses of a text are cut. OutOfMemory where an allocation was refused.
    pub(crate) fn new(alloc: Global, text: &[u8]) -> Result<Cutting, OutOfMemory>
        ensures { IfOk result (λ cutting. CutsText cutting text.now) }
    {
        let places = widths_of_text(text);
        let boundaries = match places {
            Widths::Bytes => boundaries_of(alloc, text)?,
            Widths::Unseen | Widths::Locations => HashSet::new(alloc),
        };
        Ok(Cutting { places, boundaries })
    }

    /// The pieces of what a line says, each by its address and how many bytes it has. OutOfMemory where an allocation was refused.
    pub(crate) fn pieces(
        &self,
        alloc: Global,
        said: SaidLine,
    ) -> Result<Vec<(u64, u64)>, OutOfMemory>
        requires { IsWithin said }
        ensures { IfOk result (λ found. found.items ≡ pieces (keys self.now.boundaries) (address_in said.line) said.width) }
    {
        let address = address_in(said.line);
        let mut found = Vec::new(alloc);
        if said.width == 0 {
            found.push((address, 0))?;
            return Ok(found);
        }
        let mut start = address;
        let mut count: u64 = 1;
        for more in 1..said.width {
            let next = address + more;
            if self.boundaries.contains(&next) {
                found.push((start, count))?;
                start = next;
                count = 1;
            } else {
                count += 1;
            }
        }
        found.push((start, count))?;
        Ok(found)
    }
}

/// The boundaries of all places of a text whose places are bytes, up to the first line that is refused. OutOfMemory where an
/// allocation was refused.
fn boundaries_of(alloc: Global, text: &[u8]) -> Result<HashSet<u64>, OutOfMemory>
    ensures { IfOk result (λ found. (lines : List SaidLine) → AreTextsSaid Widths.Bytes (parts_of text.now) lines →
        HasBoundaries found (boundaries_of_lines Widths.Bytes lines)) }
{
    let mut found = HashSet::new(alloc);
    let mut rest = text;
    'lines: loop {
        let Some((line, after)) = next_line(rest) else {
            return Ok(found);
        };
        match line_said(Widths::Bytes, line) {
            Ok(said) => add_boundaries(&mut found, said)?,
            Err(_) => return Ok(found),
        }
        rest = after;
    }
}

/// Adds the boundaries of a line's place. OutOfMemory where an allocation was refused.
fn add_boundaries(found: &mut HashSet<u64>, said: SaidLine) -> Result<(), OutOfMemory>
    requires { IsWithin said }
    ensures { OnOk result (HasMoreBoundaries found.old found.new (boundaries_in said)) }
{
    if said.width == 0 {
        return Ok(());
    }
    let address = address_in(said.line);
    found.insert(address)?;
    // None where the place ends at 2^64: no byte is there.
    if let Some(end) = address.checked_add(said.width) {
        found.insert(end)?;
    }
    Ok(())
}

/// The address that a line names, 0 where it names none.
fn address_in(line: LogLine) -> u64
    ensures { result ≡ address_in line }
{
    match line {
        LogLine::First { a, .. } | LogLine::Unknown { a, .. } => a,
        LogLine::Issued { x, .. } => address_of_operation(x),
        LogLine::Note | LogLine::Pso | LogLine::Memory | LogLine::End => 0,
    }
}

/// Where an operation is: 0 of a barrier.
fn address_of_operation(operation: LogOperation) -> u64
    ensures { result ≡ address_of_operation operation }
{
    match operation {
        LogOperation::Ld { a, .. } | LogOperation::St { a, .. } | LogOperation::Sw { a, .. } => a,
        LogOperation::Mb | LogOperation::Sb => 0,
    }
}

/// What a line says of a piece of its place.
pub(crate) fn line_on_piece(line: LogLine, piece: (u64, u64)) -> LogLine
    ensures { result ≡ line_on_piece line piece }
{
    match line {
        LogLine::First { a, v } => LogLine::First {
            a: piece.0,
            v: piece_value(a, v, piece),
        },
        LogLine::Issued { p, x } => LogLine::Issued {
            p,
            x: operation_on_piece(x, piece),
        },
        LogLine::Unknown { p, .. } => LogLine::Unknown { p, a: piece.0 },
        LogLine::Note | LogLine::Pso | LogLine::Memory | LogLine::End => line,
    }
}

/// What an operation does to a piece of its place.
fn operation_on_piece(operation: LogOperation, piece: (u64, u64)) -> LogOperation
    ensures { result ≡ operation_on_piece operation piece }
{
    match operation {
        LogOperation::Ld { a, r } => LogOperation::Ld {
            a: piece.0,
            r: piece_value(a, r, piece),
        },
        LogOperation::St { a, v } => LogOperation::St {
            a: piece.0,
            v: piece_value(a, v, piece),
        },
        LogOperation::Sw { a, r, v } => LogOperation::Sw {
            a: piece.0,
            r: piece_value(a, r, piece),
            v: piece_value(a, v, piece),
        },
        LogOperation::Mb | LogOperation::Sb => operation,
    }
}

/// What a piece holds of the value of a place at an address, the lowest byte first.
fn piece_value(address: u64, value: u64, piece: (u64, u64)) -> u64
    ensures { result ≡ piece_value address value piece }
{
    if piece.1 == 0 {
        return value;
    }
    low_bytes(above_bytes(value, piece.0.saturating_sub(address)), piece.1)
}

/// What is left of a value above so many bytes.
fn above_bytes(value: u64, count: u64) -> u64
    ensures { result ≡ value / 256 ^ count }
{
    let mut left = value;
    for _i in 0..count {
        left /= 256;
    }
    left
}

/// So many bytes of a value, the lowest.
fn low_bytes(value: u64, count: u64) -> u64
    ensures { result ≡ value % 256 ^ count }
{
    let mut bound: u64 = 1;
    for _i in 0..count {
        match bound.checked_mul(256) {
            Some(next) => bound = next,
            None => return value,
        }
    }
    value % bound
}
