//! What the parts of a line say after its keyword.
ghost use Rattle.std.specs.Prelude.{◌≡◌, []};
ghost use Rattle.line_text.specs.Lines.{tokens_after};
ghost use Rattle.run_lines.specs.Arguments.{admits, all_said, holds_value, no_numbers, place_alone, place_and_value, place_and_values, place_left, place_numbers, place_said, value_left, value_numbers, value_said, values_numbers};

use crate::numerals::numeral_of;
use crate::places::place_of;
use line_text::next_token;
use run_steps::Place;
use tso_text::Why;

/// Which places the lines of a text had so far.
#[derive(Clone, Copy, Debug, PartialEq, Eq)]
pub enum Widths {
    /// None.
    Unseen,
    /// Locations.
    Locations,
    /// Bytes.
    Bytes,
}

/// Whether a place of this width may stand in a text whose places were these.
fn admits(before: Widths, width: u64) -> bool
    ensures { result ≡ admits before width }
{
    match before {
        Widths::Unseen => true,
        Widths::Locations => width == 0,
        Widths::Bytes => width != 0,
    }
}

/// The place that the first part is, and the parts after it.
fn place_in(before: Widths, parts: Option<&[u8]>) -> Result<(Place, Option<&[u8]>), Why>
    ensures { place_left result ≡ place_said before (tokens_after parts.entry) }
{
    let Some(rest) = parts else {
        return Err(Why::BadLine);
    };
    let (part, after) = next_token(rest);
    let place = place_of(part).ok_or(Why::BadNumber)?;
    if !admits(before, place.width) {
        return Err(Why::MixedWidths);
    }
    Ok((place, after))
}

/// Whether a place of this width holds a value.
fn holds_value(width: u64, value: u64) -> bool
    ensures { result ≡ holds_value width value }
{
    if width == 1 {
        value < 0x100
    } else if width == 2 {
        value < 0x1_0000
    } else if width == 3 {
        value < 0x100_0000
    } else if width == 4 {
        value < 0x1_0000_0000
    } else if width == 5 {
        value < 0x100_0000_0000
    } else if width == 6 {
        value < 0x1_0000_0000_0000
    } else if width == 7 {
        value < 0x100_0000_0000_0000
    } else {
        true
    }
}

/// The value of a place of this width that the first part is, and the parts after it.
fn value_in(width: u64, parts: Option<&[u8]>) -> Result<(u64, Option<&[u8]>), Why>
    ensures { value_left result ≡ value_said width (tokens_after parts.entry) }
{
    let Some(rest) = parts else {
        return Err(Why::BadLine);
    };
    let (part, after) = next_token(rest);
    let value = numeral_of(part).ok_or(Why::BadNumber)?;
    if !holds_value(width, value) {
        return Err(Why::BadNumber);
    }
    Ok((value, after))
}

/// A place alone.
pub(crate) fn place_alone(before: Widths, parts: Option<&[u8]>) -> Result<Place, Why>
    ensures { place_numbers result ≡ place_alone before (tokens_after parts.entry) }
{
    let (place, rest) = place_in(before, parts)?;
    match rest {
        None => Ok(place),
        Some(_) => Err(Why::BadLine),
    }
}

/// A place and a value.
pub(crate) fn place_and_value(before: Widths, parts: Option<&[u8]>) -> Result<(Place, u64), Why>
    ensures { value_numbers result ≡ place_and_value before (tokens_after parts.entry) }
{
    let (place, rest) = place_in(before, parts)?;
    let (value, rest) = value_in(place.width, rest)?;
    match rest {
        None => Ok((place, value)),
        Some(_) => Err(Why::BadLine),
    }
}

/// A place and two values.
pub(crate) fn place_and_values(
    before: Widths,
    parts: Option<&[u8]>,
) -> Result<(Place, u64, u64), Why>
    ensures { values_numbers result ≡ place_and_values before (tokens_after parts.entry) }
{
    let (place, rest) = place_in(before, parts)?;
    let (first, rest) = value_in(place.width, rest)?;
    let (second, rest) = value_in(place.width, rest)?;
    match rest {
        None => Ok((place, first, second)),
        Some(_) => Err(Why::BadLine),
    }
}

/// No part is left.
pub(crate) fn nothing(parts: Option<&[u8]>) -> Result<(), Why>
    ensures { no_numbers result ≡ all_said [] (tokens_after parts.entry) }
{
    match parts {
        None => Ok(()),
        Some(_) => Err(Why::BadLine),
    }
}
