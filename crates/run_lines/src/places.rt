//! The places that tokens spell.
ghost use Rattle.std.specs.Prelude.{◌≡◌, ◌==◌, None, Some, option_map};
ghost use Rattle.std.specs.List.{position};
ghost use Rattle.run_lines.specs.PlaceTexts.{bytes_at, is_byte_count, place_spelled};

use crate::numerals::numeral_of;
use run_steps::Place;

/// The byte between an address and how many bytes there are.
const SLASH: u8 = 47;

/// The place that a token spells: an address, as of a location, or an address and 1, 2, 4 or 8 bytes, as `0x20/4`, which lie below 2^64.
pub fn place_of(token: &[u8]) -> Option<Place>
    ensures { option_map (λ place. (place.address, place.width)) result ≡ place_spelled token.now }
{
    match slash_of(token) {
        None => Place::new(numeral_of(token)?, 0),
        Some(i) => bytes_at(numeral_of(&token[..i]), numeral_of(&token[i + 1..])),
    }
}

/// The index of the first slash.
fn slash_of(token: &[u8]) -> Option<usize>
    ensures { result ≡ position (λ b. b == 47) token.now }
{
    token.iter().position(|b| *b == SLASH)
}

/// So many bytes from an address on.
fn bytes_at(address: Option<u64>, count: Option<u64>) -> Option<Place>
    ensures { option_map (λ place. (place.address, place.width)) result ≡ bytes_at address count }
{
    match (address, count) {
        (Some(address), Some(count)) if is_byte_count(count) => Place::new(address, count),
        _ => None,
    }
}

/// Whether a place that isn't a location may have so many bytes.
fn is_byte_count(count: u64) -> bool
    ensures { result ≡ is_byte_count count }
{
    count == 1 || count == 2 || count == 4 || count == 8
}
