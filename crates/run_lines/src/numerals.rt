//! Numbers, decimal or hexadecimal.
ghost use Rattle.std.specs.Prelude.{◌≡◌, ◌+◌, ◌*◌, ◌^◌, ◌&&◌, nat_lt, Some, None, if◌then◌else◌};
ghost use Rattle.std.specs.Char.{digit_value};
ghost use Rattle.run_lines.specs.Numerals.{hexadecimal, is_hexadecimal_digit, number_spelled};

use line_text::number_of;

/// The number that a token spells: hexadecimal digits after `0x`, or decimal ones without a leading zero, within 64 bits.
pub fn numeral_of(token: &[u8]) -> Option<u64>
    ensures { result ≡ number_spelled token.now }
{
    if token.len() >= 2 && token[0] == 48 && token[1] == 120 {
        hexadecimal_of(&token[2..])
    } else {
        number_of(token)
    }
}

/// The number that hexadecimal digits spell, one at least.
fn hexadecimal_of(digits: &[u8]) -> Option<u64>
    ensures { result ≡ hexadecimal digits.now }
{
    if digits.is_empty() {
        return None;
    }
    let mut value: u64 = 0;
    for byte in digits {
        value = with_hexadecimal(value, *byte)?;
    }
    Some(value)
}

/// The number that has this digit after those of `prefix`; None where the byte is no digit or 64 bits don't hold the number.
#[inline]
fn with_hexadecimal(prefix: u64, byte: u8) -> Option<u64>
    ensures { result ≡ if is_hexadecimal_digit byte && nat_lt (prefix * 16 + digit_value byte) (2 ^ 64) then Some (prefix * 16 + digit_value byte) else None }
{
    let digit = digit_of(byte)?;
    prefix.checked_mul(16)?.checked_add(digit)
}

/// The value of a hexadecimal digit.
#[inline]
fn digit_of(byte: u8) -> Option<u64>
    ensures { result ≡ if is_hexadecimal_digit byte then Some (digit_value byte) else None }
{
    if byte >= 48 && byte <= 57 {
        Some(u64::from(byte - 48))
    } else if byte >= 97 && byte <= 102 {
        Some(u64::from(byte - 87))
    } else {
        None
    }
}
