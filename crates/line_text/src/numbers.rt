ghost use Rattle.std.specs.Prelude.{◌≡◌, ◌+◌, ◌*◌, ◌^◌, ◌&&◌, nat_lt, Some, None, if◌then◌else◌};
ghost use Rattle.std.specs.Char.{is_ascii_digit, digit_value};
ghost use Rattle.line_text.specs.Numbers.{is_canonical, number};

/// The number that a token spells: digits without a leading zero, within 64 bits.
pub fn number_of(token: &[u8]) -> Option<u64>
    ensures { result ≡ number token.now }
{
    if !is_canonical(token) {
        return None;
    }
    let mut value: u64 = 0;
    for byte in token {
        value = with_digit(value, *byte)?;
    }
    Some(value)
}

/// The number that has this digit after the digits of `prefix`; nothing where the byte is no digit or 64 bits don't
/// hold the number.
#[inline]
fn with_digit(prefix: u64, byte: u8) -> Option<u64>
    ensures { result ≡ if is_ascii_digit byte && nat_lt (prefix * 10 + digit_value byte) (2 ^ 64) then Some (prefix * 10 + digit_value byte) else None }
{
    if !byte.is_ascii_digit() {
        return None;
    }
    prefix.checked_mul(10)?.checked_add(u64::from(byte - 48))
}

/// Whether a token isn't empty and has no 0 before another byte.
fn is_canonical(token: &[u8]) -> bool
    ensures { result ≡ is_canonical token.now }
{
    match token {
        [] => false,
        [_] => true,
        [first, _, ..] => *first != 48,
    }
}
