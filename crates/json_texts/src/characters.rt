//! The characters of a text, escaped.
ghost use Rattle.std.specs.Prelude.{◌≡◌, ◌<◌, ◌++◌, OnOk, string_bytes};
ghost use Rattle.json_texts.specs.Characters.{control_escape, hexadecimal_digit, json_character, printable};

use std::alloc::AllocError;

/// The hexadecimal digits.
const DIGITS: [char; 16] = [
    '0', '1', '2', '3', '4', '5', '6', '7', '8', '9', 'a', 'b', 'c', 'd', 'e', 'f',
];

/// Appends a character; the escape of a control character, one below 32. OutOfMemory where an allocation was refused.
pub fn push_printable(text: &mut String, character: char) -> Result<(), AllocError>
    ensures { OnOk result (string_bytes text.new ≡ string_bytes text.old ++ printable character) }
{
    let code = character as u32;
    if code < 32 {
        push_control(text, code)
    } else {
        text.push(character)
    }
}

/// Appends the escape of a control character, by its number.
fn push_control(text: &mut String, code: u32) -> Result<(), AllocError>
    requires { code < 32 }
    ensures { OnOk result (string_bytes text.new ≡ string_bytes text.old ++ control_escape code) }
{
    text.push_str("\\u00")?;
    push_digit(text, code / 16)?;
    push_digit(text, code % 16)
}

/// Appends a hexadecimal digit.
fn push_digit(text: &mut String, digit: u32) -> Result<(), AllocError>
    requires { digit < 16 }
    ensures { OnOk result (string_bytes text.new ≡ string_bytes text.old ++ hexadecimal_digit digit) }
{
    text.push(DIGITS[digit as usize])
}

/// Appends a character of a string of JSON: also quotes and backslashes are escaped. OutOfMemory where an allocation was refused.
pub fn push_json_character(text: &mut String, character: char) -> Result<(), AllocError>
    ensures { OnOk result (string_bytes text.new ≡ string_bytes text.old ++ json_character character) }
{
    match character {
        '"' => text.push_str("\\\""),
        '\\' => text.push_str("\\\\"),
        _ => push_printable(text, character),
    }
}
