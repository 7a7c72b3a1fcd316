//! A text in a string of JSON.
ghost use Rattle.std.specs.Prelude.{◌≡◌, ◌++◌, OnOk, string_bytes};
ghost use Rattle.json_texts.specs.Characters.{json_text};

use crate::characters::push_json_character;
use std::alloc::AllocError;

/// Appends a text as it stands in a string of JSON, without the quotes around it. OutOfMemory where an allocation was refused.
pub fn push_json_text(text: &mut String, said: &str) -> Result<(), AllocError>
    ensures { OnOk result (string_bytes text.new ≡ string_bytes text.old ++ json_text said.now) }
{
    for character in said.chars() {
        push_json_character(text, character)?;
    }
    Ok(())
}
