//! The names of texts, and what explains a violation, as they stand in the lines of a batch.
ghost use Rattle.std.specs.Prelude.{◌≡◌, ◌++◌, None, Some, IfOk, OnOk, option_map, string_bytes};
ghost use Rattle.trace_batches.specs.BatchNames.{escaped_text, is_outside_xml, is_xml_space, text_character, plain_xml_character, text_label, xml_character};

use json_texts::{push_json_character, push_printable};
use request_options::BatchFormat;
use std::alloc::Global;
use std::fmt::Write;
use tso_ops::OutOfMemory;

/// What stands in the lines of a text that has this name, or none.
pub(crate) fn text_label(
    alloc: Global,
    format: BatchFormat,
    name: Option<&str>,
) -> Result<String, OutOfMemory>
    ensures { IfOk result (λ label. string_bytes label ≡ text_label format (option_map (λ name. name.now) name.entry)) }
{
    match name {
        Some(name) => named_label(alloc, format, name),
        None => Ok(String::from_str(alloc, nameless_label(format))?),
    }
}

/// What stands in the lines of a text without a name.
fn nameless_label(format: BatchFormat) -> &'static str
    ensures { result.now ≡ text_label format None }
{
    match format {
        BatchFormat::Words | BatchFormat::Json => "",
        BatchFormat::Junit => "batch",
    }
}

/// What stands in the lines of a text of this name.
fn named_label(alloc: Global, format: BatchFormat, name: &str) -> Result<String, OutOfMemory>
    ensures { IfOk result (λ label. string_bytes label ≡ text_label format (Some name.now)) }
{
    let escaped = escaped_text(alloc, format, name)?;
    let mut label = String::new(alloc);
    match format {
        BatchFormat::Words => write!(label, "{escaped}: ")?,
        BatchFormat::Json => write!(label, "\"file\":\"{escaped}\",")?,
        BatchFormat::Junit => write!(label, "{escaped}")?,
    }
    Ok(label)
}

/// The text, with what has to be escaped. OutOfMemory where an allocation was refused.
pub(crate) fn escaped_text(
    alloc: Global,
    format: BatchFormat,
    text: &str,
) -> Result<String, OutOfMemory>
    ensures { IfOk result (λ escaped. string_bytes escaped ≡ escaped_text format text.now) }
{
    let mut escaped = String::new(alloc);
    for character in text.chars() {
        push_character(&mut escaped, format, character)?;
    }
    Ok(escaped)
}

/// Appends a character of a text.
fn push_character(
    text: &mut String,
    format: BatchFormat,
    character: char,
) -> Result<(), OutOfMemory>
    ensures { OnOk result (string_bytes text.new ≡ string_bytes text.old ++ text_character format character) }
{
    match format {
        BatchFormat::Words => Ok(push_printable(text, character)?),
        BatchFormat::Json => Ok(push_json_character(text, character)?),
        BatchFormat::Junit => push_in_xml(text, character),
    }
}

/// Appends a character in an attribute or an element of XML.
fn push_in_xml(text: &mut String, character: char) -> Result<(), OutOfMemory>
    ensures { OnOk result (string_bytes text.new ≡ string_bytes text.old ++ xml_character character) }
{
    match character {
        '&' => Ok(text.push_str("&amp;")?),
        '<' => Ok(text.push_str("&lt;")?),
        '>' => Ok(text.push_str("&gt;")?),
        '"' => Ok(text.push_str("&quot;")?),
        _ => push_plain_in_xml(text, character),
    }
}

/// Appends a character that isn't among those.
fn push_plain_in_xml(text: &mut String, character: char) -> Result<(), OutOfMemory>
    ensures { OnOk result (string_bytes text.new ≡ string_bytes text.old ++ plain_xml_character character) }
{
    let code = character as u32;
    if is_xml_space(code) {
        Ok(write!(text, "&#{code};")?)
    } else if is_outside_xml(code) {
        Ok(text.push('\u{FFFD}')?)
    } else {
        Ok(text.push(character)?)
    }
}

/// Whether it is a tab, a line end or a carriage return.
fn is_xml_space(code: u32) -> bool
    ensures { result ≡ is_xml_space code }
{
    code == 9 || code == 10 || code == 13
}

/// Whether XML 1.0 has it in no spelling, where it isn't one of those.
fn is_outside_xml(code: u32) -> bool
    ensures { result ≡ is_outside_xml code }
{
    code < 32 || code == 65_534 || code == 65_535
}
