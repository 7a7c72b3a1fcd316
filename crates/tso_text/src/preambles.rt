//! How texts begin: their header, memory model and first values.
ghost use Rattle.std.specs.Prelude.{◌≡◌, ◌≢◌, [], ◌≤◌, length, OnOk, IfOk, IfErr};
ghost use Rattle.line_text.specs.Lines.{parts_of, tokens_after};
ghost use Rattle.tso_ops.specs.Limits.{KeepsEntries};
ghost use Rattle.tso_ops.specs.Settings.{setting_of};
ghost use Rattle.tso_text.specs.Internal.Preambles.{header_alone, setting_preamble};
ghost use Rattle.tso_text.specs.Internal.LineReadings.{model_said};
ghost use Rattle.tso_text.specs.Lines.{whole_lines};
ghost use Rattle.tso_text.specs.Texts.{text_byte_limit};
ghost use Rattle.tso_text.specs.Internal.Begun.{HasAllEntries, HasBadEntry, HasBadModel, HasBegun, HasHeader, HasModel, HasNoHeader, IsEntryRead, IsEntryRefused, IsPreambleRefusal};
ghost use Rattle.tso_text.specs.declared.faults.Why.{Why};

use crate::faults::{TextFault, Why, fault_of, why_of};
use crate::lines::next_line;
use crate::numbers::{address, no_number, token_of, two_numbers};
use line_text::next_token;
use std::alloc::Global;
use tso_ops::{Order, Setting, Version};

/// Reads the header of texts that begin with nothing else, and gives the setting of version 1 under TSO.
pub(crate) fn read_header<'a>(
    alloc: Global,
    header: &[u8],
    text: &'a [u8],
) -> Result<(Setting, usize, &'a [u8]), TextFault>
    ensures begun { IfOk result (λ begun. HasBegun (header_alone header.now (whole_lines (parts_of text.now))) text.now
        (setting_of begun.0) begun.1 begun.2.now) }
    ensures refused { IfErr result (λ fault. IsPreambleRefusal (header_alone header.now (whole_lines (parts_of text.now))) fault.line fault.why) }
    ensures why { IfErr result (λ fault. fault.why ≡ Why.BadHeader) }
{
    match next_line(text) {
        Ok((line, rest)) if line == header => Ok((Setting::of_order(alloc, Order::Tso), 1, rest)),
        _ => Err(TextFault {
            line: 1,
            why: Why::BadHeader,
        }),
    }
}

/// Reads one of two headers, of version 1 and of version 2, the memory model and the first values.
pub(crate) fn read_setting<'a>(
    alloc: Global,
    one: &[u8],
    two: &[u8],
    text: &'a [u8],
) -> Result<(Setting, usize, &'a [u8]), TextFault>
    requires { length text.now ≤ text_byte_limit }
    ensures begun { IfOk result (λ begun. HasBegun (setting_preamble one.now two.now (whole_lines (parts_of text.now))) text.now
        (setting_of begun.0) begun.1 begun.2.now) }
    ensures refused { IfErr result (λ fault. fault.why ≢ Why.OutOfMemory →
        IsPreambleRefusal (setting_preamble one.now two.now (whole_lines (parts_of text.now))) fault.line fault.why) }
    ensures memory { IfErr result (λ fault. fault.why ≡ Why.OutOfMemory → fault.line ≡ 0) }
{
    let (version, after_header) = match read_version(one, two, text) {
        Ok(found) => found,
        Err(why) => return Err(fault_of(1, why)),
    };
    let (order, lines, rest) = match read_model(after_header) {
        Ok(found) => found,
        Err(why) => return Err(fault_of(2, why)),
    };
    let mut setting = Setting {
        version,
        order,
        first: Vec::new(alloc),
    };
    match version {
        Version::One => Ok((setting, lines + 1, rest)),
        Version::Two => match read_entries(&mut setting, rest) {
            Ok((entries, after)) => Ok((setting, lines + entries + 1, after)),
            Err(fault) => Err(fault_of(lines + 2 + fault.line, fault.why)),
        },
    }
}

/// The version of the header, and what stands after it.
fn read_version<'a>(one: &[u8], two: &[u8], text: &'a [u8]) -> Result<(Version, &'a [u8]), Why>
    ensures found { IfOk result (λ found. HasHeader one.now two.now text.now found.0 found.1.now) }
    ensures none { IfErr result (λ why. (why ≡ Why.BadHeader) × HasNoHeader one.now two.now text.now) }
{
    match next_line(text) {
        Ok((line, rest)) => {
            if line == two {
                Ok((Version::Two, rest))
            } else if line == one {
                Ok((Version::One, rest))
            } else {
                Err(Why::BadHeader)
            }
        }
        Err(_) => Err(Why::BadHeader),
    }
}

/// The memory model, the number of lines that say it, 0 or 1, and what stands after them.
fn read_model(text: &[u8]) -> Result<(Order, usize, &[u8]), Why>
    ensures found { IfOk result (λ found. HasModel text.now found.0 found.1 found.2.now) }
    ensures refused { IfErr result (HasBadModel text.now) }
{
    match next_line(text) {
        Ok((line, rest)) => {
            let (word, tokens) = next_token(line);
            if word == b"model".as_slice() {
                model_name(tokens)?;
                Ok((Order::Pso, 1, rest))
            } else {
                Ok((Order::Tso, 0, text))
            }
        }
        Err(_) => Ok((Order::Tso, 0, text)),
    }
}

/// Reads the name of a memory model, which is `pso`.
#[tactic(auto, unfolding(crate::specs::Internal::LineReadings::model_said))]
fn model_name(tokens: Option<&[u8]>) -> Result<(), Why>
    ensures { result ≡ model_said (tokens_after tokens.entry) }
{
    let (name, rest) = token_of(tokens)?;
    no_number(rest)?;
    if name == b"pso".as_slice() {
        Ok(())
    } else {
        Err(Why::BadModel)
    }
}

/// Appends the first values of the lines `init` that the text begins with. Gives their number, and what stands after them;
/// or the refusal of the first that has a fault, with the number of those before it.
fn read_entries<'a>(setting: &mut Setting, text: &'a [u8]) -> Result<(usize, &'a [u8]), TextFault>
    requires { setting.old.first.items ≡ [] }
    ensures setting { OnOk result ((setting.new.version ≡ setting.old.version) × (setting.new.order ≡ setting.old.order)) }
    ensures read { IfOk result (λ read. HasAllEntries text.now setting.new.first.items read.0 read.1.now) }
    ensures kept { OnOk result (KeepsEntries setting.new.first.items) }
    ensures refused { IfErr result (λ fault. HasBadEntry text.now fault.line fault.why) }
{
    let mut rest = text;
    let mut lines: usize = 0;
    loop {
        let Ok((line, after)) = next_line(rest) else {
            return Ok((lines, rest));
        };
        let (word, tokens) = next_token(line);
        let is_entry = word == b"init".as_slice();
        if !is_entry {
            return Ok((lines, rest));
        }
        if let Err(why) = read_entry(setting, tokens) {
            return Err(TextFault { line: lines, why });
        }
        rest = after;
        lines += 1;
    }
}

/// Appends the first value that these tokens say.
fn read_entry(setting: &mut Setting, tokens: Option<&[u8]>) -> Result<(), Why>
    requires { KeepsEntries setting.old.first.items }
    ensures read { OnOk result (IsEntryRead (setting_of setting.old) (tokens_after tokens.entry) (setting_of setting.new)) }
    ensures kept { OnOk result (KeepsEntries setting.new.first.items) }
    ensures refused { IfErr result (IsEntryRefused setting.old.first.items (tokens_after tokens.entry)) }
{
    let (a, v) = two_numbers(tokens)?;
    match setting.push_first(address(a), v) {
        Ok(()) => Ok(()),
        Err(fault) => Err(why_of(fault)),
    }
}
