//! The texts that a request names: opened before one is read, and then read, whole or the trace text of a number.
ghost use Rattle.std.specs.Prelude.{◌≡◌, ◌⊎◌, ℕ, List, [], ◌∷◌, None, Option, IfOk, IfErr, IfSome, OnOk, filter_map, is_some, option_map, take};
ghost use Rattle.command_line.specs.Requests.{files_of};
ghost use Rattle.request_texts.specs.NthTraces.{IsKeptOfAsked, TakesTrace};
ghost use Rattle.request_texts.specs.OpenedFiles.{HasKnown, OpensFirst, OpensNext, name_in, opened_bytes, text_bytes};
ghost use Rattle.text_streams.specs.declared.faults.Fault.{Fault};
ghost use Rattle.text_streams.specs.Readings.{ReadsAs};
ghost use Rattle.text_streams.specs.Streams.{LosesPrefix};
ghost use Rattle.trace_streams.specs.Limits.{trace_read_limit};

use crate::files::{Environment, open};
use command_line::TextPair;
use std::alloc::Global;
use std::io::Read;
use text_streams::{Fault, read_all};
use trace_streams::read_trace_text;
use tso_text::MAX_TEXT_BYTES;

/// Two texts that were opened: each is in this file, or on standard input where there is none.
#[derive(Drop)]
pub struct OpenedPair<F> {
    /// The text that is read first.
    pub first: Option<F>,
    /// The text that is read after it.
    pub second: Option<F>,
}

/// Opens the file of this name; none where none is named, since the text is on standard input then. A file that can't be opened is
/// the fault Read.
pub fn open_named<O: Environment>(
    files: &mut O,
    name: Option<&str>,
) -> Result<Option<O::File>, Fault>
    ensures known { IfOk result (λ opened. (input : Option (List ℕ)) →
        HasKnown (text_bytes (name_in name.entry) input (O.bytes files.old)) (opened_bytes (option_map O.File.remaining opened) input)) }
    ensures which { IfOk result (λ opened. is_some opened ≡ is_some (name_in name.entry)) }
    ensures opened { OpensNext (O.opened files.old) (O.opened files.new) (filter_map (λ text. text) (name_in name.entry ∷ [])) }
    ensures same { O.bytes files.new ≡ O.bytes files.old }
    ensures fault { IfErr result (λ fault. fault ≡ Fault.Read) }
{
    match name {
        None => Ok(None),
        Some(name) => Ok(Some(open(files, name)?)),
    }
}

/// Opens the files of two texts, in order. A file that can't be opened is the fault Read.
pub fn open_pair<O: Environment>(
    files: &mut O,
    texts: TextPair<'_>,
) -> Result<OpenedPair<O::File>, Fault>
    ensures first_known { IfOk result (λ pair. (input : Option (List ℕ)) →
        HasKnown (text_bytes (files_of texts.entry).0 input (O.bytes files.old)) (opened_bytes (option_map O.File.remaining pair.first) input)) }
    ensures second_known { IfOk result (λ pair. (input : Option (List ℕ)) →
        HasKnown (text_bytes (files_of texts.entry).1 input (O.bytes files.old)) (opened_bytes (option_map O.File.remaining pair.second) input)) }
    ensures which { IfOk result (λ pair. (is_some pair.first ≡ is_some (files_of texts.entry).0) × (is_some pair.second ≡ is_some (files_of texts.entry).1)) }
    ensures first { OpensFirst (O.opened files.old) (O.opened files.new)
        (filter_map (λ text. text) ((files_of texts.entry).0 ∷ (files_of texts.entry).1 ∷ [])) }
    ensures opened { OnOk result (OpensNext (O.opened files.old) (O.opened files.new)
        (filter_map (λ text. text) ((files_of texts.entry).0 ∷ (files_of texts.entry).1 ∷ []))) }
    ensures fault { IfErr result (λ fault. fault ≡ Fault.Read) }
{
    match texts {
        TextPair::Files(first, second) => {
            let first = open(files, first)?;
            let second = open(files, second)?;
            Ok(OpenedPair {
                first: Some(first),
                second: Some(second),
            })
        }
        TextPair::InputAndFile(second) => {
            let second = open(files, second)?;
            Ok(OpenedPair {
                first: None,
                second: Some(second),
            })
        }
        TextPair::FileAndInput(first) => {
            let first = open(files, first)?;
            Ok(OpenedPair {
                first: Some(first),
                second: None,
            })
        }
    }
}

/// Reads a text that was opened, or else the one that `reader` has on standard input: its first 1,048,577 bytes at most.
///
/// Faults: OutOfMemory where an allocation was refused; Read where a reader failed, or as `read_all` says.
pub fn read_text<F: Read + Drop, R: Read>(
    alloc: Global,
    opened: Option<F>,
    reader: &mut R,
) -> Result<Vec<u8>, Fault>
    ensures prefix { let remaining = opened_bytes (option_map F.remaining opened) (R.remaining reader.old) in
        IfOk result (λ text. IfSome remaining (λ all. text.items ≡ take trace_read_limit all)) }
    ensures unread { IfSome opened (λ _. reader.new ≡ reader.old) }
    ensures taken { opened ≡ None → IfOk result (λ _. LosesPrefix trace_read_limit (R.remaining reader.old) (R.remaining reader.new)) }
    ensures fault { IfErr result (λ fault. (fault ≡ Fault.OutOfMemory) ⊎ (fault ≡ Fault.Read)) }
{
    match opened {
        None => read_all(alloc, reader, MAX_TEXT_BYTES),
        Some(mut file) => read_all(alloc, &mut file, MAX_TEXT_BYTES),
    }
}

/// Reads a text that was opened, or else the one that `reader` has on standard input: its first 1,048,577 bytes at most. With a
/// number it is the text of that one of the traces that stand there one after the other; none where there are fewer.
///
/// Faults: OutOfMemory where an allocation was refused; Read where a reader failed, or as `read_all` and `read_trace_text` say.
pub fn read_asked<F: Read + Drop, R: Read>(
    alloc: Global,
    nth: Option<u64>,
    opened: Option<F>,
    reader: &mut R,
) -> Result<Option<Vec<u8>>, Fault>
    ensures text { let remaining = opened_bytes (option_map F.remaining opened) (R.remaining reader.old) in
        IfOk result (λ asked. ReadsAs remaining (λ input. IsKeptOfAsked nth input (option_map (λ text. text.items) asked))) }
    ensures unread { IfSome opened (λ _. reader.new ≡ reader.old) }
    ensures taken { opened ≡ None → IfOk result (λ _. TakesTrace nth (R.remaining reader.old) (R.remaining reader.new)) }
    ensures fault { IfErr result (λ fault. (fault ≡ Fault.OutOfMemory) ⊎ (fault ≡ Fault.Read)) }
{
    match opened {
        None => read_from(alloc, nth, reader),
        Some(mut file) => read_from(alloc, nth, &mut file),
    }
}

/// Reads the text that a reader has, or the one of a number among those that it has.
fn read_from<R: Read>(
    alloc: Global,
    nth: Option<u64>,
    reader: &mut R,
) -> Result<Option<Vec<u8>>, Fault>
    ensures text { IfOk result (λ asked. ReadsAs (R.remaining reader.old) (λ input. IsKeptOfAsked nth input (option_map (λ text. text.items) asked))) }
    ensures taken { IfOk result (λ _. TakesTrace nth (R.remaining reader.old) (R.remaining reader.new)) }
    ensures fault { IfErr result (λ fault. (fault ≡ Fault.OutOfMemory) ⊎ (fault ≡ Fault.Read)) }
{
    match nth {
        None => Ok(Some(read_all(alloc, reader, MAX_TEXT_BYTES)?)),
        Some(number) => read_trace_text(alloc, number, reader),
    }
}

/// Opens the file of this name and reads its text, or else that of standard input, as `read_asked` does.
pub fn read_named<O: Environment, R: Read>(
    alloc: Global,
    name: Option<&str>,
    nth: Option<u64>,
    files: &mut O,
    reader: &mut R,
) -> Result<Option<Vec<u8>>, Fault>
    ensures text { let remaining = text_bytes (name_in name.entry) (R.remaining reader.old) (O.bytes files.old) in
        IfOk result (λ asked. ReadsAs remaining (λ input. IsKeptOfAsked nth input (option_map (λ text. text.items) asked))) }
    ensures opened { OpensNext (O.opened files.old) (O.opened files.new) (filter_map (λ text. text) (name_in name.entry ∷ [])) }
    ensures unread { IfSome name.entry (λ _. reader.new ≡ reader.old) }
    ensures taken { name.entry ≡ None → IfOk result (λ _. TakesTrace nth (R.remaining reader.old) (R.remaining reader.new)) }
    ensures fault { IfErr result (λ fault. (fault ≡ Fault.OutOfMemory) ⊎ (fault ≡ Fault.Read)) }
{
    let opened = open_named(files, name)?;
    read_asked(alloc, nth, opened, reader)
}
