//! A whole text, to a writer.
ghost use Rattle.std.specs.Prelude.{◌≡◌, OnOk, IfErr};
ghost use Rattle.std.specs.Io.KnownBytes.{Appends, Keeps};
ghost use Rattle.text_streams.specs.Streams.{AppendsPrefix};
ghost use Rattle.text_streams.specs.declared.faults.Fault.{Fault};

use crate::faults::Fault;
use crate::limits::MAX_INTERRUPTS;
use std::io::{ErrorKind, Write};

/// Writes a whole text.
///
/// An interrupted write is tried again, up to 1,048,576 times. Refused: Write where the writer failed otherwise, was
/// interrupted once more, or took no byte; what it took is a prefix of the text.
pub fn write_text<W: Write>(writer: &mut W, text: &[u8]) -> Result<(), Fault>
    ensures whole { OnOk result (Appends (W.contents writer.old) (W.contents writer.new) text.now) }
    ensures prefix { AppendsPrefix (W.contents writer.old) (W.contents writer.new) text.now }
    ensures fault { IfErr result (λ fault. fault ≡ Fault.Write) }
{
    let mut written: usize = 0;
    let mut interrupts: usize = 0;
    while written < text.len() {
        match writer.write(&text[written..]) {
            Ok(0) => return Err(Fault::Write),
            Ok(count) => written += count,
            Err(error) if error.kind() == ErrorKind::Interrupted && interrupts < MAX_INTERRUPTS => {
                interrupts += 1;
            }
            Err(_) => return Err(Fault::Write),
        }
    }
    Ok(())
}

/// Writes a text and flushes the writer.
///
/// An interrupted call is tried again, up to 1,048,576 times. Refused: Write where the writer failed otherwise or took no
/// byte; what it took is a prefix of the text.
pub fn write_flushed<W: Write>(writer: &mut W, text: &[u8]) -> Result<(), Fault>
    ensures whole { OnOk result (Appends (W.contents writer.old) (W.contents writer.new) text.now) }
    ensures prefix { AppendsPrefix (W.contents writer.old) (W.contents writer.new) text.now }
    ensures fault { IfErr result (λ fault. fault ≡ Fault.Write) }
{
    write_text(writer, text)?;
    flush(writer)
}

/// Flushes the writer.
fn flush<W: Write>(writer: &mut W) -> Result<(), Fault>
    ensures kept { Keeps (W.contents writer.old) (W.contents writer.new) }
    ensures fault { IfErr result (λ fault. fault ≡ Fault.Write) }
{
    for _ in 0..MAX_INTERRUPTS {
        match writer.flush() {
            Ok(()) => return Ok(()),
            Err(error) if error.kind() == ErrorKind::Interrupted => {}
            Err(_) => return Err(Fault::Write),
        }
    }
    Err(Fault::Write)
}
