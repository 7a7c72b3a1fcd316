//! One read of a reader.
ghost use Rattle.std.specs.Prelude.{◌≡◌, ◌<◌, ◌≤◌, length, take, IfOk, IfErr};
ghost use Rattle.std.specs.Io.KnownBytes.{Consumes, IsAtEnd};
ghost use Rattle.text_streams.specs.declared.faults.Fault.{Fault};

use crate::faults::Fault;
use crate::limits::MAX_INTERRUPTS;
use std::io::{ErrorKind, Read};

/// The next bytes of a reader: how many there were, 0 only at its end.
///
/// An interrupted read is tried again. Refused: Read where the reader failed otherwise, or was interrupted 1,048,576 times
/// in a row.
pub fn read_some<R: Read>(reader: &mut R, chunk: &mut [u8]) -> Result<usize, Fault>
    requires { 0 < length chunk.old }
    ensures within { IfOk result (λ count. count ≤ length chunk.new) }
    ensures taken { IfOk result (λ count. Consumes (R.remaining reader.old) (R.remaining reader.new) (take count chunk.new)) }
    ensures end { IfOk result (λ count. count ≡ 0 → IsAtEnd (R.remaining reader.new)) }
    ensures fault { IfErr result (λ fault. fault ≡ Fault.Read) }
{
    for _ in 0..MAX_INTERRUPTS {
        match reader.read(chunk) {
            Ok(count) => return Ok(count),
            Err(error) if error.kind() == ErrorKind::Interrupted => {}
            Err(_) => return Err(Fault::Read),
        }
    }
    Err(Fault::Read)
}
