//! A reader's bytes, up to a limit.
ghost use Rattle.std.specs.Prelude.{◌≡◌, ◌⊎◌, ◌+◌, ◌≤◌, length, take, IfSome, IfOk, IfErr};
ghost use Rattle.std.specs.Io.KnownBytes.{Consumes};
ghost use Rattle.text_streams.specs.Streams.{read_call_limit};
ghost use Rattle.text_streams.specs.declared.faults.Fault.{Fault};

use crate::counting::CountedReader;
use crate::faults::Fault;
use crate::limits::MAX_READS;
use std::alloc::Global;
use std::io::{ErrorKind, Read};

/// How many bytes one call of `read` asks for at most.
const CHUNK: usize = 16_384;

/// Reads a reader to its end: all its bytes, or just the first `limit + 1` where it has more than `limit`.
///
/// An interrupted read is tried again, and counts as a call. Refused: OutOfMemory where an allocation of this call's
/// own was refused; Read where the reader failed otherwise, or where 2,097,152 calls of `read` showed neither its end
/// nor the byte after the limit.
pub fn read_all<R: Read>(alloc: Global, reader: &mut R, limit: usize) -> Result<Vec<u8>, Fault>
    ensures prefix { IfOk result (λ bytes. IfSome (R.remaining reader.old) (λ all. bytes.items ≡ take (limit + 1) all)) }
    ensures taken { IfOk result (λ bytes. Consumes (R.remaining reader.old) (R.remaining reader.new) bytes.items) }
    ensures within { IfOk result (λ bytes. length bytes.items ≤ limit + 1) }
    ensures fault { IfErr result (λ fault. (fault ≡ Fault.OutOfMemory) ⊎ (fault ≡ Fault.Read)) }
{
    let mut counted = CountedReader::new(reader);
    let result = read_counted(alloc, &mut counted, limit);
    // No effect at run time: the proof reads from this use what the reader has left.
    let _ = &*counted.into_reader();
    result
}

/// Does so with at most 2,097,152 calls of `read`.
fn read_counted<R: Read>(
    alloc: Global,
    reader: &mut CountedReader<'_, R>,
    limit: usize,
) -> Result<Vec<u8>, Fault>
    requires fresh { reader.old.calls ≡ 0 }
    ensures calls { reader.new.calls ≤ read_call_limit }
    ensures same_reference { reader.new.reader.ghost_name ≡ reader.old.reader.ghost_name }
    ensures prefix { IfOk result (λ bytes. IfSome (R.remaining reader.old.reader.now) (λ all. bytes.items ≡ take (limit + 1) all)) }
    ensures taken { IfOk result (λ bytes. Consumes (R.remaining reader.old.reader.now) (R.remaining reader.new.reader.now) bytes.items) }
    ensures within { IfOk result (λ bytes. length bytes.items ≤ limit + 1) }
    ensures fault { IfErr result (λ fault. (fault ≡ Fault.OutOfMemory) ⊎ (fault ≡ Fault.Read)) }
{
    let mut bytes = Vec::new(alloc);
    let mut chunk = [0u8; CHUNK];
    for done in 0..MAX_READS {
        let room = CHUNK.min((limit - bytes.len()).saturating_add(1));
        match reader.read(&mut chunk[..room]) {
            Ok(0) => return Ok(bytes),
            Ok(count) => {
                bytes.extend_from_slice(&chunk[..count])?;
                if bytes.len() > limit {
                    return Ok(bytes);
                }
            }
            Err(error) if error.kind() == ErrorKind::Interrupted => {}
            Err(_) => return Err(Fault::Read),
        }
    }
    Err(Fault::Read)
}
