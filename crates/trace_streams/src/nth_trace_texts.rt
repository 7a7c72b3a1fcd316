//! The trace text of one number in a stream.
ghost use Rattle.std.specs.Prelude.{◌≡◌, ◌⊎◌, ◌<◌, ◌-◌, List, ℕ, Option, None, IfOk, IfErr, IfSome, OnOk, option_map};
ghost use Rattle.std.specs.Io.KnownBytes.{Consumes};
ghost use Rattle.trace_streams.specs.StreamSplitters.{IsAt, IsLastTraceText};
ghost use Rattle.trace_streams.specs.Internal.Searches.{Finds};
ghost use Rattle.trace_streams.specs.NthTraceTexts.{IsKeptOfNth};
ghost use Rattle.text_streams.specs.declared.faults.Fault.{Fault};
ghost use Rattle.text_streams.specs.Readings.{ReadsAs};

use crate::CHUNK;
use crate::stream_splitters::StreamSplitter;
use std::alloc::{AllocError, Global};
use std::io::Read;
use text_streams::{Fault, read_some};
use tso_text::MAX_TEXT_BYTES;

/// A search for the trace text of one number.
#[derive(Drop)]
struct Search {
    /// What cuts the stream.
    splitter: StreamSplitter,
    /// How many trace texts are still to end before that trace text.
    before: u64,
}

/// Reads a stream of traces' texts, one after the other, up to the trace text of this number: its first bytes, 1,048,577 at
/// most. None where the stream has fewer trace texts.
///
/// Trace texts are those of `judge_batch`, and the first has the number 1; 0 stands for 1. Of a trace text that is cut off at
/// that limit, the same is said as of the whole trace text (`laws::long_trace_texts`). After the call of `read` that gave the end of
/// the trace text no other follows; where the stream has fewer trace texts, all of it was read. Of earlier trace texts nothing
/// is kept.
///
/// Faults: OutOfMemory where an allocation was refused; Read where the reader failed, was interrupted 1,048,576 times in a
/// row, or gave neither the trace text nor its end within 2^64 - 1 calls.
pub fn read_trace_text<R: Read>(
    alloc: Global,
    number: u64,
    reader: &mut R,
) -> Result<Option<Vec<u8>>, Fault>
    ensures piece { IfOk result (λ kept. ReadsAs (R.remaining reader.old) (λ stream. IsKeptOfNth number stream (option_map (λ piece. piece.items) kept))) }
    ensures taken { OnOk result ((bytes : List ℕ) × Consumes (R.remaining reader.old) (R.remaining reader.new) bytes) }
    ensures all { IfOk result (λ kept. kept ≡ None → IfSome (R.remaining reader.old) (λ all. Consumes (R.remaining reader.old) (R.remaining reader.new) all)) }
    ensures fault { IfErr result (λ fault. (fault ≡ Fault.OutOfMemory) ⊎ (fault ≡ Fault.Read)) }
{
    let mut search = Search {
        splitter: StreamSplitter::new(alloc, MAX_TEXT_BYTES + 1),
        before: number.saturating_sub(1),
    };
    let mut buffer = vec![in alloc; 0u8; CHUNK]?;
    let chunk = buffer.as_mut_slice();
    for _ in 0..u64::MAX {
        let count = read_some(reader, chunk)?;
        if count == 0 {
            return Ok(search.last());
        }
        match search.take(&chunk[..count])? {
            Some(piece) => return Ok(Some(piece)),
            None => {}
        }
    }
    Err(Fault::Read)
}

impl Search {
    /// Takes the next bytes of the stream: the first bytes of the trace text, where it ends in them. Then the search is at its
    /// end.
    fn take(&mut self, chunk: &[u8]) -> Result<Option<Vec<u8>>, AllocError>
        ensures { IfOk result (λ piece. (bytes : List ℕ) → IsAt self.old.splitter bytes → Finds self.old self.new bytes chunk.now piece) }
    {
        let mut from = 0;
        while from < chunk.len() {
            let (piece, count) = self.splitter.take_trace_text(&chunk[from..])?;
            from += count;
            match piece {
                Some(piece) => {
                    if self.before == 0 {
                        return Ok(Some(piece));
                    }
                    self.before -= 1;
                }
                None => {}
            }
        }
        Ok(None)
    }

    /// The first bytes of the trace text, at the end of the stream, where it is the last one and ends with no line `end`.
    fn last(self) -> Option<Vec<u8>>
        ensures last { self.before ≡ 0 → (bytes : List ℕ) → IsAt self.splitter bytes → IsLastTraceText self.splitter bytes result }
        ensures none { 0 < self.before → result ≡ None }
    {
        let Search { splitter, before } = self;
        if before > 0 {
            return None;
        }
        splitter.last()
    }
}
