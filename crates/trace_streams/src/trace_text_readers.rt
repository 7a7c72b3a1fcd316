//! The trace texts of a stream, one after the other.
ghost use Rattle.std.specs.Prelude.{◌≡◌, ◌⊎◌, [], List, ℕ, Option, None, IfOk, IfErr, true, false};
ghost use Rattle.std.specs.Io.KnownBytes.{IsAtEnd};
ghost use Rattle.trace_streams.specs.TraceTextReading.{CutsOff, GivesNext, HasGiven, IsWithinStream};
ghost use Rattle.text_streams.specs.declared.faults.Fault.{Fault};

use crate::CHUNK;
use crate::stream_splitters::StreamSplitter;
use std::alloc::{AllocError, Global};
use std::io::Read;
use std::marker::Model;
use std::mem;
use text_streams::{Fault, read_some};
use tso_text::MAX_TEXT_BYTES;

/// Reads a stream of traces' texts, one after the other, and gives its trace texts in order.
///
/// Trace texts are those of `judge_batch`. Of each it gives the first bytes, 1,048,577 at most: of a trace text that is cut off
/// at that limit, the same is said as of the whole trace text (`laws::long_trace_texts`). Of the trace texts that it gave nothing is
/// kept.
#[derive(Drop)]
pub struct TraceTextReader {
    alloc: Global,
    /// What cuts the stream.
    splitter: StreamSplitter,
    /// The bytes that were read last.
    chunk: Vec<u8>,
    /// How many of them are cut.
    cut: usize,
    /// How many of them were read.
    read: usize,
    /// Whether the stream is at its end, and all of it was given.
    ended: bool,
}

impl Model for TraceTextReader {
    ghost use Rattle.std.specs.Prelude.{◌≡◌, ◌≤◌, ◌<◌, drop, length, take};
    ghost use Rattle.trace_streams.specs.TraceTextReading.{TraceTextReaderValue};

    ghost Value = { TraceTextReaderValue };

    ghost view = { λ r. record { splitter = r.splitter; uncut = drop r.cut (take r.read r.chunk.items); ended = r.ended } };

    ghost invariant = { λ r. (r.cut ≤ r.read) × (r.read ≤ length r.chunk.items) × (0 < length r.chunk.items) };
}

impl TraceTextReader {
    /// A reader of trace texts, at the start of a stream. An error where an allocation was refused.
    pub fn new(alloc: Global) -> Result<TraceTextReader, AllocError>
        ensures { IfOk result (λ reader. (stream : Option (List ℕ)) → HasGiven reader stream stream []) }
    {
        let chunk = vec![in alloc; 0u8; CHUNK]?;
        Ok(TraceTextReader {
            alloc,
            splitter: StreamSplitter::new(alloc, MAX_TEXT_BYTES + 1),
            chunk,
            cut: 0,
            read: 0,
            ended: false,
        })
    }

    /// The first bytes of the stream's next trace text, 1,048,577 at most; None after the last one. Each call is to be passed
    /// the same reader.
    ///
    /// Faults: OutOfMemory where an allocation was refused; Read where the reader failed, was interrupted 1,048,576 times in a
    /// row, or gave neither the trace text nor its end within 2^64 - 1 calls. After a fault it is not to be called again.
    pub fn next<R: Read>(&mut self, reader: &mut R) -> Result<Option<Vec<u8>>, Fault>
        ensures given { IfOk result (λ piece. (stream : Option (List ℕ)) (given : List (List ℕ)) → HasGiven self.old stream (R.remaining reader.old) given →
            GivesNext self.new stream (R.remaining reader.new) given piece) }
        ensures fault { IfErr result (λ fault. (fault ≡ Fault.OutOfMemory) ⊎ (fault ≡ Fault.Read)) }
    {
        if self.ended {
            return Ok(None);
        }
        for _ in 0..u64::MAX {
            match self.cut_next()? {
                Some(piece) => return Ok(Some(piece)),
                None => {}
            }
            if !self.read_more(reader)? {
                return Ok(self.end());
            }
        }
        Err(Fault::Read)
    }

    /// Cuts what was read, up to the end of the next trace text: its first bytes, or None where no trace text ends there.
    fn cut_next(&mut self) -> Result<Option<Vec<u8>>, AllocError>
        ensures cut { IfOk result (λ piece. (stream now : Option (List ℕ)) (given : List (List ℕ)) → IsWithinStream self.old stream now given →
            CutsOff self.new stream now given piece) }
        ensures all { IfOk result (λ piece. piece ≡ None → self.new.uncut ≡ []) }
    {
        let (mut pieces, count) = self.splitter.cut(&self.chunk[self.cut..self.read], 1)?;
        self.cut += count;
        Ok(pieces.pop())
    }

    /// Reads once more, when all that was read is cut: whether there was a byte.
    fn read_more<R: Read>(&mut self, reader: &mut R) -> Result<bool, Fault>
        requires { self.old.uncut ≡ [] }
        ensures read { IfOk result (λ more. (stream : Option (List ℕ)) (given : List (List ℕ)) → IsWithinStream self.old stream (R.remaining reader.old) given →
            IsWithinStream self.new stream (R.remaining reader.new) given) }
        ensures end { IfOk result (λ more. more ≡ false → IsAtEnd (R.remaining reader.new)) }
        ensures none { IfOk result (λ more. more ≡ false → self.new.uncut ≡ []) }
        ensures fault { IfErr result (λ fault. fault ≡ Fault.Read) }
    {
        let count = read_some(reader, self.chunk.as_mut_slice())?;
        self.cut = 0;
        self.read = count;
        Ok(count > 0)
    }

    /// What follows the last trace text that ended, at the end of the stream.
    fn end(&mut self) -> Option<Vec<u8>>
        requires { self.old.uncut ≡ [] }
        ensures { (stream now : Option (List ℕ)) (given : List (List ℕ)) → IsWithinStream self.old stream now given → IsAtEnd now →
            GivesNext self.new stream now given result }
    {
        self.ended = true;
        let splitter = StreamSplitter::new(self.alloc, MAX_TEXT_BYTES + 1);
        mem::replace(&mut self.splitter, splitter).last()
    }
}
