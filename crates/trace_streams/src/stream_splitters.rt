//! Streams, cut into trace texts.
ghost use Rattle.std.specs.Prelude.{◌≡◌, ◌++◌, [], List, ℕ, ◌<◌, ◌≤◌, Decides, IfOk, None, length, take};
ghost use Rattle.trace_streams.specs.StreamSplitters.{Cuts, IsAt, IsFound, IsLastTraceText, IsPlaceOf, TakesStretch};
ghost use Rattle.trace_streams.specs.TraceTexts.{EndsWithin, end_line};

use std::alloc::{AllocError, Global};
use std::marker::Model;
use std::mem;

/// The byte that ends a line.
const LINE_END: u8 = 10;

/// How many bytes of a line are kept at most: one more than the line `end` has.
const LINE_LIMIT: usize = 4;

/// Cuts a stream of bytes into trace texts. A trace text ends with a line `end`; what follows the last one, if there is a byte,
/// is a last trace text.
///
/// Of each trace text it keeps the first bytes, as many as a limit says, and no others.
#[derive(Drop)]
pub struct StreamSplitter {
    alloc: Global,
    limit: usize,
    /// The first bytes of the trace text so far.
    kept: Vec<u8>,
    /// The first bytes of its last line so far.
    line: Vec<u8>,
}

impl Model for StreamSplitter {
    ghost use Rattle.std.specs.Prelude.{◌≤◌};
    ghost use Rattle.trace_streams.specs.StreamSplitters.{StreamSplitterValue};

    ghost Value = { StreamSplitterValue };

    ghost view = { λ c. record { limit = c.limit; kept = c.kept.items; line = c.line.items } };

    ghost invariant = { λ c. 1 ≤ c.limit };
}

/// What a chunk of a stream was found to have.
#[derive(Clone, Copy)]
enum Found {
    /// The end of a trace text, the first one, after so many bytes.
    TraceTextEnd(usize),
    /// No end of a trace text; its last line begins after so many bytes.
    LastLine(usize),
}

impl StreamSplitter {
    /// A splitter at the start of a stream, which keeps at most `limit` bytes of each trace text, 1 or more.
    pub fn new(alloc: Global, limit: usize) -> StreamSplitter
        requires { 1 ≤ limit }
        ensures limit { result.limit ≡ limit }
        ensures at { IsAt result [] }
    {
        StreamSplitter {
            alloc,
            limit,
            kept: Vec::new(alloc),
            line: Vec::new(alloc),
        }
    }

    /// Cuts the next bytes of the stream: the first bytes of each trace text that ends in them, in order, up to `most` trace
    /// texts, and how many bytes were cut. All are, unless there are `most` trace texts: then those up to the last one's end.
    /// An error where an allocation was refused: then the splitter is not to be used again.
    pub fn cut(&mut self, chunk: &[u8], most: usize) -> Result<(Vec<Vec<u8>>, usize), AllocError>
        requires { 1 ≤ most }
        ensures cut { IfOk result (λ cut. (bytes : List ℕ) → IsAt self.old bytes → Cuts self.old self.new bytes (take cut.1 chunk.now) cut.0.items) }
        ensures within { IfOk result (λ cut. cut.1 ≤ length chunk.now) }
        ensures some { IfOk result (λ cut. 0 < length chunk.now → 0 < cut.1) }
        ensures all { IfOk result (λ cut. length cut.0.items < most → cut.1 ≡ length chunk.now) }
        ensures most { IfOk result (λ cut. length cut.0.items ≤ most) }
    {
        let mut pieces = Vec::new(self.alloc);
        let mut from = 0;
        while from < chunk.len() {
            let (piece, count) = self.take_trace_text(&chunk[from..])?;
            from += count;
            match piece {
                Some(piece) => {
                    pieces.push(piece)?;
                    if pieces.len() >= most {
                        return Ok((pieces, from));
                    }
                }
                None => {}
            }
        }
        Ok((pieces, chunk.len()))
    }

    /// Takes the next bytes of the stream, up to the end of the first trace text that ends in them: its first bytes, and how
    /// many bytes were taken. All are where none ends in them. An error where an allocation was refused: then the splitter is not
    /// to be used again.
    pub fn take_trace_text(&mut self, chunk: &[u8]) -> Result<(Option<Vec<u8>>, usize), AllocError>
        ensures limit { self.new.limit ≡ self.old.limit }
        ensures piece { IfOk result (λ taken. (bytes : List ℕ) → IsAt self.old bytes → TakesStretch self.old self.new bytes (take taken.1 chunk.now) taken.0) }
        ensures within { IfOk result (λ taken. taken.1 ≤ length chunk.now) }
        ensures some { IfOk result (λ taken. 0 < length chunk.now → 0 < taken.1) }
        ensures all { IfOk result (λ taken. taken.0 ≡ None → taken.1 ≡ length chunk.now) }
    {
        match first_end(self.line.as_slice(), chunk) {
            Found::TraceTextEnd(end) => {
                extend_within(&mut self.kept, self.limit, &chunk[..end])?;
                self.line.clear();
                let piece = mem::replace(&mut self.kept, Vec::new(self.alloc));
                Ok((Some(piece), end))
            }
            Found::LastLine(start) => {
                extend_within(&mut self.kept, self.limit, chunk)?;
                if start > 0 {
                    self.line.clear();
                }
                extend_within(&mut self.line, LINE_LIMIT, &chunk[start..])?;
                Ok((None, chunk.len()))
            }
        }
    }

    /// The first bytes of the last trace text, at the end of the stream; None where no byte follows the last line `end`.
    pub fn last(self) -> Option<Vec<u8>>
        ensures { (bytes : List ℕ) → IsAt self bytes → IsLastTraceText self bytes result }
    {
        let StreamSplitter { kept, .. } = self;
        if kept.is_empty() { None } else { Some(kept) }
    }
}

/// Where the first trace text ends in a chunk, which follows these first bytes of a line; where none ends in it, where its last
/// line begins.
fn first_end(line: &[u8], chunk: &[u8]) -> Found
    ensures found { (bytes part : List ℕ) → EndsWithin bytes part → line.now ≡ take 4 part → IsFound bytes part chunk.now result }
    ensures place { IsPlaceOf chunk.now result }
{
    let mut before = line;
    let mut start = 0;
    for i in 0..chunk.len() {
        if chunk[i] == LINE_END {
            if is_end_line(before, &chunk[start..i]) {
                return Found::TraceTextEnd(i + 1);
            }
            before = &[];
            start = i + 1;
        }
    }
    Found::LastLine(start)
}

/// Whether the two parts of a line make `end`.
fn is_end_line(before: &[u8], after: &[u8]) -> bool
    ensures { Decides result (before.now ++ after.now ≡ end_line) }
{
    match b"end".as_slice().strip_suffix(after) {
        Some(rest) => before == rest,
        None => false,
    }
}

/// Appends bytes, up to a length of `limit`.
fn extend_within(bytes: &mut Vec<u8>, limit: usize, more: &[u8]) -> Result<(), AllocError>
    ensures { IfOk result (λ _. (all : List ℕ) → bytes.old.items ≡ take limit all → bytes.new.items ≡ take limit (all ++ more.now)) }
{
    let room = limit.saturating_sub(bytes.len());
    bytes.extend_from_slice(&more[..more.len().min(room)])
}
