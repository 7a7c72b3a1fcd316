//! Judges one text of a batch: it is read and cut, and its trace texts are judged and written.
ghost use Rattle.std.specs.Prelude.{◌≡◌, ◌≤◌, ◌+◌, ◌∷◌, ◌++◌, [], List, ℕ, Option, map, take, IfSome, IfOk, IfErr, OnOk, OnErr};
ghost use Rattle.std.specs.Io.KnownBytes.{Appends, Consumes, IsAtEnd, prepend_known};
ghost use Rattle.tso_ops.specs.Values.{rows};
ghost use Rattle.trace_streams.specs.StreamSplitters.{IsAt};
ghost use Rattle.trace_streams.specs.TraceTexts.{last_trace_text};
ghost use Rattle.text_streams.specs.Streams.{AppendsPrefix};
ghost use Rattle.trace_batches.specs.Batches.{asked, Counts, IsBatchFault, kept_note, kept_with, last_format, trace_note, trace_result_text, violating_text};
ghost use Rattle.trace_batches.specs.BatchLines.{kept_line};
ghost use Rattle.trace_batches.specs.Internal.Progress.{AreJudged, HasWrittenAll, HasWrittenSoFar, LeavesTraceTexts, WroteAll, WroteSome, printing_by};
ghost use Rattle.trace_batches.specs.declared.judgments.Judgment.{Judgment};

use crate::jobs::{Job, judge_all};
use crate::judgments::Judgment;
use crate::lines::written_line;
use crate::notes::kept_line;
use crate::tallies::{Tally, sum};
use progress_meters::Meter;
use request_options::BatchPrinting;
use std::alloc::Global;
use std::io::{Read, Write};
use std::sync::Wait;
use std::thread::Threads;
use text_streams::{Fault, read_some, write_flushed};
use trace_streams::{CHUNK, StreamSplitter};
use tso_ops::OutOfMemory;
use tso_text::MAX_TEXT_BYTES;

/// How many trace texts for each worker are judged at most before their lines are written. Threads are started for each group,
/// so a group has to be large beside their start.
const TRACE_TEXTS_PER_WORKER: usize = 256;

/// How a batch is judged and printed.
#[derive(Clone, Copy, Debug, PartialEq, Eq)]
pub struct BatchOptions {
    /// How many threads judge trace texts side by side at most.
    pub workers: usize,
    /// What is printed.
    pub printing: BatchPrinting,
}

/// How the trace texts of a text are judged and printed.
#[derive(Clone, Copy)]
pub(crate) struct TextJudging<'a> {
    pub(crate) alloc: Global,
    pub(crate) options: BatchOptions,
    /// What stands in each line of the text.
    pub(crate) label: &'a str,
    /// How many texts of violations were printed before this text.
    pub(crate) kept: u64,
}

/// The splitter and the tally of a text.
#[derive(Drop)]
struct Progress {
    splitter: StreamSplitter,
    tally: Tally,
}

/// Judges a stream, and writes what is printed of its trace texts, numbered from 1, and the notes on them: how many there were.
pub(crate) fn judge_trace_texts<H: Threads + Wait + Sync, M: Meter, R: Read, W: Write, E: Write>(
    rt: &H,
    judging: &TextJudging<'_>,
    meter: &M,
    reader: &mut R,
    writer: &mut W,
    errors: &mut E,
) -> Result<Tally, Fault>
    requires { 1 ≤ judging.now.options.workers }
    ensures told { IfOk result (HasWrittenAll (printing_by judging.now) judging.now.kept (R.remaining reader.old) (W.contents writer.old)
        (W.contents writer.new) (E.contents errors.old) (E.contents errors.new)) }
    ensures taken { IfOk result (λ _. IfSome (R.remaining reader.old) (λ all. Consumes (R.remaining reader.old) (R.remaining reader.new) all)) }
    ensures left { OnErr result (LeavesTraceTexts (printing_by judging.now) judging.now.kept (R.remaining reader.old) (W.contents writer.old)
        (W.contents writer.new) (E.contents errors.old) (E.contents errors.new)) }
    ensures fault { IfErr result IsBatchFault }
{
    let Progress {
        splitter,
        mut tally,
    } = read_trace_texts(rt, judging, meter, reader, writer, errors)?;
    let pieces = last_trace_texts(judging.alloc, splitter)?;
    let count = pieces.len() as u64;
    tell(rt, judging, pieces, &mut tally, writer, errors)?;
    meter.advance(count);
    Ok(tally)
}

/// Reads a stream to its end, and writes what is printed of the trace texts that end in it, and the notes on them. The meter
/// hears how many there were before more is read.
fn read_trace_texts<H: Threads + Wait + Sync, M: Meter, R: Read, W: Write, E: Write>(
    rt: &H,
    judging: &TextJudging<'_>,
    meter: &M,
    reader: &mut R,
    writer: &mut W,
    errors: &mut E,
) -> Result<Progress, Fault>
    requires { 1 ≤ judging.now.options.workers }
    ensures stands { IfOk result (λ p. HasWrittenSoFar (printing_by judging.now) judging.now.kept (R.remaining reader.old) (R.remaining reader.new)
        (W.contents writer.old) (W.contents writer.new) (E.contents errors.old) (E.contents errors.new) p.splitter p.tally) }
    ensures end { OnOk result (IsAtEnd (R.remaining reader.new)) }
    ensures left { OnErr result (LeavesTraceTexts (printing_by judging.now) judging.now.kept (R.remaining reader.old) (W.contents writer.old)
        (W.contents writer.new) (E.contents errors.old) (E.contents errors.new)) }
    ensures fault { IfErr result IsBatchFault }
{
    let mut progress = Progress {
        splitter: StreamSplitter::new(judging.alloc, MAX_TEXT_BYTES + 1),
        tally: Tally::new(),
    };
    let mut buffer = vec![in judging.alloc; 0u8; CHUNK]?;
    let chunk = buffer.as_mut_slice();
    for _ in rt.forever() {
        let count = read_some(reader, chunk)?;
        if count == 0 {
            return Ok(progress);
        }
        let before = progress.tally.traces;
        tell_chunk(rt, judging, &mut progress, &chunk[..count], writer, errors)?;
        meter.advance(progress.tally.traces.saturating_sub(before));
    }
    unreachable!()
}

/// Cuts the next bytes of a stream, and writes what is printed of the trace texts that end in them, and the notes on them.
fn tell_chunk<H: Threads + Wait + Sync, W: Write, E: Write>(
    rt: &H,
    judging: &TextJudging<'_>,
    progress: &mut Progress,
    chunk: &[u8],
    writer: &mut W,
    errors: &mut E,
) -> Result<(), Fault>
    requires { 1 ≤ judging.now.options.workers }
    ensures stands { OnOk result ((remaining now old before : Option (List ℕ)) →
        HasWrittenSoFar (printing_by judging.now) judging.now.kept remaining (prepend_known chunk.now now) old (W.contents writer.old) before
        (E.contents errors.old) progress.old.splitter progress.old.tally →
        HasWrittenSoFar (printing_by judging.now) judging.now.kept remaining now old (W.contents writer.new) before
        (E.contents errors.new) progress.new.splitter progress.new.tally) }
    ensures left { OnErr result ((remaining now old before : Option (List ℕ)) →
        HasWrittenSoFar (printing_by judging.now) judging.now.kept remaining (prepend_known chunk.now now) old (W.contents writer.old) before
        (E.contents errors.old) progress.old.splitter progress.old.tally →
        LeavesTraceTexts (printing_by judging.now) judging.now.kept remaining old (W.contents writer.new) before (E.contents errors.new)) }
    ensures fault { IfErr result IsBatchFault }
{
    let most = judging
        .options
        .workers
        .saturating_mul(TRACE_TEXTS_PER_WORKER);
    let mut from = 0;
    while from < chunk.len() {
        let (pieces, count) = progress.splitter.cut(&chunk[from..], most)?;
        tell(rt, judging, pieces, &mut progress.tally, writer, errors)?;
        from += count;
    }
    Ok(())
}

/// The last trace text, if there is one.
fn last_trace_texts(alloc: Global, splitter: StreamSplitter) -> Result<Vec<Vec<u8>>, OutOfMemory>
    ensures { IfOk result (λ pieces. (rest : List ℕ) → IsAt splitter rest →
        rows pieces.items ≡ map (λ piece. take splitter.limit piece) (last_trace_text rest)) }
{
    let mut pieces = Vec::new(alloc);
    if let Some(piece) = splitter.last() {
        pieces.push(piece)?;
    }
    Ok(pieces)
}

/// Judges trace texts side by side, and writes what is printed of them in order, and the notes on them.
fn tell<H: Threads + Wait + Sync, W: Write, E: Write>(
    rt: &H,
    judging: &TextJudging<'_>,
    pieces: Vec<Vec<u8>>,
    tally: &mut Tally,
    writer: &mut W,
    errors: &mut E,
) -> Result<(), Fault>
    requires { 1 ≤ judging.now.options.workers }
    ensures whole { OnOk result (WroteAll (printing_by judging.now) judging.now.kept tally.old tally.new (rows pieces.items) (W.contents writer.old)
        (W.contents writer.new) (E.contents errors.old) (E.contents errors.new)) }
    ensures some { OnErr result (WroteSome (printing_by judging.now) judging.now.kept tally.old (rows pieces.items) (W.contents writer.old)
        (W.contents writer.new) (E.contents errors.old) (E.contents errors.new)) }
    ensures fault { IfErr result IsBatchFault }
{
    let jobs = judge_all(rt, judging.alloc, pieces, judging.options)?;
    write_jobs(judging, &jobs, tally, writer, errors)
}

/// Writes what is printed of these jobs, in order, and the notes on them, up to one that wasn't judged.
fn write_jobs<W: Write, E: Write>(
    judging: &TextJudging<'_>,
    jobs: &[Job],
    tally: &mut Tally,
    writer: &mut W,
    errors: &mut E,
) -> Result<(), Fault>
    ensures whole { OnOk result ((pieces : List (List ℕ)) → AreJudged (asked judging.now.options.printing) pieces jobs.now →
        WroteAll (printing_by judging.now) judging.now.kept tally.old tally.new pieces (W.contents writer.old) (W.contents writer.new) (E.contents errors.old)
        (E.contents errors.new)) }
    ensures some { OnErr result ((pieces : List (List ℕ)) → AreJudged (asked judging.now.options.printing) pieces jobs.now →
        WroteSome (printing_by judging.now) judging.now.kept tally.old pieces (W.contents writer.old) (W.contents writer.new) (E.contents errors.old)
        (E.contents errors.new)) }
    ensures fault { IfErr result (λ fault. (pieces : List (List ℕ)) → AreJudged (asked judging.now.options.printing) pieces jobs.now → IsBatchFault fault) }
{
    for job in jobs {
        match &job.outcome {
            Ok(judgment) => write_result(judging, &job.piece, judgment, tally, writer, errors)?,
            Err(fault) => return Err(*fault),
        }
    }
    Ok(())
}

/// Counts what is said of a trace text, and writes what is printed of it, and then the note on it.
fn write_result<W: Write, E: Write>(
    judging: &TextJudging<'_>,
    piece: &[u8],
    judgment: &Judgment,
    tally: &mut Tally,
    writer: &mut W,
    errors: &mut E,
) -> Result<(), Fault>
    ensures counted { OnOk result ((judgments : List Judgment) → Counts tally.old judgments → Counts tally.new (judgments ++ judgment.now ∷ [])) }
    ensures traces { OnOk result (tally.new.traces ≡ tally.old.traces + 1) }
    ensures violations { OnOk result (tally.new.violations ≡ kept_with tally.old.violations judgment.now) }
    ensures whole { OnOk result (Appends (W.contents writer.old) (W.contents writer.new)
        (trace_result_text (printing_by judging.now) (tally.old.traces + 1) piece.now judgment.now)) }
    ensures noted { OnOk result (Appends (E.contents errors.old) (E.contents errors.new)
        (trace_note (printing_by judging.now) (judging.now.kept + kept_with tally.old.violations judgment.now) (tally.old.traces + 1) judgment.now)) }
    ensures prefix { AppendsPrefix (W.contents writer.old) (W.contents writer.new)
        (trace_result_text (printing_by judging.now) (tally.old.traces + 1) piece.now judgment.now) }
    ensures some { AppendsPrefix (E.contents errors.old) (E.contents errors.new)
        (trace_note (printing_by judging.now) (judging.now.kept + kept_with tally.old.violations judgment.now) (tally.old.traces + 1) judgment.now) }
    ensures fault { IfErr result IsBatchFault }
{
    tally.count(judgment)?;
    if judging.options.printing.violations {
        return write_violating(judging, piece, judgment, tally, writer, errors);
    }
    let line = written_line(judging, tally.traces, judgment)?;
    write_flushed(writer, line.as_bytes())
}

/// Writes a trace text as it came where it is a violation, and then the note on it; of others nothing.
fn write_violating<W: Write, E: Write>(
    judging: &TextJudging<'_>,
    piece: &[u8],
    judgment: &Judgment,
    tally: &Tally,
    writer: &mut W,
    errors: &mut E,
) -> Result<(), Fault>
    ensures whole { OnOk result (Appends (W.contents writer.old) (W.contents writer.new) (violating_text piece.now judgment.now)) }
    ensures noted { OnOk result (Appends (E.contents errors.old) (E.contents errors.new)
        (kept_note (last_format judging.now.options.printing) judging.now.label.now (judging.now.kept + tally.now.violations) tally.now.traces judgment.now)) }
    ensures prefix { AppendsPrefix (W.contents writer.old) (W.contents writer.new) (violating_text piece.now judgment.now) }
    ensures some { AppendsPrefix (E.contents errors.old) (E.contents errors.new)
        (kept_note (last_format judging.now.options.printing) judging.now.label.now (judging.now.kept + tally.now.violations) tally.now.traces judgment.now) }
    ensures fault { IfErr result IsBatchFault }
{
    match judgment {
        Judgment::Violation(_) => write_kept(judging, piece, tally, writer, errors),
        Judgment::NoViolation
        | Judgment::Consistent
        | Judgment::Undecided(_)
        | Judgment::Refused(_) => Ok(()),
    }
}

/// Writes the text of a violation, and then the note on it: which text it is among those that are printed, and which trace. Read
/// where 64 bits don't hold that number.
fn write_kept<W: Write, E: Write>(
    judging: &TextJudging<'_>,
    piece: &[u8],
    tally: &Tally,
    writer: &mut W,
    errors: &mut E,
) -> Result<(), Fault>
    ensures whole { OnOk result (Appends (W.contents writer.old) (W.contents writer.new) piece.now) }
    ensures noted { OnOk result (Appends (E.contents errors.old) (E.contents errors.new)
        (kept_line (last_format judging.now.options.printing) judging.now.label.now (judging.now.kept + tally.now.violations) tally.now.traces)) }
    ensures prefix { AppendsPrefix (W.contents writer.old) (W.contents writer.new) piece.now }
    ensures some { AppendsPrefix (E.contents errors.old) (E.contents errors.new)
        (kept_line (last_format judging.now.options.printing) judging.now.label.now (judging.now.kept + tally.now.violations) tally.now.traces) }
    ensures fault { IfErr result IsBatchFault }
{
    let kept = sum(judging.kept, tally.violations)?;
    let line = kept_line(judging, kept, tally.traces)?;
    write_flushed(writer, piece)?;
    write_flushed(errors, line.as_bytes())
}
