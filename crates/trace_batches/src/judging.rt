//! Batches of texts that are judged one after the other.
ghost use Rattle.std.specs.Prelude.{◌≡◌, ◌≤◌, [], List, IfSome, IfOk, IfErr, OnOk, OnErr, option_map, string_bytes};
ghost use Rattle.std.specs.Io.KnownBytes.{Appends, Consumes};
ghost use Rattle.text_streams.specs.Streams.{AppendsPrefix};
ghost use Rattle.trace_batches.specs.BatchLines.{few_text, read_fault_text};
ghost use Rattle.trace_batches.specs.BatchNames.{text_label};
ghost use Rattle.trace_batches.specs.Batches.{Counts, EndsBatch, HasJudged, IsBatchFault, Judges, LeavesBatch, LeavesEnd, LeavesText, WritesBatch, batch_head_text, last_format, last_text, note_text, one_text, readable_text, unreadable_text, verdict_with};
ghost use Rattle.trace_batches.specs.declared.judgments.Judgment.{Judgment};

use crate::batches::{BatchOptions, TextJudging, judge_trace_texts};
use crate::begun::Batch;
use crate::lines::{head, last_format};
use crate::names::text_label;
use crate::notes::unread_line;
use crate::tallies::{Tally, are_too_few};
use crate::totals::{few_line, total_line};
use progress_meters::{Meter, NoMeter};
use request_options::BatchPrinting;
use std::alloc::Global;
use std::io::{Read, Write};
use std::sync::Wait;
use std::thread::Threads;
use text_streams::{Fault, write_flushed, write_text};
use trace_reports::Answer;
use tso_ops::OutOfMemory;

impl Batch {
    /// Begins a batch: writes what stands before all lines, which is something in JUnit's XML alone.
    ///
    /// Faults: Write where the writer failed, took no byte or was interrupted more than 1,048,576 times.
    pub fn begin<W: Write>(
        alloc: Global,
        options: BatchOptions,
        writer: &mut W,
    ) -> Result<Batch, Fault>
        requires { 1 ≤ options.workers }
        ensures begun { IfOk result (λ batch. HasJudged batch options.printing []) }
        ensures whole { OnOk result (Appends (W.contents writer.old) (W.contents writer.new) (batch_head_text options.printing)) }
        ensures prefix { AppendsPrefix (W.contents writer.old) (W.contents writer.new) (batch_head_text options.printing) }
        ensures fault { IfErr result IsBatchFault }
    {
        write_text(writer, head(options.printing).as_bytes())?;
        Ok(Batch {
            alloc,
            options,
            tally: Tally::new(),
            is_unread: false,
        })
    }

    /// Judges the traces of one text more, and writes what is printed of them; their lines have its name, where it has one. Where
    /// texts of violations are printed, a line as `kept 3 trace 7` for each goes to `errors` after it: it is the third that is
    /// printed, and the seventh trace of this text.
    ///
    /// The texts are the same for each number of workers. Of a trace at most 1,048,577 bytes are kept: a longer one is
    /// refused as TooLong at line 0, and the next begins after its line `end`. What is printed of all traces that came is
    /// written and flushed before more is read, and then the meter hears how many there were.
    ///
    /// Faults: OutOfMemory where an allocation was refused; Read where the reader failed, was interrupted 1,048,576 times in a
    /// row, or gave 2^64 trace texts with those before; Write where a writer failed, took no byte or was interrupted more than
    /// 1,048,576 times in a line or a trace text; NoThread where judging a trace text needed a thread that the system refused.
    /// It may wait.
    pub fn judge<H: Threads + Wait + Sync, M: Meter, R: Read, W: Write, E: Write>(
        &mut self,
        rt: &H,
        meter: &M,
        name: Option<&str>,
        reader: &mut R,
        writer: &mut W,
        errors: &mut E,
    ) -> Result<(), Fault>
        ensures judged { OnOk result (Judges (readable_text (option_map (λ name. name.now) name.entry) (R.remaining reader.old)) self.old self.new
            (W.contents writer.old) (W.contents writer.new) (E.contents errors.old) (E.contents errors.new)) }
        ensures taken { IfOk result (λ _. IfSome (R.remaining reader.old) (λ all. Consumes (R.remaining reader.old) (R.remaining reader.new) all)) }
        ensures left { OnErr result (LeavesText (readable_text (option_map (λ name. name.now) name.entry) (R.remaining reader.old)) self.old
            (W.contents writer.old) (W.contents writer.new) (E.contents errors.old) (E.contents errors.new)) }
        ensures fault { IfErr result IsBatchFault }
    {
        let label = self.label_of(name)?;
        let judging = TextJudging {
            alloc: self.alloc,
            options: self.options,
            label: label.as_str(),
            kept: self.tally.violations,
        };
        let tally = judge_trace_texts(rt, &judging, meter, reader, writer, errors)?;
        self.tally.add(&tally)
    }

    /// Says that one text more can't be read, as where its file can't be opened: a line as `NAME: FAULT Read` stands in place of its
    /// lines or, where the texts of violations are printed, goes to `errors`.
    ///
    /// Faults: OutOfMemory where an allocation was refused; Write where a writer failed, took no byte or was interrupted
    /// more than 1,048,576 times.
    pub fn leave_out<W: Write, E: Write>(
        &mut self,
        name: Option<&str>,
        writer: &mut W,
        errors: &mut E,
    ) -> Result<(), Fault>
        ensures judged { OnOk result (Judges (unreadable_text (option_map (λ name. name.now) name.entry)) self.old self.new (W.contents writer.old)
            (W.contents writer.new) (E.contents errors.old) (E.contents errors.new)) }
        ensures left { OnErr result (LeavesText (unreadable_text (option_map (λ name. name.now) name.entry)) self.old (W.contents writer.old)
            (W.contents writer.new) (E.contents errors.old) (E.contents errors.new)) }
        ensures fault { IfErr result IsBatchFault }
    {
        let label = self.label_of(name)?;
        let format = last_format(self.options.printing);
        let line = unread_line(self.alloc, format, label.as_str())?;
        self.is_unread = true;
        write_line(self.options.printing, line.as_bytes(), writer, errors)
    }

    /// What stands in the lines of a text that has this name, or none, and in the notes on it.
    fn label_of(&self, name: Option<&str>) -> Result<String, OutOfMemory>
        ensures { IfOk result (λ label. string_bytes label ≡ text_label (last_format self.now.options.printing) (option_map (λ name. name.now) name.entry)) }
    {
        text_label(self.alloc, last_format(self.options.printing), name)
    }

    /// Ends a batch: writes the last line, with the numbers of all texts, to the writer or, where the texts of violations
    /// are printed, to `errors`; then to `errors` a line as `TOO FEW JUDGED 3 required 10` where fewer traces were judged than
    /// have to be, and at last `FAULT Read` where a text can't be read. The verdict is Unread where there is such a text, else
    /// Violation where a trace is one, else Refused where one is refused, else Undecided where one is that or too few were
    /// judged, else NoViolation.
    ///
    /// Faults: OutOfMemory where an allocation was refused; Write where a writer failed, took no byte or was interrupted
    /// more than 1,048,576 times.
    pub fn end<W: Write, E: Write>(self, writer: &mut W, errors: &mut E) -> Result<Answer, Fault>
        ensures ended { IfOk result (EndsBatch self (W.contents writer.old) (W.contents writer.new) (E.contents errors.old) (E.contents errors.new)) }
        ensures left { OnErr result (LeavesEnd self (W.contents writer.old) (W.contents writer.new) (E.contents errors.old) (E.contents errors.new)) }
        ensures fault { IfErr result IsBatchFault }
    {
        let printing = self.options.printing;
        let line = total_line(
            self.alloc,
            last_format(printing),
            printing.method,
            &self.tally,
        )?;
        let count = self.tally.judged();
        write_line(printing, line.as_bytes(), writer, errors)?;
        write_few(self.alloc, printing.required, count, errors)?;
        write_fault(self.is_unread, errors)?;
        Ok(self.verdict())
    }

    /// What the batch says of its texts.
    fn verdict(&self) -> Answer
        ensures { (judgments : List Judgment) → Counts self.now.tally judgments →
            result ≡ verdict_with self.now.is_unread self.now.options.printing.required judgments }
    {
        if self.is_unread {
            Answer::Unread
        } else {
            self.tally.verdict(self.options.printing.required)
        }
    }
}

/// Judges a stream of traces' texts, one after the other: a line for each, in order, and a last line with their numbers.
///
/// A trace text of the stream ends with a line `end`; what follows the last one, if there is a byte, is a last trace text. The
/// line of the K-th trace text is `trace K` and what its report says: `NO VIOLATION FOUND`, which a quiet batch leaves out,
/// `VIOLATION`, or `REFUSED` with name and line; or what its decision says: `CONSISTENT`, which a quiet batch leaves out,
/// `VIOLATION`, `UNDECIDED` with the number of steps, or `REFUSED` with name and line. Where violations are to be printed, the
/// trace texts that are violations, as they came, stand in the place of all lines, and `errors` is told which
/// traces they are and has the last line. In JSON each line is an object, with the verdict `violation`, `no_violation_found`,
/// `consistent`, `undecided` or `refused`; in JUnit's XML it is a suite of one document, with one test case, of which a
/// violation has the explanation too.
///
/// It is a batch of this one text, without a name: see `Batch` for what is kept of a trace text, for the verdict and for the
/// faults, with each of which a prefix of the texts was written. It may wait.
pub fn judge_batch<H: Threads + Wait + Sync, R: Read, W: Write, E: Write>(
    rt: &H,
    alloc: Global,
    options: BatchOptions,
    reader: &mut R,
    writer: &mut W,
    errors: &mut E,
) -> Result<Answer, Fault>
    requires { 1 ≤ options.workers }
    ensures whole { IfOk result (WritesBatch options.printing (one_text (R.remaining reader.old)) (W.contents writer.old) (W.contents writer.new)
        (E.contents errors.old) (E.contents errors.new)) }
    ensures taken { IfOk result (λ _. IfSome (R.remaining reader.old) (λ all. Consumes (R.remaining reader.old) (R.remaining reader.new) all)) }
    ensures left { OnErr result (LeavesBatch options.printing (one_text (R.remaining reader.old)) (W.contents writer.old) (W.contents writer.new)
        (E.contents errors.old) (E.contents errors.new)) }
    ensures fault { IfErr result IsBatchFault }
{
    let mut batch = Batch::begin(alloc, options, writer)?;
    batch.judge(rt, &NoMeter, None, reader, writer, errors)?;
    batch.end(writer, errors)
}

/// Writes a line, as the last one: to the errors where the texts of violations are printed.
fn write_line<W: Write, E: Write>(
    printing: BatchPrinting,
    line: &[u8],
    writer: &mut W,
    errors: &mut E,
) -> Result<(), Fault>
    ensures whole { OnOk result (Appends (W.contents writer.old) (W.contents writer.new) (last_text printing line.now)) }
    ensures noted { OnOk result (Appends (E.contents errors.old) (E.contents errors.new) (note_text printing line.now)) }
    ensures prefix { AppendsPrefix (W.contents writer.old) (W.contents writer.new) (last_text printing line.now) }
    ensures some { AppendsPrefix (E.contents errors.old) (E.contents errors.new) (note_text printing line.now) }
    ensures fault { IfErr result IsBatchFault }
{
    if printing.violations {
        write_flushed(errors, line)
    } else {
        write_flushed(writer, line)
    }
}

/// Writes that so many judged traces are fewer than have to be, where they are.
fn write_few<E: Write>(
    alloc: Global,
    required: Option<u64>,
    count: u64,
    errors: &mut E,
) -> Result<(), Fault>
    ensures whole { OnOk result (Appends (E.contents errors.old) (E.contents errors.new) (few_text required count)) }
    ensures prefix { AppendsPrefix (E.contents errors.old) (E.contents errors.new) (few_text required count) }
    ensures fault { IfErr result IsBatchFault }
{
    if !are_too_few(required, count) {
        return Ok(());
    }
    let line = few_line(alloc, count, required.unwrap_or(0))?;
    write_flushed(errors, line.as_bytes())
}

/// Writes the line of a fault where a text can't be read.
fn write_fault<E: Write>(is_unread: bool, errors: &mut E) -> Result<(), Fault>
    ensures whole { OnOk result (Appends (E.contents errors.old) (E.contents errors.new) (read_fault_text is_unread)) }
    ensures prefix { AppendsPrefix (E.contents errors.old) (E.contents errors.new) (read_fault_text is_unread) }
    ensures fault { IfErr result IsBatchFault }
{
    if is_unread {
        write_flushed(errors, b"FAULT Read\n")
    } else {
        Ok(())
    }
}
