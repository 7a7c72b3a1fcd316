//! `batch`: traces that stand one after the other, judged or decided, with a line for each, or the texts of those that are violations.
ghost use Rattle.std.specs.Prelude.{◌≡◌, ◌<◌, ◌≤◌, [], List, Option, ℕ, None, false, true, filter_map, get_or, is_some, length, option_to_list, IfOk, IfErr, IfSome, OnErr, OnOk};
ghost use Rattle.std.specs.Borrow.{Bor};
ghost use Rattle.std.specs.Io.KnownBytes.{Appends, Consumes};
ghost use Rattle.std.specs.List.{list_all};
ghost use Rattle.trace_batches.specs.Batches.{BatchText, HasJudged, HasWritten, IsBatchFault, Judges, LeavesBatch, LeavesText, WritesBatch, batch_head_text};
ghost use Rattle.text_streams.specs.Streams.{AppendsPrefix};
ghost use Rattle.request_serving.specs.Batches.{AreTextsOfBatch, IsNamedText, are_several, name_in_lines};
ghost use Rattle.request_texts.specs.OpenedFiles.{OpensFirst, OpensNext, name_in};
ghost use Rattle.request_serving.specs.Internal.Batching.{files_in, reads_one};

use command_line::BatchRequest;
use request_texts::{Environment, open};
use std::alloc::Global;
use std::io::{Read, Write};
use std::sync::Wait;
use std::thread::Threads;
use text_streams::Fault;
use trace_batches::{Batch, BatchOptions};
use trace_reports::Answer;

/// What stands for standard input in place of the name of a file.
const STANDARD_INPUT: &str = "-";

/// A text of a batch.
#[derive(Clone, Copy)]
struct NamedText<'a> {
    /// Its name in its lines, where they have one.
    name: Option<&'a str>,
    /// Its file; standard input where none is named.
    file: Option<&'a str>,
}

/// Judges the traces in files, one file after the other, each opened when its turn comes; one of them may be what the reader
/// has. A file that can't be opened is left out, and told.
pub(crate) fn batch_named<
    H: Threads + Wait + Sync + AllocGlobal,
    O: Environment,
    R: Read,
    W: Write,
    E: Write,
>(
    rt: &H,
    request: &BatchRequest<'_>,
    files: &mut O,
    reader: &mut R,
    writer: &mut W,
    errors: &mut E,
) -> Result<Answer, Fault>
    requires workers { 1 ≤ request.now.workers }
    requires input { reads_one (files_in request.now.texts.items) }
    ensures whole { let are_texts = AreTextsOfBatch (files_in request.now.texts.items) (R.remaining reader.old) (O.bytes files.old) in
        IfOk result (λ verdict. (texts : List BatchText) × are_texts texts ×
        WritesBatch request.now.printing texts (W.contents writer.old) (W.contents writer.new) (E.contents errors.old) (E.contents errors.new) verdict) }
    ensures left { let are_texts = AreTextsOfBatch (files_in request.now.texts.items) (R.remaining reader.old) (O.bytes files.old) in
        OnErr result ((texts : List BatchText) × are_texts texts ×
        LeavesBatch request.now.printing texts (W.contents writer.old) (W.contents writer.new) (E.contents errors.old) (E.contents errors.new)) }
    ensures fault { IfErr result IsBatchFault }
    ensures first { OpensFirst (O.opened files.old) (O.opened files.new) (filter_map (λ file. file) (files_in request.now.texts.items)) }
    ensures opened { IfOk result (λ _. OpensNext (O.opened files.old) (O.opened files.new) (filter_map (λ file. file) (files_in request.now.texts.items))) }
    ensures unread { list_all is_some (files_in request.now.texts.items) ≡ true → reader.new ≡ reader.old }
    ensures taken { list_all is_some (files_in request.now.texts.items) ≡ false →
        IfOk result (λ _. IfSome (R.remaining reader.old) (λ all. Consumes (R.remaining reader.old) (R.remaining reader.new) all)) }
{
    let batch = judge_each(rt, request, files, reader, writer, errors)?;
    batch.end(writer, errors)
}

/// Begins the batch, and judges its texts, one after the other.
fn judge_each<H: Threads + Wait + Sync + AllocGlobal, O: Environment, R: Read, W: Write, E: Write>(
    rt: &H,
    request: &BatchRequest<'_>,
    files: &mut O,
    reader: &mut R,
    writer: &mut W,
    errors: &mut E,
) -> Result<Batch, Fault>
    requires workers { 1 ≤ request.now.workers }
    requires input { reads_one (files_in request.now.texts.items) }
    ensures judged { let are_texts = AreTextsOfBatch (files_in request.now.texts.items) (R.remaining reader.old) (O.bytes files.old) in
        IfOk result (λ batch. (texts : List BatchText) × are_texts texts ×
        HasWritten batch request.now.printing texts (W.contents writer.old) (W.contents writer.new) (E.contents errors.old) (E.contents errors.new)) }
    ensures left { let are_texts = AreTextsOfBatch (files_in request.now.texts.items) (R.remaining reader.old) (O.bytes files.old) in
        OnErr result ((texts : List BatchText) × are_texts texts ×
        LeavesBatch request.now.printing texts (W.contents writer.old) (W.contents writer.new) (E.contents errors.old) (E.contents errors.new)) }
    ensures fault { IfErr result IsBatchFault }
    ensures first { OpensFirst (O.opened files.old) (O.opened files.new) (filter_map (λ file. file) (files_in request.now.texts.items)) }
    ensures opened { OnOk result (OpensNext (O.opened files.old) (O.opened files.new) (filter_map (λ file. file) (files_in request.now.texts.items))) }
    ensures unread { list_all is_some (files_in request.now.texts.items) ≡ true → reader.new ≡ reader.old }
    ensures taken { list_all is_some (files_in request.now.texts.items) ≡ false →
        OnOk result (IfSome (R.remaining reader.old) (λ all. Consumes (R.remaining reader.old) (R.remaining reader.new) all)) }
{
    let mut batch = begin(rt.alloc(), request, writer)?;
    let texts = request.texts.as_slice();
    let several = are_several(texts);
    for i in 0..texts.len() {
        let text = text_at(several, texts, i);
        text.judge(rt, &mut batch, files, reader, writer, errors)?;
    }
    Ok(batch)
}

/// Begins the batch that was asked for.
fn begin<W: Write>(
    alloc: Global,
    request: &BatchRequest<'_>,
    writer: &mut W,
) -> Result<Batch, Fault>
    requires { 1 ≤ request.now.workers }
    ensures begun { IfOk result (λ batch. HasJudged batch request.now.printing []) }
    ensures whole { OnOk result (Appends (W.contents writer.old) (W.contents writer.new) (batch_head_text request.now.printing)) }
    ensures prefix { AppendsPrefix (W.contents writer.old) (W.contents writer.new) (batch_head_text request.now.printing) }
    ensures fault { IfErr result IsBatchFault }
{
    let options = BatchOptions {
        workers: request.workers,
        printing: request.printing,
    };
    Batch::begin(alloc, options, writer)
}

/// The text at a place, with the name that its lines have.
fn text_at<'a>(several: bool, texts: &[Option<&'a str>], i: usize) -> NamedText<'a>
    requires { i < length texts.now }
    ensures name { name_in result.name ≡ name_in_lines several (name_in result.file) }
    ensures file { (default : Option (Bor (List ℕ))) → result.file ≡ get_or texts.now i default }
{
    let file = texts[i];
    let name = told_name(several, file);
    NamedText { name, file }
}

/// Whether there are several texts.
fn are_several(texts: &[Option<&str>]) -> bool
    ensures { result ≡ are_several (files_in texts.now) }
{
    texts.len() > 1
}

/// The name that the lines of a text have, where there are several texts.
fn told_name(several: bool, file: Option<&str>) -> Option<&str>
    ensures { name_in result ≡ name_in_lines several (name_in file.entry) }
{
    if several {
        Some(file.unwrap_or(STANDARD_INPUT))
    } else {
        None
    }
}

impl NamedText<'_> {
    /// Judges it as the next text of a batch, or tells that its file can't be opened.
    fn judge<H: Threads + Wait + Sync, O: Environment, R: Read, W: Write, E: Write>(
        self,
        rt: &H,
        batch: &mut Batch,
        files: &mut O,
        reader: &mut R,
        writer: &mut W,
        errors: &mut E,
    ) -> Result<(), Fault>
        ensures judged { OnOk result ((text : BatchText) ×
            IsNamedText (name_in self.entry.name) (R.remaining reader.old) (O.bytes files.old) (name_in self.entry.file) text ×
            Judges text batch.old batch.new (W.contents writer.old) (W.contents writer.new) (E.contents errors.old) (E.contents errors.new)) }
        ensures left { OnErr result ((text : BatchText) ×
            IsNamedText (name_in self.entry.name) (R.remaining reader.old) (O.bytes files.old) (name_in self.entry.file) text ×
            LeavesText text batch.old (W.contents writer.old) (W.contents writer.new) (E.contents errors.old) (E.contents errors.new)) }
        ensures fault { IfErr result IsBatchFault }
        ensures opened { OpensNext (O.opened files.old) (O.opened files.new) (option_to_list (name_in self.entry.file)) }
        ensures same { O.bytes files.new ≡ O.bytes files.old }
        ensures unread { IfSome self.entry.file (λ _. reader.new ≡ reader.old) }
        ensures taken { self.entry.file ≡ None →
            OnOk result (IfSome (R.remaining reader.old) (λ all. Consumes (R.remaining reader.old) (R.remaining reader.new) all)) }
    {
        let meter = files.meter("traces", None);
        match self.file {
            None => batch.judge(rt, &meter, self.name, reader, writer, errors),
            Some(name) => match open(files, name) {
                Ok(mut file) => batch.judge(rt, &meter, self.name, &mut file, writer, errors),
                Err(_) => batch.leave_out(self.name, writer, errors),
            },
        }
    }
}
