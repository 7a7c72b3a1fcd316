//! Of the crates of values and texts.

use drawn_programs::{Shape, make_program};
use log_text::{LineTags, Log, read_log, read_tags};
use rand_core::Rng;
use run_lines::{RunText, Widths, line_read};
use std::alloc::Global;
use std::io::{Read, Write};
use text_streams::{Fault, read_all, write_text};
use trace_streams::TraceTextReader;
use tso_cert::{Certificate, read_cert};
use tso_evidence::{Evidence, read_evidence};
use tso_ops::{OutOfMemory, Outcome, Program, Refused, Trace};
use tso_text::{MAX_TEXT_BYTES, TextFault, Why, read_trace};
use value_evidence::LogEvidence;
use value_texts::{
    ValuePrintRefusal, ValueTextFault, names_of, print_log_evidence, read_log_evidence,
};

/// `tso_ops`: the trace of these lists of operations, one for each processor, or its refusal.
pub fn trace_of_lists(alloc: Global, lists: Vec<Vec<Outcome>>) -> Result<Trace, Refused<Outcome>> {
    Trace::new(alloc, lists)
}

/// `drawn_programs`: the program of a generator's next words.
pub fn program_of_words<R: Rng>(
    alloc: Global,
    rng: &mut R,
    shape: Shape,
) -> Result<Program, OutOfMemory> {
    make_program(alloc, rng, shape)
}

/// `tso_text`: the trace that a text spells.
pub fn trace_of_a_text(alloc: Global, text: &[u8]) -> Result<Trace, TextFault> {
    let trace = read_trace(alloc, text)?;
    Ok(trace)
}

/// `tso_cert`: the certificate that a text spells.
pub fn certificate_of_a_text(
    alloc: Global,
    text: &[u8],
) -> Result<Certificate, tso_cert::CertificateTextFault> {
    let certificate = read_cert(alloc, text)?;
    Ok(certificate)
}

/// `tso_evidence`: the evidence that a text spells.
pub fn evidence_of_a_text(
    alloc: Global,
    text: &[u8],
) -> Result<Evidence, tso_evidence::EvidenceTextFault> {
    let evidence = read_evidence(alloc, text)?;
    Ok(evidence)
}

/// `log_text`: the log that a text spells.
pub fn log_of_a_text(alloc: Global, text: &[u8]) -> Result<Log, TextFault> {
    let log = read_log(alloc, text, false)?;
    Ok(log)
}

/// `log_text`: the tags of a text's lines.
pub fn tags_of_a_text(alloc: Global, text: &[u8]) -> Result<LineTags, OutOfMemory> {
    let tags = read_tags(alloc, text)?;
    Ok(tags)
}

/// `run_lines`: what the first line of a text says.
pub fn first_line_of_a_run(line: &[u8]) -> Result<RunText, Why> {
    let said = line_read(Widths::Unseen, line)?;
    Ok(said)
}

/// `text_streams`: copies a text.
pub fn copy_a_text<R: Read, W: Write>(
    alloc: Global,
    reader: &mut R,
    writer: &mut W,
) -> Result<(), Fault> {
    let bytes = read_all(alloc, reader, MAX_TEXT_BYTES)?;
    write_text(writer, &bytes)?;
    Ok(())
}

/// `trace_streams`: the next trace of a stream, as it came.
pub fn next_of_a_stream<R: Read>(
    texts: &mut TraceTextReader,
    reader: &mut R,
) -> Result<Option<Vec<u8>>, Fault> {
    let text = texts.next(reader)?;
    Ok(text)
}

/// `value_texts`: evidence that is printed beside a log, and read back.
pub fn evidence_read_back(
    alloc: Global,
    log: &Log,
    evidence: &LogEvidence,
    text: &mut String,
) -> Result<Result<LogEvidence, ValueTextFault>, ValuePrintRefusal> {
    let names = names_of(alloc, log)?;
    print_log_evidence(text, &names, evidence)?;
    let read = read_log_evidence(alloc, &names, text.as_bytes());
    Ok(read)
}
