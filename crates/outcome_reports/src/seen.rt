//! How often a stream of traces has each trace of a program's complete runs.
ghost use Rattle.std.specs.Prelude.{◌≡◌, ◌≢◌, ◌⊎◌, List, map, length, string_bytes, IfOk, IfErr, IfSome};
ghost use Rattle.std.specs.Io.KnownBytes.{Consumes};
ghost use Rattle.tso_ops.specs.Values.{TraceValue, rows};
ghost use Rattle.tso_text.specs.Refusals.{IsRefusedProgram};
ghost use Rattle.text_streams.specs.declared.faults.Fault.{Fault};
ghost use Rattle.trace_streams.specs.Limits.{trace_read_limit};
ghost use Rattle.text_streams.specs.Streams.{LosesPrefix};
ghost use Rattle.text_streams.specs.WrittenTexts.{LeavesAtFault, WritesWhole};
ghost use Rattle.text_streams.specs.Readings.{ReadsAs};
ghost use Rattle.final_states.specs.FinalStates.{values_read};
ghost use Rattle.outcome_reports.specs.Internal.Counting.{CountsOf, CountsTraceTexts, traces_by};
ghost use Rattle.outcome_reports.specs.Outcomes.{AreTracesOf};
ghost use Rattle.outcome_reports.specs.SeenTraces.{CountsSeen, IsSeenOf, IsSeenOfReaders, seen_text, seen_verdict};
ghost use Rattle.outcome_reports.specs.declared.classes.TraceClass.{TraceClass};

use crate::classes::class_of_text;
use crate::counts::SeenCounts;
use crate::different::list_traces;
use crate::listing::{OutcomeText, refused_program, refused_states};
use crate::values::values_of_each;
use final_states::{StatesFault, final_states};
use std::alloc::Global;
use std::io::{Read, Write};
use text_streams::{Fault, read_all, write_text};
use trace_reports::Answer;
use trace_streams::TraceTextReader;
use tso_ops::{OutOfMemory, Outcome, Program};
use tso_text::{MAX_TEXT_BYTES, read_program};

/// Writes how often a stream of traces has each trace of the complete runs of the program whose text another reader has, in
/// ascending order of the values that were read; how many of them it has; how many other traces of the program; and how many
/// trace texts that are no trace of it.
///
/// Another trace of the program is a violation under TSO, where no memory order meets the axioms, and undecided under PSO. The
/// verdict is Violation where there is one, else Refused where a trace text is no trace of the program, else Undecided where
/// one is undecided, else Clear. A text that is no program, or one whose runs reach more states than the limit, is refused by
/// its line: the stream isn't read then, and else all of it is. Trace texts are those of `judge_batch`, and nothing of a trace
/// text is kept. At most 1,048,577 bytes of the program are read. Faults: OutOfMemory where an allocation was refused; Read
/// where a reader failed, passed 2,097,152 calls for the program or 2^64 - 1 for a trace text, or has 2^64 trace texts; with
/// both nothing was written. Write where the writer failed, took no byte or was interrupted more than 1,048,576 times: then
/// what was written is a prefix of the text.
pub fn count_seen<P: Read, S: Read, W: Write>(
    alloc: Global,
    programs: &mut P,
    stream: &mut S,
    writer: &mut W,
    limit: u64,
) -> Result<Answer, Fault>
    ensures whole { IfOk result (WritesWhole (IsSeenOfReaders limit (P.remaining programs.old) (S.remaining stream.old)) (W.contents writer.old)
        (W.contents writer.new)) }
    ensures fault { IfErr result (LeavesAtFault (IsSeenOfReaders limit (P.remaining programs.old) (S.remaining stream.old)) (W.contents writer.old)
        (W.contents writer.new)) }
    ensures no_thread { IfErr result (λ fault. fault ≢ Fault.NoThread) }
    ensures taken { IfOk result (λ _. LosesPrefix trace_read_limit (P.remaining programs.old) (P.remaining programs.new)) }
    ensures taken_after { IfOk result (λ _. (stream.new ≡ stream.old) ⊎
        IfSome (S.remaining stream.old) (λ all. Consumes (S.remaining stream.old) (S.remaining stream.new) all)) }
    ensures unread { IfSome (P.remaining programs.old) (λ text. IsRefusedProgram text → stream.new ≡ stream.old) }
{
    let said = read_seen(alloc, programs, stream, limit)?;
    write_text(writer, said.text.as_bytes())?;
    Ok(said.verdict)
}

/// What is written of the program and the stream that two readers have.
fn read_seen<P: Read, S: Read>(
    alloc: Global,
    programs: &mut P,
    stream: &mut S,
    limit: u64,
) -> Result<OutcomeText, Fault>
    ensures said { IfOk result (λ said. IsSeenOfReaders limit (P.remaining programs.old) (S.remaining stream.old) (string_bytes said.text) said.verdict) }
    ensures taken { IfOk result (λ _. LosesPrefix trace_read_limit (P.remaining programs.old) (P.remaining programs.new)) }
    ensures taken_after { IfOk result (λ _. (stream.new ≡ stream.old) ⊎
        IfSome (S.remaining stream.old) (λ all. Consumes (S.remaining stream.old) (S.remaining stream.new) all)) }
    ensures unread { IfSome (P.remaining programs.old) (λ text. IsRefusedProgram text → stream.new ≡ stream.old) }
    ensures fault { IfErr result (λ fault. (fault ≡ Fault.OutOfMemory) ⊎ (fault ≡ Fault.Read)) }
{
    let input = read_all(alloc, programs, MAX_TEXT_BYTES)?;
    match read_program(alloc, &input) {
        Ok(program) => seen_of(alloc, &program, stream, limit),
        Err(fault) => Ok(refused_program(alloc, fault)?),
    }
}

/// What is written of a program and the stream.
fn seen_of<S: Read>(
    alloc: Global,
    program: &Program,
    stream: &mut S,
    limit: u64,
) -> Result<OutcomeText, Fault>
    ensures said { IfOk result (λ said. IsSeenOf limit (S.remaining stream.old) program.now (string_bytes said.text) said.verdict) }
    ensures taken { IfOk result (λ _. (stream.new ≡ stream.old) ⊎
        IfSome (S.remaining stream.old) (λ all. Consumes (S.remaining stream.old) (S.remaining stream.new) all)) }
    ensures fault { IfErr result (λ fault. (fault ≡ Fault.OutOfMemory) ⊎ (fault ≡ Fault.Read)) }
{
    match final_states(alloc, program, limit) {
        Ok(states) => {
            let traces = list_traces(alloc, &states)?;
            count_traces(alloc, program, &traces, stream)
        }
        Err(StatesFault::TooManyStates) => Ok(refused_states(alloc)?),
        Err(StatesFault::OutOfMemory) => Err(Fault::OutOfMemory),
    }
}

/// What is written of these traces, which are those of the program's runs, and the stream.
fn count_traces<S: Read>(
    alloc: Global,
    program: &Program,
    traces: &[Vec<Vec<Outcome>>],
    stream: &mut S,
) -> Result<OutcomeText, Fault>
    requires { AreTracesOf program.now (traces_by program.now.setting traces.now) }
    ensures said { IfOk result (λ said. ReadsAs (S.remaining stream.old) (λ bytes. CountsSeen program.now bytes (string_bytes said.text) said.verdict)) }
    ensures taken { IfOk result (λ _. IfSome (S.remaining stream.old) (λ all. Consumes (S.remaining stream.old) (S.remaining stream.new) all)) }
    ensures fault { IfErr result (λ fault. (fault ≡ Fault.OutOfMemory) ⊎ (fault ≡ Fault.Read)) }
{
    let counts = count_known(alloc, program, traces, stream)?;
    Ok(print_counts(alloc, program, traces, &counts)?)
}

/// What is written of these counts of these traces of a program.
fn print_counts(
    alloc: Global,
    program: &Program,
    traces: &[Vec<Vec<Outcome>>],
    counts: &SeenCounts,
) -> Result<OutcomeText, OutOfMemory>
    requires { length counts.now.seen.items ≡ length traces.now }
    ensures text { IfOk result (λ said. (classes : List TraceClass) → CountsOf (length traces.now) classes counts.now →
        string_bytes said.text ≡ seen_text program.now.setting.order (traces_by program.now.setting traces.now) classes) }
    ensures verdict { IfOk result (λ said. (classes : List TraceClass) → CountsOf (length traces.now) classes counts.now →
        said.verdict ≡ seen_verdict program.now.setting.order classes) }
{
    let order = program.order();
    Ok(OutcomeText {
        text: counts.print(alloc, order, traces)?,
        verdict: counts.verdict(order),
    })
}

/// How often the stream has each of these traces, which are those of the program's runs.
fn count_known<S: Read>(
    alloc: Global,
    program: &Program,
    traces: &[Vec<Vec<Outcome>>],
    stream: &mut S,
) -> Result<SeenCounts, Fault>
    requires { AreTracesOf program.now (traces_by program.now.setting traces.now) }
    ensures counts { IfOk result (λ counts. ReadsAs (S.remaining stream.old) (CountsTraceTexts program.now (traces_by program.now.setting traces.now) counts)) }
    ensures wide { IfOk result (λ counts. length counts.seen.items ≡ length traces.now) }
    ensures taken { IfOk result (λ _. IfSome (S.remaining stream.old) (λ all. Consumes (S.remaining stream.old) (S.remaining stream.new) all)) }
    ensures fault { IfErr result (λ fault. (fault ≡ Fault.OutOfMemory) ⊎ (fault ≡ Fault.Read)) }
{
    let keys = values_of_each(alloc, traces)?;
    count_trace_texts(alloc, program, &keys, stream)
}

/// How often the stream has each trace of the program's runs, which read these values.
fn count_trace_texts<S: Read>(
    alloc: Global,
    program: &Program,
    keys: &[Vec<u64>],
    stream: &mut S,
) -> Result<SeenCounts, Fault>
    ensures counts { IfOk result (λ counts. (traces : List TraceValue) → AreTracesOf program.now traces → rows keys.now ≡ map values_read traces →
        ReadsAs (S.remaining stream.old) (CountsTraceTexts program.now traces counts)) }
    ensures wide { IfOk result (λ counts. length counts.seen.items ≡ length keys.now) }
    ensures taken { IfOk result (λ _. IfSome (S.remaining stream.old) (λ all. Consumes (S.remaining stream.old) (S.remaining stream.new) all)) }
    ensures fault { IfErr result (λ fault. (fault ≡ Fault.OutOfMemory) ⊎ (fault ≡ Fault.Read)) }
{
    let mut counts = SeenCounts::new(alloc, keys.len())?;
    let mut pieces = TraceTextReader::new(alloc)?;
    for _ in 0..u64::MAX {
        match pieces.next(stream)? {
            Some(piece) => counts.count(class_of_text(alloc, program, keys, &piece)?)?,
            None => return Ok(counts),
        }
    }
    Err(Fault::Read)
}
