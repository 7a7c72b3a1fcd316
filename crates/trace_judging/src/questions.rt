//! Questions about one trace, and the one way from a text to an answer: read, parse, find, render, write.
ghost use Rattle.std.specs.Prelude.{◌≡◌, ◌⊎◌, string_bytes, IfOk, IfErr, IfSome};
ghost use Rattle.tso_ops.specs.Values.{TraceValue};
ghost use Rattle.tso_text.specs.Texts.{SpellsTrace};
ghost use Rattle.trace_streams.specs.Limits.{trace_read_limit};
ghost use Rattle.trace_reports.specs.Renderings.{IsRendered, IsTextOf, IsTextOfBytes};
ghost use Rattle.text_streams.specs.Streams.{LosesPrefix};
ghost use Rattle.text_streams.specs.WrittenTexts.{LeavesAtFault, WritesWhole};
ghost use Rattle.text_streams.specs.declared.faults.Fault.{Fault};

use std::alloc::Global;
use std::io::{Read, Write};
use std::sync::Wait;
use std::thread::Threads;
use text_streams::{Fault, read_all, write_text};
use trace_reports::{Rendering, Report, render_refused};
use tso_ops::Trace;
use tso_text::{MAX_TEXT_BYTES, read_trace};

/// A question about one trace: what may be found of it, and what that answers.
pub trait Question {
    /// What is found of a trace.
    type Found: Drop;

    /// What is answered.
    type Verdict: Drop;

    /// The limits of the question, as its number of workers, are in their ranges.
    ghost is_limited: { Self → Type 0 };

    /// This is found of the trace.
    ghost is_found: { Self → TraceValue → Self.Found → Type 0 };

    /// What is answered by what is found.
    ghost answers: { Self.Found → Self.Verdict };

    /// What is answered to a text that is no trace.
    ghost refusing: { Self.Verdict };

    /// What an answer says of a trace.
    ghost says: { TraceValue → Self.Verdict → Type 0 };

    /// What is found of a trace. Faults: OutOfMemory where an allocation was refused, NoThread where the system refused a thread.
    fn find<H: Threads + Wait>(
        &self,
        rt: &H,
        alloc: Global,
        trace: &Trace,
    ) -> Result<Self::Found, Fault>
        requires { is_limited self.now }
        ensures found { IfOk result (is_found self.now trace.now) }
        ensures says { IfOk result (λ found. says trace.now (answers found)) }
        ensures fault { IfErr result (λ fault. (fault ≡ Fault.OutOfMemory) ⊎ (fault ≡ Fault.NoThread)) };

    /// What is answered by what was found.
    fn answer(&self, found: &Self::Found) -> Self::Verdict
        ensures { result ≡ answers found.now };

    /// What is answered to a text that is no trace.
    fn refusal(&self) -> Self::Verdict
        ensures { result ≡ refusing };
}

/// Answers a question about the trace that a reader has, by a rendering: reads its text, finds, renders the whole text of the
/// answer, and then writes it.
///
/// What is written is the one text of what is found that the rendering gives. An input that is no trace is refused. At most
/// 1,048,577 bytes are read. Faults: OutOfMemory where an allocation was refused; Read where the reader failed or passed
/// 2,097,152 calls; NoThread where the system refused a thread; with each nothing was written. Write where the writer failed, took
/// no byte or was interrupted more than 1,048,576 times: then what was written is a prefix of the text.
pub fn answer_reader<
    H: Threads + Wait,
    R: Read,
    W: Write,
    Q: Question,
    P: Rendering<Trace, Q::Found>,
>(
    rt: &H,
    alloc: Global,
    reader: &mut R,
    writer: &mut W,
    question: &Q,
    rendering: &P,
) -> Result<Q::Verdict, Fault>
    requires { Q.is_limited question.now }
    ensures rendered { let is_text = IsTextOfBytes (IsRendered (Q.is_found question.now) Q.answers (P.rendered rendering.now)) Q.refusing
        (P.refused rendering.now) (R.remaining reader.old) in IfOk result (WritesWhole is_text (W.contents writer.old) (W.contents writer.new)) }
    ensures says { IfOk result (λ verdict. IfSome (R.remaining reader.old) (λ all. (t : TraceValue) → SpellsTrace all t → Q.says t verdict)) }
    ensures taken { IfOk result (λ _. LosesPrefix trace_read_limit (R.remaining reader.old) (R.remaining reader.new)) }
    ensures fault { let is_text = IsTextOfBytes (IsRendered (Q.is_found question.now) Q.answers (P.rendered rendering.now)) Q.refusing (P.refused rendering.now)
        (R.remaining reader.old) in IfErr result (LeavesAtFault is_text (W.contents writer.old) (W.contents writer.new)) }
{
    let input = read_all(alloc, reader, MAX_TEXT_BYTES)?;
    let report = answer_text(rt, alloc, &input, question, rendering)?;
    write_text(writer, report.text.as_bytes())?;
    Ok(report.verdict)
}

/// Answers a question about the trace that a text spells: what the rendering says of what is found, or of the refusal of the text.
///
/// Faults: OutOfMemory where an allocation was refused, NoThread where the system refused a thread.
pub fn answer_text<H: Threads + Wait, Q: Question, P: Rendering<Trace, Q::Found>>(
    rt: &H,
    alloc: Global,
    input: &[u8],
    question: &Q,
    rendering: &P,
) -> Result<Report<Q::Verdict>, Fault>
    requires { Q.is_limited question.now }
    ensures rendered { IfOk result (λ report. IsTextOf (IsRendered (Q.is_found question.now) Q.answers (P.rendered rendering.now)) Q.refusing
        (P.refused rendering.now) input.now (string_bytes report.text) report.verdict) }
    ensures says { IfOk result (λ report. (t : TraceValue) → SpellsTrace input.now t → Q.says t report.verdict) }
    ensures fault { IfErr result (λ fault. (fault ≡ Fault.OutOfMemory) ⊎ (fault ≡ Fault.NoThread)) }
{
    match read_trace(alloc, input) {
        Ok(trace) => answer_trace(rt, alloc, &trace, question, rendering),
        Err(fault) => {
            let refusing = question.refusal();
            Ok(render_refused(alloc, input, fault, rendering, refusing)?)
        }
    }
}

/// Answers a question about a trace: what the rendering says of what is found.
///
/// Faults: OutOfMemory where an allocation was refused, NoThread where the system refused a thread.
pub fn answer_trace<H: Threads + Wait, Q: Question, P: Rendering<Trace, Q::Found>>(
    rt: &H,
    alloc: Global,
    trace: &Trace,
    question: &Q,
    rendering: &P,
) -> Result<Report<Q::Verdict>, Fault>
    requires { Q.is_limited question.now }
    ensures rendered { IfOk result (λ report. IsRendered (Q.is_found question.now) Q.answers (P.rendered rendering.now) trace.now
        (string_bytes report.text) report.verdict) }
    ensures says { IfOk result (λ report. Q.says trace.now report.verdict) }
    ensures fault { IfErr result (λ fault. (fault ≡ Fault.OutOfMemory) ⊎ (fault ≡ Fault.NoThread)) }
{
    let found = question.find(rt, alloc, trace)?;
    let text = rendering.text_of_found(alloc, trace, &found)?;
    Ok(Report {
        verdict: question.answer(&found),
        text,
    })
}
