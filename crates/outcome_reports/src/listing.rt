//! The outcomes of a program: it is read, its final states are found, and they or their traces are written.
ghost use Rattle.std.specs.Prelude.{◌≡◌, ◌≢◌, ◌⊎◌, All, map, string_bytes, IfOk, IfErr};
ghost use Rattle.tso_ops.specs.Limits.{IsTrace};
ghost use Rattle.tso_text.specs.declared.faults.Why.{Why};
ghost use Rattle.text_streams.specs.declared.faults.Fault.{Fault};
ghost use Rattle.trace_streams.specs.Limits.{trace_read_limit};
ghost use Rattle.text_streams.specs.Streams.{LosesPrefix};
ghost use Rattle.text_streams.specs.WrittenTexts.{LeavesAtFault, WritesWhole};
ghost use Rattle.trace_reports.specs.RefusalLines.{refusal_text};
ghost use Rattle.trace_reports.specs.declared.answers.Answer.{Answer};
ghost use Rattle.final_states.specs.FinalStates.{AreFinalStatesOf, state_of};
ghost use Rattle.outcome_reports.specs.Outcomes.{IsListing, IsOutcomes, IsOutcomesOfReader, states_refusal};

use crate::different::{list_traces, print_traces};
use crate::lines::print_states;
use final_states::{FinalState, StatesFault, final_states};
use request_options::{OutcomeForm, OutcomeOptions};
use std::alloc::Global;
use std::io::{Read, Write};
use text_streams::{Fault, read_all, write_text};
use trace_reports::{Answer, render_refusal};
use tso_ops::{OutOfMemory, Program};
use tso_text::{MAX_TEXT_BYTES, TextFault, read_program};

/// A whole text, and the verdict that it gives.
#[derive(Drop)]
pub(crate) struct OutcomeText {
    pub(crate) text: String,
    pub(crate) verdict: Answer,
}

/// Writes the outcomes of the program whose text a reader has: the traces that its complete runs leave, each once, or the
/// line of each of its final states, after how many there are. Both are in ascending order of the values that were read, and
/// final states then of the last values.
///
/// The verdict is Clear, or Refused where the text is no program, or runs of it reach more states than the limit: then
/// the line of the refusal is written. At most 1,048,577 bytes are read. Faults: OutOfMemory where an allocation was refused;
/// Read where the reader failed or passed 2,097,152 calls; with both nothing was written. Write where the writer failed, took
/// no byte or was interrupted more than 1,048,576 times: then what was written is a prefix of the text.
pub fn list_outcomes<P: Read, W: Write>(
    alloc: Global,
    programs: &mut P,
    writer: &mut W,
    options: OutcomeOptions,
) -> Result<Answer, Fault>
    ensures whole { IfOk result (WritesWhole (IsOutcomesOfReader options (P.remaining programs.old)) (W.contents writer.old) (W.contents writer.new)) }
    ensures fault { IfErr result (LeavesAtFault (IsOutcomesOfReader options (P.remaining programs.old)) (W.contents writer.old) (W.contents writer.new)) }
    ensures no_thread { IfErr result (λ fault. fault ≢ Fault.NoThread) }
    ensures taken { IfOk result (λ _. LosesPrefix trace_read_limit (P.remaining programs.old) (P.remaining programs.new)) }
{
    let said = read_outcomes(alloc, programs, options)?;
    write_text(writer, said.text.as_bytes())?;
    Ok(said.verdict)
}

/// What is written of the program that a reader has.
fn read_outcomes<P: Read>(
    alloc: Global,
    programs: &mut P,
    options: OutcomeOptions,
) -> Result<OutcomeText, Fault>
    ensures said { IfOk result (λ said. IsOutcomesOfReader options (P.remaining programs.old) (string_bytes said.text) said.verdict) }
    ensures taken { IfOk result (λ _. LosesPrefix trace_read_limit (P.remaining programs.old) (P.remaining programs.new)) }
    ensures fault { IfErr result (λ fault. (fault ≡ Fault.OutOfMemory) ⊎ (fault ≡ Fault.Read)) }
{
    let input = read_all(alloc, programs, MAX_TEXT_BYTES)?;
    match read_program(alloc, &input) {
        Ok(program) => Ok(outcomes_of(alloc, &program, options)?),
        Err(fault) => Ok(refused_program(alloc, fault)?),
    }
}

/// The line of a text that is no program. OutOfMemory where an allocation was refused, also where the fault says that one was.
pub(crate) fn refused_program(alloc: Global, fault: TextFault) -> Result<OutcomeText, OutOfMemory>
    ensures why { IfOk result (λ _. fault.why ≢ Why.OutOfMemory) }
    ensures line { IfOk result (λ said. string_bytes said.text ≡ refusal_text fault.line fault.why) }
    ensures refused { IfOk result (λ said. said.verdict ≡ Answer.Refused) }
{
    let report = render_refusal(alloc, fault)?;
    Ok(OutcomeText {
        text: report.text,
        verdict: Answer::Refused,
    })
}

/// What is written of a program.
fn outcomes_of(
    alloc: Global,
    program: &Program,
    options: OutcomeOptions,
) -> Result<OutcomeText, OutOfMemory>
    ensures { IfOk result (λ said. IsOutcomes options program.now (string_bytes said.text) said.verdict) }
{
    match final_states(alloc, program, options.limit) {
        Ok(states) => Ok(OutcomeText {
            text: print_outcomes(alloc, program, &states, options.form)?,
            verdict: Answer::Clear,
        }),
        Err(StatesFault::TooManyStates) => refused_states(alloc),
        Err(StatesFault::OutOfMemory) => Err(OutOfMemory),
    }
}

/// The line of a program whose runs reach more states than the limit.
pub(crate) fn refused_states(alloc: Global) -> Result<OutcomeText, OutOfMemory>
    ensures line { IfOk result (λ said. string_bytes said.text ≡ states_refusal) }
    ensures refused { IfOk result (λ said. said.verdict ≡ Answer.Refused) }
{
    Ok(OutcomeText {
        text: String::from_str(alloc, "REFUSED States\n")?,
        verdict: Answer::Refused,
    })
}

/// The final states of a program, or their traces.
fn print_outcomes(
    alloc: Global,
    program: &Program,
    states: &[FinalState],
    form: OutcomeForm,
) -> Result<String, OutOfMemory>
    requires found { AreFinalStatesOf program.now (map (state_of program.now) states.now) }
    requires traces { All (λ state. IsTrace (state_of program.now state).trace) states.now }
    ensures { IfOk result (λ text. IsListing form program.now (string_bytes text)) }
{
    match form {
        OutcomeForm::Traces => {
            let traces = list_traces(alloc, states)?;
            print_traces(alloc, program, &traces)
        }
        OutcomeForm::States => print_states(alloc, states),
    }
}
