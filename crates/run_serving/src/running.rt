//! `run`: a program is read, and run with a thread per processor and a drainer; what was recorded is judged or printed.
ghost use Rattle.std.specs.Prelude.{◌≡◌, ◌⊎◌, ◌≤◌, [], IfOk, IfErr, IfSome, None, Ok};
ghost use Rattle.issue_desk.specs.Running.{Runs};
ghost use Rattle.command_line.specs.Requests.{asked_of, drain_turns_limit};
ghost use Rattle.command_line.specs.declared.requests.Request.TheVariants.{Run};
ghost use Rattle.text_streams.specs.declared.faults.Fault.{Fault};
ghost use Rattle.trace_streams.specs.Limits.{trace_read_limit};
ghost use Rattle.text_streams.specs.Streams.{LosesPrefix};
ghost use Rattle.trace_judging.specs.Limits.{HasWorkerRange};
ghost use Rattle.run_serving.specs.Ranges.{AreInRange};
ghost use Rattle.run_serving.specs.FailedRuns.{LeavesAtFailure, OnFault};
ghost use Rattle.request_texts.specs.OpenedFiles.{OpensNext, files_named, name_in, text_bytes};
ghost use Rattle.run_serving.specs.Printing.{IsPrintedOf, unit_of};
ghost use Rattle.run_serving.specs.Running.{IsRunPrinted, IsRunText};
ghost use Rattle.text_streams.specs.WrittenTexts.{WritesWhole};
ghost use Rattle.tso_text.specs.Refusals.{IsProgramRefusal};
ghost use Rattle.tso_text.specs.Texts.{SpellsProgram};

use crate::failures::{RunFailure, failure_of};
use crate::printing::{Printed, print_record, print_refusal};
use crate::units::make_unit;
use command_line::RunRequest;
use issue_desk::{Issuers, OpenGate, RunThreads, run_with_drainer};
use request_texts::{Environment, open_named, read_text};
use std::io::{Read, Write};
use std::sync::Wait;
use std::thread::Threads;
use text_streams::write_text;
use tso_ops::Program;
use tso_text::read_program;
use unit_core::{Account, MemoryUnit, Recorded};

/// When the stores of a run are drained: by the processors' threads, as drawn from the seed, and by a drainer with so many
/// turns, none where it takes none.
#[derive(Clone, Copy)]
pub(crate) struct Drains {
    pub(crate) seed: u64,
    pub(crate) turns: u64,
}

/// Runs the program in a file, or else what the reader has, and writes what the request's options ask for: the status.
pub fn run_named<H: Threads + Wait + Sync + AllocGlobal, O: Environment, R: Read, W: Write>(
    rt: &H,
    request: &RunRequest<'_>,
    files: &mut O,
    reader: &mut R,
    writer: &mut W,
) -> Result<u8, RunFailure>
    requires ranges { AreInRange request.now.options }
    requires turns { request.now.drain_turns ≤ drain_turns_limit }
    ensures text { let programs = text_bytes (name_in request.now.program) (R.remaining reader.old) (O.bytes files.old) in
        IfOk result (WritesWhole (IsRunText request.now.options programs) (W.contents writer.old) (W.contents writer.new)) }
    ensures fault { let programs = text_bytes (name_in request.now.program) (R.remaining reader.old) (O.bytes files.old) in
        IfErr result (LeavesAtFailure (IsRunText request.now.options programs) (W.contents writer.old) (W.contents writer.new)) }
    ensures opened { OpensNext (O.opened files.old) (O.opened files.new) (files_named (asked_of (Run request.now))) }
    ensures unread { IfSome request.now.program (λ _. reader.new ≡ reader.old) }
    ensures taken { request.now.program ≡ None → IfOk result (λ _. LosesPrefix trace_read_limit (R.remaining reader.old) (R.remaining reader.new)) }
{
    let program = open_named(files, request.program)?;
    let input = read_text(rt.alloc(), program, reader)?;
    let printed = run_text(rt, request, &input)?;
    write_text(writer, &printed.text)?;
    Ok(printed.status)
}

/// What is printed of a run of the program that a text spells.
fn run_text<H: Threads + Wait + Sync + AllocGlobal>(
    rt: &H,
    request: &RunRequest<'_>,
    input: &[u8],
) -> Result<Printed, RunFailure>
    requires ranges { AreInRange request.now.options }
    requires turns { request.now.drain_turns ≤ drain_turns_limit }
    ensures text { IfOk result (λ printed. IsPrintedOf SpellsProgram IsProgramRefusal
        (IsRunPrinted request.now.options) input.now printed.text.items printed.status) }
    ensures fault { IfErr result (OnFault (λ fault. (fault ≡ Fault.OutOfMemory) ⊎ (fault ≡ Fault.NoThread))) }
{
    match read_program(rt.alloc(), input) {
        Ok(program) => run_program(rt, request, &program),
        Err(fault) => Ok(print_refusal(rt.alloc(), fault)?),
    }
}

/// What is printed of a run of the program.
fn run_program<H: Threads + Wait + Sync + AllocGlobal>(
    rt: &H,
    request: &RunRequest<'_>,
    program: &Program,
) -> Result<Printed, RunFailure>
    requires ranges { AreInRange request.now.options }
    requires turns { request.now.drain_turns ≤ drain_turns_limit }
    ensures text { IfOk result (λ printed. IsRunPrinted request.now.options program.now printed.text.items printed.status) }
    ensures fault { IfErr result (OnFault (λ fault. (fault ≡ Fault.OutOfMemory) ⊎ (fault ≡ Fault.NoThread))) }
{
    let alloc = rt.alloc();
    let unit = make_unit(alloc, request.options.unit)?;
    run_on(rt, Box::new(alloc, unit)?, request, program)
}

/// What is printed of a run on this unit, which is as the request asks for, beside a drainer that takes the request's
/// turns.
fn run_on<H: Threads + Wait + Sync + AllocGlobal>(
    rt: &H,
    unit: Box<dyn MemoryUnit + Send>,
    request: &RunRequest<'_>,
    program: &Program,
) -> Result<Printed, RunFailure>
    requires unit { value_of unit ≡ unit_of request.now.options.unit }
    requires workers { HasWorkerRange request.now.options.workers }
    requires turns { request.now.drain_turns ≤ drain_turns_limit }
    ensures text { IfOk result (λ printed. IsRunPrinted request.now.options program.now printed.text.items printed.status) }
    ensures fault { IfErr result (OnFault (λ fault. (fault ≡ Fault.OutOfMemory) ⊎ (fault ≡ Fault.NoThread))) }
{
    let drains = Drains {
        seed: request.drain_seed,
        turns: request.drain_turns,
    };
    let mut account = Account::new();
    let recorded = record_run(rt, program, unit, drains, &mut account)?;
    Ok(print_record(rt, &request.options, &recorded, &account)?)
}

/// The record of a run of the program on this unit, with its account.
pub(crate) fn record_run<H: Threads + Wait + Sync + AllocGlobal>(
    rt: &H,
    program: &Program,
    unit: Box<dyn MemoryUnit + Send>,
    drains: Drains,
    account: &mut Account,
) -> Result<Recorded, RunFailure>
    requires untouched { (value_of unit).steps ≡ [] }
    requires turns { drains.turns ≤ drain_turns_limit }
    ensures ran { IfOk result (λ recorded. Runs program.now (value_of unit) account.new (Ok recorded)) }
    ensures fault { IfErr result (OnFault (λ fault. (fault ≡ Fault.OutOfMemory) ⊎ (fault ≡ Fault.NoThread))) }
{
    let issuers = Issuers {
        gate: &OpenGate,
        drain_seed: drains.seed,
    };
    let threads = RunThreads {
        issuers,
        turns: drains.turns,
    };
    run_with_drainer(rt, rt.alloc(), program, unit, threads, account).map_err(failure_of)
}
