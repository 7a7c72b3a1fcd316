//! `run --times`: a program is read, and run more times than one; the trace of each run is written as it ends.
ghost use Rattle.std.specs.Prelude.{◌≡◌, ◌≤◌, ℕ, List, IfOk, IfSome, OnOk, OnErr, None};
ghost use Rattle.std.specs.Io.KnownBytes.{Appends};
ghost use Rattle.command_line.specs.Requests.{asked_of, drain_turns_limit};
ghost use Rattle.command_line.specs.declared.requests.Request.TheVariants.{RunTimes};
ghost use Rattle.trace_streams.specs.Limits.{trace_read_limit};
ghost use Rattle.text_streams.specs.Streams.{AppendsPrefix, LosesPrefix};
ghost use Rattle.text_streams.specs.WrittenTexts.{WritesWhole};
ghost use Rattle.run_serving.specs.Ranges.{IsUnitInRange};
ghost use Rattle.request_texts.specs.OpenedFiles.{OpensNext, files_named, name_in, text_bytes};
ghost use Rattle.run_serving.specs.Printing.{unit_of};
ghost use Rattle.run_serving.specs.Running.{AreRunTraces, IsRunTimesText, IsTraceTextOfRun, LeavesRunTimes};

use crate::failures::RunFailure;
use crate::printing::{print_refusal, recorded_text};
use crate::running::{Drains, record_run};
use crate::units::make_unit;
use command_line::RunTimesRequest;
use request_texts::{Environment, open_named, read_text};
use std::io::{Read, Write};
use std::sync::Wait;
use std::thread::Threads;
use text_streams::write_text;
use trace_reports::DONE;
use tso_ops::Program;
use tso_text::read_program;
use unit_core::{Account, MemoryUnit};

/// Runs the program in a file, or else what the reader has, so many times, and writes the trace of each run: the status.
pub fn repeat_named<H: Threads + Wait + Sync + AllocGlobal, O: Environment, R: Read, W: Write>(
    rt: &H,
    request: &RunTimesRequest<'_>,
    files: &mut O,
    reader: &mut R,
    writer: &mut W,
) -> Result<u8, RunFailure>
    requires unit { IsUnitInRange request.now.unit }
    requires turns { request.now.drain_turns ≤ drain_turns_limit }
    ensures whole { let programs = text_bytes (name_in request.now.program) (R.remaining reader.old) (O.bytes files.old) in
        IfOk result (WritesWhole (IsRunTimesText request.now.unit request.now.times programs) (W.contents writer.old) (W.contents writer.new)) }
    ensures left { let programs = text_bytes (name_in request.now.program) (R.remaining reader.old) (O.bytes files.old) in
        OnErr result (LeavesRunTimes request.now.unit request.now.times programs (W.contents writer.old) (W.contents writer.new)) }
    ensures opened { OpensNext (O.opened files.old) (O.opened files.new) (files_named (asked_of (RunTimes request.now))) }
    ensures unread { IfSome request.now.program (λ _. reader.new ≡ reader.old) }
    ensures taken { request.now.program ≡ None → IfOk result (λ _. LosesPrefix trace_read_limit (R.remaining reader.old) (R.remaining reader.new)) }
{
    let program = open_named(files, request.program)?;
    let input = read_text(rt.alloc(), program, reader)?;
    match read_program(rt.alloc(), &input) {
        Ok(program) => {
            repeat(rt, request, request.times, &program, writer)?;
            Ok(DONE)
        }
        Err(fault) => {
            let printed = print_refusal(rt.alloc(), fault)?;
            write_text(writer, &printed.text)?;
            Ok(printed.status)
        }
    }
}

/// Runs the program so many times, and writes the trace of each run as it ends.
fn repeat<H: Threads + Wait + Sync + AllocGlobal, W: Write>(
    rt: &H,
    request: &RunTimesRequest<'_>,
    times: u64,
    program: &Program,
    writer: &mut W,
) -> Result<(), RunFailure>
    requires unit { IsUnitInRange request.now.unit }
    requires turns { request.now.drain_turns ≤ drain_turns_limit }
    ensures whole { OnOk result ((text : List ℕ) × AreRunTraces request.now.unit program.now times text ×
        Appends (W.contents writer.old) (W.contents writer.new) text) }
    ensures left { OnErr result ((done : ℕ) × (done ≤ times) × (text : List ℕ) × AreRunTraces request.now.unit program.now done text ×
        AppendsPrefix (W.contents writer.old) (W.contents writer.new) text) }
{
    let mut seed = request.drain_seed;
    for _done in 0..times {
        let text = run_once(rt, request, seed, program)?;
        write_text(writer, &text)?;
        seed = seed.wrapping_add(1);
    }
    Ok(())
}

/// The trace of a run of the program with this seed of the drains.
fn run_once<H: Threads + Wait + Sync + AllocGlobal>(
    rt: &H,
    request: &RunTimesRequest<'_>,
    seed: u64,
    program: &Program,
) -> Result<Vec<u8>, RunFailure>
    requires unit { IsUnitInRange request.now.unit }
    requires turns { request.now.drain_turns ≤ drain_turns_limit }
    ensures { IfOk result (λ text. IsTraceTextOfRun request.now.unit program.now text.items) }
{
    let unit = make_unit(rt.alloc(), request.unit)?;
    run_on(rt, Box::new(rt.alloc(), unit)?, request, seed, program)
}

/// The trace of a run on this unit, which is as the request asks for.
fn run_on<H: Threads + Wait + Sync + AllocGlobal>(
    rt: &H,
    unit: Box<dyn MemoryUnit + Send>,
    request: &RunTimesRequest<'_>,
    seed: u64,
    program: &Program,
) -> Result<Vec<u8>, RunFailure>
    requires unit { value_of unit ≡ unit_of request.now.unit }
    requires turns { request.now.drain_turns ≤ drain_turns_limit }
    ensures { IfOk result (λ text. IsTraceTextOfRun request.now.unit program.now text.items) }
{
    let drains = Drains {
        seed,
        turns: request.drain_turns,
    };
    let mut account = Account::new();
    let recorded = record_run(rt, program, unit, drains, &mut account)?;
    let text = recorded_text(rt.alloc(), &recorded)?;
    Ok(text)
}
