//! `replay`: a program is read, and then a schedule by which it is run; what was recorded is judged or printed.
ghost use Rattle.std.specs.Prelude.{◌≡◌, ◌⊎◌, IfOk, IfErr, IfSome, OnOk, option_map, true, false};
ghost use Rattle.command_line.specs.Requests.{asked_of, files_of};
ghost use Rattle.command_line.specs.declared.requests.Request.TheVariants.{Replay};
ghost use Rattle.text_streams.specs.declared.faults.Fault.{Fault};
ghost use Rattle.trace_streams.specs.Limits.{trace_read_limit};
ghost use Rattle.text_streams.specs.Streams.{LosesPrefix};
ghost use Rattle.text_streams.specs.WrittenTexts.{LeavesAtFault, WritesWhole};
ghost use Rattle.tso_text.specs.Refusals.{IsProgramRefusal, IsRefusedProgram, IsScheduleRefusal};
ghost use Rattle.tso_text.specs.Texts.{SpellsProgram, SpellsSchedule};
ghost use Rattle.trace_judging.specs.Limits.{HasWorkerRange};
ghost use Rattle.run_serving.specs.Ranges.{AreInRange};
ghost use Rattle.request_texts.specs.OpenedFiles.{HasRefusedFirstText, OpensFirst, OpensNext, TakesInput, files_named, opened_bytes, reads_input, text_bytes};
ghost use Rattle.run_serving.specs.Printing.{IsPrintedOf, unit_of};
ghost use Rattle.run_serving.specs.Replaying.{IsReplayOf, IsReplayText, IsScheduledText};

use crate::printing::{Printed, print_record, print_refusal};
use crate::units::make_unit;
use command_line::{RunOptions, TextPair};
use request_texts::{Environment, open_pair, read_text};
use std::io::{Read, Write};
use std::sync::Wait;
use std::thread::Threads;
use text_streams::{Fault, write_text};
use tso_ops::Program;
use tso_text::{Act, read_program, read_schedule};
use unit_core::{Account, MemoryUnit, replay};

/// Replays a program, the first text, by a schedule, the second, and writes what the options ask for: the status. Their
/// files are opened before one is read.
pub fn replay_named<H: Threads + Wait + AllocGlobal, O: Environment, R: Read, W: Write>(
    rt: &H,
    options: &RunOptions,
    texts: TextPair<'_>,
    files: &mut O,
    reader: &mut R,
    writer: &mut W,
) -> Result<u8, Fault>
    requires ranges { AreInRange options.now }
    ensures text { let programs = text_bytes (files_of texts.entry).0 (R.remaining reader.old) (O.bytes files.old) in
        let schedules = text_bytes (files_of texts.entry).1 (R.remaining reader.old) (O.bytes files.old) in
        IfOk result (WritesWhole (IsReplayText options.now programs schedules) (W.contents writer.old) (W.contents writer.new)) }
    ensures fault { let programs = text_bytes (files_of texts.entry).0 (R.remaining reader.old) (O.bytes files.old) in
        let schedules = text_bytes (files_of texts.entry).1 (R.remaining reader.old) (O.bytes files.old) in
        IfErr result (LeavesAtFault (IsReplayText options.now programs schedules) (W.contents writer.old) (W.contents writer.new)) }
    ensures first { OpensFirst (O.opened files.old) (O.opened files.new) (files_named (asked_of (Replay options.now texts.entry))) }
    ensures opened { OnOk result (OpensNext (O.opened files.old) (O.opened files.new) (files_named (asked_of (Replay options.now texts.entry)))) }
    ensures unread { reads_input (asked_of (Replay options.now texts.entry)) ≡ false → reader.new ≡ reader.old }
    ensures unread_after_refusal { HasRefusedFirstText (asked_of (Replay options.now texts.entry)) (O.bytes files.old) → reader.new ≡ reader.old }
    ensures taken { reads_input (asked_of (Replay options.now texts.entry)) ≡ true →
        OnOk result (TakesInput (asked_of (Replay options.now texts.entry)) (R.remaining reader.old) (R.remaining reader.new)) }
{
    let opened = open_pair(files, texts)?;
    let program = read_text(rt.alloc(), opened.first, reader)?;
    let printed = replay_text(rt, options, &program, opened.second, reader)?;
    write_text(writer, &printed.text)?;
    Ok(printed.status)
}

/// What is printed of a replay of the program that a text spells, by the schedule that was opened, or else the one that `reader`
/// has. It isn't read where the program is refused.
fn replay_text<H: Threads + Wait + AllocGlobal, F: Read + Drop, R: Read>(
    rt: &H,
    options: &RunOptions,
    input: &[u8],
    schedule: Option<F>,
    reader: &mut R,
) -> Result<Printed, Fault>
    requires ranges { AreInRange options.now }
    ensures text { let schedules = opened_bytes (option_map F.remaining schedule) (R.remaining reader.old) in
        IfOk result (λ printed. IsPrintedOf SpellsProgram IsProgramRefusal
        (IsScheduledText options.now schedules) input.now printed.text.items printed.status) }
    ensures unread { IfSome schedule (λ _. reader.new ≡ reader.old) }
    ensures unread_after_refusal { IsRefusedProgram input.now → reader.new ≡ reader.old }
    ensures taken { IfOk result (λ _. reader.new ≡ reader.old ⊎ LosesPrefix trace_read_limit (R.remaining reader.old) (R.remaining reader.new)) }
    ensures fault { IfErr result (λ fault. (fault ≡ Fault.OutOfMemory) ⊎ ((fault ≡ Fault.Read) ⊎ (fault ≡ Fault.NoThread))) }
{
    match read_program(rt.alloc(), input) {
        Ok(program) => {
            let text = read_text(rt.alloc(), schedule, reader)?;
            replay_program(rt, options, &program, &text)
        }
        Err(fault) => Ok(print_refusal(rt.alloc(), fault)?),
    }
}

/// What is printed of a replay of the program by the schedule that a text spells.
fn replay_program<H: Threads + Wait + AllocGlobal>(
    rt: &H,
    options: &RunOptions,
    program: &Program,
    input: &[u8],
) -> Result<Printed, Fault>
    requires ranges { AreInRange options.now }
    ensures text { IfOk result (λ printed. IsPrintedOf SpellsSchedule IsScheduleRefusal
        (IsReplayOf options.now program.now) input.now printed.text.items printed.status) }
    ensures fault { IfErr result (λ fault. (fault ≡ Fault.OutOfMemory) ⊎ (fault ≡ Fault.NoThread)) }
{
    match read_schedule(rt.alloc(), input) {
        Ok(schedule) => replay_by(rt, options, program, &schedule),
        Err(fault) => Ok(print_refusal(rt.alloc(), fault)?),
    }
}

/// What is printed of a replay of the program by the schedule.
fn replay_by<H: Threads + Wait + AllocGlobal>(
    rt: &H,
    options: &RunOptions,
    program: &Program,
    schedule: &[Act],
) -> Result<Printed, Fault>
    requires ranges { AreInRange options.now }
    ensures text { IfOk result (λ printed. IsReplayOf options.now program.now schedule.now printed.text.items printed.status) }
    ensures fault { IfErr result (λ fault. (fault ≡ Fault.OutOfMemory) ⊎ (fault ≡ Fault.NoThread)) }
{
    let alloc = rt.alloc();
    let unit = make_unit(alloc, options.unit)?;
    replay_on(rt, Box::new(alloc, unit)?, options, program, schedule)
}

/// What is printed of a replay on this unit, which is as the options ask for.
fn replay_on<H: Threads + Wait + AllocGlobal>(
    rt: &H,
    unit: Box<dyn MemoryUnit + Send>,
    options: &RunOptions,
    program: &Program,
    schedule: &[Act],
) -> Result<Printed, Fault>
    requires unit { value_of unit ≡ unit_of options.now.unit }
    requires workers { HasWorkerRange options.now.workers }
    ensures text { IfOk result (λ printed. IsReplayOf options.now program.now schedule.now printed.text.items printed.status) }
    ensures fault { IfErr result (λ fault. (fault ≡ Fault.OutOfMemory) ⊎ (fault ≡ Fault.NoThread)) }
{
    let mut account = Account::new();
    let recorded = replay(rt.alloc(), unit, program, schedule, &mut account)?;
    print_record(rt, options, &recorded, &account)
}
