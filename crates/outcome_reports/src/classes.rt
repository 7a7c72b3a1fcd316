//! What a trace text of a stream is to the traces of a program's runs.
ghost use Rattle.std.specs.Prelude.{◌≡◌, ◌<◌, List, map, length, Decides, IfSome, IfOk, IfErr};
ghost use Rattle.tso_ops.specs.Values.{TraceValue, op_of, program_of, rows};
ghost use Rattle.text_streams.specs.declared.faults.Fault.{Fault};
ghost use Rattle.final_states.specs.FinalStates.{values_read};
ghost use Rattle.outcome_reports.specs.Internal.Counting.{IsClassOfTrace, IsPlaceOf, IsWithin};
ghost use Rattle.outcome_reports.specs.Outcomes.{AreTracesOf};
ghost use Rattle.outcome_reports.specs.SeenTraces.{IsClassOfText};

use crate::places::place_of;
use crate::values::values_of;
use std::alloc::Global;
use text_streams::Fault;
use tso_ops::{Op, OutOfMemory, Outcome, Program, Trace};
use tso_text::{Why, read_trace};

/// What a trace text of a stream is to the traces of a program's runs.
#[derive(Clone, Copy, Debug)]
pub(crate) enum TraceClass {
    /// The trace of this place, from 0.
    Reached(usize),
    /// A trace of the program that no complete run leaves.
    Unreached,
    /// No trace of the program.
    Foreign,
}

/// What a trace text is to the traces of a program's runs, which read these values. OutOfMemory where an allocation was
/// refused.
pub(crate) fn class_of_text(
    alloc: Global,
    program: &Program,
    keys: &[Vec<u64>],
    piece: &[u8],
) -> Result<TraceClass, Fault>
    ensures class { IfOk result (λ class. (traces : List TraceValue) → AreTracesOf program.now traces → rows keys.now ≡ map values_read traces →
        IsClassOfText program.now traces piece.now class) }
    ensures within { IfOk result (IsWithin (length keys.now)) }
    ensures fault { IfErr result (λ fault. fault ≡ Fault.OutOfMemory) }
{
    match read_trace(alloc, piece) {
        Ok(trace) => Ok(class_of_trace(alloc, program, keys, &trace)?),
        Err(fault) => {
            if fault.why == Why::OutOfMemory {
                return Err(Fault::OutOfMemory);
            }
            Ok(TraceClass::Foreign)
        }
    }
}

/// What a trace is to them.
fn class_of_trace(
    alloc: Global,
    program: &Program,
    keys: &[Vec<u64>],
    trace: &Trace,
) -> Result<TraceClass, OutOfMemory>
    ensures class { IfOk result (λ class. (traces : List TraceValue) → AreTracesOf program.now traces → rows keys.now ≡ map values_read traces →
        IsClassOfTrace program.now traces trace.now class) }
    ensures within { IfOk result (IsWithin (length keys.now)) }
{
    if !is_of_program(alloc, program, trace)? {
        return Ok(TraceClass::Foreign);
    }
    match place_by(alloc, keys, trace)? {
        Some(k) => Ok(TraceClass::Reached(k)),
        None => Ok(TraceClass::Unreached),
    }
}

/// Whether it is a trace of the program.
fn is_of_program(alloc: Global, program: &Program, trace: &Trace) -> Result<bool, OutOfMemory>
    ensures { IfOk result (λ same. Decides same (program_of trace.now ≡ program.now)) }
{
    let other = program_by(alloc, trace)?;
    Ok(other.is_same(program))
}

/// The place of the values that a trace reads.
fn place_by(alloc: Global, keys: &[Vec<u64>], trace: &Trace) -> Result<Option<usize>, OutOfMemory>
    ensures place { IfOk result (IsPlaceOf (rows keys.now) (values_read trace.now)) }
    ensures within { IfOk result (λ place. IfSome place (λ k. k < length keys.now)) }
{
    let values = values_of(alloc, trace)?;
    Ok(place_of(keys, &values))
}

/// The program of a trace.
fn program_by(alloc: Global, trace: &Trace) -> Result<Program, OutOfMemory>
    ensures { IfOk result (λ program. program ≡ program_of trace.now) }
{
    let mut lists = Vec::new(alloc);
    for p in 0..trace.processors() {
        lists.push(ops_of(alloc, trace.ops(p))?)?;
    }
    let setting = trace.setting().copy(alloc)?;
    Ok(Program::of_lists(setting, lists))
}

/// The operations, without what they read.
fn ops_of(alloc: Global, outcomes: &[Outcome]) -> Result<Vec<Op>, OutOfMemory>
    ensures { IfOk result (λ ops. ops.items ≡ map op_of outcomes.now) }
{
    outcomes.iter().map(|outcome| outcome.op()).collect(alloc)
}
