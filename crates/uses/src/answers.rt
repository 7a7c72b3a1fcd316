//! Of the crates that answer a question about a text or a stream.

use log_decisions::{LogQuestion, decide_log};
use log_evidence::check_log_evidence;
use log_reports::{AsExplainedLog, LogReporting, report_log};
use outcome_reports::{count_seen, list_outcomes};
use progress_meters::NoMeter;
use request_options::{
    BatchFormat, BatchMethod, BatchPrinting, FollowOptions, LogForm, LogOptions, OutcomeForm,
    OutcomeOptions, RunFormat,
};
use run_following::{AsRunWords, follow_run};
use std::alloc::{AllocGlobal, Global};
use std::io::{Read, Write};
use std::sync::Wait;
use std::thread::Threads;
use text_streams::Fault;
use trace_batches::{Batch, BatchOptions};
use trace_decisions::{AsDecision, ByDecision, decide_input};
use trace_judging::judge;
use trace_reduction::reduce_trace;
use trace_reports::{Answer, Verdict};
use tso_report::judge_recorded;
use unit_core::Recorded;

/// `trace_judging`: judges the trace of a reader by four workers.
pub fn judge_a_reader<H: Threads + Wait + Sync, R: Read, W: Write>(
    rt: &H,
    alloc: Global,
    reader: &mut R,
    writer: &mut W,
) -> Result<Verdict, Fault> {
    let verdict = judge(rt, alloc, reader, writer, 4)?;
    Ok(verdict)
}

/// `trace_decisions`: decides the trace of a reader.
pub fn decide_a_reader<H: Threads + Wait, R: Read, W: Write>(
    rt: &H,
    alloc: Global,
    reader: &mut R,
    writer: &mut W,
) -> Result<Answer, Fault> {
    let question = ByDecision {
        workers: 1,
        effort: 100_000,
    };
    let answer = decide_input(rt, alloc, reader, writer, question, &AsDecision)?;
    Ok(answer)
}

/// `trace_batches`: judges the traces of a reader by four workers.
pub fn judge_many<H: Threads + Wait + Sync, R: Read, W: Write, E: Write>(
    rt: &H,
    alloc: Global,
    reader: &mut R,
    writer: &mut W,
    errors: &mut E,
) -> Result<Answer, Fault> {
    let printing = BatchPrinting {
        method: BatchMethod::Judge,
        format: BatchFormat::Words,
        quiet: false,
        violations: false,
        required: None,
    };
    let options = BatchOptions {
        workers: 4,
        printing,
    };
    let mut batch = Batch::begin(alloc, options, writer)?;
    batch.judge(rt, &NoMeter, None, reader, writer, errors)?;
    let verdict = batch.end(writer, errors)?;
    Ok(verdict)
}

/// `log_reports`: finds violations of the log of a reader.
pub fn report_a_log<H: Threads + Wait + AllocGlobal, R: Read, W: Write, E: Write>(
    rt: &H,
    reader: &mut R,
    writer: &mut W,
    errors: &mut E,
) -> Result<Answer, Fault> {
    let options = LogOptions {
        most: 10,
        effort: 100,
        max_unknown: 100,
        needs_end: false,
        form: LogForm::Explained,
    };
    let rendering = &AsExplainedLog;
    let reporting = LogReporting { options, rendering };
    let verdict = report_log(rt, &reporting, &NoMeter, reader, writer, errors)?;
    Ok(verdict)
}

/// `log_decisions`: whether a reader's log has an order of its memory model.
pub fn decide_on_a_log<R: Read, W: Write>(
    alloc: Global,
    reader: &mut R,
    writer: &mut W,
) -> Result<Answer, Fault> {
    let question = LogQuestion {
        effort: 100,
        needs_end: false,
    };
    let answer = decide_log(alloc, question, reader, writer)?;
    Ok(answer)
}

/// `log_evidence`: whether a reader's evidence holds of the log of another.
pub fn check_evidence_on_a_log<L: Read, E: Read, W: Write>(
    alloc: Global,
    logs: &mut L,
    evidence: &mut E,
    writer: &mut W,
) -> Result<Answer, Fault> {
    let answer = check_log_evidence(alloc, logs, evidence, writer)?;
    Ok(answer)
}

/// `run_following`: whether the lines of a reader's run are steps of the machine, up to the first that is none.
pub fn follow_a_run<R: Read, W: Write>(
    alloc: Global,
    reader: &mut R,
    writer: &mut W,
) -> Result<Answer, Fault> {
    let options = FollowOptions {
        most: 10,
        needs_end: false,
        is_fast: true,
        format: RunFormat::Words,
        is_explained: true,
    };
    let rendering = AsRunWords { is_explained: true };
    let answer = follow_run(alloc, options, &rendering, &NoMeter, reader, writer)?;
    Ok(answer)
}

/// `trace_reduction`: the few operations of a reader's violation that show it.
pub fn reduce_a_violation<H: Threads + Wait, R: Read, W: Write, E: Write>(
    rt: &H,
    alloc: Global,
    reader: &mut R,
    writer: &mut W,
    errors: &mut E,
) -> Result<Verdict, Fault> {
    let verdict = reduce_trace(rt, alloc, reader, writer, errors)?;
    Ok(verdict)
}

/// `outcome_reports`: the final states of a reader's program.
pub fn list_the_states<P: Read, W: Write>(
    alloc: Global,
    programs: &mut P,
    writer: &mut W,
) -> Result<Answer, Fault> {
    let options = OutcomeOptions {
        limit: 1_000_000,
        form: OutcomeForm::States,
    };
    let verdict = list_outcomes(alloc, programs, writer, options)?;
    Ok(verdict)
}

/// `outcome_reports`: how often a stream of traces shows each outcome of a program.
pub fn count_the_outcomes<P: Read, S: Read, W: Write>(
    alloc: Global,
    programs: &mut P,
    stream: &mut S,
    writer: &mut W,
) -> Result<Answer, Fault> {
    let verdict = count_seen(alloc, programs, stream, writer, 1_000_000)?;
    Ok(verdict)
}

/// `tso_report`: judges what a memory unit recorded.
pub fn judge_a_record<H: Threads + Wait, W: Write>(
    rt: &H,
    alloc: Global,
    recorded: &Recorded,
    writer: &mut W,
) -> Result<Verdict, Fault> {
    let verdict = judge_recorded(rt, alloc, recorded, writer, 4)?;
    Ok(verdict)
}
