//! From the bytes of a run to its report.
ghost use Rattle.std.specs.Prelude.{◌≡◌, ◌≢◌, List, ℕ, IfOk, IfErr, string_bytes};
ghost use Rattle.text_streams.specs.WrittenTexts.{LeavesAtFault, WritesWhole};
ghost use Rattle.text_streams.specs.declared.faults.Fault.TheVariants.{NoThread};
ghost use Rattle.request_options.specs.declared.following.FollowOptions.{FollowOptions};
ghost use Rattle.run_following.specs.Internal.Endings.{EndsText, IsEnding, refusal_of_stop};
ghost use Rattle.run_following.specs.Internal.Faults.{IsRunFault};
ghost use Rattle.run_following.specs.Reports.{IsRunReport, IsRunReportOfReader};
ghost use Rattle.run_following.specs.Runs.{IsTakenInTime};

use crate::found::RunFound;
use crate::streams::{RunStream, Stop};
use progress_meters::Meter;
use request_options::FollowOptions;
use std::alloc::Global;
use std::io::{Read, Write};
use text_streams::{Fault, read_some, write_text};
use trace_reports::{Answer, Rendering, Report, render_refused};
use tso_text::TextFault;

/// How many bytes one call of `read` asks for.
const CHUNK: usize = 65_536;

/// How a run ends.
#[derive(Drop)]
pub(crate) struct Ending {
    /// What its lines say.
    pub(crate) stream: RunStream,
    /// Why its text is refused, if it is.
    pub(crate) refused: Option<TextFault>,
}

/// Reports on the run that a reader has: writes what is rendered of what was found in it, or of a text that is no run.
///
/// The meter hears how many lines are followed. The text is read once, and nothing past the call of `read` that gave the end of a line that is refused, or, where the first line that is no
/// step ends the run, of that line.
///
/// Faults: OutOfMemory where an allocation was refused; Read where the reader failed, was interrupted 1,048,576 times in a row, or has 2^64 lines,
/// refusals or calls; Write where the writer failed, took no byte or was interrupted more than 1,048,576 times.
pub fn follow_run<P: Rendering<(), RunFound>, M: Meter, R: Read, W: Write>(
    alloc: Global,
    options: FollowOptions,
    rendering: &P,
    meter: &M,
    reader: &mut R,
    writer: &mut W,
) -> Result<Answer, Fault>
    ensures report { IfOk result (WritesWhole
        (IsRunReportOfReader (P.rendered rendering.now tt) (P.refused rendering.now) options (R.remaining reader.old))
        (W.contents writer.old) (W.contents writer.new)) }
    ensures taken { IfOk result (λ _. IsTakenInTime options.is_fast (R.remaining reader.old) (R.remaining reader.new)) }
    ensures no_thread { IfErr result (λ fault. fault ≢ NoThread) }
    ensures left { IfErr result (LeavesAtFault
        (IsRunReportOfReader (P.rendered rendering.now tt) (P.refused rendering.now) options (R.remaining reader.old))
        (W.contents writer.old) (W.contents writer.new)) }
{
    let report = read_report(alloc, options, rendering, meter, reader)?;
    write_text(writer, report.text.as_bytes())?;
    Ok(report.verdict)
}

/// The report on the run that a reader has.
fn read_report<P: Rendering<(), RunFound>, M: Meter, R: Read>(
    alloc: Global,
    options: FollowOptions,
    rendering: &P,
    meter: &M,
    reader: &mut R,
) -> Result<Report<Answer>, Fault>
    ensures report { IfOk result (λ report. IsRunReportOfReader (P.rendered rendering.now tt) (P.refused rendering.now) options
        (R.remaining reader.old) (string_bytes report.text) report.verdict) }
    ensures taken { IfOk result (λ _. IsTakenInTime options.is_fast (R.remaining reader.old) (R.remaining reader.new)) }
    ensures fault { IfErr result IsRunFault }
{
    let ending = read_run(alloc, options, meter, reader)?;
    report_on(alloc, rendering, ending)
}

/// What is rendered of a run that ends so.
fn report_on<P: Rendering<(), RunFound>>(
    alloc: Global,
    rendering: &P,
    ending: Ending,
) -> Result<Report<Answer>, Fault>
    ensures report { IfOk result (λ report. (options : FollowOptions) (text : List ℕ) → ending.stream.follower.noted.most ≡ options.most →
        EndsText options ending.stream ending.refused text →
        IsRunReport (P.rendered rendering.now tt) (P.refused rendering.now) options text (string_bytes report.text) report.verdict) }
    ensures fault { IfErr result IsRunFault }
{
    if let Some(fault) = ending.refused {
        return Ok(render_refused(alloc, &[], fault, rendering, Answer::Refused)?);
    }
    let mut ending = ending;
    let found = ending.stream.follower.found(alloc)?;
    Ok(Report {
        verdict: found.answer(),
        text: rendering.text_of_found(alloc, &(), &found)?,
    })
}

/// Follows the run that a reader has.
fn read_run<M: Meter, R: Read>(
    alloc: Global,
    options: FollowOptions,
    meter: &M,
    reader: &mut R,
) -> Result<Ending, Fault>
    ensures ending { IfOk result (IsEnding options (R.remaining reader.old)) }
    ensures most { IfOk result (λ ending. ending.stream.follower.noted.most ≡ options.most) }
    ensures taken { IfOk result (λ _. IsTakenInTime options.is_fast (R.remaining reader.old) (R.remaining reader.new)) }
    ensures fault { IfErr result IsRunFault }
{
    let mut stream = RunStream::new(alloc, options.most, options.is_fast);
    let mut buffer = vec![in alloc; 0u8; CHUNK]?;
    let chunk = buffer.as_mut_slice();
    for _ in 0..u64::MAX {
        let count = read_some(reader, chunk)?;
        if count == 0 {
            let refused = stream.fault_at_end(options.needs_end)?;
            return Ok(Ending { stream, refused });
        }
        let before = stream.follower.number;
        let stop = stream.take(alloc, &chunk[..count])?;
        meter.advance(stream.follower.number.saturating_sub(before));
        if let Some(stop) = stop {
            return Ok(stopped(stream, stop));
        }
    }
    Err(Fault::Read)
}

/// The ending of a run that a line ends.
fn stopped(stream: RunStream, stop: Stop) -> Ending
    ensures stream { result.stream ≡ stream }
    ensures refused { result.refused ≡ refusal_of_stop stop }
{
    let refused = match stop {
        Stop::Refused(fault) => Some(fault),
        Stop::Told => None,
    };
    Ending { stream, refused }
}
