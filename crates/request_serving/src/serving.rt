//! What the program does for each request.
ghost use Rattle.std.specs.Prelude.{◌≡◌, ◌≢◌, true, false};
ghost use Rattle.command_line.specs.Requests.{HasDrainTurns, HasOneInput, HasUnitRanges, HasWorkers, asked_of};
ghost use Rattle.text_streams.specs.Streams.{AppendsPrefix};
ghost use Rattle.request_serving.specs.Endings.{EndsAsAsked, EndsShowing, EndsWithText, outputs};
ghost use Rattle.request_serving.specs.LawfulRequests.{RunsLawfully, runs_on_lawful_unit};
ghost use Rattle.request_texts.specs.OpenedFiles.{HasRefusedFirstText, OpensFirst, OpensNext, TakesInput, files_named, reads_input};

use crate::endings::{end, end_answer, end_by, end_run, end_with};
use crate::serving::batching::batch_named;
use crate::serving::checking::check_named;
use crate::serving::counting::count_named;
use crate::serving::deciding::decide_named;
use crate::serving::following::follow_named;
use crate::serving::judging::judge_named;
use crate::serving::listing::list_named;
use crate::serving::log_checking::check_log_named;
use crate::serving::log_deciding::decide_log_named;
use crate::serving::logging::log_named;
use crate::serving::reducing::reduce_named;
use command_line::Request;
use request_texts::{Environment, SHAPE_LIMITS};
use run_serving::{campaign_by, limits_of, make, repeat_named, replay_named, run_named};
use std::io::{Read, Write};
use std::sync::Wait;
use std::thread::Threads;
use text_streams::{Fault, write_text};
use trace_decisions::OrdersAndRefutations;
use trace_judging::{Certificates, MAX_WORKERS};
use trace_reports::{DONE, REFUSED};

mod batching;
mod checking;
mod counting;
mod deciding;
mod following;
mod judging;
mod listing;
mod log_checking;
mod log_deciding;
mod logging;
mod reducing;
mod reporting;

/// The command line lets just those numbers of workers through that a trace is judged with.
const _: () = prove!(command_line::MAX_REQUESTED_WORKERS == MAX_WORKERS);

/// Does what a request asks for, and answers the status that the program ends with.
///
/// `Judge` judges the trace in a file, or else what `reader` has, and writes its report to `writer`, or the explanation or the
/// picture of the verdict. Where the request names a number, it judges that one of the traces that stand there one after the
/// other, or writes `REFUSED Nth`, with status 2, where there are fewer; so do `Decide`, `Reduce`, `Check` and `Verify`.
/// `Decide` writes an order of the trace that meets the axioms of its memory model, or a refutation of all orders, or that
/// neither was found with as many steps as the request names; or the explanation or the picture of that. `Reduce` writes a
/// small trace that shows the violation of the trace, with lines on its operations to `errors`. `Batch` writes a line for each
/// of the traces of texts, by a verdict or a decision, or the texts of those that are violations, with their numbers to
/// `errors`. `Log` writes the violations of a log, or their traces, or the evidence by values of one; `DecideLog` an order of a
/// log, or a refutation of all orders, or that neither was found. `Follow` writes whether the lines of a run are steps of the
/// machine, and which aren't. `Check` checks a certificate against a trace and writes the report of both; `Verify` checks an
/// order or a refutation, and writes whether it holds, and so does `VerifyLog` of a log, the first text. `Outcomes` writes the
/// traces that complete runs of a program leave, or its final states; `Seen` how often a stream of traces has each of these
/// traces.
///
/// The status of these is that of what they say: 0 where no violation was found, or there is an order or it holds; 1 where none
/// was found in the part of a log that was searched, nothing was decided, or a run compared no value; 2 where a text, a
/// certificate or evidence was refused, or runs reach too many states; 3 at a violation, a line of a run that is no step, or a
/// certificate or a refutation that holds. `Replay` and `Run` print what a record gives: never a violation
/// where the unit is lawful for programs of the memory model that the program's text names, so their status isn't 3 there. A
/// run whose request names turns of a drainer, at most 1,000,000, has one beside its processors. `RunTimes` writes the trace of
/// each run as it ends. `Show` writes its text to `writer`, with status 0, and `Refuse` to `errors`, with status 2. At a fault
/// the status is 4 and one line, as `FAULT Read`, is written to `errors`; a file that can't be opened is the fault Read. All
/// files that the request names are opened, in their order, before one is read; but those of `Batch` each when its turn comes,
/// and where one can't be opened it judges the others, says so, and has the same status and last line.
pub fn serve<H: Threads + Wait + Sync + AllocGlobal, O: Environment, R: Read, W: Write, E: Write>(
    rt: &H,
    request: &Request<'_>,
    files: &mut O,
    reader: &mut R,
    writer: &mut W,
    errors: &mut E,
) -> u8
    requires workers { HasWorkers (asked_of request.now) }
    requires unit { HasUnitRanges (asked_of request.now) }
    requires turns { HasDrainTurns (asked_of request.now) }
    requires input { HasOneInput (asked_of request.now) }
    ensures ends { EndsAsAsked (asked_of request.now) (R.remaining reader.old) (O.bytes files.old)
        (outputs (W.contents writer.old) (W.contents writer.new) (E.contents errors.old) (E.contents errors.new)) result }
    ensures text { EndsWithText request.now (outputs (W.contents writer.old) (W.contents writer.new) (E.contents errors.old) (E.contents errors.new)) result }
    ensures no_false_alarm { runs_on_lawful_unit (asked_of request.now) ≡ true → result ≢ 3 }
    ensures no_false_alarm_of_text { RunsLawfully (asked_of request.now) (R.remaining reader.old) (O.bytes files.old) → result ≢ 3 }
    ensures first { OpensFirst (O.opened files.old) (O.opened files.new) (files_named (asked_of request.now)) }
    ensures opened { result ≢ 4 → OpensNext (O.opened files.old) (O.opened files.new) (files_named (asked_of request.now)) }
    ensures unread { reads_input (asked_of request.now) ≡ false → reader.new ≡ reader.old }
    ensures unread_after_refusal { HasRefusedFirstText (asked_of request.now) (O.bytes files.old) → reader.new ≡ reader.old }
    ensures taken { reads_input (asked_of request.now) ≡ true → result ≢ 4 →
        TakesInput (asked_of request.now) (R.remaining reader.old) (R.remaining reader.new) }
{
    match request {
        Request::Judge(request) => end(judge_named(rt, request, files, reader, writer), errors),
        Request::Decide(request) => {
            let decided = decide_named(rt, request, files, reader, writer);
            end_answer(decided, errors)
        }
        Request::Reduce(request) => {
            let reduced = reduce_named(rt, request, files, reader, writer, errors);
            end(reduced, errors)
        }
        Request::Batch(request) => {
            let judged = batch_named(rt, request, files, reader, writer, errors);
            files.finish();
            end_answer(judged, errors)
        }
        Request::Log(request) => {
            let reported = log_named(rt, request, files, reader, writer, errors);
            files.finish();
            end_answer(reported, errors)
        }
        Request::DecideLog(request) => {
            let decided = decide_log_named(rt.alloc(), request, files, reader, writer);
            end_answer(decided, errors)
        }
        Request::Follow(request) => {
            let followed = follow_named(rt.alloc(), request, files, reader, writer);
            end_answer(followed, errors)
        }
        Request::Check(request) => {
            let checked = check_named(rt.alloc(), &Certificates, request, files, reader, writer);
            end(checked, errors)
        }
        Request::Verify(request) => {
            let kind = &OrdersAndRefutations;
            let verified = check_named(rt.alloc(), kind, request, files, reader, writer);
            end_answer(verified, errors)
        }
        Request::VerifyLog(texts) => {
            let checked = check_log_named(rt.alloc(), *texts, files, reader, writer);
            end_answer(checked, errors)
        }
        Request::Outcomes(request) => {
            let listed = list_named(rt.alloc(), request, files, reader, writer);
            end_answer(listed, errors)
        }
        Request::Seen(request) => {
            let counted = count_named(rt.alloc(), request, files, reader, writer);
            end_answer(counted, errors)
        }
        Request::Replay { options, texts } => {
            let replayed = replay_named(rt, options, *texts, files, reader, writer);
            end_with(replayed, errors)
        }
        Request::Run(request) => end_run(run_named(rt, request, files, reader, writer), errors),
        Request::RunTimes(request) => {
            let repeated = repeat_named(rt, request, files, reader, writer);
            end_run(repeated, errors)
        }
        Request::Make(options) => {
            files.note_limits(SHAPE_LIMITS);
            let made = make(rt.alloc(), options, writer);
            end_with(made, errors)
        }
        Request::Campaign(options) => {
            files.note_limits(limits_of(options));
            let meter = files.meter("seeds", Some(options.count));
            let ran = campaign_by(rt, options, &meter, writer);
            files.finish();
            end_with(ran, errors)
        }
        Request::Show(text) => show(text, writer, errors),
        Request::Refuse(text) => refuse(text, errors),
    }
}

/// Writes a text that was asked for.
fn show<W: Write, E: Write>(text: &str, writer: &mut W, errors: &mut E) -> u8
    ensures { EndsShowing text.now (outputs (W.contents writer.old) (W.contents writer.new) (E.contents errors.old) (E.contents errors.new)) result }
{
    if write_text(writer, text.as_bytes()).is_err() {
        return end_by(Fault::Write, errors);
    }
    DONE
}

/// Writes why the arguments were refused. Nothing can be done where that can't be written.
pub(crate) fn refuse<E: Write>(text: &str, errors: &mut E) -> u8
    ensures text { AppendsPrefix (E.contents errors.old) (E.contents errors.new) text.now }
    ensures status { result ≡ 2 }
{
    let _ = write_text(errors, text.as_bytes());
    REFUSED
}
