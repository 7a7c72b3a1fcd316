//! What the matches of a subcommand ask for. The command has refused arguments without what may not be left out.
ghost use Rattle.std.specs.Prelude.{◌≡◌, [], codes, count_by, false, is_none, map, option_map, unwrap_or, IfOk, Some};
ghost use Rattle.clap.specs.Words.{first_of, found_of, one_of, rows_of};
ghost use Rattle.command_line.specs.Commands.{asked_in, given_in};
ghost use Rattle.command_line.specs.Requests.{asked_of, files_of, refusing};
ghost use Rattle.command_line.specs.Options.{batch_printing_of, campaign_printing_of, execution_of, given_shape, given_unit, is_true, method_of, pair_of, printing_of, run_of};
ghost use Rattle.command_line.specs.Subcommands.{batch, batch_texts, campaign, check, decide, explain, file_of, judge, make, presented, reduce, replay, run_parameters, shape_parameters, unit_parameters};

pub(crate) use evidence::verify;
pub(crate) use following::follow;
pub(crate) use logs::log;
pub(crate) use outcomes::outcomes;
pub(crate) use pictures::draw;
pub(crate) use runs::run;

mod evidence;
mod following;
mod logs;
mod outcomes;
mod pictures;
mod runs;

use crate::help;
use crate::options::{
    CampaignOptions, MAX_CAPACITY, MakeOptions, Presentation, Printing, RunOptions, ShapeNumbers,
    UnitKind, UnitOptions, kind_named,
};
use crate::requests::{
    BatchRequest, CheckRequest, DecideRequest, JudgeRequest, Notes, ReduceRequest, Request,
    TextPair,
};
use crate::values::{
    decision_effort, drain_turns, effort, file, format, is_used, named_file, nth, number,
    number_within, order, required, workers,
};
use clap::ArgMatches;
use request_options::{BatchMethod, BatchPrinting, CampaignPrinting, Execution};
use std::alloc::{AllocError, Global};

/// Of `judge`.
pub(crate) fn judge<'a>(matches: &ArgMatches<'a>) -> Request<'a>
    ensures { asked_of result ≡ asked_in judge (rows_of (found_of matches.now)) }
{
    Request::Judge(JudgeRequest {
        file: file(matches, "file"),
        workers: workers(matches),
        nth: nth(matches),
        presentation: Presentation::Report,
    })
}

/// Of `explain`, and of `draw` in a form that it has, which present the verdict, or the decision where it is asked for, in this form.
pub(crate) fn present<'a>(matches: &ArgMatches<'a>, presentation: Presentation) -> Request<'a>
    ensures { asked_of result ≡ presented presentation (given_in explain.parameters (rows_of (found_of matches.now))) }
{
    match decision_effort(matches) {
        Some(effort) => Request::Decide(DecideRequest {
            file: file(matches, "file"),
            workers: workers(matches),
            nth: nth(matches),
            effort,
            presentation,
        }),
        None => Request::Judge(JudgeRequest {
            file: file(matches, "file"),
            workers: workers(matches),
            nth: nth(matches),
            presentation,
        }),
    }
}

/// Of `decide`.
pub(crate) fn decide<'a>(matches: &ArgMatches<'a>) -> Request<'a>
    ensures { asked_of result ≡ asked_in decide (rows_of (found_of matches.now)) }
{
    Request::Decide(DecideRequest {
        file: file(matches, "file"),
        workers: workers(matches),
        nth: nth(matches),
        effort: effort(matches),
        presentation: Presentation::Report,
    })
}

/// Of `reduce`.
pub(crate) fn reduce<'a>(matches: &ArgMatches<'a>) -> Request<'a>
    ensures { asked_of result ≡ asked_in reduce (rows_of (found_of matches.now)) }
{
    Request::Reduce(ReduceRequest {
        file: file(matches, "file"),
        nth: nth(matches),
    })
}

/// Of `batch`: a refusal where several texts would be standard input.
pub(crate) fn batch<'a>(alloc: Global, matches: &ArgMatches<'a>) -> Result<Request<'a>, AllocError>
    ensures { IfOk result (λ request. asked_of request ≡ asked_in batch (rows_of (found_of matches.now))) }
{
    let named = texts_found(alloc, matches.get_strs("file"))?;
    match named {
        Some(texts) => Ok(Request::Batch(BatchRequest {
            texts,
            workers: workers(matches),
            printing: batch_printing(matches),
        })),
        None => refuse(alloc, help::SEVERAL_INPUTS),
    }
}

/// Of `check`: a refusal where both texts would be standard input.
pub(crate) fn check<'a>(alloc: Global, matches: &ArgMatches<'a>) -> Result<Request<'a>, AllocError>
    ensures { IfOk result (λ request. asked_of request ≡ asked_in check (rows_of (found_of matches.now))) }
{
    match text_pair(matches, "trace", "cert") {
        Some(texts) => Ok(Request::Check(CheckRequest {
            texts,
            nth: nth(matches),
        })),
        None => refuse(alloc, help::TWO_INPUTS),
    }
}

/// Of `replay`: a refusal of both flags, or where both texts would be standard input.
pub(crate) fn replay<'a>(alloc: Global, matches: &ArgMatches<'a>) -> Result<Request<'a>, AllocError>
    ensures { IfOk result (λ request. asked_of request ≡ asked_in replay (rows_of (found_of matches.now))) }
{
    let Some(options) = run_options(matches) else {
        return refuse(alloc, help::BOTH);
    };
    match text_pair(matches, "program", "schedule") {
        Some(texts) => Ok(Request::Replay { options, texts }),
        None => refuse(alloc, help::TWO_INPUTS),
    }
}

/// Of `make`.
pub(crate) fn make<'a>(matches: &ArgMatches<'a>) -> Request<'a>
    ensures { asked_of result ≡ asked_in make (rows_of (found_of matches.now)) }
{
    Request::Make(MakeOptions {
        order: order(matches),
        seed: number(matches, "seed", 0),
        shape: shape_numbers(matches),
        schedule: is_used(matches, "schedule"),
    })
}

/// Of `campaign`.
pub(crate) fn campaign<'a>(matches: &ArgMatches<'a>) -> Request<'a>
    ensures { asked_of result ≡ asked_in campaign (rows_of (found_of matches.now)) }
{
    Request::Campaign(CampaignOptions {
        unit: unit_options(matches),
        workers: workers(matches),
        execution: execution_of(is_used(matches, "replay"), drain_turns(matches)),
        printing: campaign_printing_of(is_used(matches, "trace")),
        order: order(matches),
        first: number(matches, "first", 0),
        count: number(matches, "count", 0),
        shape: shape_numbers(matches),
    })
}

/// How programs are executed, by whether a replay is asked for, and else with so many turns of a drainer.
fn execution_of(replayed: bool, drain_turns: u64) -> Execution
    ensures { result ≡ execution_of replayed drain_turns }
{
    if replayed {
        Execution::Replay
    } else {
        Execution::Threads { drain_turns }
    }
}

/// What is printed of a campaign, by whether its traces are asked for.
fn campaign_printing_of(traces: bool) -> CampaignPrinting
    ensures { result ≡ campaign_printing_of traces }
{
    if traces {
        CampaignPrinting::Traces
    } else {
        CampaignPrinting::Lines
    }
}

/// A refusal with this text.
fn refuse<'a>(alloc: Global, text: &str) -> Result<Request<'a>, AllocError>
    ensures { IfOk result (λ request. asked_of request ≡ refusing) }
{
    Ok(Request::Refuse(String::from_str(alloc, text)?))
}

/// The texts of a batch that these arguments name, where there are any.
fn texts_found<'a>(
    alloc: Global,
    names: Option<&[&'a str]>,
) -> Result<Option<Vec<Option<&'a str>>>, AllocError>
    ensures { IfOk result (λ texts. option_map (λ texts. map (option_map (λ file. file.now)) texts.items) texts ≡
        batch_texts (unwrap_or (option_map (λ names. map (λ name. name.now) names.now) names.entry) [])) }
{
    match names {
        Some(names) => batch_texts(alloc, names),
        None => batch_texts(alloc, &[]),
    }
}

/// The texts of a batch that these arguments name: standard input where there are none. None where standard input would be
/// several of them.
fn batch_texts<'a>(
    alloc: Global,
    names: &[&'a str],
) -> Result<Option<Vec<Option<&'a str>>>, AllocError>
    ensures { IfOk result (λ texts. option_map (λ texts. map (option_map (λ file. file.now)) texts.items) texts ≡
        batch_texts (map (λ name. name.now) names.now)) }
{
    if names.is_empty() {
        return Ok(Some(vec![in alloc; None]?));
    }
    let texts = texts_named(alloc, names)?;
    if inputs_among(&texts) > 1 {
        return Ok(None);
    }
    Ok(Some(texts))
}

/// The text that each of these arguments names.
fn texts_named<'a>(alloc: Global, names: &[&'a str]) -> Result<Vec<Option<&'a str>>, AllocError>
    ensures { IfOk result (λ texts. map (option_map (λ file. file.now)) texts.items ≡ map (λ name. file_of (Some name.now)) names.now) }
{
    let mut texts = Vec::new(alloc);
    for name in names {
        texts.push(named_file(*name))?;
    }
    Ok(texts)
}

/// How many of these texts are standard input.
fn inputs_among(texts: &[Option<&str>]) -> usize
    ensures { result ≡ count_by is_none texts.now }
{
    let mut count = 0;
    for text in texts {
        if text.is_none() {
            count += 1;
        }
    }
    count
}

/// The two texts that arguments name; none where standard input would be both.
fn text_pair<'a>(matches: &ArgMatches<'a>, first: &str, second: &str) -> Option<TextPair<'a>>
    ensures { let rows = rows_of (found_of matches.now) in option_map files_of result ≡ pair_of (file_of (first_of first.now rows))
        (file_of (first_of second.now rows)) }
{
    pair_of(file(matches, first), file(matches, second))
}

/// Two texts, each in a file or on standard input; none where both would be there.
fn pair_of<'a>(first: Option<&'a str>, second: Option<&'a str>) -> Option<TextPair<'a>>
    ensures { option_map files_of result ≡ pair_of (option_map (λ file. file.now) first.entry) (option_map (λ file. file.now) second.entry) }
{
    match (first, second) {
        (Some(first), Some(second)) => Some(TextPair::Files(first, second)),
        (None, Some(second)) => Some(TextPair::InputAndFile(second)),
        (Some(first), None) => Some(TextPair::FileAndInput(first)),
        (None, None) => None,
    }
}

/// What the options say of a shape.
fn shape_numbers(matches: &ArgMatches<'_>) -> ShapeNumbers
    ensures { result ≡ given_shape (given_in shape_parameters (rows_of (found_of matches.now))) }
{
    ShapeNumbers {
        processors: number(matches, "procs", 0),
        operations: number(matches, "ops", 0),
        addresses: number(matches, "addrs", 0),
    }
}

/// What the options say of a run; none with both flags, of trace and of explanation.
fn run_options(matches: &ArgMatches<'_>) -> Option<RunOptions>
    ensures { result ≡ run_of (given_in run_parameters (rows_of (found_of matches.now))) }
{
    let printing = printing(matches)?;
    Some(RunOptions {
        unit: unit_options(matches),
        workers: workers(matches),
        printing,
        with_trace: is_used(matches, "with-trace"),
    })
}

/// What is to be printed: the report without the flags of trace and explanation, and nothing with both.
fn printing(matches: &ArgMatches<'_>) -> Option<Printing>
    ensures { let rows = rows_of (found_of matches.now) in result ≡ printing_of (is_true (one_of (codes "trace") rows))
        (is_true (one_of (codes "explain") rows)) }
{
    match (is_used(matches, "trace"), is_used(matches, "explain")) {
        (false, false) => Some(Printing::Report),
        (true, false) => Some(Printing::Trace),
        (false, true) => Some(Printing::Explanation),
        (true, true) => None,
    }
}

/// What the options say of what is printed of a batch.
fn batch_printing(matches: &ArgMatches<'_>) -> BatchPrinting
    ensures { result ≡ batch_printing_of (given_in batch.parameters (rows_of (found_of matches.now))) }
{
    BatchPrinting {
        method: method_of(decision_effort(matches)),
        format: format(matches),
        quiet: is_used(matches, "quiet"),
        violations: is_used(matches, "violations"),
        required: required(matches),
    }
}

/// How it is found out what is said of a trace: by a decision with at most so many steps, where a number is given.
fn method_of(effort: Option<u64>) -> BatchMethod
    ensures { result ≡ method_of effort }
{
    match effort {
        None => BatchMethod::Judge,
        Some(effort) => BatchMethod::Decide { effort },
    }
}

/// What the options say of a unit.
fn unit_options(matches: &ArgMatches<'_>) -> UnitOptions
    ensures { result ≡ given_unit (given_in unit_parameters (rows_of (found_of matches.now))) }
{
    let kind = matches.get_str("unit").and_then(kind_named);
    UnitOptions {
        kind: kind.unwrap_or(UnitKind::Serial),
        capacity: number_within(matches, "capacity", 8, 1, MAX_CAPACITY as u64) as usize,
        trigger: number_within(matches, "trigger", 1, 1, u64::MAX),
    }
}

/// What is told of what reads files, which has a flag for reasons of faults.
pub(crate) fn verbose_notes(matches: &ArgMatches<'_>) -> Notes
    ensures { let rows = rows_of (found_of matches.now) in (result.verbose ≡ is_true (one_of (codes "verbose") rows)) × (result.progress ≡ false) }
{
    Notes {
        verbose: is_used(matches, "verbose"),
        progress: false,
    }
}

/// What is told of what takes long, which has a flag for progress.
pub(crate) fn progress_notes(matches: &ArgMatches<'_>) -> Notes
    ensures { let rows = rows_of (found_of matches.now) in (result.verbose ≡ false) × (result.progress ≡ is_true (one_of (codes "progress") rows)) }
{
    Notes {
        verbose: false,
        progress: is_used(matches, "progress"),
    }
}

/// What is told of what reads files and takes long, which has both flags.
pub(crate) fn both_notes(matches: &ArgMatches<'_>) -> Notes
    ensures { let rows = rows_of (found_of matches.now) in (result.verbose ≡ is_true (one_of (codes "verbose") rows)) ×
        (result.progress ≡ is_true (one_of (codes "progress") rows)) }
{
    Notes {
        verbose: is_used(matches, "verbose"),
        progress: is_used(matches, "progress"),
    }
}
