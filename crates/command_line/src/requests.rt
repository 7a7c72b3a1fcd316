//! What the arguments of a command line ask for.
ghost use Rattle.std.specs.Prelude.{◌≡◌, IfOk, IsErr, map, option_map, unwrap_or};
ghost use Rattle.clap.specs.Words.{FailsBy, fault_of, kind_of, subcommand_of, subcommand_rows_of};
ghost use Rattle.clap.specs.declared.error.kind.ErrorKind.TheVariants.{OutOfMemory};
ghost use Rattle.command_line.specs.Requests.{Asked, HasDrainTurns, HasLogRanges, HasOneInput, HasUnitRanges, HasWorkers, asked_of, refusing, showing, texts_in};
ghost use Rattle.command_line.specs.Spellings.{Asks, AsksHelp, AsksNotes};
ghost use Rattle.command_line.specs.Refusals.{Refuses};
ghost use Rattle.command_line.specs.declared.requests.Notes.{Notes as NotesValue};
ghost use Rattle.command_line.specs.Commands.{IsAskedFor, asked_at, tsobench_app};
ghost use Rattle.command_line.specs.Internal.Computed.{AreNotesFound, IsFound, parsed_as};

use crate::options::{
    CampaignOptions, MakeOptions, OptionNames, Presentation, RunOptions, UnitOptions, option_names,
};
use crate::subcommands;
use clap::error::ErrorKind;
use clap::{ArgMatches, Error};
use request_options::{BatchPrinting, FollowOptions, LogOptions, OutcomeOptions};
use std::alloc::{AllocError, Global};

/// Which program to run with a thread per processor, and how.
#[derive(Clone, Copy)]
pub struct RunRequest<'a> {
    /// The unit, the number of workers, and what is printed.
    pub options: RunOptions,
    /// The seed that the drains follow.
    pub drain_seed: u64,
    /// How many turns a drainer takes beside the processors, 0, where there is none, to 1,000,000.
    pub drain_turns: u64,
    /// The file of the program; standard input where none is named.
    pub program: Option<&'a str>,
}

/// Which program to run more than once with a thread per processor, and how; the trace of each run is printed.
#[derive(Clone, Copy)]
pub struct RunTimesRequest<'a> {
    /// The unit on which it is run.
    pub unit: UnitOptions,
    /// The seed that the drains of the first run follow; each further run has the next seed, and 0 follows the greatest.
    pub drain_seed: u64,
    /// How many turns a drainer takes beside the processors of each run, 0, where there is none, to 1,000,000.
    pub drain_turns: u64,
    /// How often it is run, 2 to 1,000,000.
    pub times: u64,
    /// The file of the program; standard input where none is named.
    pub program: Option<&'a str>,
}

/// Of which program the outcomes are listed, and how.
#[derive(Clone, Copy)]
pub struct OutcomesRequest<'a> {
    /// The file of the program; standard input where none is named.
    pub program: Option<&'a str>,
    /// How they are listed.
    pub options: OutcomeOptions,
}

/// The outcomes of which program are counted in which stream of traces.
#[derive(Clone, Copy)]
pub struct SeenRequest<'a> {
    /// The program, and the stream.
    pub texts: TextPair<'a>,
    /// How many states runs of the program may reach, at most.
    pub limit: u64,
}

/// Where two texts are read from. Standard input can be read once, so it has at most one of them.
#[derive(Clone, Copy)]
pub enum TextPair<'a> {
    /// Each is in the file of its name.
    Files(&'a str, &'a str),
    /// The first is on standard input, the second in this file.
    InputAndFile(&'a str),
    /// The first is in this file, the second on standard input.
    FileAndInput(&'a str),
}

/// Which trace is judged, and how the verdict is presented.
#[derive(Clone, Copy)]
pub struct JudgeRequest<'a> {
    /// The file with the trace; standard input where none is named.
    pub file: Option<&'a str>,
    /// The number of workers, 1 to 64.
    pub workers: usize,
    /// Which of the traces that stand there one after the other is judged, from 1; none where it is the only one.
    pub nth: Option<u64>,
    /// In which form the verdict is presented.
    pub presentation: Presentation,
}

/// Of which trace it is decided whether it has an order that meets the axioms of its memory model, and with what effort.
#[derive(Clone, Copy)]
pub struct DecideRequest<'a> {
    /// The file with the trace; standard input where none is named.
    pub file: Option<&'a str>,
    /// The number of workers, 1 to 64.
    pub workers: usize,
    /// Which of the traces that stand there one after the other is decided, from 1; none where it is the only one.
    pub nth: Option<u64>,
    /// How many steps the search for a decision does, at most.
    pub effort: u64,
    /// In which form the decision is presented.
    pub presentation: Presentation,
}

/// Which trace is reduced.
#[derive(Clone, Copy)]
pub struct ReduceRequest<'a> {
    /// The file with the trace; standard input where none is named.
    pub file: Option<&'a str>,
    /// Which of the traces that stand there one after the other is reduced, from 1; none where it is the only one.
    pub nth: Option<u64>,
}

/// Which certificate, or which evidence, is checked against which trace.
#[derive(Clone, Copy)]
pub struct CheckRequest<'a> {
    /// The trace, and the certificate or the evidence.
    pub texts: TextPair<'a>,
    /// Which of the traces that stand one after the other in the first text it is, from 1; none where it is the only one.
    pub nth: Option<u64>,
}

/// Which traces are judged or decided on, one after the other.
#[derive(Drop)]
pub struct BatchRequest<'a> {
    /// The texts with the traces, one or more: each in a file, or on standard input where none is named, as at most one is.
    pub texts: Vec<Option<&'a str>>,
    /// How many workers judge them side by side, 1 to 64.
    pub workers: usize,
    /// What is printed of them.
    pub printing: BatchPrinting,
}

/// Which log is searched for violations, and how they are shown.
#[derive(Clone, Copy)]
pub struct LogRequest<'a> {
    /// The file with the log; standard input where none is named.
    pub file: Option<&'a str>,
    /// How many violations are shown, and in which form.
    pub options: LogOptions,
}

/// Of which log it is decided whether it has an order that meets the axioms of its memory model, and with what effort.
#[derive(Clone, Copy)]
pub struct DecideLogRequest<'a> {
    /// The file with the log; standard input where none is named.
    pub file: Option<&'a str>,
    /// How many cases the search for a decision supposes, at most.
    pub effort: usize,
    /// Whether the log has to end with a line `end`.
    pub needs_end: bool,
}

/// Which run is followed, and how.
#[derive(Clone, Copy)]
pub struct FollowRequest<'a> {
    /// The file with the run; standard input where none is named.
    pub file: Option<&'a str>,
    /// How far it is followed, and of how many refusals is told.
    pub options: FollowOptions,
}

/// What the arguments of a command line ask for.
#[derive(Drop)]
pub enum Request<'a> {
    /// To judge one trace.
    Judge(JudgeRequest<'a>),
    /// To decide whether a trace has an order that meets the axioms of its memory model.
    Decide(DecideRequest<'a>),
    /// To reduce a trace to a small one that shows its violation.
    Reduce(ReduceRequest<'a>),
    /// To judge traces that stand one after the other, or to decide on them.
    Batch(BatchRequest<'a>),
    /// To find violations of a log.
    Log(LogRequest<'a>),
    /// To decide whether a log has an order that meets the axioms of its memory model.
    DecideLog(DecideLogRequest<'a>),
    /// To follow a run that says its own order.
    Follow(FollowRequest<'a>),
    /// To check a certificate against its trace.
    Check(CheckRequest<'a>),
    /// To check evidence on a trace: that it has an order that meets the axioms of its memory model, or none.
    Verify(CheckRequest<'a>),
    /// To check evidence on a log: that it has an order that meets the axioms of its memory model, or none.
    VerifyLog(TextPair<'a>),
    /// To list the outcomes of a program.
    Outcomes(OutcomesRequest<'a>),
    /// To count how often a stream of traces has each outcome of a program.
    Seen(SeenRequest<'a>),
    /// To replay a program, the first text, by a schedule, the second.
    Replay {
        options: RunOptions,
        texts: TextPair<'a>,
    },
    /// To run a program with a thread per processor.
    Run(RunRequest<'a>),
    /// To run a program more than once, and to print the trace of each run.
    RunTimes(RunTimesRequest<'a>),
    /// To print the program that is drawn from a seed, or its schedule.
    Make(MakeOptions),
    /// To run the programs that are drawn from many seeds, and to judge the trace of each.
    Campaign(CampaignOptions),
    /// To print this text on standard output: the help or the version that was asked for.
    Show(String),
    /// To refuse the arguments, with this text for standard error.
    Refuse(String),
}

/// What is told on standard error beside what a request asks for.
#[derive(Clone, Copy)]
pub struct Notes {
    /// Whether a second line after `FAULT Read` names the file and the system's reason.
    pub verbose: bool,
    /// Whether it is told, at most once a second, how much is done.
    pub progress: bool,
}

/// Nothing is told.
pub(crate) const NO_NOTES: Notes = Notes {
    verbose: false,
    progress: false,
};

/// What the arguments of a command line say.
#[derive(Drop)]
pub struct CommandLine<'a> {
    /// What they ask for.
    pub request: Request<'a>,
    /// What is told beside it.
    pub notes: Notes,
}

/// What these arguments say; the program's name is none of them.
///
/// Its only error is that memory ran out, and it may come for any arguments.
pub fn read_arguments<'a>(
    alloc: Global,
    arguments: &'a [String],
) -> Result<CommandLine<'a>, AllocError>
    ensures parsed { IfOk result (λ line. IsAskedFor (texts_in arguments.now) (asked_of line.request)) }
    ensures asked { (asked : Asked) → Asks (texts_in arguments.now) asked
        → IfOk result (λ line. asked_of line.request ≡ asked) }
    ensures helped { AsksHelp (texts_in arguments.now)
        → IfOk result (λ line. asked_of line.request ≡ showing) }
    ensures refused { Refuses (texts_in arguments.now)
        → IfOk result (λ line. asked_of line.request ≡ refusing) }
    ensures notes { (notes : NotesValue) → AsksNotes (texts_in arguments.now) notes
        → IfOk result (λ line. line.notes ≡ notes) }
    ensures workers { IfOk result (λ line. HasWorkers (asked_of line.request)) }
    ensures unit { IfOk result (λ line. HasUnitRanges (asked_of line.request)) }
    ensures turns { IfOk result (λ line. HasDrainTurns (asked_of line.request)) }
    ensures log { IfOk result (λ line. HasLogRanges (asked_of line.request)) }
    ensures input { IfOk result (λ line. HasOneInput (asked_of line.request)) }
{
    command_line_by(alloc, option_names(), arguments)
}

/// What these arguments say, where options take these names.
fn command_line_by<'a>(
    alloc: Global,
    names: OptionNames<'a>,
    arguments: &'a [String],
) -> Result<CommandLine<'a>, AllocError>
    ensures found { IfOk result (λ line. IsFound names.entry (texts_in arguments.now) (asked_of line.request)) }
    ensures notes { IfOk result (λ line. AreNotesFound names.entry (texts_in arguments.now) line.notes) }
    ensures workers { IfOk result (λ line. HasWorkers (asked_of line.request)) }
    ensures unit { IfOk result (λ line. HasUnitRanges (asked_of line.request)) }
    ensures turns { IfOk result (λ line. HasDrainTurns (asked_of line.request)) }
    ensures log { IfOk result (λ line. HasLogRanges (asked_of line.request)) }
    ensures input { IfOk result (λ line. HasOneInput (asked_of line.request)) }
{
    match matches(alloc, names, arguments) {
        Ok(matches) => Ok(CommandLine {
            request: subcommands::request(alloc, &matches)?,
            notes: subcommands::notes(&matches),
        }),
        Err(error) => Ok(CommandLine {
            request: text_request(alloc, &error)?,
            notes: NO_NOTES,
        }),
    }
}

/// What the command line of the program, where options take these names, makes of the arguments.
fn matches<'a>(
    alloc: Global,
    names: OptionNames<'a>,
    arguments: &'a [String],
) -> Result<ArgMatches<'a>, Error>
    ensures found { IfOk result (λ found. subcommand_rows_of found
        ≡ subcommand_of (tsobench_app names.entry) (parsed_as (texts_in arguments.now))) }
    ensures kinds { FailsBy (fault_of (tsobench_app names.entry) (parsed_as (texts_in arguments.now))) result }
{
    let command = subcommands::tsobench_command(alloc, names)?;
    match help_option(arguments) {
        Some(option) => command.try_get_matches_from(option),
        None => command.try_get_matches_from(arguments),
    }
}

/// The option that asks for the help of the program.
static PROGRAM_HELP: [&str; 1] = ["--help"];

/// The option that asks for what `help`, alone or with the name of a subcommand, asks for: `clap` promises more of it,
/// and it gives the same text. None of all other arguments.
fn help_option(arguments: &[String]) -> Option<&'static [&'static str]>
    ensures { unwrap_or (option_map (λ option. map (λ argument. argument.now) option.now) result) (texts_in arguments.now) ≡
        parsed_as (texts_in arguments.now) }
{
    match arguments {
        [first] if first.as_str() == "help" => Some(PROGRAM_HELP.as_slice()),
        [first, name] if first.as_str() == "help" => subcommands::help_option(name.as_str()),
        _ => None,
    }
}

/// The text that the arguments lead to in place of matches: the help or the version, or their refusal.
fn text_request<'a>(alloc: Global, error: &Error) -> Result<Request<'a>, AllocError>
    ensures asked { IfOk result (λ request. asked_of request ≡ asked_at (kind_of error.now)) }
    ensures memory { kind_of error.now ≡ OutOfMemory → IsErr result }
{
    if error.kind() == ErrorKind::OutOfMemory {
        return Err(AllocError);
    }
    let text = format!(in alloc; "{error}")?;
    if error.use_stderr() {
        Ok(Request::Refuse(text))
    } else {
        Ok(Request::Show(text))
    }
}
