//! The subcommands: how each is offered, and what its matches ask for.
ghost use Rattle.std.specs.Prelude.{◌≡◌, ◌∷◌, [], false, codes, find, fold, IfOk, map, option_map};
ghost use Rattle.std.specs.Str.{bytes_eq};
ghost use Rattle.clap.specs.Words.{app_of, found_of, rows_of, subcommand_rows_of, with_subcommand};
ghost use Rattle.clap.specs.declared.builder.command.Command.TheViews.{out-Command as fields_of};
ghost use Rattle.command_line.specs.Requests.{HasDrainTurns, HasLogRanges, HasOneInput, HasUnitRanges, HasWorkers, asked_of};
ghost use Rattle.command_line.specs.Parameters.{offered_app};
ghost use Rattle.command_line.specs.Commands.{asked_by, asked_in, memory_of, notes_by, notes_in, program_app, tsobench_app};
ghost use Rattle.command_line.specs.Subcommands.{subcommands};
ghost use Rattle.command_line.specs.Internal.Computed.{help_option_of, member_of, parameter_of};

use crate::help::Help;
use crate::options::{OptionNames, Presentation};
use crate::parameters::{Description, subcommand_of};
use crate::requests::{JudgeRequest, NO_NOTES, Notes, Request};
use crate::{found, help};
use clap::{ArgMatches, Command};
use std::alloc::{AllocError, Global};

mod batch;
mod campaign;
mod check;
mod decide;
mod draw;
mod explain;
mod follow;
mod judge;
mod log;
mod make;
mod outcomes;
mod reduce;
mod replay;
mod run;
mod shared;
mod verify;

/// The version of the program.
const VERSION: &str = "0.10.0-dev";

/// A subcommand.
#[derive(Clone, Copy)]
enum Subcommand {
    Judge,
    Decide,
    Explain,
    Draw,
    Reduce,
    Batch,
    Log,
    Follow,
    Check,
    Verify,
    Outcomes,
    Replay,
    Run,
    Make,
    Campaign,
}

/// All of them, as the help lists them.
static SUBCOMMANDS: [Subcommand; 15] = [
    Subcommand::Judge,
    Subcommand::Decide,
    Subcommand::Explain,
    Subcommand::Draw,
    Subcommand::Reduce,
    Subcommand::Batch,
    Subcommand::Log,
    Subcommand::Follow,
    Subcommand::Check,
    Subcommand::Verify,
    Subcommand::Outcomes,
    Subcommand::Replay,
    Subcommand::Run,
    Subcommand::Make,
    Subcommand::Campaign,
];

impl Subcommand {
    /// How it is written, and what may stand after it.
    fn description(self) -> &'static Description
        ensures name { map (λ word. word.now) result.now.help_option ≡ (member_of self).name ∷ codes "--help" ∷ [] }
        ensures parameters { map parameter_of result.now.parameters.now ≡ (member_of self).parameters }
    {
        match self {
            Subcommand::Judge => &judge::JUDGE,
            Subcommand::Decide => &decide::DECIDE,
            Subcommand::Explain => &explain::EXPLAIN,
            Subcommand::Draw => &draw::DRAW,
            Subcommand::Reduce => &reduce::REDUCE,
            Subcommand::Batch => &batch::BATCH,
            Subcommand::Log => &log::LOG,
            Subcommand::Follow => &follow::FOLLOW,
            Subcommand::Check => &check::CHECK,
            Subcommand::Verify => &verify::VERIFY,
            Subcommand::Outcomes => &outcomes::OUTCOMES,
            Subcommand::Replay => &replay::REPLAY,
            Subcommand::Run => &run::RUN,
            Subcommand::Make => &make::MAKE,
            Subcommand::Campaign => &campaign::CAMPAIGN,
        }
    }

    /// What the help says of it.
    fn help(self) -> &'static Help {
        match self {
            Subcommand::Judge => &judge::HELP,
            Subcommand::Decide => &decide::HELP,
            Subcommand::Explain => &explain::HELP,
            Subcommand::Draw => &draw::HELP,
            Subcommand::Reduce => &reduce::HELP,
            Subcommand::Batch => &batch::HELP,
            Subcommand::Log => &log::HELP,
            Subcommand::Follow => &follow::HELP,
            Subcommand::Check => &check::HELP,
            Subcommand::Verify => &verify::HELP,
            Subcommand::Outcomes => &outcomes::HELP,
            Subcommand::Replay => &replay::HELP,
            Subcommand::Run => &run::HELP,
            Subcommand::Make => &make::HELP,
            Subcommand::Campaign => &campaign::HELP,
        }
    }

    /// Its name.
    fn name(self) -> &'static str
        ensures { result.now ≡ (member_of self).name }
    {
        self.description().help_option[0]
    }

    /// The subcommand as it is offered.
    fn command<'a>(self, alloc: Global, names: OptionNames<'a>) -> Result<Command<'a>, AllocError>
        ensures app { IfOk result (λ command. app_of command ≡ offered_app (memory_of names.entry) (member_of self).name (member_of self).parameters) }
        ensures local { IfOk result (λ command. (fields_of command).has_globals ≡ false) }
    {
        subcommand_of(alloc, names, self.name(), self.description(), self.help())
    }

    /// What its matches ask for.
    fn request<'a>(self, alloc: Global, matches: &ArgMatches<'a>) -> Result<Request<'a>, AllocError>
        ensures asked { IfOk result (λ request. asked_of request ≡ asked_in (member_of self) (rows_of (found_of matches.now))) }
        ensures workers { IfOk result (λ request. HasWorkers (asked_of request)) }
        ensures unit { IfOk result (λ request. HasUnitRanges (asked_of request)) }
        ensures turns { IfOk result (λ request. HasDrainTurns (asked_of request)) }
        ensures log { IfOk result (λ request. HasLogRanges (asked_of request)) }
        ensures input { IfOk result (λ request. HasOneInput (asked_of request)) }
    {
        match self {
            Subcommand::Judge => Ok(found::judge(matches)),
            Subcommand::Decide => Ok(found::decide(matches)),
            Subcommand::Explain => Ok(found::present(matches, Presentation::Explanation)),
            Subcommand::Draw => found::draw(alloc, matches),
            Subcommand::Reduce => Ok(found::reduce(matches)),
            Subcommand::Batch => found::batch(alloc, matches),
            Subcommand::Log => found::log(alloc, matches),
            Subcommand::Follow => Ok(found::follow(matches)),
            Subcommand::Check => found::check(alloc, matches),
            Subcommand::Verify => found::verify(alloc, matches),
            Subcommand::Outcomes => found::outcomes(alloc, matches),
            Subcommand::Replay => found::replay(alloc, matches),
            Subcommand::Run => found::run(alloc, matches),
            Subcommand::Make => Ok(found::make(matches)),
            Subcommand::Campaign => Ok(found::campaign(matches)),
        }
    }

    /// What its matches say is to be told.
    fn notes(self, matches: &ArgMatches<'_>) -> Notes
        ensures { result ≡ notes_in (member_of self) (rows_of (found_of matches.now)) }
    {
        match self {
            Subcommand::Judge
            | Subcommand::Decide
            | Subcommand::Explain
            | Subcommand::Draw
            | Subcommand::Reduce
            | Subcommand::Check
            | Subcommand::Verify
            | Subcommand::Outcomes
            | Subcommand::Replay
            | Subcommand::Run => found::verbose_notes(matches),
            Subcommand::Batch | Subcommand::Log | Subcommand::Follow => {
                found::both_notes(matches)
            },
            Subcommand::Campaign => found::progress_notes(matches),
            Subcommand::Make => NO_NOTES,
        }
    }
}

/// The command line of the program, where options take these names.
pub(crate) fn tsobench_command<'a>(
    alloc: Global,
    names: OptionNames<'a>,
) -> Result<Command<'a>, AllocError>
    ensures app { IfOk result (λ command. app_of command ≡ tsobench_app names.entry) }
    ensures local { IfOk result (λ command. (fields_of command).has_globals ≡ false) }
{
    let program = program_command(alloc)?;
    with_subcommands(alloc, names, program, SUBCOMMANDS.as_slice())
}

/// The command line before its subcommands.
fn program_command<'a>(alloc: Global) -> Result<Command<'a>, AllocError>
    ensures app { IfOk result (λ command. app_of command ≡ program_app) }
    ensures local { IfOk result (λ command. (fields_of command).has_globals ≡ false) }
{
    let help = help::of_program();
    let command = Command::new(alloc, "tsobench")
        .bin_name("tsobench")?
        .no_binary_name(true)
        .version(VERSION)
        .about(help.about)
        .after_help(help.text);
    Ok(command)
}

/// A command line with these subcommands after its own.
fn with_subcommands<'a>(
    alloc: Global,
    names: OptionNames<'a>,
    mut program: Command<'a>,
    list: &[Subcommand],
) -> Result<Command<'a>, AllocError>
    requires { (fields_of program).has_globals ≡ false }
    ensures app { IfOk result (λ command. app_of command ≡ fold (λ app c. with_subcommand app (offered_app (memory_of names.entry) c.name c.parameters).top)
        (app_of program.entry) (map member_of list.now)) }
    ensures local { IfOk result (λ command. (fields_of command).has_globals ≡ false) }
{
    for subcommand in list {
        program = program.subcommand(subcommand.command(alloc, names)?)?;
    }
    Ok(program)
}

/// What the matches ask for: without a subcommand, to judge standard input with one worker. OutOfMemory where an allocation
/// for the text of a refusal was refused.
pub(crate) fn request<'a>(
    alloc: Global,
    matches: &ArgMatches<'a>,
) -> Result<Request<'a>, AllocError>
    ensures asked { IfOk result (λ request. asked_of request ≡ asked_by (subcommand_rows_of matches.now)) }
    ensures workers { IfOk result (λ request. HasWorkers (asked_of request)) }
    ensures unit { IfOk result (λ request. HasUnitRanges (asked_of request)) }
    ensures turns { IfOk result (λ request. HasDrainTurns (asked_of request)) }
    ensures log { IfOk result (λ request. HasLogRanges (asked_of request)) }
    ensures input { IfOk result (λ request. HasOneInput (asked_of request)) }
{
    if let Some((name, found)) = matches.subcommand() {
        if let Some(subcommand) = subcommand_named(name) {
            return subcommand.request(alloc, found);
        }
    }
    Ok(Request::Judge(JudgeRequest {
        file: None,
        workers: 1,
        nth: None,
        presentation: Presentation::Report,
    }))
}

/// What the matches say is to be told: nothing without a subcommand.
pub(crate) fn notes(matches: &ArgMatches<'_>) -> Notes
    ensures { result ≡ notes_by (subcommand_rows_of matches.now) }
{
    if let Some((name, found)) = matches.subcommand() {
        if let Some(subcommand) = subcommand_named(name) {
            return subcommand.notes(found);
        }
    }
    NO_NOTES
}

/// The subcommand of this name.
fn subcommand_named(name: &str) -> Option<Subcommand>
    ensures { option_map member_of result ≡ find (λ c. bytes_eq c.name name.now) subcommands }
{
    first_named(name, SUBCOMMANDS.as_slice())
}

/// The first of these subcommands with this name.
fn first_named(name: &str, list: &[Subcommand]) -> Option<Subcommand>
    ensures { option_map member_of result ≡ find (λ c. bytes_eq c.name name.now) (map member_of list.now) }
{
    for subcommand in list {
        if subcommand.name() == name {
            return Some(*subcommand);
        }
    }
    None
}

/// The option that asks for the help of the subcommand of this name.
pub(crate) fn help_option(name: &str) -> Option<&'static [&'static str]>
    ensures { option_map (λ option. map (λ word. word.now) option.now) result ≡ help_option_of name.now }
{
    Some(subcommand_named(name)?.description().help_option.as_slice())
}
