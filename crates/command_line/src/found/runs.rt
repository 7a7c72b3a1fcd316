//! What the matches of `run` ask for.
ghost use Rattle.std.specs.Prelude.{◌≡◌, IfOk, codes};
ghost use Rattle.clap.specs.Words.{found_of, rows_of};
ghost use Rattle.command_line.specs.Commands.{asked_in, given_in};
ghost use Rattle.command_line.specs.Requests.{asked_of};
ghost use Rattle.command_line.specs.Options.{drain_turns_of, number_or, times_of};
ghost use Rattle.command_line.specs.Subcommands.{file_of, run, run_asked};

use super::{refuse, run_options};
use crate::help;
use crate::options::RunOptions;
use crate::requests::{Request, RunRequest, RunTimesRequest};
use crate::values::{drain_turns, file, number, times};
use clap::ArgMatches;
use std::alloc::{AllocError, Global};

/// Of `run`: a refusal of both flags, or of more runs than one whose traces aren't printed.
pub(crate) fn run<'a>(alloc: Global, matches: &ArgMatches<'a>) -> Result<Request<'a>, AllocError>
    ensures { IfOk result (λ request. asked_of request ≡ asked_in run (rows_of (found_of matches.now))) }
{
    match run_options(matches) {
        Some(options) => run_with(alloc, options, matches),
        None => refuse(alloc, help::BOTH),
    }
}

/// Of `run` with these options.
fn run_with<'a>(
    alloc: Global,
    options: RunOptions,
    matches: &ArgMatches<'a>,
) -> Result<Request<'a>, AllocError>
    ensures { let rows = rows_of (found_of matches.now) in let given = given_in run.parameters rows in
        IfOk result (λ request. asked_of request ≡ run_asked options (number_or 0 (given (codes "seed"))) (drain_turns_of given) (times_of given)
        (file_of (given (codes "program")))) }
{
    let drain_seed = number(matches, "seed", 0);
    let drain_turns = drain_turns(matches);
    let program = file(matches, "program");
    let times = times(matches);
    if times == 1 {
        return Ok(Request::Run(RunRequest {
            options,
            drain_seed,
            drain_turns,
            program,
        }));
    }
    if !options.printing.is_trace() {
        return refuse(alloc, help::TIMES_WITHOUT_TRACE);
    }
    Ok(Request::RunTimes(RunTimesRequest {
        unit: options.unit,
        drain_seed,
        drain_turns,
        times,
        program,
    }))
}
