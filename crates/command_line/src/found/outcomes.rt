//! What the matches of `outcomes` ask for.
ghost use Rattle.std.specs.Prelude.{◌≡◌, IfOk, option_map};
ghost use Rattle.clap.specs.Words.{found_of, rows_of};
ghost use Rattle.command_line.specs.Commands.{asked_in};
ghost use Rattle.command_line.specs.Requests.{asked_of};
ghost use Rattle.command_line.specs.Options.{outcome_form_of};
ghost use Rattle.command_line.specs.Subcommands.{outcomes, outcomes_asked};

use super::{pair_of, refuse};
use crate::help;
use crate::requests::{OutcomesRequest, Request, SeenRequest};
use crate::values::{file, is_used, named_file, number};
use clap::ArgMatches;
use request_options::{OutcomeForm, OutcomeOptions};
use std::alloc::{AllocError, Global};

/// Of `outcomes`: a refusal of final states of a stream, or where both texts would be standard input.
pub(crate) fn outcomes<'a>(
    alloc: Global,
    matches: &ArgMatches<'a>,
) -> Result<Request<'a>, AllocError>
    ensures { IfOk result (λ request. asked_of request ≡ asked_in outcomes (rows_of (found_of matches.now))) }
{
    let program = file(matches, "program");
    let limit = number(matches, "limit", 1_000_000);
    let form = form_of(is_used(matches, "states"));
    let outcomes = OutcomesRequest {
        program,
        options: OutcomeOptions { limit, form },
    };
    match matches.get_str("seen") {
        Some(name) => seen(alloc, outcomes, name),
        None => Ok(Request::Outcomes(outcomes)),
    }
}

/// In which form outcomes are listed, by whether final states are asked for.
fn form_of(states: bool) -> OutcomeForm
    ensures { result ≡ outcome_form_of states }
{
    if states {
        OutcomeForm::States
    } else {
        OutcomeForm::Traces
    }
}

/// What is asked for where outcomes are counted in the stream of this name.
fn seen<'a>(
    alloc: Global,
    outcomes: OutcomesRequest<'a>,
    name: &'a str,
) -> Result<Request<'a>, AllocError>
    ensures { IfOk result (λ request. asked_of request ≡ outcomes_asked outcomes.entry.options (option_map (λ file. file.now) outcomes.entry.program)
        (Some name.now)) }
{
    if let OutcomeForm::States = outcomes.options.form {
        return refuse(alloc, help::STATES_SEEN);
    }
    match pair_of(outcomes.program, named_file(name)) {
        Some(texts) => Ok(Request::Seen(SeenRequest {
            texts,
            limit: outcomes.options.limit,
        })),
        None => refuse(alloc, help::TWO_INPUTS),
    }
}
