//! What the matches of `follow` ask for.
ghost use Rattle.std.specs.Prelude.{◌≡◌};
ghost use Rattle.clap.specs.Words.{found_of, rows_of};
ghost use Rattle.command_line.specs.Commands.{asked_in, given_in};
ghost use Rattle.command_line.specs.Options.{follow_options_of};
ghost use Rattle.command_line.specs.Requests.{asked_of};
ghost use Rattle.command_line.specs.Subcommands.{follow};

use crate::options::MAX_LOG_VIOLATIONS;
use crate::requests::{FollowRequest, Request};
use crate::values::{file, is_used, number_within, run_format};
use clap::ArgMatches;
use request_options::FollowOptions;

/// Of `follow`.
pub(crate) fn follow<'a>(matches: &ArgMatches<'a>) -> Request<'a>
    ensures { asked_of result ≡ asked_in follow (rows_of (found_of matches.now)) }
{
    Request::Follow(FollowRequest {
        file: file(matches, "file"),
        options: follow_options(matches),
    })
}

/// What the options say of how a run is followed.
fn follow_options(matches: &ArgMatches<'_>) -> FollowOptions
    ensures { result ≡ follow_options_of (given_in follow.parameters (rows_of (found_of matches.now))) }
{
    FollowOptions {
        most: number_within(matches, "most", 10, 1, MAX_LOG_VIOLATIONS as u64) as usize,
        needs_end: is_used(matches, "ended"),
        is_fast: is_used(matches, "fail-fast"),
        format: run_format(matches),
        is_explained: is_used(matches, "explain"),
    }
}
