//! What the matches of `verify` ask for.
ghost use Rattle.std.specs.Prelude.{◌≡◌, IfOk};
ghost use Rattle.clap.specs.Words.{found_of, rows_of};
ghost use Rattle.command_line.specs.Commands.{asked_in};
ghost use Rattle.command_line.specs.Requests.{asked_of, files_of};
ghost use Rattle.command_line.specs.Subcommands.{evidence_asked, verify};

use super::{refuse, text_pair};
use crate::help;
use crate::requests::{CheckRequest, Request, TextPair};
use crate::values::{is_used, nth};
use clap::ArgMatches;
use std::alloc::{AllocError, Global};

/// Of `verify`: a refusal where both texts would be standard input, or of a log with a number.
pub(crate) fn verify<'a>(alloc: Global, matches: &ArgMatches<'a>) -> Result<Request<'a>, AllocError>
    ensures { IfOk result (λ request. asked_of request ≡ asked_in verify (rows_of (found_of matches.now))) }
{
    match text_pair(matches, "trace", "evidence") {
        Some(texts) => on_texts(alloc, is_used(matches, "log"), nth(matches), texts),
        None => refuse(alloc, help::TWO_INPUTS),
    }
}

/// To check the second text against the first, a log or a trace: a refusal of a log with a number.
fn on_texts<'a>(
    alloc: Global,
    is_log: bool,
    nth: Option<u64>,
    texts: TextPair<'a>,
) -> Result<Request<'a>, AllocError>
    ensures { IfOk result (λ request. asked_of request ≡ evidence_asked is_log nth (files_of texts.entry)) }
{
    match (is_log, nth) {
        (false, nth) => Ok(Request::Verify(CheckRequest { texts, nth })),
        (true, None) => Ok(Request::VerifyLog(texts)),
        (true, Some(_)) => refuse(alloc, help::NUMBERED_LOG),
    }
}
