//! What the matches of `log` ask for.
ghost use Rattle.std.specs.Prelude.{◌≡◌, IfOk, codes, option_map};
ghost use Rattle.clap.specs.Words.{found_of, one_of, rows_of};
ghost use Rattle.command_line.specs.Commands.{asked_in, given_in};
ghost use Rattle.command_line.specs.Requests.{asked_of};
ghost use Rattle.command_line.specs.Options.{is_true, log_form_of, log_options_of};
ghost use Rattle.command_line.specs.Subcommands.{log, log_asked, log_parameters};

use super::refuse;
use crate::help;
use crate::options::{MAX_LOG_EFFORT, MAX_LOG_VIOLATIONS, MAX_PERCENT};
use crate::requests::{DecideLogRequest, LogRequest, Request};
use crate::values::{file, is_used, number_within};
use clap::ArgMatches;
use request_options::{LogForm, LogOptions};
use std::alloc::{AllocError, Global};

/// Of `log`: a refusal of two forms, or of a form of a decision.
pub(crate) fn log<'a>(alloc: Global, matches: &ArgMatches<'a>) -> Result<Request<'a>, AllocError>
    ensures { IfOk result (λ request. asked_of request ≡ asked_in log (rows_of (found_of matches.now))) }
{
    match log_options(matches) {
        Some(options) => on_log(
            alloc,
            is_used(matches, "decide"),
            file(matches, "file"),
            options,
        ),
        None => refuse(alloc, help::SEVERAL_FORMS),
    }
}

/// To decide on a log, or to find violations of it: a refusal of a form of a decision.
fn on_log<'a>(
    alloc: Global,
    decides: bool,
    file: Option<&'a str>,
    options: LogOptions,
) -> Result<Request<'a>, AllocError>
    ensures { IfOk result (λ request. asked_of request ≡ log_asked decides (option_map (λ name. name.now) file.entry) options) }
{
    match (decides, options.form) {
        (false, _) => Ok(Request::Log(LogRequest { file, options })),
        (true, LogForm::Lines) => Ok(Request::DecideLog(DecideLogRequest {
            file,
            effort: options.effort,
            needs_end: options.needs_end,
        })),
        (true, _) => refuse(alloc, help::SEVERAL_FORMS),
    }
}

/// What the options say of what is shown of a log; none with the flags of two forms.
fn log_options(matches: &ArgMatches<'_>) -> Option<LogOptions>
    ensures { result ≡ log_options_of (given_in log_parameters (rows_of (found_of matches.now))) }
{
    let form = log_form(matches)?;
    Some(LogOptions {
        most: number_within(matches, "most", 10, 1, MAX_LOG_VIOLATIONS as u64) as usize,
        effort: number_within(matches, "effort", 100, 0, MAX_LOG_EFFORT as u64) as usize,
        max_unknown: number_within(matches, "max-unknown", 100, 0, MAX_PERCENT as u64) as usize,
        needs_end: is_used(matches, "ended"),
        form,
    })
}

/// In which form violations are shown: by their lines without the flags of traces, of explanations and of evidence; none with
/// two of them.
fn log_form(matches: &ArgMatches<'_>) -> Option<LogForm>
    ensures { let rows = rows_of (found_of matches.now) in result ≡ log_form_of (is_true (one_of (codes "trace") rows))
        (is_true (one_of (codes "explain") rows)) (is_true (one_of (codes "evidence") rows)) }
{
    let traces = is_used(matches, "trace");
    let explained = is_used(matches, "explain");
    let evidence = is_used(matches, "evidence");
    match (traces, explained, evidence) {
        (false, false, false) => Some(LogForm::Lines),
        (true, false, false) => Some(LogForm::Traces),
        (false, true, false) => Some(LogForm::Explained),
        (false, false, true) => Some(LogForm::Evidence),
        _ => None,
    }
}
