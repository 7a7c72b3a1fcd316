//! What the matches of a subcommand have for its options, flags and other arguments.
ghost use Rattle.std.specs.Prelude.{◌≡◌, ◌≤◌, codes, if◌then◌else◌, option_map, None, Some};
ghost use Rattle.clap.specs.Words.{first_of, found_of, one_of, rows_of};
ghost use Rattle.command_line.specs.Requests.{drain_turns_limit, requested_worker_limit, run_times_limit};
ghost use Rattle.command_line.specs.Pictures.{chosen_picture};
ghost use Rattle.command_line.specs.Options.{chosen_format, chosen_order, chosen_run_format, given_number, is_true, number_or, within};
ghost use Rattle.command_line.specs.Subcommands.{file_of};

use crate::options::{
    MAX_DRAIN_TURNS, MAX_REQUESTED_WORKERS, MAX_RUN_TIMES, Presentation, format_named, order_named,
    picture_named, run_format_named,
};
use clap::ArgMatches;
use request_options::{BatchFormat, RunFormat};
use tso_ops::Order;

/// What stands for standard input in place of the name of a file.
const STANDARD_INPUT: &str = "-";

/// The file that an argument names; none where it is left out or a hyphen, which stand for standard input.
pub(crate) fn file<'a>(matches: &ArgMatches<'a>, name: &str) -> Option<&'a str>
    ensures { option_map (λ file. file.now) result ≡ file_of (first_of name.now (rows_of (found_of matches.now))) }
{
    let named = matches.get_str(name)?;
    named_file(named)
}

/// The file of this name; none where it is a hyphen.
pub(crate) fn named_file<'a>(name: &'a str) -> Option<&'a str>
    ensures { option_map (λ file. file.now) result ≡ file_of (Some name.now) }
{
    if name == STANDARD_INPUT {
        return None;
    }
    Some(name)
}

/// The memory model: TSO where none is named.
pub(crate) fn order(matches: &ArgMatches<'_>) -> Order
    ensures { result ≡ chosen_order (first_of (codes "model") (rows_of (found_of matches.now))) }
{
    let named = matches.get_str("model").and_then(order_named);
    named.unwrap_or(Order::Tso)
}

/// How the lines of a batch are written: in words where no format is named.
pub(crate) fn format(matches: &ArgMatches<'_>) -> BatchFormat
    ensures { result ≡ chosen_format (first_of (codes "format") (rows_of (found_of matches.now))) }
{
    let named = matches.get_str("format").and_then(format_named);
    named.unwrap_or(BatchFormat::Words)
}

/// In what is told of a run: in words where no format is named.
pub(crate) fn run_format(matches: &ArgMatches<'_>) -> RunFormat
    ensures { result ≡ chosen_run_format (first_of (codes "format") (rows_of (found_of matches.now))) }
{
    let named = matches.get_str("format").and_then(run_format_named);
    named.unwrap_or(RunFormat::Words)
}

/// The form of a picture: with the names of rules where no names of edges are named.
pub(crate) fn picture(matches: &ArgMatches<'_>) -> Presentation
    ensures { result ≡ chosen_picture (first_of (codes "edges") (rows_of (found_of matches.now))) }
{
    let named = matches.get_str("edges").and_then(picture_named);
    named.unwrap_or(Presentation::Picture)
}

/// The number of a trace among those that stand one after the other; none where it is left out.
pub(crate) fn nth(matches: &ArgMatches<'_>) -> Option<u64>
    ensures { result ≡ given_number (one_of (codes "nth") (rows_of (found_of matches.now))) }
{
    matches.get_one("nth")
}

/// How many traces of a batch have to be judged, at least; none where it is left out.
pub(crate) fn required(matches: &ArgMatches<'_>) -> Option<u64>
    ensures { result ≡ given_number (one_of (codes "require") (rows_of (found_of matches.now))) }
{
    matches.get_one("require")
}

/// The number of workers, 1 where none is named.
pub(crate) fn workers(matches: &ArgMatches<'_>) -> usize
    ensures { result ≡ within 1 requested_worker_limit (number_or 1 (one_of (codes "workers") (rows_of (found_of matches.now)))) }
{
    number_within(matches, "workers", 1, 1, MAX_REQUESTED_WORKERS as u64) as usize
}

/// How many steps the search for a decision does, at most: 100,000 where the effort is left out.
pub(crate) fn effort(matches: &ArgMatches<'_>) -> u64
    ensures { result ≡ number_or 100000 (one_of (codes "effort") (rows_of (found_of matches.now))) }
{
    number(matches, "effort", 100_000)
}

/// How many steps the search for a decision does, at most, where one is asked for.
pub(crate) fn decision_effort(matches: &ArgMatches<'_>) -> Option<u64>
    ensures { result ≡ (if is_true (one_of (codes "decide") (rows_of (found_of matches.now)))
        then Some (number_or 100000 (one_of (codes "effort") (rows_of (found_of matches.now)))) else None) }
{
    if is_used(matches, "decide") {
        Some(effort(matches))
    } else {
        None
    }
}

/// How many turns a drainer takes, none where they are left out.
pub(crate) fn drain_turns(matches: &ArgMatches<'_>) -> u64
    ensures value { result ≡ within 0 drain_turns_limit (number_or 0 (one_of (codes "drain-turns") (rows_of (found_of matches.now)))) }
    ensures range { result ≤ drain_turns_limit }
{
    number_within(matches, "drain-turns", 0, 0, MAX_DRAIN_TURNS)
}

/// How often a program is run, once where nothing says how often.
pub(crate) fn times(matches: &ArgMatches<'_>) -> u64
    ensures { result ≡ within 1 run_times_limit (number_or 1 (one_of (codes "times") (rows_of (found_of matches.now)))) }
{
    number_within(matches, "times", 1, 1, MAX_RUN_TIMES)
}

/// Whether the flag of this name is used.
pub(crate) fn is_used(matches: &ArgMatches<'_>, name: &str) -> bool
    ensures { result ≡ is_true (one_of name.now (rows_of (found_of matches.now))) }
{
    matches.get_one(name).unwrap_or(false)
}

/// The number of the option of this name, and the default where there is none, clamped: the command has refused numbers
/// out of range, but what `clap` promises of the values of a subcommand doesn't say so.
pub(crate) fn number_within(
    matches: &ArgMatches<'_>,
    name: &str,
    default: u64,
    least: u64,
    most: u64,
) -> u64
    requires { least ≤ most }
    ensures value { result ≡ within least most (number_or default (one_of name.now (rows_of (found_of matches.now)))) }
    ensures range { (least ≤ result) × (result ≤ most) }
{
    number(matches, name, default).clamp(least, most)
}

/// The number of the option of this name, and the default where there is none.
pub(crate) fn number(matches: &ArgMatches<'_>, name: &str, default: u64) -> u64
    ensures { result ≡ number_or default (one_of name.now (rows_of (found_of matches.now))) }
{
    let named: Option<u64> = matches.get_one(name);
    named.unwrap_or(default)
}
