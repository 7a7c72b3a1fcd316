//! `batch [--workers N] [--format FORMAT] [--quiet] [--violations] [--decide] [--effort N] [--require N] [--progress] [--verbose] [FILE]...`:
//! judges traces that stand one after the other, or decides on them.

use crate::help::Help;
use crate::options::MAX_REQUESTED_WORKERS;
use crate::parameters::{Accepted, Description, NameList, Parameter};
use crate::subcommands::shared;

/// The text of its help after the list of its parameters.
const TEXT: &str = "\
It reads texts of traces that stand one after the other: each ends with its line
`end`. Those that came together are judged side by side, and before it reads on
it prints a line for each, in order: trace 1 NO VIOLATION FOUND,
trace 2 VIOLATION or trace 3 REFUSED BadLine line 3, with the name and the line
that `tsobench judge` gives for the text alone; and at last a line as
traces 3 violations 1 refused 1. With --quiet the traces without a violation get
no line. With --violations it prints no lines but the texts of the traces that
are violations, as they came and in order, which batch reads again; no refused
text is among them. After each, standard error gets a line as kept 3 trace 7: the
third of these texts was trace 7; and the last line goes there too. A text of
more than 1,048,576 bytes is refused as TooLong, and the next one is judged. What
is printed is the same for each number of workers.

Of several files each is opened and judged when the one before it was, and each
line begins with the name of its file, as FILE: trace 1 VIOLATION; the numbers
begin anew with each file, and the last line is of all files. One of them may be
-, which is standard input. Lines of one FILE, or none, have no name. A file that
can't be opened gets a line FILE: FAULT Read, and the others are judged; at the
end the status is 4.

With --format json each line is an object of JSON, as
{\"trace\":1,\"verdict\":\"no_violation_found\"}, {\"trace\":2,\"verdict\":\"violation\"} or
{\"trace\":3,\"verdict\":\"refused\",\"name\":\"BadLine\",\"line\":3}, and the last one as
{\"traces\":3,\"violations\":1,\"refused\":1}. Of several files each line begins as
{\"file\":\"FILE\",\"trace\":1; of one that can't be opened there is
{\"file\":\"FILE\",\"fault\":\"Read\"}. With --format junit it prints a document in
JUnit's XML, which test servers read: a test case for each trace, which fails
where the trace is a violation and has an error where the text is refused; and
one with an error for a file that can't be opened.

With --decide the lines say what `tsobench decide` finds: CONSISTENT, which
--quiet leaves out, VIOLATION, UNDECIDED 100000 after so many steps, or REFUSED,
and the last one is as
traces 4 consistent 1 violations 1 undecided 1 refused 1. An undecided trace is
{\"trace\":4,\"verdict\":\"undecided\",\"steps\":100000} in JSON, and a test case
that was skipped in JUnit's XML.

With --require N the status isn't 0 if fewer than N traces of all files were
judged: a text that is REFUSED or UNDECIDED wasn't. Then standard error gets a
line, as TOO FEW JUDGED 0 required 100.

Exit status:
  0  no violation was found, which proves nothing; or all traces are CONSISTENT
  1  a trace is UNDECIDED, or fewer were judged than --require says, and no text
     is refused or a violation
  2  a text is no trace, and none is a violation, or the command line was refused
  3  a trace violates its memory model
  4  a fault, which one line on standard error names, as FAULT Read

Example:
  cat *.trace | tsobench batch --workers 4 --quiet
  tsobench batch --format junit *.trace >REPORT.xml
  tsobench batch --violations TRACES >VIOLATIONS
  tsobench batch --decide --quiet TRACES";

/// What the help says of it.
pub(crate) static HELP: Help = Help {
    about: "Judges many traces, with a line for each",
    text: TEXT,
};

/// What may stand after it.
pub(crate) static BATCH: Description = Description {
    help_option: ["batch", "--help"],
    parameters: &[
        Parameter::Option {
            name: "workers",
            value_name: "N",
            accepted: Accepted::Number(1, MAX_REQUESTED_WORKERS as u64),
            default: Some("1"),
            help: "How many traces are judged side by side, 1 to 64",
        },
        Parameter::Option {
            name: "format",
            value_name: "FORMAT",
            accepted: Accepted::Name(NameList::Formats),
            default: Some("words"),
            help: "How lines are written, words, json or junit",
        },
        Parameter::Flag {
            name: "quiet",
            help: "Leave out the lines of traces without a violation",
        },
        Parameter::Flag {
            name: "violations",
            help: "Print the texts of the violations in place of lines",
        },
        shared::DECIDE,
        shared::EFFORT,
        Parameter::Optional {
            name: "require",
            value_name: "N",
            accepted: Accepted::Number(1, u64::MAX),
            help: "How many traces have to be judged, at least",
        },
        shared::PROGRESS,
        shared::VERBOSE,
        Parameter::Several {
            name: "file",
            value_name: "FILE",
            help: "The texts of traces; standard input where it is - or left out",
        },
    ],
};
