//! `log [--most K] [--effort N] [--max-unknown PERCENT] [--ended] [--trace|--explain|--evidence|--decide] [--progress] [--verbose] [FILE]`:
//! finds violations of a log, or decides on it.

use crate::help::Help;
use crate::options::{MAX_LOG_EFFORT, MAX_LOG_VIOLATIONS, MAX_PERCENT};
use crate::parameters::{Accepted, Description, Parameter};
use crate::subcommands::shared;

/// The text of its help after the list of its parameters.
const TEXT: &str = "\
It reads a log of what the processors of a machine did, of any length, and looks
for violations: lines of the log that no memory order explains. Each line is an
operation of a processor P, 0 to 4095, and the lines of a processor stand in the
order of its program:

  P ld A R      it loaded R from address A
  P st A V      it stored V to address A
  P sw A R V    it swapped: it loaded R from address A and stored V there
  P mb          MEMBAR #StoreLoad
  P stbar       STBAR
  P un A        it did something else at address A, whose lines all are left out

Lines of different processors may stand in any order. Addresses and values are
numbers of 64 bits, decimal or hexadecimal as 0x1f, and values may repeat. The
first line may be `model pso`, for Partial Store Order; without it STBAR says
nothing. Lines `init A V`, before all operations, say what memory has at first,
later ones over earlier ones: 0 at all other addresses. A last line `end` says
that the log is whole; with --ended a log without it is refused, as one that was
cut off. A line may end with ` #` and any text, which the report repeats; one
that begins with `#` says nothing.

An address is a location, read and written as a whole. A/N in its place is of the
N bytes from A on, the lowest first, N being 1, 2, 4 or 8: all places of a log
have a width, or none. Where places overlap, accesses are cut into pieces, which
the numbers of the report count; `split 12` says how many lines are cut.

A run that says when its stores reach memory is a log too: `P lr A R` is a load,
`P wr A V` and `P sc A V` are stores, and lines `dr` and `last` say nothing.

The log must have every store and swap of the run: what it leaves out may be
what a load read. Then a violation that is shown is one of the run; that none
was found proves nothing. The report says VIOLATION or NO VIOLATION FOUND, and
then what was not judged:

  SEARCH ENDED EARLY  the log asks for more than --effort allows
  NOT ALL JUDGED      what was found is past the limits of a trace; its lines
                      stand at the end, after a line as unjudged 1
  NOTHING JUDGED      the values tell the source of no load
  TOO MANY UNKNOWN    they tell that of fewer loads than --max-unknown asks for

For each violation it has a line as violation 1, and lines of the log as
line 12 0 ld 8192 0. No two violations have a load in common. Loads of values
that nothing wrote come first. With --trace it prints in place of the report the
traces of these lines, which `tsobench batch` reads; that of a load of a value
that nothing wrote has such a load alone. With --evidence it prints evidence by
values of one violation, which `tsobench verify --log` checks against the log,
or nothing where it found none. If the text is no log, a line says so, as
REFUSED BadLine line 3.

With --decide it searches for an order of all loads and stores of the log that
explains it, and prints CONSISTENT and the order, or VIOLATION and a refutation,
which may suppose what loads read, case by case. It supposes as many cases as
--effort says; UNDECIDED 100 means that neither was found by so many. Of the text after
the line of the answer `tsobench verify --log` checks that it holds. --most and
--max-unknown say nothing then.

Exit status:
  0  no violation was found, which proves nothing about the log; with --decide
     an order was found
  1  no violation was found, and not all was judged; with --decide neither an
     order nor a refutation was found
  2  the text is no log, or the command line was refused
  3  a violation of the log's memory model was found
  4  a fault, which one line on standard error names, as FAULT Read

Example:
  tsobench log --explain LOG";

/// What the help says of it.
pub(crate) static HELP: Help = Help {
    about: "Finds violations of a log, and prints their lines",
    text: TEXT,
};

/// What may stand after it.
pub(crate) static LOG: Description = Description {
    help_option: ["log", "--help"],
    parameters: &[
        Parameter::Option {
            name: "most",
            value_name: "K",
            accepted: Accepted::Number(1, MAX_LOG_VIOLATIONS as u64),
            default: Some("10"),
            help: "How many violations of each kind are shown at most, 1 to 1000000",
        },
        Parameter::Option {
            name: "effort",
            value_name: "N",
            accepted: Accepted::Number(0, MAX_LOG_EFFORT as u64),
            default: Some("100"),
            help: "How many steps for each load and store, or how many cases to decide, 0 to 1000000",
        },
        Parameter::Option {
            name: "max-unknown",
            value_name: "PERCENT",
            accepted: Accepted::Number(0, MAX_PERCENT as u64),
            default: Some("100"),
            help: "How many of a hundred loads may have an unknown source, 0 to 100",
        },
        Parameter::Flag {
            name: "ended",
            help: "Refuses a log that does not end with a line `end`",
        },
        Parameter::Flag {
            name: "trace",
            help: "Prints the traces of the violations, and no report",
        },
        Parameter::Flag {
            name: "explain",
            help: "Explains each violation after its lines",
        },
        Parameter::Flag {
            name: "evidence",
            help: "Prints evidence by values of a violation, and no report",
        },
        Parameter::Flag {
            name: "decide",
            help: "Decides on the log, and prints an order or a refutation",
        },
        shared::PROGRESS,
        shared::VERBOSE,
        Parameter::Other {
            name: "file",
            value_name: "FILE",
            required: false,
            help: "The text of a log; standard input where it is - or left out",
        },
    ],
};

const _: () = prove!(MAX_LOG_VIOLATIONS == 1_000_000);

const _: () = prove!(MAX_LOG_EFFORT == 1_000_000);

const _: () = prove!(MAX_PERCENT == 100);
