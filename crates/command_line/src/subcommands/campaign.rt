//! `campaign --unit UNIT [--capacity C] [--trigger T] [--workers N] [--replay] [--drain-turns T] [--trace] [--model MODEL] --first S --count K
//! --procs P --ops O --addrs A`: runs or replays the programs that many seeds draw.

use crate::help::Help;
use crate::options::MAX_REQUESTED_WORKERS;
use crate::parameters::{Accepted, Description, Parameter};
use crate::subcommands::shared;

/// The text of its help after the list of its parameters.
const TEXT: &str = "\
It takes the seeds S, S + 1 and so on, K of them. From each it draws a program,
as `tsobench make` does, and runs it on a memory unit of its own, as
`tsobench run` does with the same seed; the trace of what the unit answered is
recorded and judged. It prints a line for each seed, in their order,
`seed S NO VIOLATION FOUND` or `seed S VIOLATION`, and then a line
`seeds K violations M`, where M is the number of seeds with a violation.

With --trace it prints the recorded traces in place of these lines, one after
the other, as `tsobench batch` takes them: trace N is that of seed S + N - 1.

With --replay it replays each program in place of running it, as
`tsobench replay` does by the schedule that `tsobench make --schedule` prints of
the seed: the same arguments then print the same text each time. Without it the
system, and not the seed, says in which order the threads come to the unit: two
campaigns of the same arguments may find different violations. --drain-turns T
starts a drainer beside the processors, as for `tsobench run`; with --replay it
is ignored, since schedules have drains.

P, O and A are the shape of each program, as for `tsobench make`. A shape
outside the limits gets one line, REFUSED Shape; more than 1,000 seeds, or a
last seed above 18446744073709551615, get one line, REFUSED Seeds.

With --model pso each program is of Partial Store Order and has STBARs, as for
`tsobench make`, and its trace is judged against that model. The unit `partial`
is lawful for programs of --model pso alone: with --model tso it shows what TSO
forbids, so violations are to be expected.

Each worker runs one seed at a time; lines and traces stand in the same order
for each number of workers. --capacity and --trigger are ignored by units that
have no use for them.

Exit status:
  0  no violation was found
  2  the shape, the seeds or the command line were refused
  3  the trace of a seed violates its memory model
  4  a fault, which one line on standard error names, as FAULT NoThread

Example:
  tsobench campaign --unit buffer --first 1 --count 20 \\
    --procs 2 --ops 4 --addrs 2";

/// What the help says of it.
pub(crate) static HELP: Help = Help {
    about: "Runs or replays the programs of many seeds, and judges their traces",
    text: TEXT,
};

/// What may stand after it.
pub(crate) static CAMPAIGN: Description = Description {
    help_option: ["campaign", "--help"],
    parameters: &[
        shared::UNIT,
        shared::CAPACITY,
        shared::TRIGGER,
        Parameter::Option {
            name: "workers",
            value_name: "N",
            accepted: Accepted::Number(1, MAX_REQUESTED_WORKERS as u64),
            default: Some("1"),
            help: "How many workers share the seeds, 1 to 64",
        },
        Parameter::Flag {
            name: "replay",
            help: "Replays each program by the schedule of its seed",
        },
        shared::DRAIN_TURNS,
        Parameter::Flag {
            name: "trace",
            help: "Prints the recorded traces in place of lines",
        },
        shared::PROGRESS,
        shared::MODEL,
        Parameter::Option {
            name: "first",
            value_name: "S",
            accepted: Accepted::Number(0, u64::MAX),
            default: None,
            help: "The first seed, 0 to 18446744073709551615",
        },
        Parameter::Option {
            name: "count",
            value_name: "K",
            accepted: Accepted::Number(0, u64::MAX),
            default: None,
            help: "How many seeds there are, each one more than the last, at most 1000",
        },
        shared::PROCESSORS,
        shared::OPERATIONS,
        shared::ADDRESSES,
    ],
};
