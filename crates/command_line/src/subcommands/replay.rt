//! `replay --unit UNIT [--capacity C] [--trigger T] [--workers N] [--trace|--explain] [--with-trace] PROGRAM SCHEDULE`: replays a program by a
//! schedule.

use crate::help::Help;
use crate::parameters::{Description, Parameter};
use crate::subcommands::shared;

/// The text of its help after the list of its parameters.
const TEXT: &str = "\
It reads the text of a program and that of a schedule, and runs the program on
the memory unit: each line of the schedule says which processor issues its next
operation, or drains a waiting store. The trace of what the unit answered is
recorded and judged. It prints the report of `tsobench judge`, and then a line
`account loads .. stores .. swaps .. membars .. drains .. closed` with the
numbers of the unit's steps. With --trace it prints the recorded trace alone,
and with --explain what `tsobench explain` prints of it; one of the two may be
used. With --with-trace the recorded trace follows the report or the
explanation. A text that is no program or no schedule gets one line that says
why. PROGRAM or SCHEDULE, but not both, may be -, which is standard input.

--capacity and --trigger are ignored by units that have no use for them. The
unit `partial` keeps PSO: on it a program without the line `model pso` may give
a violation. The report is the same for each number of workers.

Exit status:
  0  no violation was found, or the trace was printed
  2  a text or the command line was refused
  3  the trace violates its memory model
  4  a fault, which one line on standard error names, as FAULT Read

Example:
  tsobench replay --unit serial PROGRAM SCHEDULE";

/// What the help says of it.
pub(crate) static HELP: Help = Help {
    about: "Replays a program by a schedule, and judges the trace",
    text: TEXT,
};

/// What may stand after it.
pub(crate) static REPLAY: Description = Description {
    help_option: ["replay", "--help"],
    parameters: &[
        shared::UNIT,
        shared::CAPACITY,
        shared::TRIGGER,
        shared::WORKERS,
        shared::TRACE,
        shared::EXPLAIN,
        shared::WITH_TRACE,
        shared::VERBOSE,
        Parameter::Other {
            name: "program",
            value_name: "PROGRAM",
            required: true,
            help: "The text of a program",
        },
        Parameter::Other {
            name: "schedule",
            value_name: "SCHEDULE",
            required: true,
            help: "The text of a schedule",
        },
    ],
};
