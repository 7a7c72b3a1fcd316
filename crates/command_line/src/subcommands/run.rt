//! `run --unit UNIT [--capacity C] [--trigger T] [--workers N] [--trace|--explain] [--with-trace] --seed N [--drain-turns T] [--times N] PROGRAM`:
//! runs a program with a thread per processor.

use crate::help::Help;
use crate::options::MAX_RUN_TIMES;
use crate::parameters::{Accepted, Description, Parameter};
use crate::subcommands::shared;

/// The text of its help after the list of its parameters.
const TEXT: &str = "\
It reads the text of a program, and runs the program on the memory unit: each
processor has a thread of its own, which issues its operations in program order,
and the unit serves one call at a time. After each operation the thread drains
a store of its processor up to twice: numbers drawn from the seed say how
often. With --drain-turns T there is a drainer, a thread more beside these: it
takes T turns, and on turn t, from 0, it drains a store of processor t modulo
the number of processors, where one waits. The trace of what the unit answered
is recorded and judged. It prints the report of `tsobench judge`, and then a
line `account loads .. stores .. swaps .. membars .. drains .. closed` with the
numbers of the unit's steps. With --trace it prints the recorded trace alone,
and with --explain what `tsobench explain` prints of it; one of the two may be
used. With --with-trace the recorded trace follows the report or the
explanation. A text that is no program gets one line that says why.

With --times N and --trace it runs the program N times, each time with the next
seed, and prints the recorded traces one after the other, as `tsobench batch`
and `tsobench outcomes --seen` read them. Seed 0 follows the greatest.

The system, and not the seed, says in which order the threads come to the unit:
two runs of the same arguments may record different traces. To run a program in
an order that is the same each time, use `tsobench replay`.

--capacity and --trigger are ignored by units that have no use for them. The
unit `partial` keeps PSO: on it a program without the line `model pso` may give
a violation. The report of a recorded trace is the same for each number of
workers.

Exit status:
  0  no violation was found, or the trace was printed
  2  the text or the command line was refused
  3  the trace violates its memory model
  4  a fault, which one line on standard error names, as FAULT Read

Example:
  tsobench run --unit buffer --seed 1 PROGRAM
  tsobench run --unit buffer --seed 1 --times 1000 --trace PROGRAM";

const _: () = prove!(MAX_RUN_TIMES == 1_000_000);

/// What the help says of it.
pub(crate) static HELP: Help = Help {
    about: "Runs a program with a thread per processor, and judges the trace",
    text: TEXT,
};

/// What may stand after it.
pub(crate) static RUN: Description = Description {
    help_option: ["run", "--help"],
    parameters: &[
        shared::UNIT,
        shared::CAPACITY,
        shared::TRIGGER,
        shared::WORKERS,
        shared::TRACE,
        shared::EXPLAIN,
        shared::WITH_TRACE,
        shared::VERBOSE,
        Parameter::Option {
            name: "seed",
            value_name: "N",
            accepted: Accepted::Number(0, u64::MAX),
            default: None,
            help: "The seed of the drains, 0 to 18446744073709551615",
        },
        shared::DRAIN_TURNS,
        Parameter::Option {
            name: "times",
            value_name: "N",
            accepted: Accepted::Number(1, MAX_RUN_TIMES),
            default: Some("1"),
            help: "How often the program is run, 1 to 1000000, with --trace",
        },
        Parameter::Other {
            name: "program",
            value_name: "PROGRAM",
            required: true,
            help: "The text of a program; standard input where it is -",
        },
    ],
};
