//! `outcomes [--states] [--limit N] [--seen STREAM] [--verbose] PROGRAM`: lists the outcomes of a program, or counts those of a stream of traces.

use crate::help::Help;
use crate::parameters::{Accepted, Description, Parameter};
use crate::subcommands::shared;

/// The text of its help after the list of its parameters.
const TEXT: &str = "\
It reads the text of a program, and follows all runs of the store-buffer machine
of the program's memory model. It prints each trace that a complete run leaves,
once, one after the other, in ascending order of the values that were read.

With --states it prints a line as States 4, and then a line for each final
state, in ascending order, as

  0:0=1; 1:0=0; [1]=2;

Here load 0 of processor 0 read 1, load 0 of processor 1 read 0, and memory has
2 at address 1 at last. The loads of a processor, those of swaps too, have
numbers from 0; there is a last value of each address that the program stores to.

With --seen STREAM it reads a stream of traces, one after the other, as
`tsobench batch` does, and prints how often the stream has each trace:

  Traces 4           how many traces runs leave; a line for each follows
  12 0:0=0; 1:0=1;   the stream has this trace 12 times
  Seen 3             how many of these traces the stream has
  Violations 0       how many traces of the stream are of the program, but of no
                     run; under PSO the line says Undecided, since the axioms
                     may allow such a trace: `tsobench batch --decide` says so
  Refused 0          how many pieces of the stream are no trace of the program

Where runs reach more than N states, it prints the line REFUSED States. A state
is that of the machine, with what each processor read so far.

Exit status:
  0  the outcomes were printed, or each trace of the stream is one of them
  1  a trace of the stream is of no run, under PSO
  2  the program, a piece of the stream or the command line was refused, or runs
     reach too many states
  3  a trace of the stream is of no run, under TSO: it violates its memory model
  4  a fault, which one line on standard error names, as FAULT Read

Example:
  tsobench outcomes --states PROGRAM
  tsobench run --unit buffer --seed 1 --times 1000 --trace PROGRAM \\
    | tsobench outcomes --seen - PROGRAM";

/// What the help says of it.
pub(crate) static HELP: Help = Help {
    about: "Lists all outcomes of a program, or counts those in a stream",
    text: TEXT,
};

/// What may stand after it.
pub(crate) static OUTCOMES: Description = Description {
    help_option: ["outcomes", "--help"],
    parameters: &[
        Parameter::Flag {
            name: "states",
            help: "Prints final states, with last values, in place of traces",
        },
        Parameter::Option {
            name: "limit",
            value_name: "N",
            accepted: Accepted::Number(1, u64::MAX),
            default: Some("1000000"),
            help: "How many states runs may reach, at most",
        },
        Parameter::Optional {
            name: "seen",
            value_name: "STREAM",
            accepted: Accepted::Text,
            help: "Counts the traces of this file; standard input where it is -",
        },
        shared::VERBOSE,
        Parameter::Other {
            name: "program",
            value_name: "PROGRAM",
            required: true,
            help: "The text of a program; standard input where it is -",
        },
    ],
};
