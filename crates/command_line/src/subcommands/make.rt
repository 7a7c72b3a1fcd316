//! `make [--schedule] [--model MODEL] --seed N --procs P --ops O --addrs A`: prints the program that a seed draws, or its
//! schedule.

use crate::help::Help;
use crate::parameters::{Accepted, Description, Parameter};
use crate::subcommands::shared;

/// The text of its help after the list of its parameters.
const TEXT: &str = "\
It draws a program from a seed and prints its text, which `tsobench run` and
`tsobench replay` read. The same arguments give the same program each time.

With --schedule it prints, in place of the program, the schedule that the seed
draws for `tsobench replay` of that program: three acts for each operation, on
any processor. In most schedules some are drains: on average 1, 3 or 8 of 16
acts by the seed, in some none.

P, O and A are the shape of the program: each of its P processors has O
operations, which are loads, stores, swaps and barriers at the addresses 0 to
A - 1. P times O is at most 1,000. Each store and swap writes a value of its
own: 1, 2, 3 and so on. A shape outside the limits gets one line, REFUSED Shape.

With --model pso the program is of Partial Store Order: its text has the line
`model pso`, and a word drawn from the seed that is 31 modulo 32 makes an STBAR
in place of a barrier.

Exit status:
  0  the program or the schedule was printed
  2  the shape or the command line was refused
  4  a fault, which one line on standard error names, as FAULT OutOfMemory

Example:
  tsobench make --seed 1 --procs 2 --ops 4 --addrs 2 > PROGRAM
  tsobench make --schedule --seed 1 --procs 2 --ops 4 --addrs 2 > SCHEDULE
  tsobench replay --unit buffer PROGRAM SCHEDULE";

/// What the help says of it.
pub(crate) static HELP: Help = Help {
    about: "Prints the program that is drawn from a seed, or its schedule",
    text: TEXT,
};

/// What may stand after it.
pub(crate) static MAKE: Description = Description {
    help_option: ["make", "--help"],
    parameters: &[
        Parameter::Flag {
            name: "schedule",
            help: "Prints the schedule of the seed in place of its program",
        },
        shared::MODEL,
        Parameter::Option {
            name: "seed",
            value_name: "N",
            accepted: Accepted::Number(0, u64::MAX),
            default: None,
            help: "The seed of the program, 0 to 18446744073709551615",
        },
        shared::PROCESSORS,
        shared::OPERATIONS,
        shared::ADDRESSES,
    ],
};
