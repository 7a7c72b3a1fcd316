//! `explain [--decide] [--effort N] [--workers N] [--nth K] [--verbose] [FILE]`: explains the verdict or the decision on a trace.

use crate::help::Help;
use crate::parameters::Description;
use crate::subcommands::shared;

/// The text of its help after the list of its parameters.
const TEXT: &str = "\
It reads the text of a trace, as `tsobench judge` does, and prints its report up
to the verdict. Of a violation it says then what can't be: the events that would
have to stand each before the next and the last before the first, why each of
these has to hold, and where the events stand in the text; or which load read a
value that nothing wrote, and what is stored to its address. Of a text that is
no trace it shows the line and says what a line has to be. The text is the same
for each number of workers. With --nth K it is of the K-th of the traces that
stand one after the other, as `tsobench judge` judges it.

With --decide it explains what `tsobench decide` finds: of a consistent trace the
events in an order that its memory model allows, with the store that each load
read; of a violation without such a cycle the cases, each of which leads to one.

Exit status:
  0  no violation was found, which proves nothing; or a decision is CONSISTENT
  1  a decision is UNDECIDED
  2  the text is no trace, or the command line was refused
  3  the trace violates its memory model
  4  a fault, which one line on standard error names, as FAULT Read

Example:
  tsobench explain TRACE
  tsobench explain --decide TRACE";

/// What the help says of it.
pub(crate) static HELP: Help = Help {
    about: "Explains in words why a trace is a violation",
    text: TEXT,
};

/// What may stand after it.
pub(crate) static EXPLAIN: Description = Description {
    help_option: ["explain", "--help"],
    parameters: &[
        shared::DECIDE,
        shared::EFFORT,
        shared::WORKERS,
        shared::NTH,
        shared::VERBOSE,
        shared::TRACE_FILE,
    ],
};
