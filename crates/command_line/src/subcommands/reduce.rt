//! `reduce [--nth K] [--verbose] [FILE]`: reduces a trace to a small one that shows its violation.

use crate::help::Help;
use crate::parameters::Description;
use crate::subcommands::shared;

/// The text of its help after the list of its parameters.
const TEXT: &str = "\
It reads the text of a trace, as `tsobench judge` does. Where the trace is a
violation it prints the text of a small trace that shows this: some of its
operations, with other addresses and values, which are a violation by
themselves, and of which none can be left out, unless a note on standard error
says that the search ended early; or a load of a value that nothing wrote.
Violations that differ in their names alone often give the same text: the
processors stand in the order of the least text, where there are at most six. On
standard error a line tells where each operation stands in the trace. Of a trace
without a violation it prints NO VIOLATION FOUND, and of a text that is no trace
one line, as REFUSED BadLine line 3. With --nth K it reduces the K-th of the
traces that stand one after the other, as `tsobench judge` judges it.

Exit status:
  0  no violation was found, which proves nothing about the trace
  2  the text is no trace, or the command line was refused
  3  the trace violates its memory model
  4  a fault, which one line on standard error names, as FAULT Read

Example:
  tsobench reduce TRACE | tsobench explain";

/// What the help says of it.
pub(crate) static HELP: Help = Help {
    about: "Reduces a violation to the few operations that show it",
    text: TEXT,
};

/// What may stand after it.
pub(crate) static REDUCE: Description = Description {
    help_option: ["reduce", "--help"],
    parameters: &[shared::NTH, shared::VERBOSE, shared::TRACE_FILE],
};
