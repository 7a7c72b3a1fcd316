//! `judge [--workers N] [--nth K] [FILE]`: judges a trace.

use crate::help::Help;
use crate::parameters::Description;
use crate::subcommands::shared;

/// The text of its help after the list of its parameters.
const TEXT: &str = "\
It reads the text of a trace, at most 1,048,576 bytes, and prints its report:
two lines with the numbers of processors, events and rounds, and then
NO VIOLATION FOUND, or VIOLATION and the certificate, which `tsobench check`
can check. A text that is no trace gets one line, as REFUSED BadLine line 3.
The report is the same for each number of workers. With --nth K it judges the
K-th of the traces that stand one after the other, each ended by its line `end`,
as `tsobench batch` numbers them: one line, REFUSED Nth, says that there are
fewer, with status 2. That no violation was found proves nothing about the
trace: `tsobench decide` can show whether it has an order that meets the axioms
of its memory model.

Exit status:
  0  no violation was found, which proves nothing about the trace
  2  the text is no trace, or the command line was refused
  3  the trace violates its memory model
  4  a fault, which one line on standard error names, as FAULT Read

Example:
  tsobench judge --workers 4 TRACE";

/// What the help says of it.
pub(crate) static HELP: Help = Help {
    about: "Judges a trace and prints its report",
    text: TEXT,
};

/// What may stand after it.
pub(crate) static JUDGE: Description = Description {
    help_option: ["judge", "--help"],
    parameters: &[
        shared::WORKERS,
        shared::NTH,
        shared::VERBOSE,
        shared::TRACE_FILE,
    ],
};
