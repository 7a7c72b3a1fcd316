//! `decide [--effort N] [--workers N] [--nth K] [--verbose] [FILE]`: decides whether a trace has an order that meets the
//! axioms of its memory model.

use crate::help::Help;
use crate::parameters::Description;
use crate::subcommands::shared;

/// The text of its help after the list of its parameters.
const TEXT: &str = "\
It reads the text of a trace, as `tsobench judge` does, and looks for an order
of all events that meets the axioms of the memory model, or for a proof that
there is none. It prints a line TSO DECISION 1, a line as processors 2 events 4,
and then one of these:

  CONSISTENT   the trace has such an order: the next line has the numbers of
               the events in it, as order 4 2 3 1
  VIOLATION    the trace has none: the lines after this one show it
  UNDECIDED N  neither was found, after N steps

After VIOLATION stands a line `unwritten N` or a certificate, as in the report
of `tsobench judge`, or a refutation by cases. It has lines as a certificate has
them, and others: `K U V Case` supposes that event U comes before event V, the
lines after it show that this can't be, and `K V U Else` says that V then comes
before U. `tsobench verify` checks the lines after CONSISTENT or VIOLATION.

The text is the same for each number of workers and in each run. A text that is
no trace gets one line, as REFUSED BadLine line 3. With --nth K it decides the
K-th of the traces that stand one after the other, as `tsobench judge` judges
it. `tsobench explain --decide` says in words what was found, and
`tsobench draw --decide` draws it; `tsobench batch --decide` decides many traces.

Exit status:
  0  the trace is consistent: it has an order that meets the axioms
  1  it is undecided whether the trace has such an order
  2  the text is no trace, or the command line was refused
  3  the trace violates its memory model: it has no such order
  4  a fault, which one line on standard error names, as FAULT Read

Example:
  tsobench decide TRACE
  tsobench decide TRACE | sed '1,/^CONSISTENT$/d' > ORDER";

/// What the help says of it.
pub(crate) static HELP: Help = Help {
    about: "Decides whether a trace has an order that its memory model allows",
    text: TEXT,
};

/// What may stand after it.
pub(crate) static DECIDE: Description = Description {
    help_option: ["decide", "--help"],
    parameters: &[
        shared::EFFORT,
        shared::WORKERS,
        shared::NTH,
        shared::VERBOSE,
        shared::TRACE_FILE,
    ],
};
