//! `verify [--log] [--nth K] [--verbose] TRACE EVIDENCE`: checks evidence of whether a trace, or a log, has an order that meets
//! the axioms of its memory model.

use crate::help::Help;
use crate::parameters::{Description, Parameter};
use crate::subcommands::shared;

/// The text of its help after the list of its parameters.
const TEXT: &str = "\
It reads the text of a trace and that of evidence on it, at most 67,108,864
bytes, as it stands in a decision of `tsobench decide` after the line CONSISTENT
or VIOLATION: an order, a line `unwritten N`, a certificate or a refutation by
cases. It prints one line:

  ORDER HOLDS       of an order: it has all events, and meets the axioms of the
                    memory model
  REFUTATION HOLDS  of the others: no order of the trace meets the axioms

or ORDER REFUSED, REFUTATION REFUSED or EVIDENCE REFUSED, with the reason and
its place. A text that is no trace gets a line as REFUSED BadLine line 3, and
the evidence isn't read. One of the two may be -, which is standard input. With
--nth K the evidence is on the K-th of the traces that stand one after the
other, as `tsobench judge` judges it.

With --log the first text is a log, of any length, and the evidence is that of
`tsobench log --evidence`, or as it stands in what `tsobench log --decide` says
after the line of the answer; --nth may not stand beside it. It prints a line as
above, and names events by lines of the log.

Exit status:
  0  the order holds: the trace or the log is consistent
  2  the trace, the log, the evidence or the command line was refused
  3  the refutation holds: the trace or the log violates its memory model
  4  a fault, which one line on standard error names, as FAULT Read

Example:
  tsobench decide TRACE | sed 1,3d > EVIDENCE
  tsobench verify TRACE EVIDENCE
  tsobench log --decide LOG | sed 1,3d > EVIDENCE
  tsobench verify --log LOG EVIDENCE";

/// What the help says of it.
pub(crate) static HELP: Help = Help {
    about: "Checks an order of a trace or a log, or evidence that there is none",
    text: TEXT,
};

/// What may stand after it.
pub(crate) static VERIFY: Description = Description {
    help_option: ["verify", "--help"],
    parameters: &[
        Parameter::Flag {
            name: "log",
            help: "Checks evidence about a log",
        },
        shared::NTH,
        shared::VERBOSE,
        Parameter::Other {
            name: "trace",
            value_name: "TRACE",
            required: true,
            help: "The text of a trace, or of a log",
        },
        Parameter::Other {
            name: "evidence",
            value_name: "EVIDENCE",
            required: true,
            help: "The text of an order, a certificate or a refutation",
        },
    ],
};
