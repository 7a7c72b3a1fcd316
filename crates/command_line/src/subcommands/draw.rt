//! `draw [--edges NAMES] [--decide] [--effort N] [--workers N] [--nth K] [--verbose] [FILE]`: a picture of the verdict or the decision on a trace.

use crate::help::Help;
use crate::parameters::{Accepted, Description, NameList, Parameter};
use crate::subcommands::shared;

/// The text of its help after the list of its parameters.
const TEXT: &str = "\
It reads the text of a trace, as `tsobench judge` does, and prints a picture of
it as a text for Graphviz, whose `dot -Tsvg` makes an SVG file of it. Each
processor has a column, in program order from above. A blue edge leads from a
store to a load that read it; a load in a blue box read the first value. Of a
violation the cycle is red, and other derived edges are dashed; the number at an
edge is its step in the explanation of `tsobench explain`. Of more than 100
events only those of the violation are drawn. A text that is no trace gets one
line, as REFUSED BadLine line 3. The text is the same for each number of
workers. With --nth K it is of the K-th of the traces that stand one after the
other, as `tsobench judge` judges it.

With --edges field it draws the cycle that the first line of `tsobench explain`
names, and calls the cycle's edges po, rf, co and fr, as herd7 does: a caption
says what these are. There is no such picture of a decision.

With --decide it draws what `tsobench decide` finds, and a caption says that: of
a consistent trace the number at each event is its place in an order that its
memory model allows.

Exit status:
  0  no violation was found, which proves nothing; or a decision is CONSISTENT
  1  a decision is UNDECIDED
  2  the text is no trace, or the command line was refused
  3  the trace violates its memory model
  4  a fault, which one line on standard error names, as FAULT Read

Example:
  tsobench draw TRACE | dot -Tsvg >TRACE.svg
  tsobench draw --edges field TRACE | dot -Tsvg >FIELD.svg
  tsobench draw --decide TRACE | dot -Tsvg >ORDER.svg";

/// What the help says of it.
pub(crate) static HELP: Help = Help {
    about: "Draws a trace and why it is a violation, for Graphviz",
    text: TEXT,
};

/// What may stand after it.
pub(crate) static DRAW: Description = Description {
    help_option: ["draw", "--help"],
    parameters: &[
        Parameter::Option {
            name: "edges",
            value_name: "NAMES",
            accepted: Accepted::Name(NameList::Edges),
            default: Some("rules"),
            help: "What the edges of the cycle are called, by rules or as the field does",
        },
        shared::DECIDE,
        shared::EFFORT,
        shared::WORKERS,
        shared::NTH,
        shared::VERBOSE,
        shared::TRACE_FILE,
    ],
};
