//! `check [--nth K] TRACE CERT`: checks a certificate against its trace.

use crate::help::Help;
use crate::parameters::{Description, Parameter};
use crate::subcommands::shared;

/// The text of its help after the list of its parameters.
const TEXT: &str = "\
It reads the text of a trace and that of a certificate, at most 67,108,864
bytes, as it stands in a report after the line VIOLATION. It prints one line:
CERTIFICATE HOLDS, which proves that no order of the trace meets its memory
model, or CERTIFICATE REFUSED and why. A text that is no trace gets a line as
REFUSED BadLine line 3, and the certificate isn't read. Both files are opened
before one is read. One of the two may be -, which is standard input. With
--nth K the certificate is that of the K-th of the traces that stand one after
the other, as `tsobench judge` judges it.

Exit status:
  2  the trace, the certificate or the command line was refused
  3  the certificate holds: the trace violates its memory model
  4  a fault, which one line on standard error names, as FAULT Read

Example:
  tsobench judge TRACE | sed '1,/^VIOLATION$/d' > CERT
  tsobench check TRACE CERT";

/// What the help says of it.
pub(crate) static HELP: Help = Help {
    about: "Checks a certificate of a violation against its trace",
    text: TEXT,
};

/// What may stand after it.
pub(crate) static CHECK: Description = Description {
    help_option: ["check", "--help"],
    parameters: &[
        shared::NTH,
        shared::VERBOSE,
        Parameter::Other {
            name: "trace",
            value_name: "TRACE",
            required: true,
            help: "The text of a trace",
        },
        Parameter::Other {
            name: "cert",
            value_name: "CERT",
            required: true,
            help: "The text of a certificate",
        },
    ],
};
