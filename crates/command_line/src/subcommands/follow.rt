//! `follow [--most K] [--explain] [--format FORMAT] [--ended] [--fail-fast] [--progress] [--verbose] [LOG]`: follows a run that says its own order.

use crate::help::Help;
use crate::options::MAX_LOG_VIOLATIONS;
use crate::parameters::{Accepted, Description, NameList, Parameter};
use crate::subcommands::shared;

/// The text of its help after the list of its parameters.
const TEXT: &str = "\
It reads a log in which a machine also says when its stores reach memory, and
says whether the lines, one after the other, are steps of the store-buffer
machine. Values may repeat. Each line is of a processor P, 0 to 4095:

  P st A V      it issued a store of V to address A, which waits
  P dr          its oldest waiting store reached memory; with A the oldest at A,
                and with A V that had the value V
  P wr A V      it issued a store that reached memory at once
  P ld A V      it loaded V from address A, at this point
  P sw A R V    it swapped: it loaded R from address A and stored V there
  P lr A V      a load that reserves A
  P sc A V      a store on that reservation, which reached memory at once
  P mb          MEMBAR #StoreLoad
  P stbar       STBAR
  P un A        something else changed A: nothing is known of it until a store
                reaches it
  P last A V    A holds V now, as memory is read out at the end

Numbers are decimal or hexadecimal, as 0x1f, of 64 bits. A/N in place of A is of
the N bytes from A on, the lowest first, N being 1, 2, 4 or 8: all places of a
text have a width, or none. A line may end with ` #` and any text, which the
report repeats; a line that begins with # says nothing. `model pso` may come
first, for Partial Store Order; then lines `init A V`, which say what memory has
at first: 0 at all other addresses. A last line `end` says that the log is
whole; with --ended a log without it is refused, as one that was cut off.

The report says RUN HOLDS or RUN REFUSED. Of each line that is no step it says
why, as refusal 1 Value, and repeats the line and those that show it:

  Value          the machine has another value, which is from these lines
  Waiting        this store of the processor still waits
  Order          a store reaches memory before one that it must not pass
  NothingWaits   no such store waits
  Reservation    the reservation was lost by this store
  NoReservation  there is no reservation that has the address

With --explain a sentence says the same of each refusal. With --format json the
report is one object of JSON: its numbers, a list `shown` of the refusals with
what shows them, and `refusals`, how many there are in all.

With --fail-fast the report comes at the first such line, and nothing more is
read. Where no value was compared, a line NOTHING COMPARED follows. If the text
is none of this form, a line says so, as REFUSED BadLine line 3.

Exit status:
  0  each line is a step
  1  each line is a step, and no value was compared
  2  the text is none of this form, or the command line was refused
  3  a line is no step
  4  a fault, which one line on standard error names, as FAULT Read

Example:
  simulator | tsobench follow --fail-fast";

/// What the help says of it.
pub(crate) static HELP: Help = Help {
    about: "Follows a run that says when its stores reach memory",
    text: TEXT,
};

/// What may stand after it.
pub(crate) static FOLLOW: Description = Description {
    help_option: ["follow", "--help"],
    parameters: &[
        Parameter::Option {
            name: "most",
            value_name: "K",
            accepted: Accepted::Number(1, MAX_LOG_VIOLATIONS as u64),
            default: Some("10"),
            help: "How many refusals are shown at most, 1 to 1000000",
        },
        Parameter::Flag {
            name: "explain",
            help: "Explains each refusal in a sentence",
        },
        Parameter::Option {
            name: "format",
            value_name: "FORMAT",
            accepted: Accepted::Name(NameList::RunFormats),
            default: Some("words"),
            help: "How the report is written, words or json",
        },
        Parameter::Flag {
            name: "ended",
            help: "Refuses a log that does not end with a line `end`",
        },
        Parameter::Flag {
            name: "fail-fast",
            help: "Ends at the first line that is no step",
        },
        shared::PROGRESS,
        shared::VERBOSE,
        Parameter::Other {
            name: "file",
            value_name: "LOG",
            required: false,
            help: "The text of a run; standard input where it is - or left out",
        },
    ],
};

const _: () = prove!(MAX_LOG_VIOLATIONS == 1_000_000);
