//! What the program is for and the text of its help, and the texts of refusals.

/// What help says of a command. Its texts stand apart from what is proved of the command.
#[derive(Clone, Copy)]
pub(crate) struct Help {
    /// What it does, in a line.
    pub(crate) about: &'static str,
    /// The text after the list of its parameters.
    pub(crate) text: &'static str,
}

/// What help says of the program.
pub(crate) fn of_program() -> &'static Help {
    &PROGRAM
}

/// Of the program.
static PROGRAM: Help = Help {
    about: "Judges traces of multiprocessor memory operations against the SPARC memory models TSO and PSO",
    text: TEXT,
};

/// After its list of subcommands.
const TEXT: &str = "\
Without arguments it judges the trace on standard input, with one worker. In
place of a file - stands for standard input; a file of that name is ./-.

A trace says what each processor loaded, stored and swapped, and the values
that it read:

  tso trace 1
  proc
  st 1 1
  ld 1 1
  end

Its second line may be `model pso`, for Partial Store Order: else the trace is
judged against Total Store Order. Of version 2, `tso trace 2`, it may have
8,000 events in place of 2,000, and lines as `init 1 7` say what memory has at
first.

Where `tsobench judge` finds no violation there may be one. `tsobench decide`
looks on, for an order that meets the axioms of the memory model or for a proof
that there is none; `tsobench verify` checks either. `tsobench outcomes` lists
what all runs of a program leave.

Exit status:
  0  no violation was found, which proves nothing, or the trace is consistent
  1  no violation was found, and not all of a log was judged, or a search by
     cases ended early, or a trace under PSO is of no run, or batch judged fewer
     traces than --require says
  2  a text or the command line was refused
  3  the trace violates its memory model, or the certificate or refutation holds
  4  a fault, which one line on standard error names

Example:
  tsobench < TRACE";

/// The refusal of two texts on standard input.
pub(crate) const TWO_INPUTS: &str = "\
error: one of the two files may be '-', and not both: standard input is read once

For more information, try '--help'.
";

/// The refusal of several files on standard input.
pub(crate) const SEVERAL_INPUTS: &str = "\
error: one of the files may be '-', and no more: standard input is read once

For more information, try '--help'.
";

/// The refusal of more runs than one whose traces aren't printed.
pub(crate) const TIMES_WITHOUT_TRACE: &str = "\
error: the argument '--times <N>' needs '--trace' where N is more than 1

For more information, try '--help'.
";

/// The refusal of `--states` with `--seen`.
pub(crate) const STATES_SEEN: &str = "\
error: the argument '--states' cannot be used with '--seen <STREAM>'

For more information, try '--help'.
";

/// The refusal of `--decide` with `--edges field`.
pub(crate) const DECIDED_FIELD: &str = "\
error: the argument '--edges field' cannot be used with '--decide'

For more information, try '--help'.
";

/// The refusal of `--log` with `--nth`.
pub(crate) const NUMBERED_LOG: &str = "\
error: the argument '--log' cannot be used with '--nth <K>'

For more information, try '--help'.
";

/// The refusal of two of `--trace`, `--explain` and `--evidence`.
pub(crate) const SEVERAL_FORMS: &str = "\
error: one of '--trace', '--explain', '--evidence' and '--decide' may be used, and no more

For more information, try '--help'.
";

/// The refusal of `--trace` with `--explain`.
pub(crate) const BOTH: &str = "\
error: the argument '--trace' cannot be used with '--explain'

For more information, try '--help'.
";
