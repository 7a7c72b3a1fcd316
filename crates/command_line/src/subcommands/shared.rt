//! Parameters that several subcommands have. Some of their texts of help tell limits.

use crate::options::{MAX_CAPACITY, MAX_DRAIN_TURNS, MAX_REQUESTED_WORKERS};
use crate::parameters::{Accepted, NameList, Parameter};

/// `--workers N`.
pub(crate) const WORKERS: Parameter = Parameter::Option {
    name: "workers",
    value_name: "N",
    accepted: Accepted::Number(1, MAX_REQUESTED_WORKERS as u64),
    default: Some("1"),
    help: "How many workers judge, 1 to 64",
};

const _: () = prove!(MAX_REQUESTED_WORKERS == 64);

/// `--nth K`.
pub(crate) const NTH: Parameter = Parameter::Optional {
    name: "nth",
    value_name: "K",
    accepted: Accepted::Number(1, u64::MAX),
    help: "Which of the traces that stand one after the other, from 1",
};

/// `--decide`.
pub(crate) const DECIDE: Parameter = Parameter::Flag {
    name: "decide",
    help: "Decides, as tsobench decide does, in place of judging",
};

/// `--effort N`, of a decision.
pub(crate) const EFFORT: Parameter = Parameter::Option {
    name: "effort",
    value_name: "N",
    accepted: Accepted::Number(0, u64::MAX),
    default: Some("100000"),
    help: "How many steps the search for a decision does, at most",
};

/// `[FILE]`, with a trace.
pub(crate) const TRACE_FILE: Parameter = Parameter::Other {
    name: "file",
    value_name: "FILE",
    required: false,
    help: "The text of a trace; standard input where it is - or left out",
};

/// `--unit UNIT`.
pub(crate) const UNIT: Parameter = Parameter::Option {
    name: "unit",
    value_name: "UNIT",
    accepted: Accepted::Name(NameList::Units),
    default: None,
    help: "Which memory unit runs the program",
};

/// `--capacity C`.
pub(crate) const CAPACITY: Parameter = Parameter::Option {
    name: "capacity",
    value_name: "C",
    accepted: Accepted::Number(1, MAX_CAPACITY as u64),
    default: Some("8"),
    help: "How many stores each store buffer of the unit holds, 1 to 64",
};

const _: () = prove!(MAX_CAPACITY == 64);

/// `--trigger T`.
pub(crate) const TRIGGER: Parameter = Parameter::Option {
    name: "trigger",
    value_name: "T",
    accepted: Accepted::Number(1, u64::MAX),
    default: Some("1"),
    help: "From which occasion on a faulty unit deviates, from 1",
};

/// `--trace`.
pub(crate) const TRACE: Parameter = Parameter::Flag {
    name: "trace",
    help: "Prints the recorded trace alone",
};

/// `--explain`.
pub(crate) const EXPLAIN: Parameter = Parameter::Flag {
    name: "explain",
    help: "Prints the explanation of the verdict alone",
};

/// `--with-trace`.
pub(crate) const WITH_TRACE: Parameter = Parameter::Flag {
    name: "with-trace",
    help: "Prints the recorded trace after the report or the explanation",
};

/// `--drain-turns T`.
pub(crate) const DRAIN_TURNS: Parameter = Parameter::Option {
    name: "drain-turns",
    value_name: "T",
    accepted: Accepted::Number(0, MAX_DRAIN_TURNS),
    default: Some("0"),
    help: "How many turns a drainer takes beside the processors, 0 to 1000000",
};

const _: () = prove!(MAX_DRAIN_TURNS == 1_000_000);

/// `--verbose`.
pub(crate) const VERBOSE: Parameter = Parameter::Flag {
    name: "verbose",
    help: "Names the file and the reason after FAULT Read",
};

/// `--progress`.
pub(crate) const PROGRESS: Parameter = Parameter::Flag {
    name: "progress",
    help: "Tells on standard error, at most once a second, how much is done",
};

/// `--model MODEL`.
pub(crate) const MODEL: Parameter = Parameter::Option {
    name: "model",
    value_name: "MODEL",
    accepted: Accepted::Name(NameList::Models),
    default: Some("tso"),
    help: "The memory model of the program, tso or pso",
};

/// `--procs P`.
pub(crate) const PROCESSORS: Parameter = Parameter::Option {
    name: "procs",
    value_name: "P",
    accepted: Accepted::Number(0, u64::MAX),
    default: None,
    help: "How many processors the program has, 1 to 16",
};

/// `--ops O`.
pub(crate) const OPERATIONS: Parameter = Parameter::Option {
    name: "ops",
    value_name: "O",
    accepted: Accepted::Number(0, u64::MAX),
    default: None,
    help: "How many operations each processor has, at most 1000 over all",
};

/// `--addrs A`.
pub(crate) const ADDRESSES: Parameter = Parameter::Option {
    name: "addrs",
    value_name: "A",
    accepted: Accepted::Number(0, u64::MAX),
    default: None,
    help: "How many addresses are drawn from, 1 to 256",
};
