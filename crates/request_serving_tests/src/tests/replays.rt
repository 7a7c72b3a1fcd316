//! Requests to replay and to run programs.

use super::{BAD_HEADER, Case, READ};

const RECORDED: &str = "tso trace 1\nproc\nst 1 1\nld 1 1\nend\n";

const REPLAYED: &str =
    "TSO REPORT 1\nprocessors 1 events 2 rounds 0\nNO VIOLATION FOUND\naccount loads 1 stores 1 swaps 0 membars 0 drains 1 closed\n";

/// The report of the example `pso_message_passing`, and the account.
const UNDER_PSO: &str =
    "TSO REPORT 1\nprocessors 2 events 4 rounds 1\nNO VIOLATION FOUND\naccount loads 2 stores 2 swaps 0 membars 0 drains 2 closed\n";

/// The report of the example `message_passing_stale`, and the account.
const UNDER_TSO: &str =
    "TSO REPORT 1\nprocessors 2 events 4 rounds 1\nVIOLATION\n1 init 1 Init\n2 1 2 StoreStore\n3 2 3 Read\n4 3 4 LoadOp\n5 1 init LoadPast 4 1 2 3 4\ncycle init 1\naccount loads 2 stores 2 swaps 0 membars 0 drains 2 closed\n";

/// The report and the account of the replay, and then its trace.
const REPLAYED_WITH_TRACE: &str =
    "TSO REPORT 1\nprocessors 1 events 2 rounds 0\nNO VIOLATION FOUND\naccount loads 1 stores 1 swaps 0 membars 0 drains 1 closed\ntso trace 1\nproc\nst 1 1\nld 1 1\nend\n";

/// The explanation of the replay's trace, and then that trace.
const EXPLAINED_WITH_TRACE: &str =
    "TSO REPORT 1\nprocessors 1 events 2 rounds 0\nNO VIOLATION FOUND\n\nThe rules found no contradiction in this trace.\nThat does not show that it has a memory order that TSO allows.\ntso trace 1\nproc\nst 1 1\nld 1 1\nend\n";

pub(super) static CASES: [Case; 16] = [
    (
        "replay --unit serial --workers 2 program schedule",
        None,
        "program;schedule;",
        0,
        REPLAYED,
        "",
    ),
    (
        "replay --unit serial --workers 2 --trace program schedule",
        None,
        "program;schedule;",
        0,
        RECORDED,
        "",
    ),
    (
        "replay --unit serial --workers 2 other schedule",
        None,
        "other;",
        4,
        "",
        READ,
    ),
    (
        "replay --unit serial --workers 2 trace other",
        None,
        "trace;other;",
        4,
        "",
        READ,
    ),
    (
        "replay --unit serial --workers 2 trace schedule",
        None,
        "trace;schedule;",
        2,
        BAD_HEADER,
        "",
    ),
    (
        "replay --unit serial --workers 2 --trace program trace",
        None,
        "program;trace;",
        2,
        BAD_HEADER,
        "",
    ),
    // a schedule on standard input isn't read where the program is refused; a program is read first
    (
        "replay --unit serial --workers 2 trace -",
        None,
        "trace;",
        2,
        BAD_HEADER,
        "",
    ),
    (
        "replay --unit serial --workers 2 program -",
        None,
        "program;",
        4,
        "",
        READ,
    ),
    (
        "replay --unit serial --workers 2 - schedule",
        None,
        "schedule;",
        4,
        "",
        READ,
    ),
    (
        "run --unit serial --workers 2 --seed 1 -",
        None,
        "",
        4,
        "",
        READ,
    ),
    // the unit `partial` drains the second store first, which PSO allows and TSO does not
    (
        "replay --unit partial --workers 2 pso_stores one_drain",
        None,
        "pso_stores;one_drain;",
        0,
        UNDER_PSO,
        "",
    ),
    (
        "replay --unit partial --workers 2 tso_stores one_drain",
        None,
        "tso_stores;one_drain;",
        3,
        UNDER_TSO,
        "",
    ),
    // the recorded trace follows the report or the explanation; it isn't printed twice
    (
        "replay --unit serial --workers 2 --with-trace program schedule",
        None,
        "program;schedule;",
        0,
        REPLAYED_WITH_TRACE,
        "",
    ),
    (
        "replay --unit serial --workers 2 --explain --with-trace program schedule",
        None,
        "program;schedule;",
        0,
        EXPLAINED_WITH_TRACE,
        "",
    ),
    (
        "replay --unit serial --workers 2 --trace --with-trace program schedule",
        None,
        "program;schedule;",
        0,
        RECORDED,
        "",
    ),
    // on one processor a run records what a replay does
    (
        "run --unit serial --workers 2 --seed 1 --explain --with-trace program",
        None,
        "program;",
        0,
        EXPLAINED_WITH_TRACE,
        "",
    ),
];
