//! Requests to decide on traces, and to verify evidence on them.

use super::{BAD_HEADER, Case, FEWER, READ};
use evidence_for_tests::{BUFFERING, BUFFERING_ORDER, TWELVE_EVENTS};

const UNDECIDED: &str = "TSO DECISION 1\nprocessors 4 events 12\nUNDECIDED 0\n";

const UNDECIDED_LINES: &str =
    "trace 1 UNDECIDED 0\ntraces 1 consistent 0 violations 0 undecided 1 refused 0\n";

const DECIDED_LINES: &str =
    "trace 1 VIOLATION\ntraces 1 consistent 0 violations 1 undecided 0 refused 0\n";

const ORDER_HOLDS: &str = "ORDER HOLDS\n";

const REFUTATION_HOLDS: &str = "REFUTATION HOLDS\n";

pub(super) static CASES: [Case; 20] = [
    // two stores of a processor have one order
    (
        "decide --nth 1 two_stores",
        Some(""),
        "two_stores;",
        0,
        "TSO DECISION 1\nprocessors 1 events 2\nCONSISTENT\norder 1 2\n",
        "",
    ),
    (
        "decide --nth 2 --workers 2 two_stores",
        Some(""),
        "two_stores;",
        3,
        "TSO DECISION 1\nprocessors 1 events 1\nVIOLATION\nunwritten 1\n",
        "",
    ),
    (
        "decide --nth 3 two_stores",
        Some(""),
        "two_stores;",
        2,
        BAD_HEADER,
        "",
    ),
    (
        "decide --nth 4 two_stores",
        Some(""),
        "two_stores;",
        2,
        FEWER,
        "",
    ),
    (
        "decide two_stores",
        Some(""),
        "two_stores;",
        2,
        "REFUSED AfterEnd line 6\n",
        "",
    ),
    (
        "decide --effort 0",
        Some(TWELVE_EVENTS),
        "",
        1,
        UNDECIDED,
        "",
    ),
    (
        "decide --effort 0 twelve",
        Some(""),
        "twelve;",
        1,
        UNDECIDED,
        "",
    ),
    ("decide missing", Some(""), "missing;", 4, "", READ),
    (
        "batch --decide --effort 0 twelve",
        Some(""),
        "twelve;",
        1,
        UNDECIDED_LINES,
        "",
    ),
    (
        "batch --decide twelve",
        Some(""),
        "twelve;",
        3,
        DECIDED_LINES,
        "",
    ),
    (
        "verify buffering order",
        Some(""),
        "buffering;order;",
        0,
        ORDER_HOLDS,
        "",
    ),
    (
        "verify - order",
        Some(BUFFERING),
        "order;",
        0,
        ORDER_HOLDS,
        "",
    ),
    (
        "verify buffering -",
        Some(BUFFERING_ORDER),
        "buffering;",
        0,
        ORDER_HOLDS,
        "",
    ),
    (
        "verify twelve refutation",
        Some(""),
        "twelve;refutation;",
        3,
        REFUTATION_HOLDS,
        "",
    ),
    (
        "verify --nth 2 two_stores certificate",
        Some(""),
        "two_stores;certificate;",
        3,
        REFUTATION_HOLDS,
        "",
    ),
    (
        "verify --nth 1 two_stores certificate",
        Some(""),
        "two_stores;certificate;",
        2,
        "REFUTATION REFUSED NotUnwritten\n",
        "",
    ),
    (
        "verify buffering two_stores",
        Some(""),
        "buffering;two_stores;",
        2,
        "EVIDENCE REFUSED BadLine line 1\n",
        "",
    ),
    (
        "verify --nth 3 two_stores order",
        Some(""),
        "two_stores;order;",
        2,
        BAD_HEADER,
        "",
    ),
    (
        "verify --nth 4 two_stores order",
        Some(""),
        "two_stores;order;",
        2,
        FEWER,
        "",
    ),
    (
        "verify buffering missing",
        Some(""),
        "buffering;missing;",
        4,
        "",
        READ,
    ),
];
