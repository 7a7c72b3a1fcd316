//! What is printed of logs, worked out by hand.

use super::{Case, EVIDENCE, LINES, TRACES};
use request_options::{LogForm, LogOptions};
use trace_reports::Answer;

const FIRST: LogOptions = LogOptions {
    most: 1,
    effort: 100,
    max_unknown: 100,
    needs_end: false,
    form: LogForm::Lines,
};

const UNSEARCHED: LogOptions = LogOptions {
    most: 10,
    effort: 0,
    max_unknown: 100,
    needs_end: false,
    form: LogForm::Lines,
};

const EXPLAINED: LogOptions = LogOptions {
    most: 10,
    effort: 100,
    max_unknown: 100,
    needs_end: false,
    form: LogForm::Explained,
};

const HALF_UNKNOWN: LogOptions = LogOptions {
    most: 10,
    effort: 100,
    max_unknown: 50,
    needs_end: false,
    form: LogForm::Lines,
};

const LESS_UNKNOWN: LogOptions = LogOptions {
    most: 10,
    effort: 100,
    max_unknown: 49,
    needs_end: false,
    form: LogForm::Lines,
};

pub(super) static CASES: [Case; 31] = [
    // places with widths: data of two bytes that are read one by one
    (
        LINES,
        "0 st 0/2 513 # data\n0 st 4/1 1\n1 ld 4/1 1\n1 ld 1/1 0\n",
        Answer::Violation,
        "TSO LOG 1\nprocessors 2 operations 5 loads 2 unknown 0 left 0\nsplit 1\nVIOLATION\nviolation 1\nline 1 0 st 0/2 513 # data\nline 2 0 st 4/1 1\nline 3 1 ld 4/1 1\nline 4 1 ld 1/1 0\nviolations 1\n",
        "",
    ),
    // all pieces of a load, and a swap, on one line each
    (
        LINES,
        "0 ld 8/2 770\n0 st 8/1 1\n0 sw 9/1 0 4\n",
        Answer::Violation,
        "TSO LOG 1\nprocessors 1 operations 4 loads 3 unknown 0 left 0\nsplit 1\nVIOLATION\nviolation 1\nline 1 0 ld 8/2 770\nstored 1 first 1 line 2 last 1 line 2\nviolation 2\nline 1 0 ld 8/2 770\nstored 1 first 4 line 3 last 4 line 3\nviolations 2\n",
        "",
    ),
    // two violations that have no load in common
    (
        LINES,
        "0 st 1 1\n0 st 2 2\n1 ld 2 2\n1 ld 1 0\n2 st 3 3\n2 st 4 4\n3 ld 4 4\n3 ld 3 0\n",
        Answer::Violation,
        "TSO LOG 1\nprocessors 4 operations 8 loads 4 unknown 0 left 0\nVIOLATION\nviolation 1\nline 1 0 st 1 1\nline 2 0 st 2 2\nline 3 1 ld 2 2\nline 4 1 ld 1 0\nviolation 2\nline 5 2 st 3 3\nline 6 2 st 4 4\nline 7 3 ld 4 4\nline 8 3 ld 3 0\nviolations 2\n",
        "",
    ),
    // first values
    (
        LINES,
        "init 1 5\ninit 2 5\n0 st 1 6\n0 st 2 7\n1 ld 2 7\n1 ld 1 5\n",
        Answer::Violation,
        "TSO LOG 1\nprocessors 2 operations 4 loads 2 unknown 0 left 0\nVIOLATION\nviolation 1\nline 3 0 st 1 6\nline 4 0 st 2 7\nline 5 1 ld 2 7\nline 6 1 ld 1 5\nviolations 1\n",
        "",
    ),
    // stores that PSO leaves without an order
    (
        LINES,
        "model pso\n0 st 1 6\n0 st 2 7\n1 ld 2 7\n1 ld 1 0\n",
        Answer::Clear,
        "TSO LOG 1\nprocessors 2 operations 4 loads 2 unknown 0 left 0\nNO VIOLATION FOUND\n",
        "",
    ),
    // stores that a barrier orders
    (
        LINES,
        "model pso\n0 st 1 6\n0 stbar\n0 st 2 7\n1 ld 2 7\n1 ld 1 0\n",
        Answer::Violation,
        "TSO LOG 1\nprocessors 2 operations 5 loads 2 unknown 0 left 0\nVIOLATION\nviolation 1\nline 2 0 st 1 6\nline 3 0 stbar\nline 4 0 st 2 7\nline 5 1 ld 2 7\nline 6 1 ld 1 0\nviolations 1\n",
        "",
    ),
    // a swap of which the store counts
    (
        LINES,
        "0 st 1 5\n0 sw 2 0 6\n1 ld 2 6\n1 ld 1 0\n2 st 2 0\n",
        Answer::Violation,
        "TSO LOG 1\nprocessors 3 operations 5 loads 3 unknown 1 left 0\nVIOLATION\nviolation 1\nline 1 0 st 1 5\nline 2 0 sw 2 0 6\nline 3 1 ld 2 6\nline 4 1 ld 1 0\nviolations 1\n",
        "",
    ),
    // no operation
    (
        LINES,
        "",
        Answer::Undecided,
        "TSO LOG 1\nprocessors 0 operations 0 loads 0 unknown 0 left 0\nNO VIOLATION FOUND\nNOTHING JUDGED\n",
        "",
    ),
    // no log
    (
        LINES,
        "0 mb\n0 st 1\n",
        Answer::Refused,
        "REFUSED BadLine line 2\n",
        "",
    ),
    // 17 processors, more than a trace has
    (
        LINES,
        "0 st 100 1\n0 st 1 1\n1 ld 1 1\n1 st 2 1\n2 ld 2 1\n2 st 3 1\n3 ld 3 1\n3 st 4 1\n4 ld 4 1\n4 st 5 1\n5 ld 5 1\n5 st 6 1\n6 ld 6 1\n6 st 7 1\n7 ld 7 1\n7 st 8 1\n8 ld 8 1\n8 st 9 1\n9 ld 9 1\n9 st 10 1\n10 ld 10 1\n10 st 11 1\n11 ld 11 1\n11 st 12 1\n12 ld 12 1\n12 st 13 1\n13 ld 13 1\n13 st 14 1\n14 ld 14 1\n14 st 15 1\n15 ld 15 1\n15 st 16 1\n16 ld 16 1\n16 ld 100 0\n",
        Answer::Undecided,
        "TSO LOG 1\nprocessors 17 operations 34 loads 17 unknown 0 left 0\nNO VIOLATION FOUND\nNOT ALL JUDGED\nunjudged 1\nline 1 0 st 100 1\nline 2 0 st 1 1\nline 3 1 ld 1 1\nline 4 1 st 2 1\nline 5 2 ld 2 1\nline 6 2 st 3 1\nline 7 3 ld 3 1\nline 8 3 st 4 1\nline 9 4 ld 4 1\nline 10 4 st 5 1\nline 11 5 ld 5 1\nline 12 5 st 6 1\nline 13 6 ld 6 1\nline 14 6 st 7 1\nline 15 7 ld 7 1\nline 16 7 st 8 1\nline 17 8 ld 8 1\nline 18 8 st 9 1\nline 19 9 ld 9 1\nline 20 9 st 10 1\nline 21 10 ld 10 1\nline 22 10 st 11 1\nline 23 11 ld 11 1\nline 24 11 st 12 1\nline 25 12 ld 12 1\nline 26 12 st 13 1\nline 27 13 ld 13 1\nline 28 13 st 14 1\nline 29 14 ld 14 1\nline 30 14 st 15 1\nline 31 15 ld 15 1\nline 32 15 st 16 1\nline 33 16 ld 16 1\nline 34 16 ld 100 0\n",
        "",
    ),
    // a load of what nothing wrote to an address without stores, before the violations that are found
    (
        LINES,
        "0 ld 6 4\n0 st 1 1\n0 st 2 2\n1 ld 2 2\n1 ld 1 0\n2 st 3 3\n2 st 4 4\n3 ld 4 4\n3 ld 3 0\n",
        Answer::Violation,
        "TSO LOG 1\nprocessors 4 operations 9 loads 5 unknown 0 left 0\nVIOLATION\nviolation 1\nline 1 0 ld 6 4\nstored 0\nviolation 2\nline 2 0 st 1 1\nline 3 0 st 2 2\nline 4 1 ld 2 2\nline 5 1 ld 1 0\nviolation 3\nline 6 2 st 3 3\nline 7 2 st 4 4\nline 8 3 ld 4 4\nline 9 3 ld 3 0\nviolations 3\n",
        "",
    ),
    // one with three stores to its address, the first and the last by their lines
    (
        LINES,
        "0 st 5 1\n1 st 5 2\n0 st 5 3\n1 ld 5 9\n",
        Answer::Violation,
        "TSO LOG 1\nprocessors 2 operations 4 loads 1 unknown 0 left 0\nVIOLATION\nviolation 1\nline 4 1 ld 5 9\nstored 3 first 1 line 1 last 3 line 3\nviolations 1\n",
        "",
    ),
    // the traces of violations: of two
    (
        TRACES,
        "0 st 1 1\n0 st 2 2\n1 ld 2 2\n1 ld 1 0\n2 st 3 3\n2 st 4 4\n3 ld 4 4\n3 ld 3 0\n",
        Answer::Violation,
        "tso trace 2\nproc\nst 0 1\nst 1 2\nproc\nld 1 2\nld 0 0\nend\ntso trace 2\nproc\nst 0 1\nst 1 2\nproc\nld 1 2\nld 0 0\nend\n",
        "trace 1 line 1 2 3 4\ntrace 2 line 5 6 7 8\n",
    ),
    // of a load of what nothing wrote, under either model, such a load alone
    (
        TRACES,
        "0 st 5 1\n1 st 5 2\n0 st 5 3\n1 ld 5 9\n",
        Answer::Violation,
        "tso trace 2\nproc\nld 0 1\nend\n",
        "trace 1 line 4\n",
    ),
    (
        TRACES,
        "model pso\n0 ld 5 9\n",
        Answer::Violation,
        "tso trace 2\nmodel pso\nproc\nld 0 1\nend\n",
        "trace 1 line 2\n",
    ),
    // what more than 16 processors did has none
    (
        TRACES,
        "0 st 100 1\n0 st 1 1\n1 ld 1 1\n1 st 2 1\n2 ld 2 1\n2 st 3 1\n3 ld 3 1\n3 st 4 1\n4 ld 4 1\n4 st 5 1\n5 ld 5 1\n5 st 6 1\n6 ld 6 1\n6 st 7 1\n7 ld 7 1\n7 st 8 1\n8 ld 8 1\n8 st 9 1\n9 ld 9 1\n9 st 10 1\n10 ld 10 1\n10 st 11 1\n11 ld 11 1\n11 st 12 1\n12 ld 12 1\n12 st 13 1\n13 ld 13 1\n13 st 14 1\n14 ld 14 1\n14 st 15 1\n15 ld 15 1\n15 st 16 1\n16 ld 16 1\n16 ld 100 0\n",
        Answer::Undecided,
        "",
        "unjudged, past the limits of a trace 1\nNOT ALL JUDGED\n",
    ),
    // the first of each kind of three violations
    (
        FIRST,
        "0 ld 6 4\n0 st 1 1\n0 st 2 2\n1 ld 2 2\n1 ld 1 0\n2 st 3 3\n2 st 4 4\n3 ld 4 4\n3 ld 3 0\n",
        Answer::Violation,
        "TSO LOG 1\nprocessors 4 operations 9 loads 5 unknown 0 left 0\nVIOLATION\nviolation 1\nline 1 0 ld 6 4\nstored 0\nviolation 2\nline 2 0 st 1 1\nline 3 0 st 2 2\nline 4 1 ld 2 2\nline 5 1 ld 1 0\nviolations 2 of more\n",
        "",
    ),
    // one of each kind, and no more
    (
        FIRST,
        "0 ld 6 4\n0 st 1 1\n0 st 2 2\n1 ld 2 2\n1 ld 1 0\n",
        Answer::Violation,
        "TSO LOG 1\nprocessors 2 operations 5 loads 3 unknown 0 left 0\nVIOLATION\nviolation 1\nline 1 0 ld 6 4\nstored 0\nviolation 2\nline 2 0 st 1 1\nline 3 0 st 2 2\nline 4 1 ld 2 2\nline 5 1 ld 1 0\nviolations 2\n",
        "",
    ),
    // two loads of what nothing wrote, and one of them
    (
        FIRST,
        "0 ld 6 4\n1 ld 6 5\n",
        Answer::Violation,
        "TSO LOG 1\nprocessors 2 operations 2 loads 2 unknown 0 left 0\nVIOLATION\nviolation 1\nline 1 0 ld 6 4\nstored 0\nviolations 1 of more\n",
        "",
    ),
    // one load, of a value that is the first one and a stored one
    (
        LINES,
        "0 st 1 0\n1 ld 1 0\n",
        Answer::Undecided,
        "TSO LOG 1\nprocessors 2 operations 2 loads 1 unknown 1 left 0\nNO VIOLATION FOUND\nNOTHING JUDGED\n",
        "",
    ),
    // nothing but operations where something unknown was done
    (
        LINES,
        "0 st 1 5\n1 ld 1 5\n1 un 1\n1 mb\n",
        Answer::Undecided,
        "TSO LOG 1\nprocessors 2 operations 1 loads 0 unknown 0 left 2\nNO VIOLATION FOUND\nNOTHING JUDGED\n",
        "",
    ),
    // an unknown load of two, where no more than half may be, and where fewer may
    (
        HALF_UNKNOWN,
        "0 st 1 0\n1 ld 1 0\n1 ld 2 0\n",
        Answer::Clear,
        "TSO LOG 1\nprocessors 2 operations 3 loads 2 unknown 1 left 0\nNO VIOLATION FOUND\n",
        "",
    ),
    (
        LESS_UNKNOWN,
        "0 st 1 0\n1 ld 1 0\n1 ld 2 0\n",
        Answer::Undecided,
        "TSO LOG 1\nprocessors 2 operations 3 loads 2 unknown 1 left 0\nNO VIOLATION FOUND\nTOO MANY UNKNOWN\n",
        "",
    ),
    // a violation beside it
    (
        LESS_UNKNOWN,
        "0 st 1 0\n1 ld 1 0\n1 ld 2 9\n",
        Answer::Violation,
        "TSO LOG 1\nprocessors 2 operations 3 loads 2 unknown 1 left 0\nVIOLATION\nTOO MANY UNKNOWN\nviolation 1\nline 3 1 ld 2 9\nstored 0\nviolations 1\n",
        "",
    ),
    // where the search may do nothing: loads of what nothing wrote alone
    (
        UNSEARCHED,
        "0 st 1 1\n0 st 2 2\n1 ld 2 2\n1 ld 1 0\n",
        Answer::Undecided,
        "TSO LOG 1\nprocessors 2 operations 4 loads 2 unknown 0 left 0\nNO VIOLATION FOUND\nSEARCH ENDED EARLY\n",
        "",
    ),
    (
        UNSEARCHED,
        "0 ld 6 4\n0 st 1 1\n0 st 2 2\n1 ld 2 2\n1 ld 1 0\n",
        Answer::Violation,
        "TSO LOG 1\nprocessors 2 operations 5 loads 3 unknown 0 left 0\nVIOLATION\nSEARCH ENDED EARLY\nviolation 1\nline 1 0 ld 6 4\nstored 0\nviolations 1\n",
        "",
    ),
    // evidence by values: a load that its own stores leave nothing
    (
        EVIDENCE,
        "0 st 1 1\n0 st 1 2\n0 ld 1 0\n0 st 1 0\n",
        Answer::Violation,
        "nosource 3\n",
        "",
    ),
    // the same beside a violation that has none
    (
        EVIDENCE,
        "0 st 1 1\n0 st 2 2\n1 ld 2 2\n1 ld 1 0\n",
        Answer::Violation,
        "read 3 2\nin 2 3\nnosource 4\n",
        "violations without evidence by values 1\n",
    ),
    // a load that only repeats the one before
    (
        LINES,
        "0 st 1 0\n1 ld 1 0\n1 ld 1 0\n",
        Answer::Undecided,
        "TSO LOG 1\nprocessors 2 operations 3 loads 2 unknown 1 left 0\nrepeated 1\nNO VIOLATION FOUND\nNOTHING JUDGED\n",
        "",
    ),
    (
        TRACES,
        "0 st 1 0\n1 ld 1 0\n1 ld 1 0\n",
        Answer::Undecided,
        "",
        "loads that only repeat others, passed over 1\nNOTHING JUDGED\n",
    ),
    // message passing, explained, with the addresses of a real log
    (
        EXPLAINED,
        "1 ld 94231678252736 8\n1 ld 94231678252672 0\n0 st 94231678252672 7\n0 st 94231678252736 8\n",
        Answer::Violation,
        "TSO LOG 1\nprocessors 2 operations 4 loads 2 unknown 0 left 0\nVIOLATION\nviolation 1\nline 1 1 ld 94231678252736 8\nline 2 1 ld 94231678252672 0\nline 3 0 st 94231678252672 7\nline 4 0 st 94231678252736 8\n\nP1 read address 94231678252672 from before P0's store (line 3), though it had seen the later store (line 4): message passing.\n\nTSO asks for one order of all loads and stores, the memory order.\nA load sees the stores to its address that come before it in that order or earlier on its own processor.\nIt reads the last of these in that order, or the first value of its address where there is none.\nNo memory order explains this log: it would have to put each of these before the next, and the last is the first again.\n\n  the first values\n    before P0 'st 94231678252672 7' (line 3): they come before every event (step 1)\n    before the first values: P1 'ld 94231678252672 0' (line 2) sees the former, yet it read the latter (step 5)\n\nWhy each step holds, the last step first. A step rests only on steps of smaller numbers.\n\n5. P0 'st 94231678252672 7' (line 3) before the first values: a load sees the store, yet read something else.\n   P1 'ld 94231678252672 0' (line 2) sees the store, which comes before it by steps 2, 3, 4, and it read the first value of address 94231678252672.\n   A load reads the last of the stores that it sees, so what it read comes after this store.\n4. P1 'ld 94231678252736 8' (line 1) before P1 'ld 94231678252672 0' (line 2): program order; a load comes before all that follows it on its processor.\n3. P0 'st 94231678252736 8' (line 4) before P1 'ld 94231678252736 8' (line 1): the load read this store.\n   It sees the store, which is not earlier on its own processor, so the store comes before it.\n2. P0 'st 94231678252672 7' (line 3) before P0 'st 94231678252736 8' (line 4): program order; a processor keeps its stores in order.\n1. the first values before P0 'st 94231678252672 7' (line 3): they come before every event.\n\nThe events named above, by their lines in the log:\n\n  line 3: P0 'st 94231678252672 7' (line 3)\n  line 4: P0 'st 94231678252736 8' (line 4)\n  line 1: P1 'ld 94231678252736 8' (line 1) read P0 'st 94231678252736 8' (line 4)\n  line 2: P1 'ld 94231678252672 0' (line 2) read the first value of address 94231678252672\n\nviolations 1\n",
        "",
    ),
];
