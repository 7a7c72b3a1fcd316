//! Pictures of evidence, written from the definitions.

use super::Case;
use evidence_for_tests::{BUFFERING, TWELVE_EVENTS, TWELVE_REFUTED};

/// Orders, and then refutations.
pub(super) static CASES: [Case; 11] = [
    // both loads come before both stores in memory
    (
        BUFFERING,
        "order 4 2 3 1\n",
        "TSO, consistent\\lblue edge: from a store to a load that read it\\lblue box: a load that read the first value of its address\\lgreen number: the place of the event in a memory order that the model allows\\l",
        "  p0 [label=\"P0\", shape=plaintext, fontsize=14, pos=\"0,-70!\"];\n  e1 [label=<st 1 1 (1) <font color=\"#2e7d32\"><b>#4</b></font>>, pos=\"0,-122!\"];\n  p0 -> e1 [color=\"#b0b0b0\", arrowhead=none];\n  e2 [label=<ld 2 0 (2) <font color=\"#2e7d32\"><b>#2</b></font>>, pos=\"0,-174!\", fillcolor=\"#d8e6f8\"];\n  e1 -> e2 [color=\"#b0b0b0\", arrowhead=none];\n  p1 [label=\"P1\", shape=plaintext, fontsize=14, pos=\"220,-70!\"];\n  e3 [label=<st 2 2 (3) <font color=\"#2e7d32\"><b>#3</b></font>>, pos=\"220,-148!\"];\n  p1 -> e3 [color=\"#b0b0b0\", arrowhead=none];\n  e4 [label=<ld 1 0 (4) <font color=\"#2e7d32\"><b>#1</b></font>>, pos=\"220,-200!\", fillcolor=\"#d8e6f8\"];\n  e3 -> e4 [color=\"#b0b0b0\", arrowhead=none];\n}\n",
    ),
    // numbers of no events, one that is repeated, and two that are missing
    (
        BUFFERING,
        "order 9 4 4 init 1 18446744073709551615\n",
        "TSO, consistent\\lblue edge: from a store to a load that read it\\lblue box: a load that read the first value of its address\\lgreen number: the place of the event in a memory order that the model allows\\l",
        "  p0 [label=\"P0\", shape=plaintext, fontsize=14, pos=\"0,-70!\"];\n  e1 [label=<st 1 1 (1) <font color=\"#2e7d32\"><b>#5</b></font>>, pos=\"0,-122!\"];\n  p0 -> e1 [color=\"#b0b0b0\", arrowhead=none];\n  e2 [label=<ld 2 0 (2)>, pos=\"0,-174!\", fillcolor=\"#d8e6f8\"];\n  e1 -> e2 [color=\"#b0b0b0\", arrowhead=none];\n  p1 [label=\"P1\", shape=plaintext, fontsize=14, pos=\"220,-70!\"];\n  e3 [label=<st 2 2 (3)>, pos=\"220,-148!\"];\n  p1 -> e3 [color=\"#b0b0b0\", arrowhead=none];\n  e4 [label=<ld 1 0 (4) <font color=\"#2e7d32\"><b>#2</b></font>>, pos=\"220,-200!\", fillcolor=\"#d8e6f8\"];\n  e3 -> e4 [color=\"#b0b0b0\", arrowhead=none];\n}\n",
    ),
    // an order of no events
    (
        BUFFERING,
        "order\n",
        "TSO, consistent\\lblue edge: from a store to a load that read it\\lblue box: a load that read the first value of its address\\lgreen number: the place of the event in a memory order that the model allows\\l",
        "  p0 [label=\"P0\", shape=plaintext, fontsize=14, pos=\"0,-70!\"];\n  e1 [label=<st 1 1 (1)>, pos=\"0,-122!\"];\n  p0 -> e1 [color=\"#b0b0b0\", arrowhead=none];\n  e2 [label=<ld 2 0 (2)>, pos=\"0,-174!\", fillcolor=\"#d8e6f8\"];\n  e1 -> e2 [color=\"#b0b0b0\", arrowhead=none];\n  p1 [label=\"P1\", shape=plaintext, fontsize=14, pos=\"220,-70!\"];\n  e3 [label=<st 2 2 (3)>, pos=\"220,-148!\"];\n  p1 -> e3 [color=\"#b0b0b0\", arrowhead=none];\n  e4 [label=<ld 1 0 (4)>, pos=\"220,-200!\", fillcolor=\"#d8e6f8\"];\n  e3 -> e4 [color=\"#b0b0b0\", arrowhead=none];\n}\n",
    ),
    // a load sees its processor's store before memory has it
    (
        "tso trace 1\nproc\nst 1 1\nld 1 1\nend\n",
        "order 2 1\n",
        "TSO, consistent\\lblue edge: from a store to a load that read it\\lblue box: a load that read the first value of its address\\lgreen number: the place of the event in a memory order that the model allows\\l",
        "  p0 [label=\"P0\", shape=plaintext, fontsize=14, pos=\"0,-70!\"];\n  e1 [label=<st 1 1 (1) <font color=\"#2e7d32\"><b>#2</b></font>>, pos=\"0,-122!\"];\n  p0 -> e1 [color=\"#b0b0b0\", arrowhead=none];\n  e2 [label=<ld 1 1 (2) <font color=\"#2e7d32\"><b>#1</b></font>>, pos=\"0,-174!\"];\n  e1 -> e2 [color=\"#b0b0b0\", arrowhead=none];\n  e1 -> e2 [color=\"#3b6fb6\"];\n}\n",
    ),
    // the second of two stores comes first in memory, and is read before the other
    (
        "tso trace 1\nmodel pso\nproc\nst 1 1\nst 2 2\nproc\nld 2 2\nld 1 0\nend\n",
        "order 2 3 4 1\n",
        "PSO, consistent\\lblue edge: from a store to a load that read it\\lblue box: a load that read the first value of its address\\lgreen number: the place of the event in a memory order that the model allows\\l",
        "  p0 [label=\"P0\", shape=plaintext, fontsize=14, pos=\"0,-70!\"];\n  e1 [label=<st 1 1 (1) <font color=\"#2e7d32\"><b>#4</b></font>>, pos=\"0,-122!\"];\n  p0 -> e1 [color=\"#b0b0b0\", arrowhead=none];\n  e2 [label=<st 2 2 (2) <font color=\"#2e7d32\"><b>#1</b></font>>, pos=\"0,-174!\"];\n  e1 -> e2 [color=\"#b0b0b0\", arrowhead=none];\n  p1 [label=\"P1\", shape=plaintext, fontsize=14, pos=\"220,-70!\"];\n  e3 [label=<ld 2 2 (3) <font color=\"#2e7d32\"><b>#2</b></font>>, pos=\"220,-148!\"];\n  p1 -> e3 [color=\"#b0b0b0\", arrowhead=none];\n  e4 [label=<ld 1 0 (4) <font color=\"#2e7d32\"><b>#3</b></font>>, pos=\"220,-200!\", fillcolor=\"#d8e6f8\"];\n  e3 -> e4 [color=\"#b0b0b0\", arrowhead=none];\n  e2 -> e3 [color=\"#3b6fb6\"];\n}\n",
    ),
    // a swap, whose load and store have a number each, and a barrier, which has none
    (
        "tso trace 1\nproc\nsw 1 0 1\nmb\nld 2 0\nproc\nld 1 1\nend\n",
        "order 1 2 4 3\n",
        "TSO, consistent\\lblue edge: from a store to a load that read it\\lblue box: a load that read the first value of its address\\lgreen number: the place of the event in a memory order that the model allows\\l",
        "  p0 [label=\"P0\", shape=plaintext, fontsize=14, pos=\"0,-70!\"];\n  e1 [label=<sw 1 0 1 load (1) <font color=\"#2e7d32\"><b>#1</b></font>>, pos=\"0,-122!\", fillcolor=\"#d8e6f8\"];\n  p0 -> e1 [color=\"#b0b0b0\", arrowhead=none];\n  e2 [label=<sw 1 0 1 store (2) <font color=\"#2e7d32\"><b>#2</b></font>>, pos=\"0,-158!\"];\n  e1 -> e2 [color=\"#b0b0b0\", arrowhead=none, penwidth=50];\n  b0_1 [label=<mb>, pos=\"0,-210!\", color=\"#dddddd\", fillcolor=\"#dddddd\", fontsize=10, height=0.15];\n  e2 -> b0_1 [color=\"#b0b0b0\", arrowhead=none];\n  e3 [label=<ld 2 0 (3) <font color=\"#2e7d32\"><b>#4</b></font>>, pos=\"0,-262!\", fillcolor=\"#d8e6f8\"];\n  b0_1 -> e3 [color=\"#b0b0b0\", arrowhead=none];\n  p1 [label=\"P1\", shape=plaintext, fontsize=14, pos=\"276,-70!\"];\n  e4 [label=<ld 1 1 (4) <font color=\"#2e7d32\"><b>#3</b></font>>, pos=\"276,-148!\"];\n  p1 -> e4 [color=\"#b0b0b0\", arrowhead=none];\n  e2 -> e4 [color=\"#3b6fb6\"];\n}\n",
    ),
    // four processors, of which no order of the two stores to each of two addresses explains what they read
    (
        TWELVE_EVENTS,
        TWELVE_REFUTED,
        "TSO, violation\\lno memory order explains this trace: explain --decide has the cases\\lblue edge: from a store to a load that read it\\lblue box: a load that read the first value of its address\\l",
        "  p0 [label=\"P0\", shape=plaintext, fontsize=14, pos=\"0,-70!\"];\n  e1 [label=<st 1 1 (1)>, pos=\"0,-122!\"];\n  p0 -> e1 [color=\"#b0b0b0\", arrowhead=none];\n  b0_1 [label=<mb>, pos=\"0,-174!\", color=\"#dddddd\", fillcolor=\"#dddddd\", fontsize=10, height=0.15];\n  e1 -> b0_1 [color=\"#b0b0b0\", arrowhead=none];\n  e2 [label=<ld 2 3 (2)>, pos=\"0,-226!\"];\n  b0_1 -> e2 [color=\"#b0b0b0\", arrowhead=none];\n  e3 [label=<ld 1 1 (3)>, pos=\"0,-278!\"];\n  e2 -> e3 [color=\"#b0b0b0\", arrowhead=none];\n  p1 [label=\"P1\", shape=plaintext, fontsize=14, pos=\"227,-70!\"];\n  e4 [label=<st 1 2 (4)>, pos=\"227,-148!\"];\n  p1 -> e4 [color=\"#b0b0b0\", arrowhead=none];\n  b1_1 [label=<mb>, pos=\"227,-200!\", color=\"#dddddd\", fillcolor=\"#dddddd\", fontsize=10, height=0.15];\n  e4 -> b1_1 [color=\"#b0b0b0\", arrowhead=none];\n  e5 [label=<ld 2 4 (5)>, pos=\"227,-252!\"];\n  b1_1 -> e5 [color=\"#b0b0b0\", arrowhead=none];\n  e6 [label=<ld 1 2 (6)>, pos=\"227,-304!\"];\n  e5 -> e6 [color=\"#b0b0b0\", arrowhead=none];\n  p2 [label=\"P2\", shape=plaintext, fontsize=14, pos=\"454,-70!\"];\n  e7 [label=<st 2 3 (7)>, pos=\"454,-122!\"];\n  p2 -> e7 [color=\"#b0b0b0\", arrowhead=none];\n  b2_1 [label=<mb>, pos=\"454,-174!\", color=\"#dddddd\", fillcolor=\"#dddddd\", fontsize=10, height=0.15];\n  e7 -> b2_1 [color=\"#b0b0b0\", arrowhead=none];\n  e8 [label=<ld 1 2 (8)>, pos=\"454,-226!\"];\n  b2_1 -> e8 [color=\"#b0b0b0\", arrowhead=none];\n  e9 [label=<ld 2 3 (9)>, pos=\"454,-278!\"];\n  e8 -> e9 [color=\"#b0b0b0\", arrowhead=none];\n  p3 [label=\"P3\", shape=plaintext, fontsize=14, pos=\"681,-70!\"];\n  e10 [label=<st 2 4 (10)>, pos=\"681,-148!\"];\n  p3 -> e10 [color=\"#b0b0b0\", arrowhead=none];\n  b3_1 [label=<mb>, pos=\"681,-200!\", color=\"#dddddd\", fillcolor=\"#dddddd\", fontsize=10, height=0.15];\n  e10 -> b3_1 [color=\"#b0b0b0\", arrowhead=none];\n  e11 [label=<ld 1 1 (11)>, pos=\"681,-252!\"];\n  b3_1 -> e11 [color=\"#b0b0b0\", arrowhead=none];\n  e12 [label=<ld 2 4 (12)>, pos=\"681,-304!\"];\n  e11 -> e12 [color=\"#b0b0b0\", arrowhead=none];\n  e7 -> e2 [color=\"#3b6fb6\"];\n  e1 -> e3 [color=\"#3b6fb6\"];\n  e10 -> e5 [color=\"#3b6fb6\"];\n  e4 -> e6 [color=\"#3b6fb6\"];\n  e4 -> e8 [color=\"#3b6fb6\"];\n  e7 -> e9 [color=\"#3b6fb6\"];\n  e1 -> e11 [color=\"#3b6fb6\"];\n  e10 -> e12 [color=\"#3b6fb6\"];\n}\n",
    ),
    // two cycles, which are no refutation
    (
        BUFFERING,
        "cycle 1 2\ncycle 3 4\n",
        "TSO, violation\\lno memory order explains this trace: explain --decide has the cases\\lblue edge: from a store to a load that read it\\lblue box: a load that read the first value of its address\\l",
        "  p0 [label=\"P0\", shape=plaintext, fontsize=14, pos=\"0,-70!\"];\n  e1 [label=<st 1 1 (1)>, pos=\"0,-122!\"];\n  p0 -> e1 [color=\"#b0b0b0\", arrowhead=none];\n  e2 [label=<ld 2 0 (2)>, pos=\"0,-174!\", fillcolor=\"#d8e6f8\"];\n  e1 -> e2 [color=\"#b0b0b0\", arrowhead=none];\n  p1 [label=\"P1\", shape=plaintext, fontsize=14, pos=\"220,-70!\"];\n  e3 [label=<st 2 2 (3)>, pos=\"220,-148!\"];\n  p1 -> e3 [color=\"#b0b0b0\", arrowhead=none];\n  e4 [label=<ld 1 0 (4)>, pos=\"220,-200!\", fillcolor=\"#d8e6f8\"];\n  e3 -> e4 [color=\"#b0b0b0\", arrowhead=none];\n}\n",
    ),
    // steps without a cycle, which are no refutation
    (
        BUFFERING,
        "1 1 2 Membar\n",
        "TSO, violation\\lno memory order explains this trace: explain --decide has the cases\\lblue edge: from a store to a load that read it\\lblue box: a load that read the first value of its address\\l",
        "  p0 [label=\"P0\", shape=plaintext, fontsize=14, pos=\"0,-70!\"];\n  e1 [label=<st 1 1 (1)>, pos=\"0,-122!\"];\n  p0 -> e1 [color=\"#b0b0b0\", arrowhead=none];\n  e2 [label=<ld 2 0 (2)>, pos=\"0,-174!\", fillcolor=\"#d8e6f8\"];\n  e1 -> e2 [color=\"#b0b0b0\", arrowhead=none];\n  p1 [label=\"P1\", shape=plaintext, fontsize=14, pos=\"220,-70!\"];\n  e3 [label=<st 2 2 (3)>, pos=\"220,-148!\"];\n  p1 -> e3 [color=\"#b0b0b0\", arrowhead=none];\n  e4 [label=<ld 1 0 (4)>, pos=\"220,-200!\", fillcolor=\"#d8e6f8\"];\n  e3 -> e4 [color=\"#b0b0b0\", arrowhead=none];\n}\n",
    ),
    // no lines, which are no refutation
    (
        BUFFERING,
        "",
        "TSO, violation\\lno memory order explains this trace: explain --decide has the cases\\lblue edge: from a store to a load that read it\\lblue box: a load that read the first value of its address\\l",
        "  p0 [label=\"P0\", shape=plaintext, fontsize=14, pos=\"0,-70!\"];\n  e1 [label=<st 1 1 (1)>, pos=\"0,-122!\"];\n  p0 -> e1 [color=\"#b0b0b0\", arrowhead=none];\n  e2 [label=<ld 2 0 (2)>, pos=\"0,-174!\", fillcolor=\"#d8e6f8\"];\n  e1 -> e2 [color=\"#b0b0b0\", arrowhead=none];\n  p1 [label=\"P1\", shape=plaintext, fontsize=14, pos=\"220,-70!\"];\n  e3 [label=<st 2 2 (3)>, pos=\"220,-148!\"];\n  p1 -> e3 [color=\"#b0b0b0\", arrowhead=none];\n  e4 [label=<ld 1 0 (4)>, pos=\"220,-200!\", fillcolor=\"#d8e6f8\"];\n  e3 -> e4 [color=\"#b0b0b0\", arrowhead=none];\n}\n",
    ),
    // of more events than a picture has room for none is drawn, as without an order
    (
        "tso trace 1\nproc\nld 1 0\nld 1 0\nld 1 0\nld 1 0\nld 1 0\nld 1 0\nld 1 0\nld 1 0\nld 1 0\nld 1 0\nld 1 0\nld 1 0\nld 1 0\nld 1 0\nld 1 0\nld 1 0\nld 1 0\nld 1 0\nld 1 0\nld 1 0\nld 1 0\nld 1 0\nld 1 0\nld 1 0\nld 1 0\nld 1 0\nld 1 0\nld 1 0\nld 1 0\nld 1 0\nld 1 0\nld 1 0\nld 1 0\nld 1 0\nld 1 0\nld 1 0\nld 1 0\nld 1 0\nld 1 0\nld 1 0\nld 1 0\nld 1 0\nld 1 0\nld 1 0\nld 1 0\nld 1 0\nld 1 0\nld 1 0\nld 1 0\nld 1 0\nld 1 0\nld 1 0\nld 1 0\nld 1 0\nld 1 0\nld 1 0\nld 1 0\nld 1 0\nld 1 0\nld 1 0\nld 1 0\nld 1 0\nld 1 0\nld 1 0\nld 1 0\nld 1 0\nld 1 0\nld 1 0\nld 1 0\nld 1 0\nld 1 0\nld 1 0\nld 1 0\nld 1 0\nld 1 0\nld 1 0\nld 1 0\nld 1 0\nld 1 0\nld 1 0\nld 1 0\nld 1 0\nld 1 0\nld 1 0\nld 1 0\nld 1 0\nld 1 0\nld 1 0\nld 1 0\nld 1 0\nld 1 0\nld 1 0\nld 1 0\nld 1 0\nld 1 0\nld 1 0\nld 1 0\nld 1 0\nld 1 0\nld 1 0\nld 1 0\nend\n",
        "order 1 2 3\n",
        "TSO, consistent\\l0 of 101 events are drawn\\lblue edge: from a store to a load that read it\\lblue box: a load that read the first value of its address\\lgreen number: the place of the event in a memory order that the model allows\\l",
        "  p0 [label=\"P0\", shape=plaintext, fontsize=14, pos=\"0,-70!\"];\n  g0_101 [label=<101 more>, pos=\"0,-122!\", shape=plaintext, fontsize=10, height=0.15];\n  p0 -> g0_101 [color=\"#b0b0b0\", arrowhead=none];\n}\n",
    ),
];

/// No decision on store buffering: the caption, and what stands below it.
pub(super) const UNDECIDED: (&str, &str) = (
    "TSO, undecided\\lneither a memory order that explains this trace nor a refutation was found\\lblue edge: from a store to a load that read it\\lblue box: a load that read the first value of its address\\l",
    "  p0 [label=\"P0\", shape=plaintext, fontsize=14, pos=\"0,-70!\"];\n  e1 [label=<st 1 1 (1)>, pos=\"0,-122!\"];\n  p0 -> e1 [color=\"#b0b0b0\", arrowhead=none];\n  e2 [label=<ld 2 0 (2)>, pos=\"0,-174!\", fillcolor=\"#d8e6f8\"];\n  e1 -> e2 [color=\"#b0b0b0\", arrowhead=none];\n  p1 [label=\"P1\", shape=plaintext, fontsize=14, pos=\"220,-70!\"];\n  e3 [label=<st 2 2 (3)>, pos=\"220,-148!\"];\n  p1 -> e3 [color=\"#b0b0b0\", arrowhead=none];\n  e4 [label=<ld 1 0 (4)>, pos=\"220,-200!\", fillcolor=\"#d8e6f8\"];\n  e3 -> e4 [color=\"#b0b0b0\", arrowhead=none];\n}\n",
);

/// The caption of the picture of a hundred loads, of which the last comes first in memory, then the first, the first lines below it, and
/// the last lines.
pub(super) const HUNDRED_LOADS: (&str, &str, &str) = (
    "TSO, consistent\\lblue edge: from a store to a load that read it\\lblue box: a load that read the first value of its address\\lgreen number: the place of the event in a memory order that the model allows\\l",
    "  p0 [label=\"P0\", shape=plaintext, fontsize=14, pos=\"0,-70!\"];\n  e1 [label=<ld 1 0 (1) <font color=\"#2e7d32\"><b>#2</b></font>>, pos=\"0,-122!\", fillcolor=\"#d8e6f8\"];\n  p0 -> e1 [color=\"#b0b0b0\", arrowhead=none];\n",
    "  e100 [label=<ld 1 0 (100) <font color=\"#2e7d32\"><b>#1</b></font>>, pos=\"0,-5270!\", fillcolor=\"#d8e6f8\"];\n  e99 -> e100 [color=\"#b0b0b0\", arrowhead=none];\n}\n",
);
