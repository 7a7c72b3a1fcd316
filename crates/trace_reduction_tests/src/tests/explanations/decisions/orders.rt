//! Explanations of orders.

use super::Case;

/// What comes before the lines of an order under TSO.
pub(super) const TSO_HEAD: &str =
    "\nTSO asks for one order of all loads and stores, the memory order.\nA load sees the stores to its address that come before it in that order or earlier on its own processor.\nIt reads the last of these in that order, or the first value of its address where there is none.\nThe memory order below explains this trace, so the trace is allowed.\nA load marked 'forwarded' read an earlier store of its own processor that comes after it in that order: the store was still in the store buffer.\n\n";

/// The same under PSO.
pub(super) const PSO_HEAD: &str =
    "\nPSO asks for one order of all loads and stores, the memory order.\nA load sees the stores to its address that come before it in that order or earlier on its own processor.\nIt reads the last of these in that order, or the first value of its address where there is none.\nThe memory order below explains this trace, so the trace is allowed.\nA load marked 'forwarded' read an earlier store of its own processor that comes after it in that order: the store was still in the store buffer.\n\n";

/// Under TSO.
pub(super) const UNDER_TSO: [Case; 6] = [
    (
        "tso trace 1\nproc\nst 1 1\nld 2 0\nproc\nst 2 2\nld 1 0\nend\n",
        "order 4 2 3 1\n",
        "  1. line 7: P1 'ld 1 0' (4) read the first value of address 1\n  2. line 4: P0 'ld 2 0' (2) read the first value of address 2\n  3. line 6: P1 'st 2 2' (3)\n  4. line 3: P0 'st 1 1' (1)\n",
    ),
    // Two loads are forwarded, and a third one reads the same store from memory.
    (
        "tso trace 1\nproc\nst 1 1\nld 1 1\nld 2 0\nproc\nst 2 2\nld 2 2\nld 1 0\nld 2 2\nend\n",
        "order 2 3 5 6 4 7 1\n",
        "  1. line 4: P0 'ld 1 1' (2) read P0 'st 1 1' (1), forwarded\n  2. line 5: P0 'ld 2 0' (3) read the first value of address 2\n  3. line 8: P1 'ld 2 2' (5) read P1 'st 2 2' (4), forwarded\n  4. line 9: P1 'ld 1 0' (6) read the first value of address 1\n  5. line 7: P1 'st 2 2' (4)\n  6. line 10: P1 'ld 2 2' (7) read P1 'st 2 2' (4)\n  7. line 3: P0 'st 1 1' (1)\n",
    ),
    // A swap, a barrier, and a first value.
    (
        "tso trace 2\ninit 3 7\nproc\nmb\nsw 3 7 1\nproc\nld 3 1\nend\n",
        "order 1 2 3\n",
        "  1. line 5: P0 'sw 3 7 1' load (1) read the first value of address 3\n  2. line 5: P0 'sw 3 7 1' store (2)\n  3. line 7: P1 'ld 3 1' (3) read P0 'sw 3 7 1' store (2)\n",
    ),
    ("tso trace 1\nend\n", "order\n", ""),
    // Numbers that are no events, a number that stands there twice, and a store that doesn't stand there.
    (
        "tso trace 1\nproc\nst 1 1\nproc\nld 1 1\nend\n",
        "order 2 init 3 18446744073709551615 2\n",
        "  1. line 5: P1 'ld 1 1' (2) read P0 'st 1 1' (1), forwarded\n  2. line 0: the first values\n  3. line 0: \n  4. line 0: \n  5. line 5: P1 'ld 1 1' (2) read P0 'st 1 1' (1), forwarded\n",
    ),
    // A load of what nothing wrote.
    (
        "tso trace 1\nproc\nld 1 9\nend\n",
        "order 1\n",
        "  1. line 3: P0 'ld 1 9' (1)\n",
    ),
];

/// Under PSO: a processor's stores to two addresses are seen in the other order.
pub(super) const UNDER_PSO: [Case; 1] = [(
    "tso trace 1\nmodel pso\nproc\nst 1 1\nst 2 2\nproc\nld 2 2\nld 1 0\nend\n",
    "order 2 3 4 1\n",
    "  1. line 5: P0 'st 2 2' (2)\n  2. line 7: P1 'ld 2 2' (3) read P0 'st 2 2' (2)\n  3. line 8: P1 'ld 1 0' (4) read the first value of address 1\n  4. line 4: P0 'st 1 1' (1)\n",
)];
