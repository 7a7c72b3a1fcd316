//! Explanations of refutations.

use super::Case;
use evidence_for_tests::{THIRTY_EVENTS, THIRTY_REFUTED, TWELVE_EVENTS, TWELVE_REFUTED};

/// What comes before the lines of a refutation by cases, under TSO.
pub(super) const CASES_HEAD: &str =
    "\nTSO asks for one order of all loads and stores, the memory order.\nA load sees the stores to its address that come before it in that order or earlier on its own processor.\nIt reads the last of these in that order, or the first value of its address where there is none.\nNo memory order explains this trace. The steps show it by cases: of two events one comes before the other, and each of the two leads to a contradiction.\nA step holds in each memory order in which what is supposed there is so. It rests only on steps of smaller numbers.\n\n";

/// A load that missed an own store.
const OWN_STORE_MISSED: &str = "tso trace 1\nproc\nst 1 1\nld 1 0\nend\n";

/// The same refuted by a case that isn't needed; lines whose numbers are no events, or that have no place in a refutation;
/// and no line at all.
pub(super) const BY_CASES: [Case; 3] = [
    (
        OWN_STORE_MISSED,
        "1 init 1 Init\n2 1 2 Case\n3 1 init Own\ncycle init 1\n4 2 1 Else\n5 1 init Own\ncycle init 1\n",
        "1. the first values before P0 'st 1 1' (1): they come before every event.\n2. Suppose P0 'st 1 1' (1) came before P0 'ld 1 0' (2).\n3. P0 'st 1 1' (1) before the first values: a load sees the store, yet read something else.\n   P0 'ld 1 0' (2) sees the store, which is earlier on its own processor, and it read the first value of address 1.\n   A load reads the last of the stores that it sees, so what it read comes after this store.\n\nA contradiction: the order would have to put each of these before the next, and the last is the first again.\n\n  the first values\n    before P0 'st 1 1' (1): step 1\n    before the first values: step 3\n\n4. Otherwise P0 'ld 1 0' (2) came before P0 'st 1 1' (1).\n   This ends what was supposed in step 2: no step below rests on that one, or on those after it up to here.\n5. P0 'st 1 1' (1) before the first values: a load sees the store, yet read something else.\n   P0 'ld 1 0' (2) sees the store, which is earlier on its own processor, and it read the first value of address 1.\n   A load reads the last of the stores that it sees, so what it read comes after this store.\n\nA contradiction: the order would have to put each of these before the next, and the last is the first again.\n\n  the first values\n    before P0 'st 1 1' (1): step 1\n    before the first values: step 5\n\nThe events named above, by their lines in the trace:\n\n  line 3: P0 'st 1 1' (1)\n  line 4: P0 'ld 1 0' (2) read the first value of address 1\n",
    ),
    (
        OWN_STORE_MISSED,
        "1 1 2 StorePast 9 1 2\n2 9 init Else\n3 1 2 SwapBefore 18446744073709551615 9 init\n4 2 1 SwapAfter 2 1\ncycle\ncycle 1 9\n",
        "1. P0 'st 1 1' (1) before P0 'ld 1 0' (2): the load read something older than the store.\n   It read , and the store comes after that by step 0.\n   Had the store come before the load, the load would have read it or a later store.\n2. Otherwise  came before the first values.\n   This ends what was supposed in step 0: no step below rests on that one, or on those after it up to here.\n3. P0 'st 1 1' (1) before P0 'ld 1 0' (2): a swap is atomic.\n   P0 'st 1 1' (1) comes before  by step 2.\n   No other store comes between a swap's load and its store, so this store comes before both.\n4. P0 'ld 1 0' (2) before P0 'st 1 1' (1): a swap is atomic.\n   P0 'st 1 1' (1) comes after P0 'ld 1 0' (2) by .\n   No other store comes between a swap's load and its store, so this store comes after both.\n\nA contradiction: the order would have to put each of these before the next, and the last is the first again.\n\n\n\nA contradiction: the order would have to put each of these before the next, and the last is the first again.\n\n  P0 'st 1 1' (1)\n    before : step 0\n    before P0 'st 1 1' (1): step 0\n\nThe events named above, by their lines in the trace:\n\n  line 3: P0 'st 1 1' (1)\n  line 4: P0 'ld 1 0' (2) read the first value of address 1\n",
    ),
    (
        OWN_STORE_MISSED,
        "",
        "The events named above, by their lines in the trace:\n\n",
    ),
];

/// Lines of the explanation of twelve events.
pub(super) const LINES_OF_TWELVE_EVENTS: [Case; 4] = [
    (
        TWELVE_EVENTS,
        TWELVE_REFUTED,
        "12. P3 'ld 1 1' (11) before P3 'ld 2 4' (12): program order; a load comes before all that follows it on its processor.\n13. Suppose P1 'st 1 2' (4) came before P0 'st 1 1' (1).\n14. P1 'ld 1 2' (6) before P0 'st 1 1' (1): the load read something older than the store.\n   It read P1 'st 1 2' (4), and the store comes after that by step 13.\n   Had the store come before the load, the load would have read it or a later store.\n15. ",
    ),
    (
        TWELVE_EVENTS,
        TWELVE_REFUTED,
        "16. P3 'st 2 4' (10) before P2 'st 2 3' (7): a load sees the store, yet read something else.\n   P0 'ld 2 3' (2) sees the store, which comes before it by steps 10, 6, 14, 1, and it read P2 'st 2 3' (7).\n   A load reads the last of the stores that it sees, so what it read comes after this store.\n17. ",
    ),
    (
        TWELVE_EVENTS,
        TWELVE_REFUTED,
        "  P2 'st 2 3' (7)\n    before P2 'ld 1 2' (8): step 8\n    before P0 'st 1 1' (1): step 15\n    before P3 'ld 1 1' (11): step 2\n    before P3 'ld 2 4' (12): step 12\n    before P2 'st 2 3' (7): step 17\n\n18. Otherwise P0 'st 1 1' (1) came before P1 'st 1 2' (4).\n   This ends what was supposed in step 13: no step below rests on that one, or on those after it up to here.\n19. P0 'ld 1 1' (3) before P1 'st 1 2' (4): the load read something older than the store.\n   It read P0 'st 1 1' (1), and the store comes after that by step 18.\n",
    ),
    (
        TWELVE_EVENTS,
        TWELVE_REFUTED,
        "    before P3 'st 2 4' (10): step 22\n\nThe events named above, by their lines in the trace:\n\n  line 3: P0 'st 1 1' (1)\n  line 5: P0 'ld 2 3' (2) read P2 'st 2 3' (7)\n  line 6: P0 'ld 1 1' (3) read P0 'st 1 1' (1)\n  line 8: P1 'st 1 2' (4)\n",
    ),
];

/// Lines of that of thirty events.
pub(super) const LINES_OF_THIRTY_EVENTS: [Case; 5] = [
    (
        THIRTY_EVENTS,
        THIRTY_REFUTED,
        "\nPSO asks for one order of all loads and stores, the memory order.\n",
    ),
    (
        THIRTY_EVENTS,
        THIRTY_REFUTED,
        "33. Otherwise P0 'st 0 1' (3) came before P1 'st 0 2' (5).\n   This ends what was supposed in step 28: no step below rests on that one, or on those after it up to here.\n34. ",
    ),
    (
        THIRTY_EVENTS,
        THIRTY_REFUTED,
        "36. P1 'st 2 6' (4) before P0 'st 2 5' (2): a load sees the store, yet read something else.\n   P9 'ld 2 5' (22) sees the store, which comes before it by steps 7, 21, 34, 10, 16, 27, 2, 20, and it read P0 'st 2 5' (2).\n   A load reads the last of the stores that it sees, so what it read comes after this store.\n37. ",
    ),
    (
        THIRTY_EVENTS,
        THIRTY_REFUTED,
        "38. Otherwise P0 'st 1 3' (1) came before P1 'st 1 4' (6).\n   This ends what was supposed in step 25: no step below rests on that one, or on those after it up to here.\n39. ",
    ),
    (
        THIRTY_EVENTS,
        THIRTY_REFUTED,
        "  P1 'st 0 2' (5)\n    before P3 'ld 0 2' (9): step 9\n    before P3 'ld 1 3' (10): step 14\n    before P1 'st 1 4' (6): step 39\n    before P8 'ld 1 4' (19): step 12\n    before P8 'ld 2 5' (20): step 19\n    before P1 'st 2 6' (4): step 46\n    before P10 'ld 2 6' (23): step 7\n    before P10 'ld 0 1' (24): step 21\n    before P1 'st 0 2' (5): step 48\n\n",
    ),
];

/// The explanation by the certificate that the evidence is: of a cycle, and of an unwritten load.
pub(super) const OF_CERTIFICATES: [Case; 2] = [
    (
        OWN_STORE_MISSED,
        "1 init 1 Init\n2 1 init Own\ncycle init 1\n",
        "    before P0 'st 1 1' (1): they come before every event (step 1)\n    before the first values: P0 'ld 1 0' (2) sees the former, yet it read the latter (step 2)\n\nWhy each step holds, the last step first. A step rests only on steps of smaller numbers.\n\n2. ",
    ),
    (
        "tso trace 1\nproc\nld 1 9\nend\n",
        "unwritten 1\n",
        "\nA load read a value that nothing wrote to its address:\n\n  line 3: P0 'ld 1 9' (1) read 9\n\nThe first value of address 1 is 0.\nNo operation stores to address 1.\n",
    ),
];
