//! Worked examples for tests: traces, and evidence on them.
#![tactic(auto)]

/// Store buffering.
pub const BUFFERING: &str = "\
tso trace 1
proc
st 1 1
ld 2 0
proc
st 2 2
ld 1 0
end
";

/// An order of it.
pub const BUFFERING_ORDER: &str = "\
order 4 2 3 1
";

/// Twelve events with neither a derived cycle nor an order.
pub const TWELVE_EVENTS: &str = "\
tso trace 1
proc
st 1 1
mb
ld 2 3
ld 1 1
proc
st 1 2
mb
ld 2 4
ld 1 2
proc
st 2 3
mb
ld 1 2
ld 2 3
proc
st 2 4
mb
ld 1 1
ld 2 4
end
";

/// A refutation of them, with one case.
pub const TWELVE_REFUTED: &str = "\
1 1 2 Membar
2 1 11 Read
3 2 3 LoadOp
4 4 5 Membar
5 4 8 Read
6 5 6 LoadOp
7 7 2 Read
8 7 8 Membar
9 8 9 LoadOp
10 10 5 Read
11 10 11 Membar
12 11 12 LoadOp
13 4 1 Case
14 6 1 StorePast 6 4 1
15 8 1 StorePast 8 4 1
16 10 7 LoadPast 2 10 5 6 1 2
17 12 7 StorePast 12 10 7
cycle 7 8 1 11 12
18 1 4 Else
19 3 4 StorePast 3 1 4
20 11 4 StorePast 11 1 4
21 7 10 LoadPast 5 7 2 3 4 5
22 9 10 StorePast 9 7 10
cycle 10 11 4 8 9
";

/// Thirty events under PSO with neither.
pub const THIRTY_EVENTS: &str = "\
tso trace 1
model pso
proc
st 1 3
st 2 5
st 0 1
proc
st 2 6
st 0 2
st 1 4
proc
ld 0 1
ld 1 4
proc
ld 0 2
ld 1 3
proc
ld 0 1
ld 1 3
proc
ld 0 2
ld 1 4
proc
ld 1 3
ld 2 6
proc
ld 1 4
ld 2 6
proc
ld 1 4
ld 2 5
proc
ld 1 3
ld 2 5
proc
ld 2 6
ld 0 1
proc
ld 2 5
ld 0 1
proc
ld 2 6
ld 0 2
proc
ld 2 5
ld 0 2
end
";

/// A refutation of them, with four parts that end in a cycle.
pub const THIRTY_REFUTED: &str = "\
1 1 15 Read
2 1 21 Read
3 2 25 Read
4 2 29 Read
5 3 7 Read
6 3 11 Read
7 4 23 Read
8 4 27 Read
9 5 9 Read
10 5 13 Read
11 6 17 Read
12 6 19 Read
13 7 8 LoadOp
14 9 10 LoadOp
15 11 12 LoadOp
16 13 14 LoadOp
17 15 16 LoadOp
18 17 18 LoadOp
19 19 20 LoadOp
20 21 22 LoadOp
21 23 24 LoadOp
22 25 26 LoadOp
23 27 28 LoadOp
24 29 30 LoadOp
25 6 1 Case
26 8 1 StorePast 8 6 1
27 14 1 StorePast 14 6 1
28 5 3 Case
29 28 3 StorePast 28 5 3
30 30 3 StorePast 30 5 3
31 4 2 LoadPast 22 4 27 28 3 7 8 1 21 22
32 16 2 StorePast 16 4 2
cycle 2 29 30 3 7 8 1 15 16
33 3 5 Else
34 24 5 StorePast 24 3 5
35 26 5 StorePast 26 3 5
36 4 2 LoadPast 22 4 23 24 5 13 14 1 21 22
37 16 2 StorePast 16 4 2
cycle 2 25 26 5 13 14 1 15 16
38 1 6 Else
39 10 6 StorePast 10 1 6
40 12 6 StorePast 12 1 6
41 4 2 Case
42 18 2 StorePast 18 4 2
43 3 5 LoadPast 30 3 11 12 6 17 18 2 29 30
44 26 5 StorePast 26 3 5
cycle 5 9 10 6 17 18 2 25 26
45 2 4 Else
46 20 4 StorePast 20 2 4
47 3 5 LoadPast 28 3 11 12 6 19 20 4 27 28
48 24 5 StorePast 24 3 5
cycle 5 9 10 6 19 20 4 23 24
";
