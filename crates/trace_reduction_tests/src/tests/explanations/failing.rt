//! Readers, writers and allocations that fail.
//!
//! `rt try --test --fail-alloc N` refuses the Nth allocation of each test: the call that meets it answers OutOfMemory, or NoThread
//! where the allocation was that of a thread's start, and writes nothing, and the next call writes the ordinary text.

use std::alloc::Global;
use std::io::{ErrorKind, Read};
use std::process::Abort;
use std::sync::Wait;
use std::thread::Threads;
use text_streams::Fault;
use trace_explanation::AsExplanation;
use trace_judging::{ByRules, answer_reader};
use trace_pictures::{AsFieldPicture, AsPicture};
use trace_reports::{Finding, Rendering, Verdict};
use traces_for_tests::FailingReader;
use tso_ops::Trace;

/// The room that a text gets.
const ROOM: usize = 4_096;

/// An input, and what is written of it.
type Case = (&'static str, &'static str);

/// Writes what a reader gives into these bytes: the answer, and how much of the room is left.
fn written_into<H: Threads + Wait + Sync, R: Read, P: Rendering<Trace, Finding>>(
    rt: &H,
    alloc: Global,
    reader: &mut R,
    bytes: &mut [u8],
    rendering: &P,
) -> (Result<Verdict, Fault>, usize) {
    let mut writer = bytes;
    let question = ByRules { workers: 1 };
    let said = answer_reader(rt, alloc, reader, &mut writer, &question, rendering);
    (said, writer.len())
}

/// Compares what is written of a violation, written once more where an allocation was refused.
fn expect_violation<H: Threads + Wait + Sync + Abort, P: Rendering<Trace, Finding>>(
    rt: &H,
    alloc: Global,
    (input, expected): Case,
    rendering: &P,
) {
    let mut bytes = [0u8; ROOM];
    let mut reader = input.as_bytes();
    let (mut said, mut left) = written_into(rt, alloc, &mut reader, &mut bytes, rendering);
    if said == Err(Fault::OutOfMemory) || said == Err(Fault::NoThread) {
        assert!(rt; left == ROOM);
        reader = input.as_bytes();
        (said, left) = written_into(rt, alloc, &mut reader, &mut bytes, rendering);
    }
    assert!(rt; said == Ok(Verdict::Violation));
    let count = ROOM.saturating_sub(left);
    assert!(rt; bytes.get(..count) == Some(expected.as_bytes()));
}

/// A cycle of two through the first values.
const CYCLE: Case = (
    "tso trace 1\nproc\nst 1 1\nst 2 2\nproc\nld 2 2\nld 1 0\nend\n",
    "TSO REPORT 1\nprocessors 2 events 4 rounds 1\nVIOLATION\n\nP1 read address 1 from before P0's store (1), though it had seen the later store (2): message passing.\n\nTSO asks for one order of all loads and stores, the memory order.\nA load sees the stores to its address that come before it in that order or earlier on its own processor.\nIt reads the last of these in that order, or the first value of its address where there is none.\nNo memory order explains this trace: it would have to put each of these before the next, and the last is the first again.\n\n  the first values\n    before P0 'st 1 1' (1): they come before every event (step 1)\n    before the first values: P1 'ld 1 0' (4) sees the former, yet it read the latter (step 5)\n\nWhy each step holds, the last step first. A step rests only on steps of smaller numbers.\n\n5. P0 'st 1 1' (1) before the first values: a load sees the store, yet read something else.\n   P1 'ld 1 0' (4) sees the store, which comes before it by steps 2, 3, 4, and it read the first value of address 1.\n   A load reads the last of the stores that it sees, so what it read comes after this store.\n4. P1 'ld 2 2' (3) before P1 'ld 1 0' (4): program order; a load comes before all that follows it on its processor.\n3. P0 'st 2 2' (2) before P1 'ld 2 2' (3): the load read this store.\n   It sees the store, which is not earlier on its own processor, so the store comes before it.\n2. P0 'st 1 1' (1) before P0 'st 2 2' (2): program order; a processor keeps its stores in order.\n1. the first values before P0 'st 1 1' (1): they come before every event.\n\nThe events named above, by their lines in the trace:\n\n  line 3: P0 'st 1 1' (1)\n  line 4: P0 'st 2 2' (2)\n  line 6: P1 'ld 2 2' (3) read P0 'st 2 2' (2)\n  line 7: P1 'ld 1 0' (4) read the first value of address 1\n",
);

#[test]
fn refused_allocations_of_an_explanation(rt: HostRuntime) {
    expect_violation(&rt, rt.alloc(), CYCLE, &AsExplanation);
}

/// A cycle of four.
const STORE_BUFFERING: Case = (
    "tso trace 1\nproc\nst 1 1\nmb\nld 2 0\nproc\nst 2 2\nmb\nld 1 0\nend\n",
    "digraph trace {\n  graph [layout=neato, inputscale=72, splines=true, outputorder=nodesfirst, fontname=\"Helvetica\", fontsize=12, labelloc=t, labeljust=l];\n  node [shape=box, style=filled, fillcolor=\"#ffffff\", fontname=\"Helvetica\", fontsize=12, height=0.34, width=1.2];\n  edge [arrowsize=0.7];\n  label=\"TSO, violation\\lblue edge: from a store to a load that read it\\lblue box: a load that read the first value of its address\\lred: the cycle, each event before the next, and the loads that its edges speak of\\lorange: the paths by which edges of the cycle are inferred, each event before the next\\ldashed: other derived edges, from an event to one that comes later\\lsmall lines in a box: the edges from it, by number and rule of the step in the explanation\\l\";\n  p0 [label=\"P0\", shape=plaintext, fontsize=14, pos=\"0,-70!\"];\n  e1 [label=<st 1 1 (1)<br/><font point-size=\"10\" color=\"#c00000\">3 Membar to 2</font>>, pos=\"0,-128!\", color=\"#c00000\", penwidth=2];\n  p0 -> e1 [color=\"#b0b0b0\", arrowhead=none];\n  b0_1 [label=<mb>, pos=\"0,-186!\", color=\"#dddddd\", fillcolor=\"#dddddd\", fontsize=10, height=0.15];\n  e1 -> b0_1 [color=\"#b0b0b0\", arrowhead=none];\n  e2 [label=<ld 2 0 (2)<br/><font point-size=\"10\" color=\"#c00000\">5 StorePast to 3</font>>, pos=\"0,-244!\", fillcolor=\"#d8e6f8\", color=\"#c00000\", penwidth=2];\n  b0_1 -> e2 [color=\"#b0b0b0\", arrowhead=none];\n  p1 [label=\"P1\", shape=plaintext, fontsize=14, pos=\"220,-70!\"];\n  e3 [label=<st 2 2 (3)<br/><font point-size=\"10\" color=\"#c00000\">4 Membar to 4</font>>, pos=\"220,-154!\", color=\"#c00000\", penwidth=2];\n  p1 -> e3 [color=\"#b0b0b0\", arrowhead=none];\n  b1_1 [label=<mb>, pos=\"220,-212!\", color=\"#dddddd\", fillcolor=\"#dddddd\", fontsize=10, height=0.15];\n  e3 -> b1_1 [color=\"#b0b0b0\", arrowhead=none];\n  e4 [label=<ld 1 0 (4)<br/><font point-size=\"10\" color=\"#c00000\">6 StorePast to 1</font>>, pos=\"220,-270!\", fillcolor=\"#d8e6f8\", color=\"#c00000\", penwidth=2];\n  b1_1 -> e4 [color=\"#b0b0b0\", arrowhead=none];\n  e1 -> e2 [color=\"#c00000\", penwidth=2.5];\n  e2 -> e3 [color=\"#c00000\", penwidth=2.5];\n  e3 -> e4 [color=\"#c00000\", penwidth=2.5];\n  e4 -> e1 [color=\"#c00000\", penwidth=2.5];\n}\n",
);

#[test]
fn refused_allocations_of_a_picture(rt: HostRuntime) {
    expect_violation(&rt, rt.alloc(), STORE_BUFFERING, &AsPicture);
}

/// A cycle of two, of which the field names another, of four.
const MESSAGE_PASSING: Case = (
    "tso trace 1\nproc\nst 1 1\nst 2 2\nproc\nld 2 2\nld 1 0\nend\n",
    "digraph trace {\n  graph [layout=neato, inputscale=72, splines=true, outputorder=nodesfirst, fontname=\"Helvetica\", fontsize=12, labelloc=t, labeljust=l];\n  node [shape=box, style=filled, fillcolor=\"#ffffff\", fontname=\"Helvetica\", fontsize=12, height=0.34, width=1.2];\n  edge [arrowsize=0.7];\n  label=\"TSO, violation\\lblue edge: from a store to a load that read it\\lblue box: a load that read the first value of its address\\lred: a cycle, each event before the next, and the loads that its edges speak of\\lsmall lines in a box: the edges from it\\lpo: program order; in brackets the barrier or the swap that keeps it\\lrf (reads-from): from a store to a load that read it\\lco (coherence): from a store to a later one at its address\\lfr (from-read): from a load to a store at its address that is later than what it read\\lswap: no other store comes between a swap's load and its store\\l\";\n  p0 [label=\"P0\", shape=plaintext, fontsize=14, pos=\"0,-70!\"];\n  e1 [label=<st 1 1 (1)<br/><font point-size=\"10\" color=\"#c00000\">po to 2</font>>, pos=\"0,-128!\", color=\"#c00000\", penwidth=2];\n  p0 -> e1 [color=\"#b0b0b0\", arrowhead=none];\n  e2 [label=<st 2 2 (2)<br/><font point-size=\"10\" color=\"#c00000\">rf to 3</font>>, pos=\"0,-192!\", color=\"#c00000\", penwidth=2];\n  e1 -> e2 [color=\"#b0b0b0\", arrowhead=none];\n  p1 [label=\"P1\", shape=plaintext, fontsize=14, pos=\"220,-70!\"];\n  e3 [label=<ld 2 2 (3)<br/><font point-size=\"10\" color=\"#c00000\">po to 4</font>>, pos=\"220,-154!\", color=\"#c00000\", penwidth=2];\n  p1 -> e3 [color=\"#b0b0b0\", arrowhead=none];\n  e4 [label=<ld 1 0 (4)<br/><font point-size=\"10\" color=\"#c00000\">fr to 1</font>>, pos=\"220,-218!\", fillcolor=\"#d8e6f8\", color=\"#c00000\", penwidth=2];\n  e3 -> e4 [color=\"#b0b0b0\", arrowhead=none];\n  e1 -> e2 [color=\"#c00000\", penwidth=2.5];\n  e2 -> e3 [color=\"#c00000\", penwidth=2.5];\n  e3 -> e4 [color=\"#c00000\", penwidth=2.5];\n  e4 -> e1 [color=\"#c00000\", penwidth=2.5];\n}\n",
);

#[test]
fn refused_allocations_of_a_picture_in_words_of_the_field(rt: HostRuntime) {
    expect_violation(&rt, rt.alloc(), MESSAGE_PASSING, &AsFieldPicture);
}

/// A reader that fails, and a writer that is full after some bytes.
#[test]
fn failing_streams(rt: HostRuntime) {
    let mut bytes = [0u8; 20];
    let mut reader = FailingReader::new(ErrorKind::Other);
    let (said, left) = written_into(&rt, rt.alloc(), &mut reader, &mut bytes, &AsExplanation);
    assert!(rt; said == Err(Fault::Read) && left == 20);
    let mut reader = "tso trace 1\nend\n".as_bytes();
    let (said, left) = written_into(&rt, rt.alloc(), &mut reader, &mut bytes, &AsExplanation);
    assert!(rt; said == Err(Fault::Write) && left == 0);
    assert!(rt; bytes.as_slice() == b"TSO REPORT 1\nprocess".as_slice());
}
