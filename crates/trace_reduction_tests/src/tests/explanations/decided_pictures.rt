//! Pictures of evidence, with the expected bytes of each.
//!
//! They are also tried where an allocation is refused: `rt try --test --fail-alloc N` refuses the Nth of each test, which then
//! fails by OutOfMemory.

mod cases;

use cases::{CASES, HUNDRED_LOADS, UNDECIDED};
use decision_pictures::{draw_evidence, draw_undecided};
use evidence_for_tests::BUFFERING;
use std::alloc::{AllocError, Global};
use std::test::Fail;
use trace_pictures::draw;
use traces_for_tests::repeated;
use tso_cert::read_cert;
use tso_evidence::read_evidence;
use tso_text::read_trace;

/// The texts of a trace and of evidence on it, the caption of the picture, and what stands below the caption.
type Case = (&'static str, &'static str, &'static str, &'static str);

/// How each picture begins.
const HEAD: &str =
    "digraph trace {\n  graph [layout=neato, inputscale=72, splines=true, outputorder=nodesfirst, fontname=\"Helvetica\", fontsize=12, labelloc=t, labeljust=l];\n  node [shape=box, style=filled, fillcolor=\"#ffffff\", fontname=\"Helvetica\", fontsize=12, height=0.34, width=1.2];\n  edge [arrowsize=0.7];\n";

/// The picture of a trace by evidence on it.
fn drawn(alloc: Global, trace: &str, evidence: &str) -> Result<String, Fail> {
    let trace = read_trace(alloc, trace.as_bytes())?;
    let evidence = read_evidence(alloc, evidence.as_bytes())?;
    let mut text = String::new(alloc);
    draw_evidence(alloc, &mut text, &trace, &evidence)?;
    Ok(text)
}

/// The picture with this caption, and this below it.
fn captioned(alloc: Global, caption: &str, below: &str) -> Result<String, AllocError> {
    format!(in alloc; "{HEAD}  label=\"{caption}\";\n{below}")
}

#[test]
fn evidence(rt: HostRuntime) -> Result<(), Fail> {
    for (trace, evidence, caption, below) in &CASES {
        let found = drawn(rt.alloc(), trace, evidence)?;
        let expected = captioned(rt.alloc(), caption, below)?;
        assert!(rt; found == expected, "{evidence}: {found}");
    }
    Ok(())
}

/// Of as many events as a picture has room for each has its number.
#[test]
fn just_enough(rt: HostRuntime) -> Result<(), Fail> {
    let (caption, below, last) = HUNDRED_LOADS;
    let trace = repeated(rt.alloc(), "tso trace 1\nproc\n", "ld 1 0\n", 100, "end\n")?;
    let found = drawn(rt.alloc(), &trace, "order 100 1\n")?;
    let first = captioned(rt.alloc(), caption, below)?;
    assert!(rt; found.starts_with(first.as_str()), "{found}");
    assert!(rt; found.ends_with(last), "{found}");
    Ok(())
}

#[test]
fn undecided(rt: HostRuntime) -> Result<(), Fail> {
    let alloc = rt.alloc();
    let (caption, below) = UNDECIDED;
    let mut text = String::from_str(alloc, "before\n")?;
    draw_undecided(alloc, &mut text, &read_trace(alloc, BUFFERING.as_bytes())?)?;
    let picture = captioned(alloc, caption, below)?;
    assert!(rt;
        text.strip_prefix("before\n") == Some(picture.as_str()),
        "{text}"
    );
    Ok(())
}

/// Store buffering with barriers, and a certificate of it.
const BARRIERS: &str = "tso trace 1\nproc\nst 1 1\nmb\nld 2 0\nproc\nst 2 2\nmb\nld 1 0\nend\n";

const BARRIERS_REFUTED: &str =
    "1 init 1 Init\n2 init 3 Init\n3 1 2 Membar\n4 3 4 Membar\n5 2 3 StorePast 2 init 3\n6 4 1 StorePast 4 init 1\ncycle 1 2 3 4\n";

/// Traces, and texts that are a certificate.
const CERTIFICATES: [(&str, &str); 4] = [
    ("tso trace 1\nproc\nld 1 9\nend\n", "unwritten 1\n"),
    (BARRIERS, BARRIERS_REFUTED),
    (BUFFERING, "cycle 9 1 1 init\n"),
    (BUFFERING, "unwritten 18446744073709551615\n"),
];

/// The picture of a text as evidence is that of it as a certificate.
#[test]
fn evidence_that_is_a_certificate(rt: HostRuntime) -> Result<(), Fail> {
    for (text, certificate) in CERTIFICATES {
        let found = drawn(rt.alloc(), text, certificate)?;
        let trace = read_trace(rt.alloc(), text.as_bytes())?;
        let read = read_cert(rt.alloc(), certificate.as_bytes())?;
        let mut expected = String::new(rt.alloc());
        draw(rt.alloc(), &mut expected, &trace, &Some(read))?;
        assert!(rt; found == expected, "{certificate}");
    }
    Ok(())
}
