//! Long texts, and refused allocations. `program-cases/` has short texts.

mod long;

use super::reading::{Kind, text_back};
use evidence_for_tests::TWELVE_REFUTED;
use long::LONG;
use std::alloc::{AllocError, Global};
use std::test::Fail;
use traces_for_tests::{expect_equal, repeated};

/// A kind of text, a text, and what it gives: nothing where it is printed back as it is.
type Case = (Kind, &'static str, &'static str);

/// What has to come of a text.
fn expected_of<'a>(text: &'a str, expected: &'a str) -> &'a str {
    if expected.is_empty() { text } else { expected }
}

fn expect_text(alloc: Global, kind: Kind, text: &str, expected: &str) -> Result<(), Fail> {
    let back = text_back(alloc, kind, text)?;
    expect_equal((kind, text), back.as_str(), expected_of(text, expected))
}

/// A kind of text, its first lines, a line, how often it comes, the last lines, how many bytes it has, and what it gives.
type Long = (
    Kind,
    &'static str,
    &'static str,
    usize,
    &'static str,
    usize,
    &'static str,
);

fn expect_long(alloc: Global, long: &Long) -> Result<(), Fail> {
    let (kind, first, line, count, last, bytes, expected) = *long;
    let text = repeated(alloc, first, line, count, last)?;
    expect_equal(line, text.len(), bytes)?;
    expect_text(alloc, kind, text.as_str(), expected)
}

#[test]
fn long_texts(rt: HostRuntime) -> Result<(), Fail> {
    for long in &LONG {
        expect_long(rt.alloc(), long)?;
    }
    Ok(())
}

/// A text of each kind, of which each allocation is refused in turn, and what it gives.
static AGAIN: [Case; 15] = [
    (
        Kind::Trace,
        "tso trace 1\nproc\nst 1 1\nld 2 0\nproc\nst 2 2\nmb\nsw 1 0 3\nend\n",
        "",
    ),
    (
        Kind::Program,
        "tso program 1\nproc\nst 1 1\nld 2\nproc\nst 2 2\nmb\nsw 1 3\nend\n",
        "",
    ),
    (
        Kind::Schedule,
        "tso schedule 1\ni 0\ni 1\nd 0\ni 0\nd 1\ni 1\nend\n",
        "",
    ),
    (
        Kind::Certificate,
        "1 init 1 Init\n2 1 2 StoreStore\n3 2 3 Read\n4 3 4 LoadOp\n5 1 init LoadPast 4 1 2 3 4\n6 2 init LoadPast 4 2 3 4 2 3 4 2 3 4\ncycle init 1\n",
        "",
    ),
    (Kind::Certificate, "unwritten 12\n", ""),
    (
        Kind::Certificate,
        "1 init 1 Init\n2 1 init LoadPast 4 1 2 3 4 5 6\n3 1 2 Loadop\n",
        "BadRule line 3",
    ),
    (Kind::Evidence, TWELVE_REFUTED, ""),
    (Kind::Evidence, "order 9 8 7 6 5 4 3 2 1 12 11 10\n", ""),
    (Kind::Evidence, "unwritten 12\n", ""),
    (
        Kind::Evidence,
        "1 init 1 Init\n2 1 init LoadPast 4 1 2 3 4 5 6\ncycle 1 2\n3 1 2 Elsewhere\n",
        "BadRule line 4",
    ),
    (Kind::LogEvidence, "order 7 7' 4 3\n", ""),
    (
        Kind::LogEvidence,
        "case-read 4 7'\nin 3 4\nnosource 4\nelse\ncase-before 3 7\ncycle 3\nelse\nover 3 7' 4\ncycle 7'\n",
        "",
    ),
    (
        Kind::LogEvidence,
        "case-before 3 4\ncycle 3\nelse\ncase-read 4 5\n",
        "NoEvent line 4",
    ),
    (
        Kind::Log,
        "model pso\ninit 3 18446744073709551615\ninit 18446744073709551615 0\n0 st 3 7\n2 ld 18446744073709551615 9\n0 mb\n2 stbar\n2 st 5 1\n0 sw 3 18446744073709551614 7\n2 st 0 0\n1 un 5\n",
        "3 Pso [(3, 18446744073709551615), (18446744073709551615, 0)]: 4 6 9 5 7 10",
    ),
    (
        Kind::Log,
        "# a run\nmodel pso # weaker\ninit 0xff 2\ninit 7 0x10\ninit 255 3 # later\n1 wr 7 4\n0 dr\n0 lr 7 16\n3 last 7 4\n1 sc 0xff 9 #\nend\n",
        "2 Pso [(7, 16), (255, 3)]: 8 6 10",
    ),
];

/// Reads a text and prints it back, once more where an allocation was refused: the reader says so of line 0, and so does a
/// printer.
fn back_again(alloc: Global, kind: Kind, text: &str) -> Result<String, AllocError> {
    match text_back(alloc, kind, text) {
        Err(AllocError) => text_back(alloc, kind, text),
        Ok(back) => {
            if back.as_str() == "OutOfMemory line 0" {
                text_back(alloc, kind, text)
            } else {
                Ok(back)
            }
        }
    }
}

/// `rt try --test --fail-alloc N` refuses the Nth allocation.
#[test]
fn refused_allocations_of_texts(rt: HostRuntime) -> Result<(), Fail> {
    for (kind, text, expected) in &AGAIN {
        let back = back_again(rt.alloc(), *kind, text)?;
        expect_equal((*kind, text), back.as_str(), expected_of(text, expected))?;
    }
    Ok(())
}
