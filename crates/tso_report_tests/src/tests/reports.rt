//! What no text of a trace shows of reports: readers and writers that fail, a trace by value, refused
//! allocations, and campaigns. Reports of texts and of certificates are in `program-cases/` and `examples/`.

mod by_value;
mod campaigns;
mod readers;
mod refused_allocations;
mod texts;
mod writers;

use std::process::Abort;
use tso_report::{Fault, Verdict};

/// What a call came to, and what was written.
#[derive(Drop)]
struct Ended {
    said: Result<Verdict, Fault>,
    written: Vec<u8>,
}

/// Compares the bytes of this case.
fn expect_bytes<H: Abort>(rt: &H, case: &str, found: &[u8], expected: &[u8]) {
    assert_eq!(rt; found, expected, "{case}");
}

/// Compares what a call of this case came to, and what it wrote.
fn expect<H: Abort>(
    rt: &H,
    case: &str,
    ended: &Ended,
    said: Result<Verdict, Fault>,
    written: &str,
) {
    assert_eq!(rt; ended.said, said, "{case}");
    expect_bytes(rt, case, &ended.written, written.as_bytes());
}

/// Compares a number of this case, of calls or of bytes.
fn expect_count<H: Abort>(rt: &H, case: &str, found: usize, expected: usize) {
    assert_eq!(rt; found, expected, "{case}");
}
