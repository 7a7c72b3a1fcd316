//! Texts with many equal lines.

use std::alloc::{AllocError, Global};

/// A prefix, many times the same line, and an ending. The error is that memory ran out.
pub fn repeated(
    alloc: Global,
    prefix: &str,
    line: &str,
    count: usize,
    back: &str,
) -> Result<String, AllocError> {
    let mut text = String::from_str(alloc, prefix)?;
    for _ in 0..count {
        text.push_str(line)?;
    }
    text.push_str(back)?;
    Ok(text)
}
