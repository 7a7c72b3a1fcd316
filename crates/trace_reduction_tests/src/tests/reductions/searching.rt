//! Operations of logs that are left out while a judge accuses the others, and what the tests of that share.

mod fitting;
mod judges;
mod logs;
mod reductions;

use log_selections::{Kept, KnownLog};
use log_text::read_log;
use std::alloc::Global;
use std::fmt::Write;
use std::test::Fail;
use tso_ops::Part;

/// The log of a text, with what its values tell.
fn known_log(alloc: Global, text: &str) -> Result<KnownLog, Fail> {
    let log = read_log(alloc, text.as_bytes(), false)?;
    Ok(KnownLog::new(alloc, log)?)
}

/// A line of these operations: each one's processor, its index, and a letter for a part of a swap.
fn push_kept(lines: &mut String, kept: &[Vec<Kept>]) -> Result<(), Fail> {
    for (p, list) in kept.iter().enumerate() {
        for kept in list {
            let index = kept.index;
            let part = letter(kept.part);
            write!(lines, "{p}.{index}{part} ")?;
        }
    }
    lines.push_str("\n")?;
    Ok(())
}

fn letter(part: Part) -> &'static str {
    match part {
        Part::Whole => "",
        Part::SwapLoad => "l",
        Part::SwapStore => "s",
    }
}
