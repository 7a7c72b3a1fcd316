//! Lines that say which operations a small trace has, and how the search for it went.
ghost use Rattle.std.specs.Prelude.{◌≡◌, ◌++◌, ℕ, List, IfOk, OnOk, string_bytes};
ghost use Rattle.trace_reduction.specs.Remarks.{remark_text};

use log_search::Effort;
use std::alloc::{AllocError, Global};
use std::fmt::Write;
use tso_ops::{Outcome, Trace};
use tso_text::print_outcome;

/// What is to be said of the search for a small trace.
#[derive(Clone, Copy)]
pub(crate) enum Remark {
    /// Nothing: no operation can be left out.
    Nothing,
    /// It ended after so many trials, since its effort was spent.
    EndedEarly {
        /// How many traces were judged.
        trials: usize,
    },
    /// What it found failed the check, so that the whole trace is printed.
    FailedCheck,
}

impl Remark {
    /// On a small trace that the search found with this effort.
    pub(crate) fn on_small(effort: Effort) -> Remark {
        if effort.is_spent() {
            Remark::EndedEarly {
                trials: effort.trials(),
            }
        } else {
            Remark::Nothing
        }
    }

    /// On the whole trace that stands for a small one: nothing was searched, or what was found failed the check.
    pub(crate) fn on_whole(effort: Effort) -> Remark {
        if effort.trials() == 0 {
            Remark::on_small(effort)
        } else {
            Remark::FailedCheck
        }
    }
}

/// A line for each operation of a small trace, by the lines of the whole trace's text where they stand: `line 12 P0 'st 0 1'`.
/// Then what is to be said of the search, in a line. OutOfMemory where an allocation was refused.
pub(crate) fn render_notes(
    alloc: Global,
    trace: &Trace,
    lines: &[Vec<usize>],
    remark: Remark,
) -> Result<String, AllocError>
    ensures { IfOk result (λ text. (lines : List ℕ) × (string_bytes text ≡ lines ++ remark_text remark)) }
{
    let mut text = String::new(alloc);
    for p in 0..trace.processors() {
        if let Some(lines) = lines.get(p) {
            push_notes(&mut text, p, trace.ops(p), lines)?;
        }
    }
    push_remark(&mut text, remark)?;
    Ok(text)
}

/// Appends what is to be said of a search.
fn push_remark(text: &mut String, remark: Remark) -> Result<(), AllocError>
    ensures { OnOk result (string_bytes text.new ≡ string_bytes text.old ++ remark_text remark) }
{
    match remark {
        Remark::Nothing => Ok(()),
        Remark::EndedEarly { trials } => write!(
            text,
            "note: the search ended after {trials} trials; operations of this trace might be left out\n"
        ),
        Remark::FailedCheck => {
            text.push_str("note: this is the whole trace; the small one didn't pass its check\n")
        }
    }
}

/// Appends a line for each operation of a processor.
fn push_notes(
    text: &mut String,
    p: usize,
    outcomes: &[Outcome],
    lines: &[usize],
) -> Result<(), AllocError> {
    for (place, outcome) in outcomes.iter().enumerate() {
        if let Some(line) = lines.get(place) {
            write!(text, "line {line} P{p} '")?;
            print_outcome(text, *outcome)?;
            text.push_str("'\n")?;
        }
    }
    Ok(())
}
