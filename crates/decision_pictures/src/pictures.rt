//! The pictures of evidence, and of none.
ghost use Rattle.std.specs.Prelude.{◌≡◌, ◌++◌, string_bytes, OnOk};
ghost use Rattle.decision_pictures.specs.Pictures.{evidence_picture, refutation_picture, undecided_picture};

use decision_explanation::certificate_of;
use std::alloc::Global;
use trace_pictures::{Caption, draw, draw_numbered};
use tso_cert::Certificate;
use tso_evidence::{Evidence, RefutationLine};
use tso_ops::{OutOfMemory, Trace};

/// Appends the picture of a trace by evidence on it, whether or not that holds: with an order, each drawn event that stands in
/// it has the number of its place, from 1. Numbers of no events change nothing.
///
/// OutOfMemory where an allocation was refused.
pub fn draw_evidence(
    alloc: Global,
    text: &mut String,
    trace: &Trace,
    evidence: &Evidence,
) -> Result<(), OutOfMemory>
    ensures { OnOk result (string_bytes text.new ≡ string_bytes text.old ++ evidence_picture trace.now evidence.now) }
{
    match evidence {
        Evidence::Unwritten(n) => {
            draw(alloc, text, trace, &Some(Certificate::Unwritten(*n)))?;
        },
        Evidence::Order(order) => {
            draw_numbered(alloc, text, trace, order.items(), Caption::Consistent)?;
        },
        Evidence::Refutation(lines) => draw_refutation(alloc, text, trace, lines.items())?,
    }
    Ok(())
}

/// Appends the picture of a trace by the lines of a refutation. OutOfMemory where an allocation was refused.
fn draw_refutation(
    alloc: Global,
    text: &mut String,
    trace: &Trace,
    lines: &[RefutationLine],
) -> Result<(), OutOfMemory>
    ensures { OnOk result (string_bytes text.new ≡ string_bytes text.old ++ refutation_picture trace.now lines.now) }
{
    match certificate_of(alloc, lines)? {
        Some(certificate) => draw(alloc, text, trace, &Some(certificate))?,
        None => draw_numbered(alloc, text, trace, &[], Caption::Refuted)?,
    }
    Ok(())
}

/// Appends the picture of a trace of which neither an order nor a refutation was found.
///
/// OutOfMemory where an allocation was refused.
pub fn draw_undecided(alloc: Global, text: &mut String, trace: &Trace) -> Result<(), OutOfMemory>
    ensures { OnOk result (string_bytes text.new ≡ string_bytes text.old ++ undecided_picture trace.now) }
{
    draw_numbered(alloc, text, trace, &[], Caption::Undecided)?;
    Ok(())
}
