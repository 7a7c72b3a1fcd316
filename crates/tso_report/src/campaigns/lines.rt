//! The text of a campaign.
ghost use Rattle.std.specs.Prelude.{◌≡◌, ◌+◌, ◌++◌, ◌≤◌, ◌^◌, IfOk, length, string_bytes};
ghost use Rattle.std.specs.List.{concat, count_by};
ghost use Rattle.tso_ops.specs.Values.{rows};
ghost use Rattle.tso_report.specs.Campaigns.{campaign_total_line, seed_lines};
ghost use Rattle.tso_report.specs.Internal.Gathering.{text_by};

use super::gathering::Known;
use request_options::CampaignPrinting;
use std::alloc::Global;
use std::fmt::Write;
use trace_reports::verdict_line;
use tso_ops::OutOfMemory;

/// What is printed of the seeds from `first` on, by what is known of them.
pub(super) fn campaign_text(
    alloc: Global,
    printing: CampaignPrinting,
    first: u64,
    known: &Known,
) -> Result<Vec<u8>, OutOfMemory>
    requires { first + length known.now.violations.items ≤ 2 ^ 64 }
    ensures { IfOk result (λ text. text.items ≡ text_by printing first known.now.violations.items (rows known.now.texts.items)) }
{
    match printing {
        CampaignPrinting::Lines => Ok(lines_text(alloc, first, &known.violations)?.into_bytes()),
        CampaignPrinting::Traces => joined(alloc, &known.texts),
    }
}

/// The lines of the seeds from `first` on, of which it is told whether they are violations, and the last line.
fn lines_text(alloc: Global, first: u64, violations: &[bool]) -> Result<String, OutOfMemory>
    requires { first + length violations.now ≤ 2 ^ 64 }
    ensures { IfOk result (λ text. string_bytes text ≡ seed_lines first violations.now ++ campaign_total_line violations.now) }
{
    let mut text = seed_lines(alloc, first, violations)?;
    let seeds = violations.len();
    let found = violation_count(violations);
    write!(text, "seeds {seeds} violations {found}\n")?;
    Ok(text)
}

/// The texts, one after the other.
fn joined(alloc: Global, texts: &[Vec<u8>]) -> Result<Vec<u8>, OutOfMemory>
    ensures { IfOk result (λ text. text.items ≡ concat (rows texts.now)) }
{
    let mut joined = Vec::new(alloc);
    for text in texts {
        joined.extend_from_slice(text)?;
    }
    Ok(joined)
}

/// The lines of the seeds from `first` on.
fn seed_lines(alloc: Global, first: u64, violations: &[bool]) -> Result<String, OutOfMemory>
    requires { first + length violations.now ≤ 2 ^ 64 }
    ensures { IfOk result (λ text. string_bytes text ≡ seed_lines first violations.now) }
{
    let mut text = String::new(alloc);
    for i in 0..violations.len() {
        let seed = first + i as u64;
        let verdict = verdict_line(violations[i]);
        write!(text, "seed {seed} {verdict}")?;
    }
    Ok(text)
}

/// How many of the seeds are violations.
fn violation_count(violations: &[bool]) -> usize
    ensures { result ≡ count_by (λ violation. violation) violations.now }
{
    violations.iter().filter(|violation| **violation).count()
}
