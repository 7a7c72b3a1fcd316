ghost use Rattle.std.specs.Prelude.{◌≡◌, ◌≢◌, ◌∷◌, Result, IfOk, IfErr};
ghost use Rattle.line_text.specs.Lines.{tokens_of, tokens_after};
ghost use Rattle.tso_cert.specs.Internal.LineValues.{cert_line_said, step_said};
ghost use Rattle.tso_cert.specs.declared.faults.CertificateRefusal.{CertificateRefusal};

use crate::faults::CertificateRefusal;
use crate::lists::NumList;
use crate::parts::{read_edge, read_reason, read_unwritten};
use crate::steps::CertStep;
use crate::tokens::events;
use line_text::next_token;
use std::alloc::Global;

/// What a line of a certificate says.
#[derive(Drop)]
pub(crate) enum Line {
    Step(CertStep),
    Cycle(NumList),
    Unwritten(u64),
}

/// What the line of this number says, or its fault.
#[tactic(auto, unfolding(crate::specs::Internal::LineValues::cert_line_said))]
pub(crate) fn read_line(
    alloc: Global,
    number: usize,
    line: &[u8],
) -> Result<Line, CertificateRefusal>
    ensures found { IfOk result (λ l. cert_line_said number (tokens_of line.now) ≡ Result.Ok l) }
    ensures refused { IfErr result (λ why. why ≢ CertificateRefusal.OutOfMemory → cert_line_said number (tokens_of line.now) ≡ Result.Err why) }
{
    let (word, tokens) = next_token(line);
    if word == b"cycle".as_slice() {
        let cycle = events(alloc, tokens)?;
        Ok(Line::Cycle(NumList::new(cycle)))
    } else if word == b"unwritten".as_slice() {
        let n = read_unwritten(number, tokens)?;
        Ok(Line::Unwritten(n))
    } else {
        let step = read_step(alloc, number, word, tokens)?;
        Ok(Line::Step(step))
    }
}

/// The step of a line, of its first token and the tokens after it.
#[tactic(auto, unfolding(crate::specs::Internal::LineValues::step_said))]
fn read_step(
    alloc: Global,
    number: usize,
    first: &[u8],
    tokens: Option<&[u8]>,
) -> Result<CertStep, CertificateRefusal>
    ensures found { IfOk result (λ step. step_said number (first.now ∷ tokens_after tokens.entry) ≡ Result.Ok step) }
    ensures refused { IfErr result (λ why. why ≢ CertificateRefusal.OutOfMemory → step_said number (first.now ∷ tokens_after tokens.entry) ≡ Result.Err why) }
{
    let (from, to, name, rest) = read_edge(number, first, tokens)?;
    let reason = read_reason(alloc, name, rest)?;
    Ok(CertStep { from, to, reason })
}
