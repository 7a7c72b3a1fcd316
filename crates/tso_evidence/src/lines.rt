ghost use Rattle.std.specs.Prelude.{◌≡◌, ◌≢◌, ◌+◌, ◌<◌, ◌^◌, ◌∷◌, Result, IfOk, IfErr};
ghost use Rattle.line_text.specs.Lines.{tokens_of, tokens_after};
ghost use Rattle.tso_cert.specs.declared.faults.CertificateRefusal.{CertificateRefusal};
ghost use Rattle.tso_evidence.specs.Printed.{number_after};
ghost use Rattle.tso_evidence.specs.Internal.LineValues.{evidence_line_said, order_said, numbered_said, named_said};

use crate::refutations::RefutationLine;
use line_text::next_token;
use std::alloc::Global;
use tso_cert::parts::{read_edge, read_reason, read_unwritten};
use tso_cert::tokens::{base_rule, events};
use tso_cert::{CertStep, CertificateRefusal, NumList, Reason};

/// What a line of evidence says.
#[derive(Drop)]
pub(crate) enum Line {
    Refuting(RefutationLine),
    Unwritten(u64),
    Order(NumList),
}

/// The number of the next line, where this line has `number`, or is a cycle, which has none and leaves it to the next.
pub(crate) fn number_after(number: usize, line: &RefutationLine) -> usize
    requires { number + 1 < 2 ^ 64 }
    ensures { result ≡ number_after number line.now }
{
    match line {
        RefutationLine::Cycle(_) => number,
        _ => number + 1,
    }
}

/// What this line of the text says, or its fault; `number` is that of its step, case or other side, where it is one.
#[tactic(auto, unfolding(crate::specs::Internal::LineValues::evidence_line_said))]
pub(crate) fn read_line(
    alloc: Global,
    line: usize,
    number: usize,
    bytes: &[u8],
) -> Result<Line, CertificateRefusal>
    ensures found { IfOk result (λ l. evidence_line_said line number (tokens_of bytes.now) ≡ Result.Ok l) }
    ensures refused { IfErr result (λ why. why ≢ CertificateRefusal.OutOfMemory → evidence_line_said line number (tokens_of bytes.now) ≡ Result.Err why) }
{
    let (word, tokens) = next_token(bytes);
    if word == b"cycle".as_slice() {
        let cycle = events(alloc, tokens)?;
        Ok(Line::Refuting(RefutationLine::Cycle(NumList::new(cycle))))
    } else if word == b"unwritten".as_slice() {
        let n = read_unwritten(line, tokens)?;
        Ok(Line::Unwritten(n))
    } else if word == b"order".as_slice() {
        let numbers = read_order(alloc, line, tokens)?;
        Ok(Line::Order(numbers))
    } else {
        let refuting = read_numbered(alloc, number, word, tokens)?;
        Ok(Line::Refuting(refuting))
    }
}

/// The events of a line `order`, of the tokens after the keyword.
#[tactic(auto, unfolding(crate::specs::Internal::LineValues::order_said))]
fn read_order(
    alloc: Global,
    line: usize,
    tokens: Option<&[u8]>,
) -> Result<NumList, CertificateRefusal>
    ensures found { IfOk result (λ numbers. order_said line (tokens_after tokens.entry) ≡ Result.Ok numbers) }
    ensures refused { IfErr result (λ why. why ≢ CertificateRefusal.OutOfMemory → order_said line (tokens_after tokens.entry) ≡ Result.Err why) }
{
    if line != 1 {
        return Err(CertificateRefusal::BadLine);
    }
    let numbers = events(alloc, tokens)?;
    Ok(NumList::new(numbers))
}

/// The step, case or other side of this number, of the first token of its line and the tokens after it.
#[tactic(auto, unfolding(crate::specs::Internal::LineValues::numbered_said))]
fn read_numbered(
    alloc: Global,
    number: usize,
    first: &[u8],
    tokens: Option<&[u8]>,
) -> Result<RefutationLine, CertificateRefusal>
    ensures found { IfOk result (λ l. numbered_said number (first.now ∷ tokens_after tokens.entry) ≡ Result.Ok l) }
    ensures refused { IfErr result (λ why. why ≢ CertificateRefusal.OutOfMemory →
        numbered_said number (first.now ∷ tokens_after tokens.entry) ≡ Result.Err why) }
{
    let (from, to, name, rest) = read_edge(number, first, tokens)?;
    read_named(alloc, from, to, name, rest)
}

/// The line from one event to another of this name and the tokens after it: a case, its other side, or a step by a rule.
#[tactic(auto, unfolding(crate::specs::Internal::LineValues::named_said, tso_cert::specs::Internal::LineValues::reason_said))]
fn read_named(
    alloc: Global,
    from: u64,
    to: u64,
    name: &[u8],
    tokens: Option<&[u8]>,
) -> Result<RefutationLine, CertificateRefusal>
    ensures found { IfOk result (λ l. named_said from to name.now (tokens_after tokens.entry) ≡ Result.Ok l) }
    ensures refused { IfErr result (λ why. why ≢ CertificateRefusal.OutOfMemory → named_said from to name.now (tokens_after tokens.entry) ≡ Result.Err why) }
{
    let (first, second) = (from, to);
    match tokens {
        None if name == b"Case".as_slice() => Ok(RefutationLine::Case { first, second }),
        None if name == b"Else".as_slice() => Ok(RefutationLine::Else { first, second }),
        None => {
            let reason = Reason::Base(base_rule(name)?);
            Ok(RefutationLine::Step(CertStep { from, to, reason }))
        }
        Some(_) => {
            let reason = read_reason(alloc, name, tokens)?;
            Ok(RefutationLine::Step(CertStep { from, to, reason }))
        }
    }
}
