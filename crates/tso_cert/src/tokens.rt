//! Tokens of the lines of a certificate, and their values. Other texts with such lines read them too.
ghost use Rattle.std.specs.Prelude.{◌≡◌, ◌≢◌, [], ◌∷◌, Result, IfOk, IfErr};
ghost use Rattle.std.specs.Str.{bytes_eq};
ghost use Rattle.std.specs.Fmt.{decimal};
ghost use Rattle.line_text.specs.Lines.{tokens_after};
ghost use Rattle.tso_cert.specs.Internal.LineValues.{event_number, event, events, base_rule, inferred_rule};
ghost use Rattle.tso_cert.specs.declared.faults.CertificateRefusal.{CertificateRefusal};

use crate::faults::CertificateRefusal;
use crate::rules::{BaseRule, InferredRule};
use line_text::{next_token, number_of};
use std::alloc::Global;

/// The next token, and what stands after its space; BadLine where there is none.
pub(crate) fn token_of(tokens: Option<&[u8]>) -> Result<(&[u8], Option<&[u8]>), CertificateRefusal>
    ensures found { IfOk result (λ found. tokens_after tokens.entry ≡ found.0.now ∷ tokens_after found.1) }
    ensures none { IfErr result (λ why. (tokens_after tokens.entry ≡ []) × (why ≡ CertificateRefusal.BadLine)) }
{
    match tokens {
        None => Err(CertificateRefusal::BadLine),
        Some(line) => Ok(next_token(line)),
    }
}

/// Whether a token is this number in decimal.
pub(crate) fn is_decimal(token: &[u8], number: usize) -> bool
    ensures { result ≡ bytes_eq token.now (decimal number) }
{
    number_of(token) == Some(number as u64)
}

/// The event number that a token spells.
fn event_number(token: &[u8]) -> Option<u64>
    ensures { result ≡ event_number token.now }
{
    if token == b"init".as_slice() {
        return Some(0);
    }
    match number_of(token) {
        Some(0) | None => None,
        Some(n) => Some(n),
    }
}

/// The event number that a token spells, or BadNumber.
pub(crate) fn event(token: &[u8]) -> Result<u64, CertificateRefusal>
    ensures { result ≡ event token.now }
{
    event_number(token).ok_or(CertificateRefusal::BadNumber)
}

/// The event numbers of all these tokens, or BadNumber.
pub fn events(alloc: Global, tokens: Option<&[u8]>) -> Result<Vec<u64>, CertificateRefusal>
    ensures found { IfOk result (λ numbers. events (tokens_after tokens.entry) ≡ Result.Ok numbers.items) }
    ensures refused { IfErr result (λ why. why ≢ CertificateRefusal.OutOfMemory → events (tokens_after tokens.entry) ≡ Result.Err why) }
{
    let mut numbers = Vec::new(alloc);
    let mut left = tokens;
    'tokens: while let Some(line) = left {
        let (token, rest) = next_token(line);
        numbers.push(event(token)?)?;
        left = rest;
    }
    Ok(numbers)
}

/// The base rule of this name, or BadRule.
pub fn base_rule(name: &[u8]) -> Result<BaseRule, CertificateRefusal>
    ensures { result ≡ base_rule name.now }
{
    for k in 0..BaseRule::ALL.len() {
        let rule = BaseRule::ALL[k];
        if name == rule.name().as_bytes() {
            return Ok(rule);
        }
    }
    Err(CertificateRefusal::BadRule)
}

/// The inferred rule of this name, or BadRule.
pub(crate) fn inferred_rule(name: &[u8]) -> Result<InferredRule, CertificateRefusal>
    ensures { result ≡ inferred_rule name.now }
{
    for k in 0..InferredRule::ALL.len() {
        let rule = InferredRule::ALL[k];
        if name == rule.name().as_bytes() {
            return Ok(rule);
        }
    }
    Err(CertificateRefusal::BadRule)
}
