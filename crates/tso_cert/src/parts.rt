//! Parts of the lines of a certificate, which other texts have too: read, and printed.
ghost use Rattle.std.specs.Prelude.{◌≡◌, ◌≢◌, ◌++◌, ◌∷◌, All, Result, string_bytes, OnOk, IfOk, IfErr};
ghost use Rattle.std.specs.List.{flat_map};
ghost use Rattle.line_text.specs.Lines.{tokens_after};
ghost use Rattle.tso_cert.specs.Printed.{event_text, reason_tokens, Fits, ReasonFits};
ghost use Rattle.tso_cert.specs.Internal.LineValues.{edge_said, unwritten_said, reason_said};
ghost use Rattle.tso_cert.specs.declared.faults.CertificateRefusal.{CertificateRefusal};

use crate::faults::{CertificateRefusal, OutOfMemory};
use crate::lists::NumList;
use crate::steps::Reason;
use crate::tokens::{base_rule, event, events, inferred_rule, is_decimal, token_of};
use line_text::next_token;
use std::alloc::Global;

/// The load of a line `unwritten`, of the tokens after the keyword.
#[tactic(auto, unfolding(crate::specs::Internal::LineValues::unwritten_said))]
pub fn read_unwritten(number: usize, tokens: Option<&[u8]>) -> Result<u64, CertificateRefusal>
    ensures { result ≡ unwritten_said number (tokens_after tokens.entry) }
{
    let (token, rest) = token_of(tokens)?;
    match rest {
        None if number == 1 => event(token),
        None => Err(CertificateRefusal::BadLine),
        Some(_) => Err(CertificateRefusal::BadLine),
    }
}

/// The reason of the name of a rule and the tokens after it.
#[tactic(auto, unfolding(crate::specs::Internal::LineValues::reason_said))]
pub fn read_reason(
    alloc: Global,
    name: &[u8],
    tokens: Option<&[u8]>,
) -> Result<Reason, CertificateRefusal>
    ensures found { IfOk result (λ reason. reason_said name.now (tokens_after tokens.entry) ≡ Result.Ok reason) }
    ensures refused { IfErr result (λ why. why ≢ CertificateRefusal.OutOfMemory → reason_said name.now (tokens_after tokens.entry) ≡ Result.Err why) }
{
    match tokens {
        None => Ok(Reason::Base(base_rule(name)?)),
        Some(line) => {
            let (load, path) = next_token(line);
            let load = event(load)?;
            let path = NumList::new(events(alloc, path)?);
            let rule = inferred_rule(name)?;
            Ok(Reason::Inferred { rule, load, path })
        }
    }
}

/// The two events of a line with this number, its name and the tokens after that, of its first token and those after it.
#[tactic(auto, unfolding(crate::specs::Internal::LineValues::edge_said))]
pub fn read_edge<'a>(
    number: usize,
    first: &[u8],
    tokens: Option<&'a [u8]>,
) -> Result<(u64, u64, &'a [u8], Option<&'a [u8]>), CertificateRefusal>
    ensures found { IfOk result (λ e. edge_said number (first.now ∷ tokens_after tokens.entry) ≡ Result.Ok (e.0, e.1, e.2.now, tokens_after e.3)) }
    ensures refused { IfErr result (λ why. edge_said number (first.now ∷ tokens_after tokens.entry) ≡ Result.Err why) }
{
    let (from, rest) = token_of(tokens)?;
    let (to, rest) = token_of(rest)?;
    let (name, rest) = token_of(rest)?;
    if !is_decimal(first, number) {
        return Err(CertificateRefusal::BadNumber);
    }
    let from = event(from)?;
    let to = event(to)?;
    Ok((from, to, name, rest))
}

/// Appends the tokens of a reason, each after a space.
pub fn print_reason(text: &mut String, reason: &Reason) -> Result<(), OutOfMemory>
    ensures tokens { OnOk result (string_bytes text.new ≡ string_bytes text.old ++ flat_map (λ token. 32 ∷ token) (reason_tokens reason.now)) }
    ensures fits { OnOk result (ReasonFits reason.now) }
{
    match reason {
        Reason::Base(rule) => write!(text, " {}", rule.name()),
        Reason::Inferred { rule, load, path } => {
            write!(text, " {}", rule.name())?;
            print_event(text, *load)?;
            print_events(text, path.items())
        }
    }
}

/// Appends a space and the event number, for each of them.
pub fn print_events(text: &mut String, numbers: &[u64]) -> Result<(), OutOfMemory>
    ensures tokens { OnOk result (string_bytes text.new ≡ string_bytes text.old ++ flat_map (λ n. 32 ∷ event_text n) numbers.now) }
    ensures fits { OnOk result (All Fits numbers.now) }
{
    for number in numbers {
        print_event(text, *number)?;
    }
    Ok(())
}

/// Appends a space and the event number.
pub fn print_event(text: &mut String, number: u64) -> Result<(), OutOfMemory>
    ensures token { OnOk result (string_bytes text.new ≡ string_bytes text.old ++ 32 ∷ event_text number) }
    ensures fits { Fits number }
{
    match number {
        0 => text.push_str(" init"),
        _ => write!(text, " {number}"),
    }
}
