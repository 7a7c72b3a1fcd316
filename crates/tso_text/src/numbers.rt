ghost use Rattle.std.specs.Prelude.{◌≡◌, [], ◌∷◌, Ok, Err, MatchResult, IfOk, OnOk, IfErr};
ghost use Rattle.line_text.specs.Lines.{tokens_after, SomeToken};
ghost use Rattle.tso_text.specs.declared.faults.Why.{Why};
ghost use Rattle.tso_text.specs.Internal.LineReadings.{address};
ghost use Rattle.tso_text.specs.Numbers.{numeral, numbers};

use crate::faults::Why;
use line_text::{next_token, number_of};

/// The number that a token spells, or BadNumber.
#[tactic(auto, unfolding(line_text::specs::Numbers::number))]
fn numeral(token: &[u8]) -> Result<u64, Why>
    ensures { result ≡ numeral token.now }
{
    number_of(token).ok_or(Why::BadNumber)
}

/// The next token, and what stands after its space; BadLine where there is none.
pub(crate) fn token_of(tokens: Option<&[u8]>) -> Result<(&[u8], Option<&[u8]>), Why>
    ensures found { IfOk result (λ found. tokens_after tokens.entry ≡ found.0.now ∷ tokens_after found.1) }
    ensures none { IfErr result (λ why. (tokens_after tokens.entry ≡ []) × (why ≡ Why.BadLine)) }
{
    match tokens {
        None => Err(Why::BadLine),
        Some(line) => Ok(next_token(line)),
    }
}

/// Checks that no token stands after a keyword: `tokens` is what follows the keyword's space, or `None` where no space ends it.
///
/// The only error is BadLine, where there is a token.
#[tactic(auto, using(line_text::proofs::CutFacts::tokens_after_some), unfolding(crate::specs::Numbers::numbers))]
pub fn no_number(tokens: Option<&[u8]>) -> Result<(), Why>
    ensures is { MatchResult result (λ _. numbers 0 (tokens_after tokens.entry) ≡ Ok []) (λ why. numbers 0 (tokens_after tokens.entry) ≡ Err why) }
    ensures none { OnOk result (tokens_after tokens.entry ≡ []) }
    ensures some { IfErr result (λ why. SomeToken (tokens_after tokens.entry) × (why ≡ Why.BadLine)) }
{
    match tokens {
        None => Ok(()),
        Some(_) => Err(Why::BadLine),
    }
}

/// The number of the only token.
#[tactic(auto, unfolding(crate::specs::Numbers::numbers))]
pub fn one_number(tokens: Option<&[u8]>) -> Result<u64, Why>
    ensures { MatchResult result (λ n. numbers 1 (tokens_after tokens.entry) ≡ Ok (n ∷ [])) (λ why. numbers 1 (tokens_after tokens.entry) ≡ Err why) }
{
    let (token, rest) = token_of(tokens)?;
    no_number(rest)?;
    numeral(token)
}

/// The numbers of just two tokens after a keyword, which stand in `tokens` as for `no_number`.
///
/// Refused as BadLine where there are more or fewer tokens, and else as BadNumber where one of them is no number.
#[tactic(auto, unfolding(crate::specs::Numbers::numbers))]
pub fn two_numbers(tokens: Option<&[u8]>) -> Result<(u64, u64), Why>
    ensures { MatchResult result (λ n. numbers 2 (tokens_after tokens.entry) ≡ Ok (n.0 ∷ n.1 ∷ [])) (λ why. numbers 2 (tokens_after tokens.entry) ≡ Err why) }
{
    let (first, rest) = token_of(tokens)?;
    let (second, rest) = token_of(rest)?;
    no_number(rest)?;
    Ok((numeral(first)?, numeral(second)?))
}

/// The numbers of just three tokens after a keyword; refused as `two_numbers` refuses.
#[tactic(auto, unfolding(crate::specs::Numbers::numbers))]
pub fn three_numbers(tokens: Option<&[u8]>) -> Result<(u64, u64, u64), Why>
    ensures { MatchResult result (λ n. numbers 3 (tokens_after tokens.entry) ≡ Ok (n.0 ∷ n.1 ∷ n.2 ∷ []))
        (λ why. numbers 3 (tokens_after tokens.entry) ≡ Err why) }
{
    let (first, rest) = token_of(tokens)?;
    let (second, rest) = token_of(rest)?;
    let (third, rest) = token_of(rest)?;
    no_number(rest)?;
    Ok((numeral(first)?, numeral(second)?, numeral(third)?))
}

/// The address of 16 bits that a number is. A greater number becomes the greatest, which is past the range as well.
pub(crate) fn address(number: u64) -> u16
    ensures { result ≡ address number }
{
    u16::try_from(number).unwrap_or(u16::MAX)
}
