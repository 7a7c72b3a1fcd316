//! What a line says of its processor.
ghost use Rattle.std.specs.Prelude.{◌≡◌, ◌∷◌, [], IfOk, IfSome, is_some};
ghost use Rattle.line_text.specs.Lines.{tokens_after};
ghost use Rattle.run_lines.specs.Arguments.{place_and_value};
ghost use Rattle.run_lines.specs.Lines.{drain_said, is_access, numbers_said, step_left, numbers_of_step, step_word, with_place, word_of_drain};

use crate::arguments::{Widths, nothing, place_alone, place_and_value, place_and_values};
use line_text::next_token;
use run_steps::{Place, RunStep};
use tso_text::Why;

/// The step that a keyword and the parts after it say.
#[tactic(auto, unfolding(crate::specs::Lines::numbers_said))]
pub(crate) fn step_said(before: Widths, word: &[u8], parts: Option<&[u8]>) -> Result<RunStep, Why>
    ensures numbers { step_left result ≡ numbers_said before word.now (tokens_after parts.entry) }
    ensures word { IfOk result (λ step. step_word step ≡ word.now) }
{
    if is_access(word) {
        let (place, value) = place_and_value(before, parts)?;
        return access(word, place, value).ok_or(Why::BadLine);
    }
    if word == b"dr".as_slice() {
        drain_said(before, parts)
    } else if word == b"sw".as_slice() {
        let (place, read, value) = place_and_values(before, parts)?;
        Ok(RunStep::Swap { place, read, value })
    } else if word == b"un".as_slice() {
        let place = place_alone(before, parts)?;
        Ok(RunStep::Unknown { place })
    } else if word == b"mb".as_slice() {
        nothing(parts)?;
        Ok(RunStep::Membar)
    } else if word == b"stbar".as_slice() {
        nothing(parts)?;
        Ok(RunStep::Stbar)
    } else {
        Err(Why::BadLine)
    }
}

/// Whether a place and a value stand after a keyword.
fn is_access(word: &[u8]) -> bool
    ensures { result ≡ is_access word.now }
{
    word == b"ld".as_slice()
        || word == b"st".as_slice()
        || word == b"wr".as_slice()
        || word == b"lr".as_slice()
        || word == b"sc".as_slice()
        || word == b"last".as_slice()
}

/// The step of a keyword after which a place and a value stand.
fn access(word: &[u8], place: Place, value: u64) -> Option<RunStep>
    ensures known { is_some result ≡ is_access word.now }
    ensures word { IfSome result (λ step. step_word step ≡ word.now) }
    ensures numbers { IfSome result (λ step. numbers_of_step step ≡ with_place place (value ∷ [])) }
{
    if word == b"ld".as_slice() {
        Some(RunStep::Load { place, value })
    } else if word == b"st".as_slice() {
        Some(RunStep::Store { place, value })
    } else if word == b"wr".as_slice() {
        Some(RunStep::Write { place, value })
    } else if word == b"lr".as_slice() {
        Some(RunStep::Reserve { place, value })
    } else if word == b"sc".as_slice() {
        Some(RunStep::StoreReserved { place, value })
    } else if word == b"last".as_slice() {
        Some(RunStep::Last { place, value })
    } else {
        None
    }
}

/// A drain, of any store, of one at a place, or of one at a place with a value.
fn drain_said(before: Widths, parts: Option<&[u8]>) -> Result<RunStep, Why>
    ensures numbers { step_left result ≡ drain_said before (tokens_after parts.entry) }
    ensures word { IfOk result (λ step. step_word step ≡ word_of_drain) }
{
    let Some(rest) = parts else {
        return Ok(RunStep::Drain {
            at: None,
            value: None,
        });
    };
    match next_token(rest).1 {
        None => {
            let place = place_alone(before, parts)?;
            Ok(RunStep::Drain {
                at: Some(place),
                value: None,
            })
        }
        Some(_) => drain_of_value(before, parts),
    }
}

/// A drain of a store at a place, with its value.
fn drain_of_value(before: Widths, parts: Option<&[u8]>) -> Result<RunStep, Why>
    ensures numbers { step_left result ≡ place_and_value before (tokens_after parts.entry) }
    ensures word { IfOk result (λ step. step_word step ≡ word_of_drain) }
{
    let (place, value) = place_and_value(before, parts)?;
    Ok(RunStep::Drain {
        at: Some(place),
        value: Some(value),
    })
}
