//! What a line says.
ghost use Rattle.std.specs.Prelude.{◌≡◌, ◌≢◌, ◌∷◌, [], Result, IfOk, IfErr, OnOk};
ghost use Rattle.line_text.specs.Lines.{SomeToken, tokens_of, tokens_after};
ghost use Rattle.value_texts.specs.declared.refusals.ValueTextRefusal.{ValueTextRefusal};
ghost use Rattle.value_texts.specs.Internal.LineValues.{one_said, pair_said, three_said, read_said, events_said, evidence_line_said, order_said, refuting_said, step_said, word_said};
ghost use Rattle.value_texts.specs.Internal.ReadTexts.{said_of};

use crate::refusals::ValueTextRefusal;
use crate::tables::NumberedNames;
use crate::words::{StepWord, Word};
use line_text::next_token;
use std::alloc::Global;
use value_evidence::{ValueEnd, ValueRefutationLine, ValueStep};

/// What a line of evidence says.
#[derive(Drop)]
pub(crate) enum Line {
    Refuting(ValueRefutationLine),
    Order(Vec<usize>),
}

/// What the line of this number says, or its fault.
#[tactic(auto, unfolding(crate::specs::Internal::LineValues::evidence_line_said))]
pub(crate) fn read_line(
    alloc: Global,
    names: &NumberedNames<'_>,
    number: usize,
    bytes: &[u8],
) -> Result<Line, ValueTextRefusal>
    ensures found { IfOk result (λ line. evidence_line_said names.now number (tokens_of bytes.now) ≡ Result.Ok (said_of line)) }
    ensures refused { IfErr result (λ why. why ≢ ValueTextRefusal.OutOfMemory →
        evidence_line_said names.now number (tokens_of bytes.now) ≡ Result.Err why) }
{
    let (first, tokens) = next_token(bytes);
    if first == b"order".as_slice() {
        let numbers = read_order(alloc, names, number, tokens)?;
        Ok(Line::Order(numbers))
    } else {
        let refuting = read_refuting(names, first, tokens)?;
        Ok(Line::Refuting(refuting))
    }
}

/// The events of a line `order` of this number, of the tokens after its word.
#[tactic(auto, unfolding(crate::specs::Internal::LineValues::order_said))]
fn read_order(
    alloc: Global,
    names: &NumberedNames<'_>,
    number: usize,
    tokens: Option<&[u8]>,
) -> Result<Vec<usize>, ValueTextRefusal>
    ensures found { IfOk result (λ numbers. order_said names.now number (tokens_after tokens.entry) ≡ Result.Ok numbers.items) }
    ensures refused { IfErr result (λ why. why ≢ ValueTextRefusal.OutOfMemory →
        order_said names.now number (tokens_after tokens.entry) ≡ Result.Err why) }
{
    if number != 1 {
        return Err(ValueTextRefusal::BadLine);
    }
    read_events(alloc, names, tokens)
}

/// The events that tokens name, in their order.
fn read_events(
    alloc: Global,
    names: &NumberedNames<'_>,
    tokens: Option<&[u8]>,
) -> Result<Vec<usize>, ValueTextRefusal>
    ensures found { IfOk result (λ numbers. events_said names.now (tokens_after tokens.entry) ≡ Result.Ok numbers.items) }
    ensures refused { IfErr result (λ why. why ≢ ValueTextRefusal.OutOfMemory → events_said names.now (tokens_after tokens.entry) ≡ Result.Err why) }
{
    let mut numbers = Vec::new(alloc);
    let mut left = tokens;
    'tokens: while let Some(line) = left {
        let (token, rest) = next_token(line);
        numbers.push(names.event(token)?)?;
        left = rest;
    }
    Ok(numbers)
}

/// What a line of a refutation says, by its first token and those after it.
fn read_refuting(
    names: &NumberedNames<'_>,
    first: &[u8],
    tokens: Option<&[u8]>,
) -> Result<ValueRefutationLine, ValueTextRefusal>
    ensures { result ≡ refuting_said names.now first.now (tokens_after tokens.entry) }
{
    match Word::of(first) {
        Some(word) => read_word(names, word, tokens),
        None => Err(ValueTextRefusal::BadLine),
    }
}

/// What the line of this word and these tokens says, or its fault.
#[tactic(auto, unfolding(crate::specs::Internal::LineValues::word_said))]
fn read_word(
    names: &NumberedNames<'_>,
    word: Word,
    tokens: Option<&[u8]>,
) -> Result<ValueRefutationLine, ValueTextRefusal>
    ensures { result ≡ word_said names.now word (tokens_after tokens.entry) }
{
    match word {
        Word::Step(word) => Ok(ValueRefutationLine::Step(read_step(names, word, tokens)?)),
        Word::CaseRead => {
            let (load, source) = read_read(names, tokens)?;
            Ok(ValueRefutationLine::ReadCase { load, source })
        }
        Word::CaseBefore => {
            let (first, second) = read_pair(names, tokens)?;
            Ok(ValueRefutationLine::BeforeCase { first, second })
        }
        Word::Else => {
            finish(tokens)?;
            Ok(ValueRefutationLine::Else)
        }
        Word::NoSource => {
            let end = ValueEnd::NoSource(read_one(names, tokens)?);
            Ok(ValueRefutationLine::End(end))
        }
        Word::Cycle => {
            let end = ValueEnd::Cycle(read_one(names, tokens)?);
            Ok(ValueRefutationLine::End(end))
        }
    }
}

/// The step of this word and these tokens, or the fault of its line.
#[tactic(auto, unfolding(crate::specs::Internal::LineValues::step_said))]
fn read_step(
    names: &NumberedNames<'_>,
    word: StepWord,
    tokens: Option<&[u8]>,
) -> Result<ValueStep, ValueTextRefusal>
    ensures { result ≡ step_said names.now word (tokens_after tokens.entry) }
{
    match word {
        StepWord::Read => {
            let (load, source) = read_read(names, tokens)?;
            Ok(ValueStep::Read { load, source })
        }
        StepWord::In => {
            let (from, load) = read_pair(names, tokens)?;
            Ok(ValueStep::In { from, load })
        }
        StepWord::Out => {
            let (load, to) = read_pair(names, tokens)?;
            Ok(ValueStep::Out { load, to })
        }
        StepWord::Over => {
            let (from, to, load) = read_three(names, tokens)?;
            Ok(ValueStep::Over { from, to, load })
        }
        StepWord::After => {
            let (swap, to) = read_pair(names, tokens)?;
            Ok(ValueStep::SwapAfter { swap, to })
        }
        StepWord::Before => {
            let (from, swap) = read_pair(names, tokens)?;
            Ok(ValueStep::SwapBefore { from, swap })
        }
    }
}

/// The event of a line of one, of the tokens after its word.
#[tactic(auto, unfolding(crate::specs::Internal::LineValues::one_said))]
fn read_one(names: &NumberedNames<'_>, tokens: Option<&[u8]>) -> Result<usize, ValueTextRefusal>
    ensures { result ≡ one_said names.now (tokens_after tokens.entry) }
{
    let (token, rest) = next(tokens)?;
    finish(rest)?;
    names.event(token)
}

/// The events of a line of two.
#[tactic(auto, unfolding(crate::specs::Internal::LineValues::pair_said))]
fn read_pair(
    names: &NumberedNames<'_>,
    tokens: Option<&[u8]>,
) -> Result<(usize, usize), ValueTextRefusal>
    ensures { result ≡ pair_said names.now (tokens_after tokens.entry) }
{
    let (first, rest) = next(tokens)?;
    let (second, rest) = next(rest)?;
    finish(rest)?;
    Ok((names.event(first)?, names.event(second)?))
}

/// The events of a line of three.
#[tactic(auto, unfolding(crate::specs::Internal::LineValues::three_said))]
fn read_three(
    names: &NumberedNames<'_>,
    tokens: Option<&[u8]>,
) -> Result<(usize, usize, usize), ValueTextRefusal>
    ensures { result ≡ three_said names.now (tokens_after tokens.entry) }
{
    let (first, rest) = next(tokens)?;
    let (second, rest) = next(rest)?;
    let (third, rest) = next(rest)?;
    finish(rest)?;
    Ok((
        names.event(first)?,
        names.event(second)?,
        names.event(third)?,
    ))
}

/// The load and the source of a line `read` or `case-read`.
#[tactic(auto, unfolding(crate::specs::Internal::LineValues::read_said))]
fn read_read(
    names: &NumberedNames<'_>,
    tokens: Option<&[u8]>,
) -> Result<(usize, usize), ValueTextRefusal>
    ensures { result ≡ read_said names.now (tokens_after tokens.entry) }
{
    let (load, rest) = next(tokens)?;
    let (source, rest) = next(rest)?;
    finish(rest)?;
    Ok((names.event(load)?, names.source(source)?))
}

/// The next token, and what stands after its space; BadLine where there is none.
fn next(tokens: Option<&[u8]>) -> Result<(&[u8], Option<&[u8]>), ValueTextRefusal>
    ensures found { IfOk result (λ found. tokens_after tokens.entry ≡ found.0.now ∷ tokens_after found.1) }
    ensures none { IfErr result (λ why. (tokens_after tokens.entry ≡ []) × (why ≡ ValueTextRefusal.BadLine)) }
{
    match tokens {
        None => Err(ValueTextRefusal::BadLine),
        Some(line) => Ok(next_token(line)),
    }
}

/// BadLine where more tokens stand.
fn finish(tokens: Option<&[u8]>) -> Result<(), ValueTextRefusal>
    ensures found { OnOk result (tokens_after tokens.entry ≡ []) }
    ensures more { IfErr result (λ why. SomeToken (tokens_after tokens.entry) × (why ≡ ValueTextRefusal.BadLine)) }
{
    match tokens {
        None => Ok(()),
        Some(_) => Err(ValueTextRefusal::BadLine),
    }
}
