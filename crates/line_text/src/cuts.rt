ghost use Rattle.std.specs.Prelude.{◌≡◌, [], ◌∷◌, ◌==◌, ◌<◌, length, IfOk, IfErr, IfSome, IfNone, position};
ghost use Rattle.std.specs.List.{slice_split};
ghost use Rattle.line_text.specs.Lines.{parts_of, tokens_of, tokens_after};
ghost use Rattle.line_text.specs.Internal.Cuts.{parts_after};

/// The byte that ends a line.
const LINE_END: u8 = 10;

/// The byte between the tokens of a line.
const SPACE: u8 = 32;

/// The first line, without its line end, and what follows it; nothing where no byte ends a line.
#[tactic(auto, unfolding(crate::specs::Lines::parts_of))]
pub fn next_line(text: &[u8]) -> Option<(&[u8], &[u8])>
    ensures line { IfSome result (λ found. parts_of text.now ≡ found.0.now ∷ parts_of found.1.now) }
    ensures shorter { IfSome result (λ found. length found.1.now < length text.now) }
    ensures none { IfNone result (parts_of text.now ≡ text.now ∷ []) }
{
    match cut(text, LINE_END) {
        (line, Some(rest)) => Some((line, rest)),
        (_, None) => None,
    }
}

/// The first token of a line, and what stands after its space, if a space ends it.
#[tactic(auto, unfolding(crate::specs::Lines::tokens_of))]
pub fn next_token(line: &[u8]) -> (&[u8], Option<&[u8]>)
    ensures tokens { tokens_of line.now ≡ result.0.now ∷ tokens_after result.1 }
    ensures shorter { IfSome result.1 (λ rest. length rest.now < length line.now) }
{
    cut(line, SPACE)
}

/// The value of a text, where nothing is left after it; else this refusal of what is left.
pub fn at_end<V: Drop, E: Drop>(value: V, left: &[u8], refusal: E) -> Result<V, E>
    ensures found { IfOk result (λ v. (v ≡ value) × (length left.now ≡ 0)) }
    ensures refused { IfErr result (λ e. (e ≡ refusal) × (length left.now ≡ 0 → ⊥)) }
{
    if left.is_empty() {
        Ok(value)
    } else {
        Err(refusal)
    }
}

/// Cuts at the first of these bytes: what stands before it, and what follows it, if there is one.
fn cut(text: &[u8], at: u8) -> (&[u8], Option<&[u8]>)
    ensures parts { slice_split (λ b. b == at) text.now ≡ result.0.now ∷ parts_after (λ b. b == at) result.1 }
    ensures whole { IfNone result.1 (result.0.now ≡ text.now) }
    ensures shorter { IfSome result.1 (λ rest. length rest.now < length text.now) }
{
    match first_place(text, at) {
        Some(place) => (&text[..place], Some(&text[place + 1..])),
        None => (text, None),
    }
}

/// The index of the first of these bytes.
fn first_place(text: &[u8], at: u8) -> Option<usize>
    ensures { result ≡ position (λ b. b == at) text.now }
{
    text.iter().position(|b| *b == at)
}
