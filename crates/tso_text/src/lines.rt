ghost use Rattle.std.specs.Prelude.{◌≡◌, [], ◌∷◌, ◌<◌, length, IfOk, IfErr, OnErr};
ghost use Rattle.line_text.specs.Lines.{parts_of};
ghost use Rattle.tso_text.specs.Internal.Spelling.{unended_text_fault};

use crate::faults::Why;

/// What a line says: it begins a list, it is an item of the list begun last, or it ends the text.
#[derive(Clone, Copy)]
pub(crate) enum Line<T> {
    Proc,
    Item(T),
    End,
}

/// The first line, and what stands after its line end.
pub(crate) fn next_line(text: &[u8]) -> Result<(&[u8], &[u8]), Why>
    ensures line { IfOk result (λ found. parts_of text.now ≡ found.0.now ∷ parts_of found.1.now) }
    ensures shorter { IfOk result (λ found. length found.1.now < length text.now) }
    ensures none { OnErr result (parts_of text.now ≡ text.now ∷ []) }
    ensures why { IfErr result (λ why. why ≡ unended_text_fault text.now) }
{
    match line_text::next_line(text) {
        Some(parts) => Ok(parts),
        None if text.is_empty() => Err(Why::MissingEnd),
        None => Err(Why::BadLine),
    }
}
