//! The first tokens of lines of a refutation.
ghost use Rattle.std.specs.Prelude.{◌≡◌};
ghost use Rattle.value_texts.specs.Internal.LineValues.{word_of, word_token};

/// The first token of a line of a refutation, which says what the line is.
#[derive(Clone, Copy, Debug, PartialEq, Eq)]
pub(crate) enum Word {
    Step(StepWord),
    CaseRead,
    CaseBefore,
    Else,
    NoSource,
    Cycle,
}

/// That of the line of a step.
#[derive(Clone, Copy, Debug, PartialEq, Eq)]
pub(crate) enum StepWord {
    Read,
    In,
    Out,
    Over,
    After,
    Before,
}

impl Word {
    /// The token.
    pub(crate) fn token(self) -> &'static str
        ensures { result.now ≡ word_token self }
    {
        match self {
            Word::Step(StepWord::Read) => "read",
            Word::Step(StepWord::In) => "in",
            Word::Step(StepWord::Out) => "out",
            Word::Step(StepWord::Over) => "over",
            Word::Step(StepWord::After) => "after",
            Word::Step(StepWord::Before) => "before",
            Word::CaseRead => "case-read",
            Word::CaseBefore => "case-before",
            Word::Else => "else",
            Word::NoSource => "nosource",
            Word::Cycle => "cycle",
        }
    }

    /// The word of a token, if it is one.
    #[tactic(auto, unfolding(crate::specs::Internal::LineValues::word_of))]
    pub(crate) fn of(token: &[u8]) -> Option<Word>
        ensures { result ≡ word_of token.now }
    {
        if token == b"read".as_slice() {
            Some(Word::Step(StepWord::Read))
        } else if token == b"in".as_slice() {
            Some(Word::Step(StepWord::In))
        } else if token == b"out".as_slice() {
            Some(Word::Step(StepWord::Out))
        } else if token == b"over".as_slice() {
            Some(Word::Step(StepWord::Over))
        } else if token == b"after".as_slice() {
            Some(Word::Step(StepWord::After))
        } else if token == b"before".as_slice() {
            Some(Word::Step(StepWord::Before))
        } else if token == b"case-read".as_slice() {
            Some(Word::CaseRead)
        } else if token == b"case-before".as_slice() {
            Some(Word::CaseBefore)
        } else if token == b"else".as_slice() {
            Some(Word::Else)
        } else if token == b"nosource".as_slice() {
            Some(Word::NoSource)
        } else if token == b"cycle".as_slice() {
            Some(Word::Cycle)
        } else {
            None
        }
    }
}
