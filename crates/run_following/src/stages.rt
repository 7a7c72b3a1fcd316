//! Which lines may stand where in the text of a run.
ghost use Rattle.std.specs.Prelude.{◌≡◌};
ghost use Rattle.run_following.specs.Stages.{stage_after};

use run_lines::RunText;

/// Which part of a text its lines so far belong to.
#[derive(Clone, Copy, Debug, PartialEq, Eq)]
pub enum Stage {
    /// There are none but notes.
    Notes,
    /// The memory model, and first values.
    Firsts,
    /// Steps.
    Steps,
    /// Nothing follows.
    Ended,
}

/// The part of a text after one more line, where no line `end` came; None where the line may not stand there.
pub(crate) fn stage_after(stage: Stage, said: &RunText) -> Option<Stage>
    ensures { result ≡ stage_after stage said.now }
{
    match (said, stage) {
        (RunText::Note, _) => Some(stage),
        (RunText::Pso, Stage::Notes) => Some(Stage::Firsts),
        (RunText::Pso, _) => None,
        (RunText::First { .. }, Stage::Notes | Stage::Firsts) => Some(Stage::Firsts),
        (RunText::First { .. }, _) => None,
        (RunText::Step { .. }, _) => Some(Stage::Steps),
        (RunText::End, _) => Some(Stage::Ended),
    }
}
