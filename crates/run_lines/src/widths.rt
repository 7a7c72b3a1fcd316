//! Which kind of places the lines of a text have.
ghost use Rattle.std.specs.Prelude.{◌≡◌};
ghost use Rattle.run_lines.specs.PlacesSaid.{place_of_step, place_of_text, widths_after, widths_of};

use crate::arguments::Widths;
use crate::lines::RunText;
use run_steps::{Place, RunStep};

/// Which places the lines of a text had, after one more line.
pub fn widths_after(before: Widths, said: &RunText) -> Widths
    ensures { result ≡ widths_after before said.now }
{
    match place_of_text(said) {
        Some(place) => widths_of(place),
        None => before,
    }
}

/// Whether a text with this place has locations or bytes.
fn widths_of(place: Place) -> Widths
    ensures { result ≡ widths_of place }
{
    if place.width == 0 {
        Widths::Locations
    } else {
        Widths::Bytes
    }
}

/// The place of a line, if it has one.
fn place_of_text(said: &RunText) -> Option<Place>
    ensures { result ≡ place_of_text said.now }
{
    match said {
        RunText::First { place, .. } => Some(*place),
        RunText::Step { step, .. } => place_of_step(step),
        RunText::Note | RunText::Pso | RunText::End => None,
    }
}

/// The place of a step, if it has one.
fn place_of_step(step: &RunStep) -> Option<Place>
    ensures { result ≡ place_of_step step.now }
{
    match step {
        RunStep::Load { place, .. }
        | RunStep::Store { place, .. }
        | RunStep::Write { place, .. }
        | RunStep::Swap { place, .. }
        | RunStep::Reserve { place, .. }
        | RunStep::StoreReserved { place, .. }
        | RunStep::Unknown { place }
        | RunStep::Last { place, .. } => Some(*place),
        RunStep::Drain { at, .. } => *at,
        RunStep::Membar | RunStep::Stbar => None,
    }
}
