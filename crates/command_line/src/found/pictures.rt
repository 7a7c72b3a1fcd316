//! What the matches of `draw` ask for.
ghost use Rattle.std.specs.Prelude.{◌≡◌, IfOk, codes};
ghost use Rattle.clap.specs.Words.{first_of, found_of, one_of, rows_of};
ghost use Rattle.command_line.specs.Commands.{asked_in};
ghost use Rattle.command_line.specs.Requests.{asked_of};
ghost use Rattle.command_line.specs.Pictures.{chosen_picture, picture_form};
ghost use Rattle.command_line.specs.Options.{is_true};
ghost use Rattle.command_line.specs.Subcommands.{draw};

use super::{present, refuse};
use crate::help;
use crate::options::Presentation;
use crate::requests::Request;
use crate::values::{is_used, picture};
use clap::ArgMatches;
use std::alloc::{AllocError, Global};

/// Of `draw`: a refusal of a decision with the names of the field, which only the picture of a verdict has.
pub(crate) fn draw<'a>(alloc: Global, matches: &ArgMatches<'a>) -> Result<Request<'a>, AllocError>
    ensures { IfOk result (λ request. asked_of request ≡ asked_in draw (rows_of (found_of matches.now))) }
{
    match chosen_form(matches) {
        Some(presentation) => Ok(present(matches, presentation)),
        None => refuse(alloc, help::DECIDED_FIELD),
    }
}

/// The form of the picture; none where a decision is to have the names of the field.
fn chosen_form(matches: &ArgMatches<'_>) -> Option<Presentation>
    ensures { let rows = rows_of (found_of matches.now) in result ≡ picture_form (is_true (one_of (codes "decide") rows))
        (chosen_picture (first_of (codes "edges") rows)) }
{
    picture_of(is_used(matches, "decide"), picture(matches))
}

/// This form of a picture; none where it has the names of the field, and a decision is drawn.
fn picture_of(decides: bool, presentation: Presentation) -> Option<Presentation>
    ensures { result ≡ picture_form decides presentation }
{
    match presentation {
        Presentation::FieldPicture => { if decides { None } else { Some(presentation) } }
        Presentation::Report | Presentation::Explanation | Presentation::Picture => {
            Some(presentation)
        }
    }
}
