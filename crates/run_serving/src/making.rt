//! Prints the program that is made from a seed, or its schedule.
ghost use Rattle.std.specs.Prelude.{◌≡◌, IfOk, IfErr, MatchOption, string_bytes};
ghost use Rattle.drawn_programs.specs.Making.{IsShape};
ghost use Rattle.run_serving.specs.MadePrograms.{IsMadeText, LeavesMadeText, asked_shape, made_text};
ghost use Rattle.text_streams.specs.WrittenTexts.{WritesWhole};

use crate::printing::Printed;
use command_line::{MakeOptions, ShapeNumbers};
use drawn_programs::Shape;
use std::alloc::Global;
use std::io::Write;
use text_streams::{Fault, write_text};
use trace_reports::{DONE, REFUSED};
use tso_ops::OutOfMemory;
use tso_report::{seeded_program_with_order, seeded_schedule};
use tso_text::{print_program, print_schedule};

/// The line of numbers that are no shape.
pub(crate) const SHAPE_REFUSAL: &[u8] = b"REFUSED Shape\n";

/// Writes what the options ask for: the status.
pub fn make<W: Write>(alloc: Global, options: &MakeOptions, writer: &mut W) -> Result<u8, Fault>
    ensures text { IfOk result (WritesWhole (IsMadeText options.now) (W.contents writer.old) (W.contents writer.new)) }
    ensures fault { IfErr result (LeavesMadeText options.now (W.contents writer.old) (W.contents writer.new)) }
{
    let made = print_made(alloc, options)?;
    write_text(writer, &made.text)?;
    Ok(made.status)
}

/// What is printed: what the options ask for, or that their numbers are no shape.
fn print_made(alloc: Global, options: &MakeOptions) -> Result<Printed, OutOfMemory>
    ensures { IfOk result (λ made. IsMadeText options.now made.text.items made.status) }
{
    let Some(shape) = asked_shape(options.shape) else {
        return Ok(Printed {
            text: Vec::from_slice(alloc, SHAPE_REFUSAL)?,
            status: REFUSED,
        });
    };
    Ok(Printed {
        text: made_text(alloc, options, shape)?.into_bytes(),
        status: DONE,
    })
}

/// The text of the program of the seed, or of its schedule.
fn made_text(alloc: Global, options: &MakeOptions, shape: Shape) -> Result<String, OutOfMemory>
    requires { shape ≡ asked_shape options.now.shape }
    ensures { IfOk result (λ text. string_bytes text ≡ made_text options.now) }
{
    if options.schedule {
        let schedule = seeded_schedule(alloc, options.seed, shape)?;
        return print_schedule(alloc, &schedule);
    }
    let program = seeded_program_with_order(alloc, options.order, options.seed, shape)?;
    print_program(alloc, &program)
}

/// The shape of these numbers, if they are one.
pub(crate) fn asked_shape(numbers: ShapeNumbers) -> Option<Shape>
    ensures { MatchOption result (IsShape (asked_shape numbers) → ⊥) (λ shape. (shape ≡ asked_shape numbers) × IsShape (asked_shape numbers)) }
{
    Shape::new(numbers.processors, numbers.operations, numbers.addresses)
}
