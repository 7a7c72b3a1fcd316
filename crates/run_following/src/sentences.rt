//! The sentence that explains why a line of a run is no step.
ghost use Rattle.std.specs.Prelude.{◌≡◌, ◌++◌, OnOk, string_bytes};
ghost use Rattle.run_following.specs.Sentences.{fact_phrase, reason_words, sentence_words, store_phrase};

use crate::facts::{Fact, NamedLine, RefusalKind, Standing, ToldRefusal};
use std::alloc::AllocError;
use std::fmt::Write;

/// Appends the sentence, which names the line and those that show why it is no step.
pub(crate) fn push_sentence(text: &mut String, refusal: &ToldRefusal) -> Result<(), AllocError>
    ensures { OnOk result (string_bytes text.new ≡ string_bytes text.old ++ sentence_words refusal.now) }
{
    push_reason(text, refusal.line.number, refusal.kind)?;
    for fact in &refusal.facts {
        push_fact(text, fact)?;
    }
    text.push_str(".")
}

/// Appends what is said of the line of this number.
fn push_reason(text: &mut String, number: u64, kind: RefusalKind) -> Result<(), AllocError>
    ensures { OnOk result (string_bytes text.new ≡ string_bytes text.old ++ reason_words number kind) }
{
    match kind {
        RefusalKind::Value => write!(text, "At line {number} the machine has")?,
        RefusalKind::Waiting => {
            write!(
                text,
                "Line {number} comes too early: memory must have, before it,"
            )?
        },
        RefusalKind::Order => {
            write!(
                text,
                "At line {number} a store passes one that it must not pass:"
            )?
        },
        RefusalKind::NothingWaits => {
            write!(
                text,
                "At line {number} no such store of its processor waits"
            )?
        },
        RefusalKind::Reservation => {
            write!(
                text,
                "Line {number} stores on a reservation that its processor has lost"
            )?
        },
        RefusalKind::NoReservation => write!(
            text,
            "Line {number} stores on a reservation, and its processor has none of this place"
        )?,
    }
    Ok(())
}

/// Appends a fact.
fn push_fact(text: &mut String, fact: &Fact) -> Result<(), AllocError>
    ensures { OnOk result (string_bytes text.new ≡ string_bytes text.old ++ fact_phrase fact.now) }
{
    match fact {
        Fact::Has(value) => {
            write!(text, " {value}, where the line says another value")?;
            Ok(())
        },
        Fact::First => text.push_str("; a first value is still there"),
        Fact::Store { line, standing } => push_store(text, line, *standing),
    }
}

/// Appends what is said of a store.
fn push_store(text: &mut String, line: &NamedLine, standing: Standing) -> Result<(), AllocError>
    ensures { OnOk result (string_bytes text.new ≡ string_bytes text.old ++ store_phrase line.now standing) }
{
    let store = line.number;
    match standing {
        Standing::Named => write!(text, " the store of line {store}")?,
        Standing::Waiting => write!(text, "; the store of line {store} waits")?,
        Standing::Reached(number) => {
            write!(
                text,
                "; the store of line {store} reached memory at line {number}"
            )?
        },
        Standing::Before => write!(text, " must reach memory after that of line {store}")?,
    }
    Ok(())
}
