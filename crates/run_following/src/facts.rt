//! What is told of a line that is no step of the machine.
ghost use Rattle.std.specs.Prelude.{◌≡◌, ◌++◌, ◌∷◌, [], IfErr, IfOk, OnOk, map, string_bytes};
ghost use Rattle.run_steps.specs.Reads.{refusal_of};
ghost use Rattle.run_following.specs.Facts.{fact_value, kind_of, named_value, origin_fact, refusal_facts, store_fact, told, told_value};
ghost use Rattle.run_following.specs.Internal.Faults.{IsRunFault};
ghost use Rattle.run_following.specs.KeptLines.{kept_text};
ghost use Rattle.run_following.specs.declared.facts.Fact.TheVariants.{Has};

use crate::kept_lines::KeptLines;
use run_steps::{Origin, RunRefusal};
use std::alloc::Global;
use std::str;
use text_streams::Fault;

/// A line of a text.
#[derive(Debug, Drop)]
pub struct NamedLine {
    /// Its number, from 1.
    pub number: u64,
    /// What it says, without its line end.
    pub text: String,
}

/// What is told of a store.
#[derive(Clone, Copy, Debug, PartialEq, Eq)]
pub enum Standing {
    /// Nothing.
    Named,
    /// It waits in the buffer of its processor.
    Waiting,
    /// It reached memory at the line of this number.
    Reached(u64),
    /// Another comes after it.
    Before,
}

/// A fact that shows why a line is no step.
#[derive(Debug, Drop)]
pub enum Fact {
    /// The machine has this value.
    Has(u64),
    /// It is a first value.
    First,
    /// A store, and what is told of it.
    Store {
        /// The store's line.
        line: NamedLine,
        /// What is told of it.
        standing: Standing,
    },
}

/// Why a line is no step of the machine.
#[derive(Clone, Copy, Debug, PartialEq, Eq)]
pub enum RefusalKind {
    /// It says another value than the machine has.
    Value,
    /// A store still waits.
    Waiting,
    /// A store reaches memory before one that it must not pass.
    Order,
    /// No such store waits.
    NothingWaits,
    /// The reservation was lost.
    Reservation,
    /// There is no reservation that has the place.
    NoReservation,
}

/// A line that is no step of the machine, and what shows it.
#[derive(Debug, Drop)]
pub struct ToldRefusal {
    /// The line.
    pub line: NamedLine,
    /// Why it is none.
    pub kind: RefusalKind,
    /// The facts that show it.
    pub facts: Vec<Fact>,
}

/// Tells why a line is no step. OutOfMemory where an allocation was refused; Read where a line isn't ASCII, which no line is that was
/// read.
pub(crate) fn tell(
    alloc: Global,
    kept: &KeptLines,
    number: u64,
    refusal: &RunRefusal,
) -> Result<ToldRefusal, Fault>
    ensures fault { IfErr result IsRunFault }
    ensures told { IfOk result (λ refused. told_value refused ≡ told (kept_text kept.now) number (refusal_of refusal.now)) }
{
    Ok(ToldRefusal {
        line: named(alloc, kept, number)?,
        kind: kind_of(refusal),
        facts: facts_of(alloc, kept, refusal)?,
    })
}

/// The line of this number. OutOfMemory where an allocation was refused; Read where it isn't ASCII.
fn named(alloc: Global, kept: &KeptLines, number: u64) -> Result<NamedLine, Fault>
    ensures fault { IfErr result IsRunFault }
    ensures told { IfOk result (λ line. named_value line ≡ (number, kept_text kept.now number)) }
{
    match str::from_utf8(kept.text_of(number)) {
        Ok(text) => {
            let text = String::from_str(alloc, text)?;
            Ok(NamedLine { number, text })
        },
        Err(_) => Err(Fault::Read),
    }
}

/// Of which kind a refusal is.
fn kind_of(refusal: &RunRefusal) -> RefusalKind
    ensures { result ≡ kind_of (refusal_of refusal.now) }
{
    match refusal {
        RunRefusal::Value { .. } => RefusalKind::Value,
        RunRefusal::Waiting { .. } => RefusalKind::Waiting,
        RunRefusal::Order { .. } => RefusalKind::Order,
        RunRefusal::NothingWaits => RefusalKind::NothingWaits,
        RunRefusal::Reservation { .. } => RefusalKind::Reservation,
        RunRefusal::NoReservation => RefusalKind::NoReservation,
    }
}

/// The facts that show a refusal. OutOfMemory where an allocation was refused.
fn facts_of(alloc: Global, kept: &KeptLines, refusal: &RunRefusal) -> Result<Vec<Fact>, Fault>
    ensures fault { IfErr result IsRunFault }
    ensures told { IfOk result (λ facts. map fact_value facts.items ≡ refusal_facts (kept_text kept.now) (refusal_of refusal.now)) }
{
    let mut facts = Vec::new(alloc);
    match refusal {
        RunRefusal::Value { has, origins } => {
            facts.push(Fact::Has(*has))?;
            push_origins(alloc, kept, origins, &mut facts)?;
        },
        RunRefusal::Waiting { store } => {
            push_store(alloc, kept, *store, Standing::Named, &mut facts)?
        },
        RunRefusal::Order { store, first } => {
            push_store(alloc, kept, *store, Standing::Named, &mut facts)?;
            push_store(alloc, kept, *first, Standing::Before, &mut facts)?;
        },
        RunRefusal::Reservation { store, reached } => {
            push_store(alloc, kept, *store, Standing::Reached(*reached), &mut facts)?
        },
        RunRefusal::NothingWaits | RunRefusal::NoReservation => {},
    }
    Ok(facts)
}

/// Adds a store, and what is told of it. OutOfMemory where an allocation was refused.
fn push_store(
    alloc: Global,
    kept: &KeptLines,
    store: u64,
    standing: Standing,
    facts: &mut Vec<Fact>,
) -> Result<(), Fault>
    ensures fault { IfErr result IsRunFault }
    ensures told { OnOk result (map fact_value facts.new.items ≡ map fact_value facts.old.items ++ store_fact (kept_text kept.now) store standing ∷ []) }
{
    let line = named(alloc, kept, store)?;
    facts.push(Fact::Store { line, standing })?;
    Ok(())
}

/// Adds where a value is from. OutOfMemory where an allocation was refused.
fn push_origins(
    alloc: Global,
    kept: &KeptLines,
    origins: &[Origin],
    facts: &mut Vec<Fact>,
) -> Result<(), Fault>
    ensures fault { IfErr result IsRunFault }
    ensures told { OnOk result (map fact_value facts.new.items ≡ map fact_value facts.old.items ++ map (origin_fact (kept_text kept.now)) origins.now) }
{
    for origin in origins {
        push_origin(alloc, kept, *origin, facts)?;
    }
    Ok(())
}

/// Adds one thing that a value is from. OutOfMemory where an allocation was refused.
fn push_origin(
    alloc: Global,
    kept: &KeptLines,
    origin: Origin,
    facts: &mut Vec<Fact>,
) -> Result<(), Fault>
    ensures fault { IfErr result IsRunFault }
    ensures told { OnOk result (map fact_value facts.new.items ≡ map fact_value facts.old.items ++ origin_fact (kept_text kept.now) origin ∷ []) }
{
    match origin {
        Origin::First => {
            facts.push(Fact::First)?;
            Ok(())
        },
        Origin::Waiting(store) => push_store(alloc, kept, store, Standing::Waiting, facts),
        Origin::Reached { store, line } => {
            push_store(alloc, kept, store, Standing::Reached(line), facts)
        },
    }
}
