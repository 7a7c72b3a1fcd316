//! A trace with what an explanation calls its events.
ghost use Rattle.std.specs.Prelude.{◌≡◌, ◌++◌, [], codes, string_bytes, IfOk, OnOk};
ghost use Rattle.std.specs.Option.{option_map_or};
ghost use Rattle.trace_explanation.specs.Names.{address_at, outcome_text, part_text, source_of};
ghost use Rattle.trace_explanation.specs.Places.{place_text, read_text, source_text};

use crate::namings::EventNames;
use std::alloc::{AllocError, Global};
use std::fmt::Write;
use tso_ops::{Outcome, Part, Trace};
use tso_text::print_outcome;

/// A trace with what an explanation calls its events.
#[derive(Debug, Drop)]
pub struct NamedTrace<'t> {
    /// The trace.
    pub trace: &'t Trace,
    /// The names of its events.
    pub names: &'t EventNames,
}

impl<'t> NamedTrace<'t> {
    /// What load `l` read, by its source `s`. OutOfMemory where an allocation was refused.
    pub fn source_text(&self, alloc: Global, l: usize, s: usize) -> Result<String, AllocError>
        ensures { IfOk result (λ text. string_bytes text ≡ source_text self.now.names.now l s) }
    {
        if s == 0 {
            let address = self.names.address(l);
            format!(in alloc; "the first value of address {address}")
        } else {
            String::from_str(alloc, self.names.name(s))
        }
    }

    /// What load `l` read: nothing where it is no load or has no source. OutOfMemory where an allocation was refused.
    #[tactic(auto, unfolding(crate::specs::Places::read_text))]
    pub fn read(&self, alloc: Global, l: usize) -> Result<String, AllocError>
        ensures { IfOk result (λ text. string_bytes text ≡ read_text self.now.names.now self.now.trace.now l) }
    {
        match source_of(self.trace, l) {
            Some(s) => self.source_text(alloc, l, s),
            None => Ok(String::new(alloc)),
        }
    }

    /// What load `l` read, after the word that says so: nothing where it is no load or has no source. OutOfMemory where
    /// an allocation was refused.
    fn also_read(&self, alloc: Global, l: usize) -> Result<String, AllocError>
        ensures { IfOk result (λ text. string_bytes text ≡ option_map_or (λ s. codes " read " ++ source_text self.now.names.now l s)
            (source_of self.now.trace.now l) []) }
    {
        match source_of(self.trace, l) {
            Some(s) => {
                let source = self.source_text(alloc, l, s)?;
                format!(in alloc; " read {source}")
            },
            None => Ok(String::new(alloc)),
        }
    }

    /// Appends the line of event `n`: its line, its name, and what it read. OutOfMemory where an allocation was refused.
    #[tactic(auto, unfolding(crate::specs::Places::place_text))]
    pub fn push_place(&self, alloc: Global, text: &mut String, n: usize) -> Result<(), AllocError>
        ensures { OnOk result (string_bytes text.new ≡ string_bytes text.old ++ place_text self.now.names.now self.now.trace.now n) }
    {
        let line = self.names.line(n);
        let name = self.names.name(n);
        let read = self.also_read(alloc, n)?;
        write!(text, "  line {line}: {name}{read}\n")
    }
}

/// The number of the source of load `l`: 0 for the first value of its address. None where `l` is no load or has no source.
pub fn source_of(trace: &Trace, l: usize) -> Option<usize>
    ensures { result ≡ source_of trace.now l }
{
    trace.source_number(l)
}

/// The address of event `n`: 0 where there is no such event.
pub fn address_of(trace: &Trace, n: usize) -> u16
    ensures { result ≡ address_at trace.now n }
{
    match trace.event(n) {
        Some(event) => event.a,
        None => 0,
    }
}

/// The operation as in the trace's text. OutOfMemory where an allocation was refused.
#[tactic(auto, unfolding(crate::specs::Names::outcome_text))]
pub fn outcome_text(alloc: Global, outcome: Outcome) -> Result<String, AllocError>
    ensures { IfOk result (λ text. string_bytes text ≡ outcome_text outcome) }
{
    let mut text = String::new(alloc);
    print_outcome(&mut text, outcome)?;
    Ok(text)
}

/// Which part of a swap an event is, after a space: nothing where it is the whole operation.
pub fn part_text(part: Part) -> &'static str
    ensures { result.now ≡ part_text part }
{
    match part {
        Part::Whole => "",
        Part::SwapLoad => " load",
        Part::SwapStore => " store",
    }
}
