//! What the explanation of a violation calls its events.
ghost use Rattle.std.specs.Prelude.{◌≡◌, ◌++◌, [], ◌∷◌, List, IfOk, OnOk};
ghost use Rattle.log_reports.specs.Internal.NamedEvents.{AreNames};
ghost use Rattle.log_reports.specs.Namings.{EventName, event_names_of, event_of, events_by, naming_of_shown, swap_events};

use crate::lines::push_operation;
use log_selections::Shown;
use log_text::{LineTags, LogOperation};
use std::alloc::{AllocError, Global};
use std::fmt::Write;
use trace_explanation::EventNames;
use tso_ops::Part;

/// The names, the processors, the lines and the addresses of events.
#[derive(Drop)]
struct NamedEvents {
    names: Vec<String>,
    processors: Vec<usize>,
    lines: Vec<usize>,
    addresses: Vec<u64>,
}

/// What the events of the trace of these lines are called, in the order of their numbers. OutOfMemory where an allocation was
/// refused.
pub(crate) fn name_events(
    alloc: Global,
    tags: &LineTags,
    processors: usize,
    shown: &[Shown],
) -> Result<EventNames, AllocError>
    ensures { IfOk result (λ names. names ≡ naming_of_shown tags.now processors shown.now) }
{
    let mut named = NamedEvents {
        names: Vec::new(alloc),
        processors: Vec::new(alloc),
        lines: Vec::new(alloc),
        addresses: Vec::new(alloc),
    };
    for p in 0..processors {
        named.push_processor(alloc, tags, shown, p)?;
    }
    Ok(EventNames::of_log(named.names, named.processors, named.lines, named.addresses))
}

impl NamedEvents {
    /// Appends the events of processor `p`.
    fn push_processor(
        &mut self,
        alloc: Global,
        tags: &LineTags,
        shown: &[Shown],
        p: usize,
    ) -> Result<(), AllocError>
        ensures { OnOk result ((events : List EventName) → AreNames self.old events → AreNames self.new (events ++ event_names_of tags.now shown.now p)) }
    {
        for s in shown {
            if s.processor == p {
                self.push_shown(alloc, tags, s)?;
            }
        }
        Ok(())
    }

    /// Appends the events of an operation.
    fn push_shown(
        &mut self,
        alloc: Global,
        tags: &LineTags,
        shown: &Shown,
    ) -> Result<(), AllocError>
        ensures { OnOk result ((events : List EventName) → AreNames self.old events →
            AreNames self.new (events ++ events_by tags.now shown.now shown.now.logged.operation)) }
    {
        match shown.logged.operation {
            LogOperation::Ld { a, .. } | LogOperation::St { a, .. } => {
                self.push(alloc, tags, shown, a, "")
            }
            LogOperation::Sw { a, .. } => self.push_swap(alloc, tags, shown, a),
            LogOperation::Mb | LogOperation::Sb => Ok(()),
        }
    }

    /// Appends the events of a swap.
    fn push_swap(
        &mut self,
        alloc: Global,
        tags: &LineTags,
        shown: &Shown,
        a: u64,
    ) -> Result<(), AllocError>
        ensures { OnOk result ((events : List EventName) → AreNames self.old events →
            AreNames self.new (events ++ swap_events tags.now shown.now a shown.now.part)) }
    {
        match shown.part {
            Part::Whole => {
                self.push(alloc, tags, shown, a, " load")?;
                self.push(alloc, tags, shown, a, " store")
            }
            Part::SwapLoad => self.push(alloc, tags, shown, a, " load"),
            Part::SwapStore => self.push(alloc, tags, shown, a, " store"),
        }
    }

    /// Appends an event of an operation at address `a`, which is this part of it.
    fn push(
        &mut self,
        alloc: Global,
        tags: &LineTags,
        shown: &Shown,
        a: u64,
        part: &str,
    ) -> Result<(), AllocError>
        ensures { OnOk result ((events : List EventName) → AreNames self.old events →
            AreNames self.new (events ++ event_of tags.now shown.now a part.now ∷ [])) }
    {
        let processor = shown.processor;
        let line = tags.origins.line(shown.logged.line);
        let mut name = format!(in alloc; "P{processor} '")?;
        push_operation(&mut name, shown.logged.operation)?;
        write!(name, "'{part} (line {line})")?;
        self.names.push(name)?;
        self.processors.push(processor)?;
        self.lines.push(line)?;
        self.addresses.push(a)?;
        Ok(())
    }
}
