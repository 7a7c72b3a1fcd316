//! What an explanation calls the events of a trace.
ghost use Rattle.std.specs.Prelude.{◌≡◌, [], String, map, suc, string_bytes, IfOk};
ghost use Rattle.std.specs.Option.{option_map_or};
ghost use Rattle.std.specs.Global.{Global};
ghost use Rattle.tso_ops.specs.Operations.{operations_of};
ghost use Rattle.trace_explanation.specs.Names.{address_at, event_name, event_numbers, processor_at};
ghost use Rattle.trace_explanation.specs.Namings.{address_named, line_at, line_named, name_text, naming_of, own_name, processor_named};

use crate::names::{address_of, outcome_text, part_text};
use crate::subjects::Subject;
use std::alloc::{AllocError, Global};
use std::marker::Model;
use tso_ops::{EventOperation, Operations, Trace};

/// What an explanation calls the events of a trace: for each event, in the order of their numbers, its name, its processor, the
/// line where it stands, and its address.
#[derive(Debug, Drop)]
pub struct EventNames {
    subject: Subject,
    names: Vec<String>,
    processors: Vec<usize>,
    lines: Vec<usize>,
    addresses: Vec<u64>,
}

impl Model for EventNames {
    ghost use Rattle.std.specs.Prelude.{map, string_bytes};
    ghost use Rattle.trace_explanation.specs.Namings.{NamingValue};

    ghost Value = { NamingValue };

    ghost view = { λ n. record {
      subject = n.subject;
      names = map string_bytes n.names.items;
      processors = n.processors.items;
      lines = n.lines.items;
      addresses = n.addresses.items;
    } };
}

impl EventNames {
    /// What a log calls the events of a trace that was selected from it: for each event of the trace, in the order of their
    /// numbers, its name, its processor in the log, from 0, its line there, from 1, and its address there.
    pub fn of_log(
        names: Vec<String>,
        processors: Vec<usize>,
        lines: Vec<usize>,
        addresses: Vec<u64>,
    ) -> EventNames
        ensures { result ≡ record {
          subject = Subject.Log;
          names = map string_bytes names.items;
          processors = processors.items;
          lines = lines.items;
          addresses = addresses.items;
        } }
    {
        EventNames {
            subject: Subject::Log,
            names,
            processors,
            lines,
            addresses,
        }
    }

    /// What a trace calls its events. OutOfMemory where an allocation was refused.
    pub fn of_trace(alloc: Global, trace: &Trace) -> Result<EventNames, AllocError>
        ensures { IfOk result (λ names. names ≡ naming_of trace.now) }
    {
        let operations = trace.operations(alloc)?;
        Ok(EventNames {
            subject: Subject::Trace,
            names: list_names(alloc, trace, &operations)?,
            processors: list_processors(alloc, trace)?,
            lines: list_lines(alloc, trace, &operations)?,
            addresses: list_addresses(alloc, trace)?,
        })
    }

    /// What the explanation is of.
    pub(crate) fn subject(&self) -> Subject
        ensures { result ≡ self.now.subject }
    {
        self.subject
    }

    /// The name of number `n`: nothing where it has none.
    pub fn name(&self, n: usize) -> &str
        ensures { result.now ≡ name_text self.now n }
    {
        if n == 0 {
            "the first values"
        } else {
            self.name_after(n - 1)
        }
    }

    /// The name of the number after `n`.
    pub fn name_after(&self, n: usize) -> &str
        ensures { result.now ≡ name_text self.now (suc n) }
    {
        match self.names.get(n) {
            Some(name) => name,
            None => "",
        }
    }

    /// The processor of event `n`: 0 where it has none.
    pub(crate) fn processor(&self, n: usize) -> usize
        ensures { result ≡ processor_named self.now n }
    {
        if n == 0 {
            return 0;
        }
        match self.processors.get(n - 1) {
            Some(processor) => *processor,
            None => 0,
        }
    }

    /// The line of event `n`: 0 where it has none.
    pub fn line(&self, n: usize) -> usize
        ensures { result ≡ line_named self.now n }
    {
        if n == 0 {
            return 0;
        }
        match self.lines.get(n - 1) {
            Some(line) => *line,
            None => 0,
        }
    }

    /// The address of event `n`: 0 where it has none.
    pub fn address(&self, n: usize) -> u64
        ensures { result ≡ address_named self.now n }
    {
        if n == 0 {
            return 0;
        }
        match self.addresses.get(n - 1) {
            Some(address) => *address,
            None => 0,
        }
    }
}

/// The names of a trace's events.
fn list_names(
    alloc: Global,
    trace: &Trace,
    operations: &Operations,
) -> Result<Vec<String>, AllocError>
    ensures { operations.now.operations.items ≡ operations_of trace.now →
        IfOk result (λ names. map string_bytes names.items ≡ map (own_name trace.now) (event_numbers trace.now)) }
{
    let mut names = Vec::new(alloc);
    for n in 0..trace.events() {
        names.push(event_name(alloc, n + 1, operations.operation_of(n + 1))?)?;
    }
    Ok(names)
}

/// The lines of a trace's events in its text.
fn list_lines(
    alloc: Global,
    trace: &Trace,
    operations: &Operations,
) -> Result<Vec<usize>, AllocError>
    ensures { operations.now.operations.items ≡ operations_of trace.now →
        IfOk result (λ lines. lines.items ≡ map (line_at trace.now) (event_numbers trace.now)) }
{
    let mut lines = Vec::new(alloc);
    for n in 0..trace.events() {
        lines.push(line_of(operations.operation_of(n + 1)))?;
    }
    Ok(lines)
}

/// The line of an operation in its trace's text: 0 where there is none.
fn line_of(operation: Option<EventOperation>) -> usize
    ensures { result ≡ option_map_or (λ o. o.line) operation 0 }
{
    match operation {
        Some(operation) => operation.line,
        None => 0,
    }
}

/// The processors of a trace's events.
fn list_processors(alloc: Global, trace: &Trace) -> Result<Vec<usize>, AllocError>
    ensures { IfOk result (λ processors. processors.items ≡ map (processor_at trace.now) (event_numbers trace.now)) }
{
    let mut processors = Vec::new(alloc);
    for n in 0..trace.events() {
        processors.push(processor_of(trace, n + 1))?;
    }
    Ok(processors)
}

/// The processor of event `n`: 0 where there is no such event.
fn processor_of(trace: &Trace, n: usize) -> usize
    ensures { result ≡ processor_at trace.now n }
{
    match trace.event(n) {
        Some(event) => event.proc,
        None => 0,
    }
}

/// The addresses of a trace's events.
fn list_addresses(alloc: Global, trace: &Trace) -> Result<Vec<u64>, AllocError>
    ensures { IfOk result (λ addresses. addresses.items ≡ map (address_at trace.now) (event_numbers trace.now)) }
{
    let mut addresses = Vec::new(alloc);
    for n in 0..trace.events() {
        addresses.push(address_of(trace, n + 1) as u64)?;
    }
    Ok(addresses)
}

/// The name of event `n`, by its operation: nothing where it has none. OutOfMemory where an allocation was refused.
#[tactic(auto, unfolding(crate::specs::Names::event_name))]
fn event_name(
    alloc: Global,
    n: usize,
    operation: Option<EventOperation>,
) -> Result<String, AllocError>
    ensures { IfOk result (λ text. string_bytes text ≡ option_map_or (event_name n) operation []) }
{
    match operation {
        Some(operation) => {
            let proc = operation.proc;
            let said = outcome_text(alloc, operation.outcome)?;
            let part = part_text(operation.part);
            format!(in alloc; "P{proc} '{said}'{part} ({n})")
        },
        None => Ok(String::new(alloc)),
    }
}
