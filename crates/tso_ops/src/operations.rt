//! Which operation gives an event, and the line of the trace's text where it stands.
ghost use Rattle.std.specs.Prelude.{◌≡◌, ◌≤◌, ◌<◌, ◌+◌, ◌*◌, ◌^◌, ◌++◌, suc, length, IfOk, OnOk};
ghost use Rattle.tso_ops.specs.Values.{TraceValue};
ghost use Rattle.tso_ops.specs.Operations.{first_list_line, model_lines, operation_at, operations_from, operations_of};

use crate::faults::OutOfMemory;
use crate::ops::Outcome;
use crate::settings::Order;
use crate::traces::Trace;
use std::alloc::Global;

/// Which part of its operation an event is.
#[derive(Clone, Copy, Debug, PartialEq, Eq)]
pub enum Part {
    /// A load or a store, the whole operation.
    Whole,
    /// The load of a swap.
    SwapLoad,
    /// The store of a swap.
    SwapStore,
}

/// The operation that gives an event.
#[derive(Clone, Copy, Debug, PartialEq, Eq)]
pub struct EventOperation {
    /// The processor, from 0.
    pub proc: usize,
    /// The place among the processor's operations, from 0, barriers counted too.
    pub place: usize,
    /// The line of the trace's text, from 1.
    pub line: usize,
    /// The operation, with what it read.
    pub outcome: Outcome,
    /// Which part of it the event is.
    pub part: Part,
}

/// The operations of a trace's events, found once for all of them.
#[derive(Debug, Drop)]
pub struct Operations {
    operations: Vec<EventOperation>,
}

impl Trace {
    /// The operations of the events, or OutOfMemory where an allocation was refused.
    pub fn operations(&self, alloc: Global) -> Result<Operations, OutOfMemory>
        ensures { IfOk result (λ found. found.operations.items ≡ operations_of self.now) }
    {
        Ok(Operations {
            operations: list_operations(alloc, self)?,
        })
    }
}

impl Operations {
    /// The number of events.
    pub fn count(&self) -> usize
        ensures { result ≡ length self.now.operations.items }
    {
        self.operations.len()
    }

    /// The operation of event `n`, or None where there is no such event.
    pub fn operation_of(&self, n: usize) -> Option<EventOperation>
        ensures { (t : TraceValue) → self.now.operations.items ≡ operations_of t → result ≡ operation_at t n }
    {
        self.operations.get(n.checked_sub(1)?).copied()
    }
}

/// The first line of a trace's text after its header, memory model and first values.
fn first_list_line(trace: &Trace) -> usize
    ensures is { result ≡ first_list_line trace.now.setting }
    ensures small { result ≤ 2 ^ 60 }
{
    let first: &[(u16, u64)] = &trace.setting().first;
    2 + model_lines(trace.order()) + first.len()
}

/// How many lines say the memory model: TSO has none.
fn model_lines(order: Order) -> usize
    ensures is { result ≡ model_lines order }
    ensures most { result ≤ 1 }
{
    match order {
        Order::Tso => 0,
        Order::Pso => 1,
    }
}

/// The operations of a trace's events, in the order of their numbers.
#[tactic(auto, unfolding(crate::specs::Operations::operations_of))]
fn list_operations(alloc: Global, trace: &Trace) -> Result<Vec<EventOperation>, OutOfMemory>
    ensures { IfOk result (λ operations. operations.items ≡ operations_of trace.now) }
{
    let mut operations = Vec::new(alloc);
    let mut line = first_list_line(trace);
    for p in 0..trace.processors() {
        let ops = trace.ops(p);
        push_operations(&mut operations, p, line, ops)?;
        line += 1 + ops.len();
    }
    Ok(operations)
}

/// Pushes the operations of one processor's events, whose line `proc` this is.
fn push_operations(
    operations: &mut Vec<EventOperation>,
    proc: usize,
    line: usize,
    list: &[Outcome],
) -> Result<(), OutOfMemory>
    requires { line < 2 ^ 63 + 2 ^ 62 }
    ensures { OnOk result (operations.new.items ≡ operations.old.items ++ operations_from proc 0 (suc line) list.now) }
{
    for (place, outcome) in list.iter().enumerate() {
        let whole = EventOperation {
            proc,
            place,
            line: line + 1 + place,
            outcome: *outcome,
            part: Part::Whole,
        };
        match *outcome {
            Outcome::Ld { .. } | Outcome::St { .. } => operations.push(whole)?,
            Outcome::Sw { .. } => {
                operations.push(part_of(whole, Part::SwapLoad))?;
                operations.push(part_of(whole, Part::SwapStore))?;
            },
            Outcome::Mb | Outcome::Sb => {},
        }
    }
    Ok(())
}

/// The same operation, of which the event is this part.
fn part_of(operation: EventOperation, part: Part) -> EventOperation
    ensures { result ≡ record { proc = operation.proc; place = operation.place; line = operation.line; outcome = operation.outcome; part = part } }
{
    EventOperation { part, ..operation }
}
