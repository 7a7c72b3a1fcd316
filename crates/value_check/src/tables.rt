//! The tables of a log, before any step.
ghost use Rattle.std.specs.Prelude.{◌≡◌, ◌↔◌, [], ℕ, List, IsTrue, IfOk, map, nat_eq, unwrap_or};
ghost use Rattle.std.specs.HashMap.{get};
ghost use Rattle.tso_ops.specs.Settings.{first_value};
ghost use Rattle.program_chains.specs.LogEvents.{log_trace};
ghost use Rattle.value_check.specs.Internal.FirstTests.{AreFirstTests};
ghost use Rattle.value_check.specs.Internal.Known.{IsKnownBy, key_by};

use crate::cells::Cells;
use crate::known::Known;
use crate::noted::empty_table;
use log_text::Log;
use program_chains::{LogEvent, ProgramOrder};
use std::alloc::Global;
use std::collections::HashMap;
use tso_ops::OutOfMemory;

impl Known {
    /// The tables of a log, of which nothing is known but its program. OutOfMemory where an allocation was refused, or where it has
    /// 2^32 loads and stores or more.
    pub(crate) fn new(alloc: Global, log: &Log) -> Result<Known, OutOfMemory>
        ensures { IfOk result (IsKnownBy (log_trace log.now) []) }
    {
        let ProgramOrder { events, reach } = ProgramOrder::of_log(alloc, log)?;
        let chains = reach.chains();
        let count = chains.nodes();
        let values = Cells::new(alloc, &keys_of(alloc, &events, true)?, chains)?;
        let addresses = Cells::new(alloc, &keys_of(alloc, &events, false)?, chains)?;
        let has_first = first_tests(alloc, &log.first, &events)?;
        let classes = addresses.classes.count();
        Ok(Known {
            events,
            has_first,
            values,
            addresses,
            reach,
            sources: empty_table(alloc, count)?,
            takers: empty_table(alloc, count)?,
            first_takers: empty_table(alloc, classes)?,
        })
    }
}

/// The addresses of events, each with the event's value if `by_value` says so, else with 0.
fn keys_of(
    alloc: Global,
    events: &[LogEvent],
    by_value: bool,
) -> Result<Vec<(u64, u64)>, OutOfMemory>
    ensures { IfOk result (λ keys. keys.items ≡ map (key_by by_value) events.now) }
{
    let mut keys = Vec::with_capacity(alloc, events.len())?;
    for event in events {
        keys.push((event.address, if by_value { event.value } else { 0 }))?;
    }
    Ok(keys)
}

/// Of each event, whether its value is the first value of its address.
fn first_tests(
    alloc: Global,
    first: &[(u64, u64)],
    events: &[LogEvent],
) -> Result<Vec<bool>, OutOfMemory>
    ensures { IfOk result (λ tests. AreFirstTests first.now events.now tests.items) }
{
    let values = first_values(alloc, first)?;
    let mut tests = Vec::with_capacity(alloc, events.len())?;
    for event in events {
        tests.push(has_first_value(&values, *event))?;
    }
    Ok(tests)
}

/// Whether an event's value is the first value of its address.
fn has_first_value(values: &HashMap<u64, u64>, event: LogEvent) -> bool
    ensures { (first : List (ℕ × ℕ)) → ((a : ℕ) → unwrap_or (get nat_eq values.now a) 0 ≡ first_value first a) →
        IsTrue result ↔ (event.value ≡ first_value first event.address) }
{
    let value = values.get(&event.address).copied().unwrap_or(0);
    event.value == value
}

/// The first values by address: of two entries of one address the first counts.
fn first_values(alloc: Global, first: &[(u64, u64)]) -> Result<HashMap<u64, u64>, OutOfMemory>
    ensures { IfOk result (λ values. (a : ℕ) → unwrap_or (get nat_eq values a) 0 ≡ first_value first.now a) }
{
    let mut values = HashMap::new(alloc);
    let mut left = first.len();
    while left > 0 {
        left -= 1;
        values.insert(first[left].0, first[left].1)?;
    }
    Ok(values)
}
