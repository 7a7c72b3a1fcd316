//! Names of events: the lines of a log.
ghost use Rattle.std.specs.Prelude.{◌≡◌, ◌++◌, IfOk, OnOk};
ghost use Rattle.std.specs.List.{flat_map};
ghost use Rattle.tso_ops.specs.Values.{rows};
ghost use Rattle.log_text.specs.LogValues.{log_value};
ghost use Rattle.value_texts.specs.Names.{event_names, names_in};

use log_text::{Log, LogOperation, LoggedOperation};
use std::alloc::Global;
use tso_ops::OutOfMemory;

/// The name of an event: the line of the log that it stands on, and which half of a swap it is.
#[derive(Clone, Copy, Debug, PartialEq, Eq)]
pub struct EventName {
    /// The number of the line, from 1.
    pub line: usize,
    /// Whether it is the store of a swap: it is named `N'`, and the swap's load `N`.
    pub is_swap_store: bool,
}

/// The names of a log's events, in the order of their numbers: the name of event number n, from 1, is item n - 1.
/// OutOfMemory where an allocation was refused.
pub fn names_of(alloc: Global, log: &Log) -> Result<Vec<EventName>, OutOfMemory>
    ensures { IfOk result (λ names. names.items ≡ event_names (log_value log.now)) }
{
    let mut names = Vec::new(alloc);
    for list in &log.lists {
        push_list(list, &mut names)?;
    }
    Ok(names)
}

/// Pushes the names of the events of one processor.
fn push_list(list: &[LoggedOperation], names: &mut Vec<EventName>) -> Result<(), OutOfMemory>
    ensures { OnOk result (names.new.items ≡ names.old.items ++ flat_map names_in list.now) }
{
    for logged in list {
        push_operation(*logged, names)?;
    }
    Ok(())
}

/// Pushes the names of the events of an operation.
fn push_operation(logged: LoggedOperation, names: &mut Vec<EventName>) -> Result<(), OutOfMemory>
    ensures { OnOk result (names.new.items ≡ names.old.items ++ names_in logged) }
{
    let line = logged.line;
    let name = EventName {
        line,
        is_swap_store: false,
    };
    match logged.operation {
        LogOperation::Ld { .. } | LogOperation::St { .. } => names.push(name)?,
        LogOperation::Sw { .. } => {
            names.push(name)?;
            names.push(EventName {
                line,
                is_swap_store: true,
            })?;
        }
        LogOperation::Mb | LogOperation::Sb => {}
    }
    Ok(())
}
