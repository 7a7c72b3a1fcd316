//! Swaps that change nothing, as a failed `CAS` or a lock that is taken already leaves them.
ghost use Rattle.std.specs.Prelude.{◌≡◌, ◌++◌, IfOk, OnOk, map};
ghost use Rattle.std.specs.List.{flat_map};
ghost use Rattle.tso_ops.specs.Values.{rows};
ghost use Rattle.log_text.specs.LogValues.{log_value};
ghost use Rattle.log_thinning.specs.IdleSwaps.{read_of, with_idle_swaps_read};

use log_text::{Log, LogOperation, LoggedOperation};
use std::alloc::Global;
use tso_ops::{Order, OutOfMemory};

/// The log, with each swap that stores what it read as a barrier and a load, both with the swap's line. Under PSO it stays as
/// it is. OutOfMemory where an allocation was refused.
pub fn read_idle_swaps(alloc: Global, log: &Log) -> Result<Log, OutOfMemory>
    ensures { IfOk result (λ read. log_value read ≡ with_idle_swaps_read (log_value log.now)) }
{
    let lists = match log.order {
        Order::Tso => read_lists(alloc, &log.lists)?,
        Order::Pso => copy_lists(alloc, &log.lists)?,
    };
    Ok(Log {
        order: log.order,
        first: log.first.clone()?,
        lists,
        left_out: log.left_out,
    })
}

/// The operations of the processors as they are read under TSO.
fn read_lists(
    alloc: Global,
    lists: &[Vec<LoggedOperation>],
) -> Result<Vec<Vec<LoggedOperation>>, OutOfMemory>
    ensures { IfOk result (λ read. rows read.items ≡ map (flat_map read_of) (rows lists.now)) }
{
    let mut read = Vec::with_capacity(alloc, lists.len())?;
    for list in lists {
        read.push(read_list(alloc, list)?)?;
    }
    Ok(read)
}

/// The same operations.
fn copy_lists(
    alloc: Global,
    lists: &[Vec<LoggedOperation>],
) -> Result<Vec<Vec<LoggedOperation>>, OutOfMemory>
    ensures { IfOk result (λ copied. rows copied.items ≡ rows lists.now) }
{
    let mut copied = Vec::with_capacity(alloc, lists.len())?;
    for list in lists {
        copied.push(Vec::from_slice(alloc, list)?)?;
    }
    Ok(copied)
}

/// A processor's operations as they are read.
fn read_list(alloc: Global, list: &[LoggedOperation]) -> Result<Vec<LoggedOperation>, OutOfMemory>
    ensures { IfOk result (λ read. read.items ≡ flat_map read_of list.now) }
{
    let mut read = Vec::new(alloc);
    for logged in list {
        push_read(*logged, &mut read)?;
    }
    Ok(read)
}

/// Pushes what is read of an operation.
fn push_read(logged: LoggedOperation, read: &mut Vec<LoggedOperation>) -> Result<(), OutOfMemory>
    ensures { OnOk result (read.new.items ≡ read.old.items ++ read_of logged) }
{
    let line = logged.line;
    match logged.operation {
        LogOperation::Sw { a, r, v } if r == v => {
            read.push(LoggedOperation {
                line,
                operation: LogOperation::Mb,
            })?;
            read.push(LoggedOperation {
                line,
                operation: LogOperation::Ld { a, r: v },
            })?;
        }
        _ => read.push(logged)?,
    }
    Ok(())
}
