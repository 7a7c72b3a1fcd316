//! Loads of values that nothing wrote, with what was stored to their addresses.
ghost use Rattle.std.specs.Prelude.{◌≡◌, ◌≢◌, ◌≤◌, ◌⊎◌, ◌++◌, [], ◌∷◌, IfOk, IfSome, OnOk, MatchOption, false};
ghost use Rattle.std.specs.List.{All, flat_map};
ghost use Rattle.tso_ops.specs.Settings.{first_value};
ghost use Rattle.tso_ops.specs.Values.{rows};
ghost use Rattle.log_selections.specs.Shown.{IsLineOf};
ghost use Rattle.log_selections.specs.Unwritten.{IsFirstStore, IsLastStore, IsUnwrittenLoad, logged_stores_to, read_by, stored_at};

use crate::known::KnownLog;
use crate::shown::Shown;
use crate::writers::find_first_values;
use log_text::{LogOperation, LoggedOperation};
use std::alloc::{AllocFailed, Global};
use tso_ops::{OutOfMemory, Part};

/// A store of a log to some address.
#[derive(Clone, Copy, Debug, PartialEq, Eq)]
pub struct LoggedStore {
    /// Its line in the log's text.
    pub line: usize,
    /// What it stored.
    pub value: u64,
}

/// A load of what nothing wrote to its address, also a swap's.
#[derive(Clone, Copy, Debug, PartialEq, Eq)]
pub struct UnwrittenLoad {
    /// The load.
    pub shown: Shown,
    /// How many stores there are to its address.
    pub stores: usize,
    /// The one of the least line.
    pub first: Option<LoggedStore>,
    /// The one of the greatest line.
    pub last: Option<LoggedStore>,
}

impl KnownLog {
    /// The load of this number, with what was stored to its address: None where it is no load, or something wrote what it
    /// read. OutOfMemory where an allocation was refused.
    pub fn unwritten(
        &self,
        alloc: Global,
        number: usize,
    ) -> Result<Option<UnwrittenLoad>, OutOfMemory>
        ensures { IfOk result (λ found. IfSome found (IsUnwrittenLoad self.now)) }
    {
        let log = self.log();
        let Some(shown) = self.numbered(number) else {
            return Ok(None);
        };
        let Some((a, r)) = read_by(shown.logged.operation) else {
            return Ok(None);
        };
        let stores = stores_to(alloc, &log.lists, a)?;
        if first_value(alloc, &log.first, a)? == r || has_value(&stores, r) {
            return Ok(None);
        }
        Ok(Some(UnwrittenLoad {
            shown,
            stores: stores.len(),
            first: first_store(&stores),
            last: last_store(&stores),
        }))
    }

    /// The load of this number.
    fn numbered(&self, number: usize) -> Option<Shown>
        ensures { IfSome result (IsLineOf self.now.lists) }
    {
        let Shown {
            processor,
            logged,
            part,
        } = self.operation_of(number)?;
        if part == Part::SwapStore {
            return None;
        }
        Some(Shown {
            processor,
            logged,
            part: Part::Whole,
        })
    }
}

/// The address and the value that an operation reads.
fn read_by(operation: LogOperation) -> Option<(u64, u64)>
    ensures { MatchOption result (read_by operation ≡ []) (λ read. read_by operation ≡ read ∷ []) }
{
    match operation {
        LogOperation::Ld { a, r } | LogOperation::Sw { a, r, .. } => Some((a, r)),
        LogOperation::St { .. } | LogOperation::Mb | LogOperation::Sb => None,
    }
}

/// The stores to an address.
fn stores_to(
    alloc: Global,
    lists: &[Vec<LoggedOperation>],
    a: u64,
) -> Result<Vec<LoggedStore>, OutOfMemory>
    ensures { IfOk result (λ stores. stores.items ≡ logged_stores_to (rows lists.now) a) }
{
    let mut stores = Vec::new(alloc);
    for list in lists {
        push_stores(list, a, &mut stores)?;
    }
    Ok(stores)
}

/// Pushes the stores of a processor to an address.
fn push_stores(
    list: &[LoggedOperation],
    a: u64,
    stores: &mut Vec<LoggedStore>,
) -> Result<(), AllocFailed<LoggedStore>>
    ensures { OnOk result (stores.new.items ≡ stores.old.items ++ flat_map (stored_at a) list.now) }
{
    for logged in list {
        if let Some(store) = stored_at(a, *logged) {
            stores.push(store)?;
        }
    }
    Ok(())
}

/// What an operation stores to an address.
fn stored_at(a: u64, logged: LoggedOperation) -> Option<LoggedStore>
    ensures { MatchOption result (stored_at a logged ≡ []) (λ store. stored_at a logged ≡ store ∷ []) }
{
    match logged.operation {
        LogOperation::St { a: b, v } | LogOperation::Sw { a: b, v, .. } if b == a => {
            Some(LoggedStore {
                line: logged.line,
                value: v,
            })
        }
        _ => None,
    }
}

/// The first value of an address.
fn first_value(alloc: Global, first: &[(u64, u64)], a: u64) -> Result<u64, OutOfMemory>
    ensures { IfOk result (λ value. value ≡ first_value first.now a) }
{
    let values = find_first_values(alloc, first)?;
    Ok(values.get(&a).copied().unwrap_or(0))
}

/// Whether one of the stores is of this value.
fn has_value(stores: &[LoggedStore], value: u64) -> bool
    ensures { result ≡ false → All (λ store. store.value ≢ value) stores.now }
{
    for store in stores {
        if store.value == value {
            return true;
        }
    }
    false
}

/// The store of the least line.
fn first_store(stores: &[LoggedStore]) -> Option<LoggedStore>
    ensures { IsFirstStore stores.now result }
{
    let mut first = *stores.first()?;
    for store in stores {
        first = earlier(first, *store);
    }
    Some(first)
}

/// The store of the greatest line.
fn last_store(stores: &[LoggedStore]) -> Option<LoggedStore>
    ensures { IsLastStore stores.now result }
{
    let mut last = *stores.first()?;
    for store in stores {
        last = later(last, *store);
    }
    Some(last)
}

/// Of two stores the one of the lesser line.
fn earlier(store: LoggedStore, other: LoggedStore) -> LoggedStore
    ensures either { (result ≡ store) ⊎ (result ≡ other) }
    ensures first { (result.line ≤ store.line) × (result.line ≤ other.line) }
{
    if other.line < store.line {
        other
    } else {
        store
    }
}

/// Of two stores the one of the greater line.
fn later(store: LoggedStore, other: LoggedStore) -> LoggedStore
    ensures either { (result ≡ store) ⊎ (result ≡ other) }
    ensures last { (store.line ≤ result.line) × (other.line ≤ result.line) }
{
    if other.line > store.line {
        other
    } else {
        store
    }
}
