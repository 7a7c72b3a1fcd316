ghost use Rattle.std.specs.Prelude.{◌≡◌, ◌≤◌, ◌<◌, ◌^◌, ℕ, false, List, IfOk, OnOk, IfErr, OnErr};
ghost use Rattle.tso_ops.specs.declared.faults.ValueFault.{ValueFault};
ghost use Rattle.tso_ops.specs.Settings.{barrier_limit, event_limit, first_value, setting_of, setting_of_order, with_entry};
ghost use Rattle.tso_ops.specs.Limits.{has_entry_fault, is_stbar_in_tso, KeepsEntries, IsEntryRefusal, IsFaultOf, IsFaultless, IsFirstFault};
ghost use Rattle.tso_ops.specs.Internal.Entries.{EndsBelow};

use crate::faults::{OutOfMemory, ValueFault};
use crate::limits::MAX_ADDRESS;
use crate::ops::Op;
use std::alloc::Global;

/// A memory model of the SPARC Architecture Manual Version 8, chapter 6.
#[derive(Clone, Copy, Debug, PartialEq, Eq)]
pub enum Order {
    /// Total Store Order: memory keeps the program order of a processor's stores.
    Tso,
    /// Partial Store Order: memory keeps that of stores to one address, and of stores with an STBAR between them.
    Pso,
}

/// A version of programs and traces.
#[derive(Clone, Copy, Debug, PartialEq, Eq)]
pub enum Version {
    /// Each location is 0 at first; up to 2,000 events and 2,000 barriers.
    One,
    /// Locations have first values; up to 8,000 events and 8,000 barriers.
    Two,
}

impl Version {
    /// The greatest number of events of a program or a trace, over all processors.
    pub fn max_events(self) -> usize
        ensures is { result ≡ event_limit self }
        ensures most { result ≤ 8000 }
    {
        match self {
            Version::One => 2_000,
            Version::Two => 8_000,
        }
    }

    /// The greatest number of barriers of both kinds of a program or a trace, over all processors: as many as events.
    pub fn max_barriers(self) -> usize
        ensures is { result ≡ barrier_limit self }
        ensures most { result ≤ 8000 }
    {
        self.max_events()
    }
}

impl Order {
    /// Whether the operation is an STBAR in a program under TSO.
    pub(crate) fn refuses(self, op: Op) -> bool
        ensures { result ≡ is_stbar_in_tso self op }
    {
        match self {
            Order::Tso => matches!(op, Op::Sb),
            Order::Pso => false,
        }
    }
}

/// The version, the memory model and the first values of a program or a trace.
#[derive(Debug, Drop)]
pub struct Setting {
    /// The version.
    pub version: Version,
    /// The memory model.
    pub order: Order,
    /// Addresses, in ascending order, and what memory has there at first: 0 at all others. Version 1 has none.
    pub first: Vec<(u16, u64)>,
}

impl Setting {
    /// Version 1 under this memory model.
    pub fn of_order(alloc: Global, order: Order) -> Setting
        ensures { setting_of result ≡ setting_of_order order }
    {
        Setting {
            version: Version::One,
            order,
            first: Vec::new(alloc),
        }
    }

    /// An equal setting, or OutOfMemory where an allocation was refused.
    pub fn copy(&self, alloc: Global) -> Result<Setting, OutOfMemory>
        ensures { IfOk result (λ s. setting_of s ≡ setting_of self.now) }
    {
        Ok(Setting {
            version: self.version,
            order: self.order,
            first: Vec::from_slice(alloc, &self.first)?,
        })
    }

    /// Appends the first value of an address, after entries that keep their limits.
    ///
    /// It is refused for the first of AddressRange (an address above 255), ZeroValue and InitOrder (an address that isn't
    /// above those before) that it has, or as OutOfMemory where an allocation was refused; a refusal leaves the setting as
    /// it was.
    pub fn push_first(&mut self, address: u16, value: u64) -> Result<(), ValueFault>
        requires { KeepsEntries self.old.first.items }
        ensures appended { OnOk result (setting_of self.new ≡ with_entry (setting_of self.old) (address, value)) }
        ensures kept { OnOk result (KeepsEntries self.new.first.items) }
        ensures clean { OnOk result ((why : ValueFault) → has_entry_fault self.old.first.items (address, value) why ≡ false) }
        ensures refused { IfErr result (IsEntryRefusal self.old.first.items (address, value)) }
        ensures unchanged { OnErr result (setting_of self.new ≡ setting_of self.old) }
    {
        check_entry(end_of(&self.first), address, value)?;
        self.first.push((address, value))?;
        Ok(())
    }
}

/// One more than the greatest address of these entries: 0 where there is none.
fn end_of(first: &[(u16, u64)]) -> usize
    ensures { KeepsEntries first.now → EndsBelow first.now result }
{
    match first.last() {
        Some(entry) => entry.0 as usize + 1,
        None => 0,
    }
}

/// The first value of address `a`.
pub(crate) fn first_at(first: &[(u16, u64)], a: u16) -> u64
    ensures { result ≡ first_value first.now a }
{
    for entry in first {
        if entry.0 == a {
            return entry.1;
        }
    }
    0
}

/// Checks the entries of first values, in their order.
pub(crate) fn check_first(first: &[(u16, u64)]) -> Result<(), ValueFault>
    ensures kept { OnOk result (KeepsEntries first.now) }
    ensures accepted { OnOk result (IsFaultless has_entry_fault first.now) }
    ensures refused { IfErr result (IsFaultOf has_entry_fault first.now) }
{
    let mut least = 0;
    for entry in first {
        check_entry(least, entry.0, entry.1)?;
        least = entry.0 as usize + 1;
    }
    Ok(())
}

/// Checks an entry after those whose addresses are below `least`.
fn check_entry(least: usize, address: u16, value: u64) -> Result<(), ValueFault>
    ensures within { OnOk result (address < 256) }
    ensures non_zero { OnOk result (0 < value) }
    ensures fits { value < 2 ^ 64 }
    ensures after { OnOk result (least ≤ address) }
    ensures refused { (before : List (ℕ × ℕ)) → EndsBelow before least → IfErr result (IsFirstFault has_entry_fault before (address, value)) }
{
    if address > MAX_ADDRESS {
        return Err(ValueFault::AddressRange);
    }
    if value == 0 {
        return Err(ValueFault::ZeroValue);
    }
    if (address as usize) < least {
        return Err(ValueFault::InitOrder);
    }
    Ok(())
}
