ghost use Rattle.std.specs.Prelude.{◌≡◌, ◌≤◌, ℕ, nat_eq, IfOk};
ghost use Rattle.std.specs.List.{list_any};
ghost use Rattle.std.specs.Ordering.{nat_cmp};
ghost use Rattle.std.specs.BTreeSet.{contains};
ghost use Rattle.tso_ops.specs.Settings.{event_limit, barrier_limit, values_of};

use crate::faults::{OutOfMemory, ValueFault};
use crate::ops::Op;
use crate::settings::{Order, Setting, Version};
use std::alloc::Global;
use std::collections::BTreeSet;

/// The greatest number of processors of a program or a trace.
pub const MAX_PROCESSORS: usize = 16;

/// The greatest address.
pub const MAX_ADDRESS: u16 = 255;

/// The totals and stored values of the operations so far, against the limits of a program: the one check of an
/// operation against those before it.
#[derive(Debug, Drop)]
pub struct Tally {
    version: Version,
    order: Order,
    events: usize,
    barriers: usize,
    stored: BTreeSet<u64>,
    ghost few_events: { events ≤ event_limit version },
    ghost few_barriers: { barriers ≤ barrier_limit version },
}

impl Tally {
    ghost use Rattle.std.specs.Prelude.{◌≡◌, List, [], ◌∷◌, ◌++◌, OnOk, OnErr, IfOk, IfErr};
    ghost use Rattle.tso_ops.specs.declared.ops.Op.{Op};
    ghost use Rattle.tso_ops.specs.Settings.{SettingValue, version_one_tso, setting_of};
    ghost use Rattle.tso_ops.specs.Tally.{Admitted, IsAdmitRefusal};

    /// A tally of no operation, for version 1 under TSO.
    pub fn new(alloc: Global) -> Tally
        ensures { Admitted version_one_tso result [] }
    {
        Tally {
            version: Version::One,
            order: Order::Tso,
            events: 0,
            barriers: 0,
            stored: BTreeSet::new(alloc),
        }
    }

    /// A tally of no operation, for this setting, or OutOfMemory where an allocation was refused.
    pub fn of_setting(alloc: Global, setting: &Setting) -> Result<Tally, OutOfMemory>
        ensures { IfOk result (λ tally. Admitted (setting_of setting.now) tally []) }
    {
        Ok(Tally {
            version: setting.version,
            order: setting.order,
            events: 0,
            barriers: 0,
            stored: first_values(alloc, &setting.first)?,
        })
    }

    /// Admits the operation after those admitted before.
    ///
    /// It is refused for the first of TooManyEvents, AddressRange, ZeroValue, RepeatedValue and StbarInTso that it has, or as
    /// OutOfMemory where an allocation was refused; a refusal leaves the tally as it was.
    pub fn admit(&mut self, op: Op) -> Result<(), ValueFault>
        ensures admitted { (setting : SettingValue) (ops : List Op) → Admitted setting self.old ops → OnOk result (Admitted setting self.new (ops ++ op ∷ [])) }
        ensures refused { (setting : SettingValue) (ops : List Op) → Admitted setting self.old ops → IfErr result (IsAdmitRefusal setting ops op) }
        ensures unchanged { (setting : SettingValue) (ops : List Op) → Admitted setting self.old ops → OnErr result (Admitted setting self.new ops) }
    {
        let max_events = self.version.max_events();
        let max_barriers = self.version.max_barriers();
        let events = self.events + op.events();
        let barriers = self.barriers + op.barriers();
        if events > max_events || barriers > max_barriers {
            return Err(ValueFault::TooManyEvents);
        }
        // An STBAR has no other fault but the one above.
        if self.order.refuses(op) {
            return Err(ValueFault::StbarInTso);
        }
        if op.address().is_some_and(|a| a > MAX_ADDRESS) {
            return Err(ValueFault::AddressRange);
        }
        if let Some(value) = op.stored() {
            if value == 0 {
                return Err(ValueFault::ZeroValue);
            }
            if !self.stored.insert(value)? {
                return Err(ValueFault::RepeatedValue);
            }
        }
        self.events = events;
        self.barriers = barriers;
        Ok(())
    }
}

/// The values of these entries.
fn first_values(alloc: Global, first: &[(u16, u64)]) -> Result<BTreeSet<u64>, OutOfMemory>
    ensures { IfOk result (λ values. (v : ℕ) → contains nat_cmp values v ≡ list_any (nat_eq v) (values_of first.now)) }
{
    let mut values = BTreeSet::new(alloc);
    for entry in first {
        values.insert(entry.1)?;
    }
    Ok(values)
}
