ghost use Rattle.std.specs.Prelude.{◌≡◌, ◌≢◌, ◌<◌, [], IfOk, IfErr, OnOk, Decides};
ghost use Rattle.tso_ops.specs.declared.faults.ValueFault.{ValueFault};
ghost use Rattle.tso_ops.specs.declared.settings.Version.TheVariants.{One};
ghost use Rattle.tso_ops.specs.Settings.{first_value, version_one_tso, setting_of, setting_of_first, setting_of_order};
ghost use Rattle.tso_ops.specs.Values.{rows, program_of_lists, ops_at, list_count};
ghost use Rattle.tso_ops.specs.Limits.{IsProgram, IsValueRefusal};

use crate::checks::check_lists;
use crate::comparing::{are_same_lists, is_same_setting};
use crate::faults::{OutOfMemory, Refused, RefusedFirst, ValueFault};
use crate::ops::Op;
use crate::settings::{Order, Setting, Version, first_at};
use std::alloc::Global;
use std::marker::Model;

/// A program for up to 16 processors: its memory model, the first values of memory and the operations of each processor,
/// within the limits of its version.
#[derive(Debug, Drop)]
pub struct Program {
    setting: Setting,
    lists: Vec<Vec<Op>>,
}

impl Model for Program {
    ghost use Rattle.tso_ops.specs.Settings.{setting_of};
    ghost use Rattle.tso_ops.specs.Values.{ProgramValue, rows, program_of_lists};
    ghost use Rattle.tso_ops.specs.Limits.{IsProgram};

    ghost Value = { ProgramValue };

    ghost view = { λ p. program_of_lists (setting_of p.setting) (rows p.lists.items) };

    ghost invariant = { λ p. IsProgram (program_of_lists (setting_of p.setting) (rows p.lists.items)) };
}

impl Program {
    /// The program of these lists, one for each processor: `with_order` under TSO.
    pub fn new(alloc: Global, lists: Vec<Vec<Op>>) -> Result<Program, Refused<Op>>
        ensures made { IfOk result (λ p. p ≡ program_of_lists version_one_tso (rows lists.items)) }
        ensures accepted { OnOk result ((why : ValueFault) → IsValueRefusal (program_of_lists version_one_tso (rows lists.items)) why → ⊥) }
        ensures refused { IfErr result (λ r. r.why ≢ ValueFault.OutOfMemory → IsValueRefusal (program_of_lists version_one_tso (rows lists.items)) r.why) }
        ensures handed_back { IfErr result (λ r. r.lists ≡ lists) }
    {
        Program::with_order(alloc, Order::Tso, lists)
    }

    /// The program of these lists under this memory model, of version 1: each location is 0 at first.
    ///
    /// Refused, with the lists handed back: TooManyProcessors above 16 lists; else the first operation in file
    /// order that has a fault decides, by the order TooManyEvents, AddressRange, ZeroValue, RepeatedValue, StbarInTso;
    /// or OutOfMemory where an allocation was refused.
    pub fn with_order(
        alloc: Global,
        order: Order,
        lists: Vec<Vec<Op>>,
    ) -> Result<Program, Refused<Op>>
        ensures made { IfOk result (λ p. p ≡ program_of_lists (setting_of_order order) (rows lists.items)) }
        ensures accepted { OnOk result ((why : ValueFault) → IsValueRefusal (program_of_lists (setting_of_order order) (rows lists.items)) why → ⊥) }
        ensures refused { IfErr result (λ r. r.why ≢ ValueFault.OutOfMemory →
            IsValueRefusal (program_of_lists (setting_of_order order) (rows lists.items)) r.why) }
        ensures handed_back { IfErr result (λ r. r.lists ≡ lists) }
    {
        match check_program(alloc, Setting::of_order(alloc, order), lists) {
            Ok(program) => Ok(program),
            Err(refused) => Err(Refused {
                why: refused.why,
                lists: refused.lists,
            }),
        }
    }

    /// The program of these lists under this memory model, of version 2: `first` has addresses, in ascending order, with
    /// their first values; each other location is 0 at first.
    ///
    /// Refused, with first values and lists handed back: TooManyProcessors above 16 lists; else the first entry of
    /// `first` that has a fault decides, by the order AddressRange, ZeroValue, InitOrder; else the first operation as for
    /// `with_order`, where RepeatedValue is also a store of a first value of any address; or OutOfMemory where an
    /// allocation was refused.
    pub fn with_first(
        alloc: Global,
        order: Order,
        first: Vec<(u16, u64)>,
        lists: Vec<Vec<Op>>,
    ) -> Result<Program, RefusedFirst<Op>>
        ensures made { IfOk result (λ p. p ≡ program_of_lists (setting_of_first order first.items) (rows lists.items)) }
        ensures accepted { OnOk result ((why : ValueFault) →
            IsValueRefusal (program_of_lists (setting_of_first order first.items) (rows lists.items)) why → ⊥) }
        ensures refused { IfErr result (λ r. r.why ≢ ValueFault.OutOfMemory →
            IsValueRefusal (program_of_lists (setting_of_first order first.items) (rows lists.items)) r.why) }
        ensures handed_back { IfErr result (λ r. r.lists ≡ lists) }
        ensures first_handed_back { IfErr result (λ r. r.first ≡ first) }
    {
        let setting = Setting {
            version: Version::Two,
            order,
            first,
        };
        check_program(alloc, setting, lists)
    }

    /// The program of a setting and lists that are known to keep the limits.
    pub fn of_lists(setting: Setting, lists: Vec<Vec<Op>>) -> Program
        requires { IsProgram (program_of_lists (setting_of setting) (rows lists.items)) }
        ensures { result ≡ program_of_lists (setting_of setting) (rows lists.items) }
    {
        Program { setting, lists }
    }

    /// The memory model.
    pub fn order(&self) -> Order
        ensures { result ≡ self.now.setting.order }
    {
        self.setting.order
    }

    /// The version.
    pub fn version(&self) -> Version
        ensures { result ≡ self.now.setting.version }
    {
        self.setting.version
    }

    /// The first value of address `a`: 0 where it has none of its own.
    pub fn first(&self, a: u16) -> u64
        ensures { result ≡ first_value self.now.setting.first a }
    {
        first_at(&self.setting.first, a)
    }

    /// Version, memory model and first values.
    pub fn setting(&self) -> &Setting
        ensures { setting_of result.now ≡ self.now.setting }
    {
        &self.setting
    }

    /// The number of processors, from 0 to 16.
    pub fn processors(&self) -> usize
        ensures count { result ≡ list_count self.now }
        ensures kept { IsProgram self.now }
    {
        self.lists.len()
    }

    /// The operations of processor `p`, in program order.
    pub fn ops(&self, p: usize) -> &[Op]
        requires { p < list_count self.now }
        ensures { result.now ≡ ops_at self.now p }
    {
        &self.lists[p]
    }

    /// An equal program, also in version, memory model and first values, or OutOfMemory where an allocation was refused.
    pub fn copy(&self) -> Result<Program, OutOfMemory>
        ensures { IfOk result (λ p. p ≡ self.now) }
    {
        let alloc = *self.lists.allocator();
        let mut lists = Vec::new(alloc);
        for list in &self.lists {
            lists.push(Vec::from_slice(alloc, list)?)?;
        }
        let setting = self.setting.copy(alloc)?;
        Ok(Program { setting, lists })
    }

    /// Whether the other is an equal program, also in version, memory model and first values.
    pub fn is_same(&self, other: &Program) -> bool
        ensures { Decides result (self.now ≡ other.now) }
    {
        is_same_setting(&self.setting, &other.setting) && are_same_lists(&self.lists, &other.lists)
    }
}

/// The program of this setting and these lists, if they keep the limits.
fn check_program(
    alloc: Global,
    setting: Setting,
    lists: Vec<Vec<Op>>,
) -> Result<Program, RefusedFirst<Op>>
    requires { setting.version ≡ One → setting.first.items ≡ [] }
    ensures made { IfOk result (λ p. p ≡ program_of_lists (setting_of setting) (rows lists.items)) }
    ensures accepted { OnOk result ((why : ValueFault) → IsValueRefusal (program_of_lists (setting_of setting) (rows lists.items)) why → ⊥) }
    ensures refused { IfErr result (λ r. r.why ≢ ValueFault.OutOfMemory → IsValueRefusal (program_of_lists (setting_of setting) (rows lists.items)) r.why) }
    ensures handed_back { IfErr result (λ r. r.lists ≡ lists) }
    ensures first_handed_back { IfErr result (λ r. r.first ≡ setting.first) }
{
    match check_lists(alloc, &setting, &lists) {
        Ok(()) => Ok(Program { setting, lists }),
        Err(why) => Err(RefusedFirst {
            why,
            first: setting.first,
            lists,
        }),
    }
}
