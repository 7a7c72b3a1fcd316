ghost use Rattle.std.specs.Prelude.{◌≡◌, ◌≢◌, List, [], ◌++◌, map, OnOk, IfErr, All};
ghost use Rattle.std.specs.List.{flat_map};
ghost use Rattle.tso_ops.specs.declared.ops.Op.{Op};
ghost use Rattle.tso_ops.specs.declared.faults.ValueFault.{ValueFault};
ghost use Rattle.tso_ops.specs.declared.settings.Version.TheVariants.{One};
ghost use Rattle.tso_ops.specs.Settings.{SettingValue, setting_of};
ghost use Rattle.tso_ops.specs.Values.{rows, program_by};
ghost use Rattle.tso_ops.specs.Limits.{IsProgram, IsValueRefusal, IsFaultOf, has_fault};
ghost use Rattle.tso_ops.specs.Tally.{Admitted};

use crate::faults::ValueFault;
use crate::limits::{MAX_PROCESSORS, Tally};
use crate::ops::Operation;
use crate::settings::{Setting, check_first};
use std::alloc::Global;

/// Checks the lists of a program or a trace: its number of processors, its first values, then each operation in file
/// order.
pub(crate) fn check_lists<T: Operation>(
    alloc: Global,
    setting: &Setting,
    lists: &[Vec<T>],
) -> Result<(), ValueFault>
    requires { setting.now.version ≡ One → setting.now.first.items ≡ [] }
    ensures limits { OnOk result (IsProgram (program_by T.op (setting_of setting.now) (rows lists.now))) }
    ensures fits { OnOk result (All T.fits (flat_map (λ ops. ops) (rows lists.now))) }
    ensures accepted { OnOk result ((why : ValueFault) → IsValueRefusal (program_by T.op (setting_of setting.now) (rows lists.now)) why → ⊥) }
    ensures refused { IfErr result (λ why. why ≢ ValueFault.OutOfMemory → IsValueRefusal (program_by T.op (setting_of setting.now) (rows lists.now)) why) }
{
    if lists.len() > MAX_PROCESSORS {
        return Err(ValueFault::TooManyProcessors);
    }
    check_first(&setting.first)?;
    let mut tally = Tally::of_setting(alloc, setting)?;
    for list in lists {
        admit_list(&mut tally, list)?;
    }
    Ok(())
}

/// Admits the operations of one processor.
fn admit_list<T: Operation>(tally: &mut Tally, list: &[T]) -> Result<(), ValueFault>
    ensures admitted { (setting : SettingValue) (ops : List Op) → Admitted setting tally.old ops →
        OnOk result (Admitted setting tally.new (ops ++ map T.op list.now)) }
    ensures fits { OnOk result (All T.fits list.now) }
    ensures refused { (setting : SettingValue) (ops : List Op) → Admitted setting tally.old ops →
        IfErr result (λ why. why ≢ ValueFault.OutOfMemory → IsFaultOf (has_fault setting) (ops ++ map T.op list.now) why) }
{
    for item in list {
        tally.admit(item.op())?;
    }
    Ok(())
}
