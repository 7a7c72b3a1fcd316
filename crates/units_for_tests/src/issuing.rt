ghost use Rattle.std.specs.Prelude.{◌≡◌, ◌<◌, [], All, OnOk};
ghost use Rattle.unit_core.specs.Issues.{IsIssuable};
ghost use Rattle.unit_core.specs.Machine.{IsFirstMemory};
ghost use Rattle.unit_core.specs.Records.{AreOpsOf};
ghost use Rattle.units_for_tests.specs.Issues.{Issues};

use tso_ops::{Op, OutOfMemory, Program};
use unit_core::{MemoryUnit, perform, preset_all};

/// Makes a unit that has taken no step ready for `conclude`: it gets the first values of the program and takes its
/// operations, processor by processor. OutOfMemory where the unit answered it.
pub fn issue_program<U: MemoryUnit>(unit: &mut U, program: &Program) -> Result<(), OutOfMemory>
    requires { (U.value_of unit.old).steps ≡ [] }
    ensures ops { OnOk result (AreOpsOf program.now (U.value_of unit.new).steps) }
    ensures first { OnOk result (IsFirstMemory program.now.setting.first (U.value_of unit.new).first) }
    ensures lawful { OnOk result ((U.value_of unit.new).lawful ≡ (U.value_of unit.old).lawful) }
    ensures order { OnOk result ((U.value_of unit.new).order ≡ (U.value_of unit.old).order) }
{
    preset_all(unit, program);
    for p in 0..program.processors() {
        issue_list(unit, p, program.ops(p))?;
    }
    Ok(())
}

/// Makes processor `p` take these operations, in order.
fn issue_list<U: MemoryUnit>(unit: &mut U, p: usize, ops: &[Op]) -> Result<(), OutOfMemory>
    requires processor { p < 16 }
    requires issuable { All IsIssuable ops.now }
    ensures { OnOk result (Issues (U.value_of unit.old) (U.value_of unit.new) p ops.now) }
{
    for op in ops {
        perform(unit, p, *op)?;
    }
    Ok(())
}
