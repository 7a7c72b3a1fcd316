ghost use Rattle.std.specs.Prelude.{◌≡◌, []};
ghost use Rattle.unit_core.specs.Machine.{IsFirstMemory};
ghost use Rattle.unit_core.specs.Units.{KeepsAllButFirst};

use crate::units::MemoryUnit;
use tso_ops::Program;

/// Gives a unit that has taken no step the first values of a program, at all 256 addresses.
pub fn preset_all<U: MemoryUnit>(unit: &mut U, program: &Program)
    requires { (U.value_of unit.old).steps ≡ [] }
    ensures first { IsFirstMemory program.now.setting.first (U.value_of unit.new).first }
    ensures others { KeepsAllButFirst (U.value_of unit.old) (U.value_of unit.new) }
{
    let _steps = unit.steps();
    for a in 0..256u16 {
        unit.preset(a, program.first(a));
    }
}
