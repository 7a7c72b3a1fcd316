ghost use Rattle.std.specs.Prelude.{◌≡◌, ◌<◌, IfOk, IfErr};
ghost use Rattle.tso_ops.specs.Values.{op_of};
ghost use Rattle.unit_core.specs.Units.{Takes};
ghost use Rattle.unit_core.specs.Issues.{IsIssuable, step_of};

use crate::units::MemoryUnit;
use tso_ops::{Op, OutOfMemory, Outcome};

/// Makes processor `p` take an operation on the unit: what it was answered, or OutOfMemory where the unit was refused
/// memory and is as it was.
pub fn perform<U: MemoryUnit>(unit: &mut U, p: usize, op: Op) -> Result<Outcome, OutOfMemory>
    requires processor { p < 16 }
    requires issuable { IsIssuable op }
    ensures answered { IfOk result (λ outcome. op_of outcome ≡ op) }
    ensures taken { IfOk result (λ outcome. Takes (U.value_of unit.old) (U.value_of unit.new) (step_of p outcome)) }
    ensures refused { IfErr result (λ _. U.value_of unit.new ≡ U.value_of unit.old) }
{
    Ok(match op {
        Op::Ld { a } => Outcome::Ld {
            a,
            r: unit.load(p, a)?,
        },
        Op::St { a, v } => {
            unit.store(p, a, v)?;
            Outcome::St { a, v }
        }
        Op::Sw { a, v } => Outcome::Sw {
            a,
            r: unit.swap(p, a, v)?,
            v,
        },
        Op::Mb => {
            unit.membar(p)?;
            Outcome::Mb
        }
        Op::Sb => {
            unit.stbar(p)?;
            Outcome::Sb
        }
    })
}
