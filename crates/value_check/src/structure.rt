//! Whether lines are those of a refutation by values.
ghost use Rattle.std.specs.Prelude.{◌≡◌, ◌≤◌, ◌<◌, ◌+◌, ◌-◌, ◌^◌, ◌↔◌, ◌∷◌, [], List, IsTrue, MatchOption};
ghost use Rattle.value_evidence.specs.declared.refutations.ValueRefutationLine.{ValueRefutationLine};
ghost use Rattle.value_evidence.specs.declared.refutations.ValueRefutationLine.TheVariants.{Else};
ghost use Rattle.value_evidence.specs.Refutations.{IsValueRefutation};
ghost use Rattle.value_check.specs.RefutationRefusals.{IsValueStructureFault};
ghost use Rattle.value_check.specs.Internal.Structure.{IsMissing};

use crate::refusals::ValueRefutationFault;
use value_evidence::ValueRefutationLine;

/// How far the structure of lines has come.
#[derive(Clone, Copy)]
struct Structure {
    /// How many second parts of cases are missing.
    missing: usize,
    /// Whether the last line is an end, after which nothing but a second part can come.
    ended: bool,
}

impl Structure {
    /// Takes the next line, and says whether it may stand here.
    fn takes(&mut self, line: ValueRefutationLine) -> bool
        requires { self.old.missing < 2 ^ 64 - 1 }
        ensures takes { (rest : List ValueRefutationLine) → IsMissing self.old.ended self.old.missing (line ∷ rest) ↔
            (IsTrue result × IsMissing self.new.ended self.new.missing rest) }
        ensures missing { self.new.missing ≤ self.old.missing + 1 }
    {
        match line {
            ValueRefutationLine::Step(_) => !self.ended,
            ValueRefutationLine::ReadCase { load: _, source: _ } => {
                self.missing += 1;
                !self.ended
            },
            ValueRefutationLine::BeforeCase {
                first: _,
                second: _,
            } => {
                self.missing += 1;
                !self.ended
            },
            ValueRefutationLine::Else => self.begins_second_part(),
            ValueRefutationLine::End(_) => {
                let takes = !self.ended;
                self.ended = true;
                takes
            },
        }
    }

    /// Begins the second part of an open case, and says whether one may begin here.
    fn begins_second_part(&mut self) -> bool
        ensures begins { (rest : List ValueRefutationLine) → IsMissing self.old.ended self.old.missing (Else ∷ rest) ↔
            (IsTrue result × IsMissing self.new.ended self.new.missing rest) }
        ensures missing { self.new.missing ≤ self.old.missing }
    {
        if !self.ended {
            return false;
        }
        self.ended = false;
        if self.missing == 0 {
            return false;
        }
        self.missing -= 1;
        true
    }

    /// Whether the lines so far are those of a refutation.
    fn is_whole(&self) -> bool
        ensures { IsTrue result ↔ IsMissing self.now.ended self.now.missing [] }
    {
        self.ended && self.missing == 0
    }
}

/// The fault of lines that aren't those of a refutation; None where they are.
pub(crate) fn structure_fault(lines: &[ValueRefutationLine]) -> Option<ValueRefutationFault>
    ensures { MatchOption result (IsValueRefutation lines.now) (IsValueStructureFault lines.now) }
{
    let mut structure = Structure {
        missing: 0,
        ended: false,
    };
    for (k, line) in lines.iter().enumerate() {
        if !structure.takes(*line) {
            return Some(ValueRefutationFault::Misplaced(k + 1));
        }
    }
    if structure.is_whole() {
        None
    } else {
        Some(ValueRefutationFault::Unfinished)
    }
}
