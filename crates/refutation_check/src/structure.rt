//! Whether lines are those of a refutation.
ghost use Rattle.std.specs.Prelude.{◌≡◌, ◌↔◌, ◌∷◌, [], true, false, List, reverse, IsTrue, IfErr, IfOk, MatchOption};
ghost use Rattle.tso_evidence.specs.declared.refutations.RefutationLine.{RefutationLine};
ghost use Rattle.tso_evidence.specs.declared.refutations.RefutationLine.TheVariants.{Else};
ghost use Rattle.tso_evidence.specs.Refutations.{IsRefutation};
ghost use Rattle.refutation_check.specs.Refusals.{HasCase, IsCase, IsStructureFault};
ghost use Rattle.refutation_check.specs.Internal.Structure.{IsMissing};

use crate::faults::RefutationFault;
use std::alloc::{AllocError, Global};
use tso_evidence::RefutationLine;

/// The numbers of a case whose second part is missing.
#[derive(Clone, Copy, Debug)]
pub(crate) struct OpenCase {
    first: u64,
    second: u64,
}

/// How far the structure of lines has come.
#[derive(Debug, Drop)]
struct Structure {
    /// The cases whose second parts are missing, the last one at the end.
    cases: Vec<OpenCase>,
    /// Whether the last line is a cycle, after which nothing but a second part can come.
    ended: bool,
}

impl Structure {
    /// Where no line has come.
    fn new(alloc: Global) -> Structure
        ensures cases { result.cases.items ≡ [] }
        ensures ended { result.ended ≡ false }
    {
        Structure {
            cases: Vec::new(alloc),
            ended: false,
        }
    }

    /// Takes the next line, and says whether it may stand here. OutOfMemory where an allocation was refused.
    fn takes(&mut self, line: &RefutationLine) -> Result<bool, AllocError>
        ensures takes { IfOk result (λ takes. (rest : List RefutationLine) →
            IsMissing self.old.ended (reverse self.old.cases.items) (line.now ∷ rest) ↔
            (IsTrue takes × IsMissing self.new.ended (reverse self.new.cases.items) rest)) }
        ensures memory { IfErr result (λ _. IsCase line.now) }
    {
        match line {
            RefutationLine::Step(_) => Ok(!self.ended),
            RefutationLine::Case { first, second } => {
                if self.ended {
                    return Ok(false);
                }
                self.cases.push(OpenCase {
                    first: *first,
                    second: *second,
                })?;
                Ok(true)
            },
            RefutationLine::Else { first, second } => Ok(
                self.ended && self.leaves(*first, *second),
            ),
            RefutationLine::Cycle(_) => {
                let takes = !self.ended;
                self.ended = true;
                Ok(takes)
            },
        }
    }

    /// Begins the second part of the last open case, and says whether it has these numbers.
    fn leaves(&mut self, first: u64, second: u64) -> bool
        ensures { (rest : List RefutationLine) →
            IsMissing true (reverse self.old.cases.items) (Else first second ∷ rest) ↔
            (IsTrue result × IsMissing self.new.ended (reverse self.new.cases.items) rest) }
    {
        self.ended = false;
        match self.cases.pop() {
            Some(case) => case.first == second && case.second == first,
            None => false,
        }
    }

    /// Whether the lines so far are those of a refutation.
    fn is_whole(&self) -> bool
        ensures { IsTrue result ↔ IsMissing self.now.ended (reverse self.now.cases.items) [] }
    {
        self.ended && self.cases.as_slice().is_empty()
    }
}

/// The fault of lines that aren't those of a refutation; None where they are. OutOfMemory where an allocation was
/// refused.
pub(crate) fn structure_fault(
    alloc: Global,
    lines: &[RefutationLine],
) -> Result<Option<RefutationFault>, AllocError>
    ensures told { IfOk result (λ said. MatchOption said (IsRefutation lines.now) (IsStructureFault lines.now)) }
    ensures memory { IfErr result (λ _. HasCase lines.now) }
{
    let mut structure = Structure::new(alloc);
    for (k, line) in lines.iter().enumerate() {
        if !structure.takes(line)? {
            return Ok(Some(RefutationFault::Misplaced(k + 1)));
        }
    }
    if structure.is_whole() {
        Ok(None)
    } else {
        Ok(Some(RefutationFault::Unfinished))
    }
}
