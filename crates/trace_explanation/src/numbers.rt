//! The numbers of a certificate's steps.
ghost use Rattle.std.specs.Prelude.{◌≡◌, ◌++◌, ◌∷◌, List, codes, cond, length, nat_lt, string_bytes, IfOk, OnOk};
ghost use Rattle.std.specs.Fmt.{decimal};
ghost use Rattle.std.specs.List.{find, flat_map, zip};
ghost use Rattle.std.specs.Option.{option_copied};
ghost use Rattle.trace_explanation.specs.Steps.{by_text, is_edge, step_number};
ghost use Rattle.trace_explanation.specs.Internal.Tables.{FindsNumbers};

use std::alloc::{AllocError, Global};
use std::collections::BTreeMap;
use std::fmt::Write;
use std::marker::Model;
use tso_cert::CertStep;

/// The steps of a certificate, and for each edge the least number of a step that has it.
#[derive(Debug, Drop)]
pub struct NumberedSteps<'s> {
    steps: &'s [CertStep],
    numbers: BTreeMap<(u64, u64), usize>,
}

impl<'s> Model for NumberedSteps<'s> {
    ghost use Rattle.std.specs.Prelude.{List};
    ghost use Rattle.tso_cert.specs.declared.steps.CertStep.{CertStep};
    ghost use Rattle.trace_explanation.specs.Internal.Tables.{FindsNumbers};

    ghost Value = { List CertStep };

    ghost view = { λ s. s.steps.now };

    ghost invariant = { λ s. FindsNumbers 1 s.steps.now s.numbers };
}

impl<'s> NumberedSteps<'s> {
    /// These steps with their numbers, or OutOfMemory where an allocation was refused.
    pub fn new(alloc: Global, steps: &'s [CertStep]) -> Result<NumberedSteps<'s>, AllocError>
        ensures { IfOk result (λ numbered. numbered ≡ steps.now) }
    {
        let numbers = list_numbers(alloc, steps)?;
        Ok(NumberedSteps { steps, numbers })
    }

    /// The steps.
    pub fn steps(&self) -> &'s [CertStep]
        ensures { result.now ≡ self.now }
    {
        self.steps
    }

    /// The least number of a step that is the edge from `u` to `v`: 0 where there is none.
    pub fn number(&self, u: u64, v: u64) -> usize
        ensures { result ≡ step_number self.now (u, v) }
    {
        match self.numbers.get(&(u, v)) {
            Some(number) => *number,
            None => 0,
        }
    }

    /// The first step that is the edge from `u` to `v`, if there is one.
    pub fn step(&self, u: u64, v: u64) -> Option<&'s CertStep>
        ensures { option_copied result ≡ find (is_edge (u, v)) self.now }
    {
        match self.numbers.get(&(u, v)) {
            Some(number) => self.steps.get(number.saturating_sub(1)),
            None => None,
        }
    }

    /// The numbers of the steps of a path's edges. OutOfMemory where an allocation was refused.
    #[tactic(auto, unfolding(crate::specs::Steps::by_text))]
    pub(crate) fn by(&self, alloc: Global, path: &[u64]) -> Result<String, AllocError>
        ensures { IfOk result (λ text. string_bytes text ≡ by_text self.now path.now) }
    {
        match path {
            [] | [_] => Ok(String::new(alloc)),
            [x, y, rest @ ..] => {
                let word = step_word(rest);
                let number = self.number(*x, *y);
                let mut text = format!(in alloc; "{word}{number}")?;
                self.push_more(&mut text, *y, rest)?;
                Ok(text)
            },
        }
    }

    /// Appends the numbers of the edges from `y` along these numbers, each after a comma.
    fn push_more(&self, text: &mut String, y: u64, rest: &[u64]) -> Result<(), AllocError>
        ensures { OnOk result (string_bytes text.new ≡ string_bytes text.old ++ flat_map (λ edge. codes ", " ++ decimal (step_number self.now edge))
            (zip (y ∷ rest.now) rest.now)) }
    {
        let mut previous = y;
        for z in rest {
            let number = self.number(previous, *z);
            write!(text, ", {number}")?;
            previous = *z;
        }
        Ok(())
    }
}

/// The word before the numbers of steps: of one, or of more.
fn step_word(more: &[u64]) -> &'static str
    ensures { result.now ≡ cond (nat_lt 0 (length more.now)) (codes "steps ") (codes "step ") }
{
    if more.is_empty() { "step " } else { "steps " }
}

/// For each edge of the steps the least number of a step that has it.
fn list_numbers(
    alloc: Global,
    steps: &[CertStep],
) -> Result<BTreeMap<(u64, u64), usize>, AllocError>
    ensures { IfOk result (FindsNumbers 1 steps.now) }
{
    let mut numbers = BTreeMap::new(alloc);
    for done in 0..steps.len() {
        let k = steps.len() - 1 - done;
        let step = &steps[k];
        numbers.insert((step.from, step.to), k + 1)?;
    }
    Ok(numbers)
}
