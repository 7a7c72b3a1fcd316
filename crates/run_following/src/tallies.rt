//! What is counted of a run while its lines come.
ghost use Rattle.std.specs.Prelude.{◌<◌, ◌||◌, ◌++◌, ◌∷◌, [], List, Bool, IfErr, OnOk, false, not};
ghost use Rattle.run_steps.specs.declared.steps.RunLine.{RunLine};
ghost use Rattle.run_following.specs.declared.counts.RunCounts.{RunCounts};
ghost use Rattle.run_following.specs.Counts.{counted_with};
ghost use Rattle.run_following.specs.Internal.Faults.{IsRunFault};
ghost use Rattle.run_following.specs.Tallies.{Tallies, has_acted, is_compared};

use crate::counts::RunCounts;
use run_steps::{Comparison, RunLine};
use text_streams::Fault;

/// How many processors may have lines.
const PROCESSORS: usize = 4096;

/// What is counted of the lines so far.
#[derive(Clone, Copy)]
pub(crate) struct Tally {
    pub(crate) counts: RunCounts,
    /// Whether a value was compared.
    pub(crate) is_compared: bool,
    /// Which processors have a line.
    pub(crate) acting: [bool; PROCESSORS],
}

impl Tally {
    /// That of no line.
    pub(crate) fn none() -> Tally
        ensures { Tallies result [] (record { processors = 0; operations = 0; loads = 0; stores = 0; swaps = 0; unknown = 0 }) false }
    {
        Tally {
            counts: RunCounts::none(),
            is_compared: false,
            acting: [false; PROCESSORS],
        }
    }

    /// Counts one more line. Read above 64 bits.
    pub(crate) fn count(&mut self, line: RunLine, comparison: Comparison) -> Result<(), Fault>
        requires { line.processor < 4096 }
        ensures fault { IfErr result IsRunFault }
        ensures counted { OnOk result ((steps : List RunLine) (counts : RunCounts) (compared : Bool) → Tallies self.old steps counts compared →
            Tallies self.new (steps ++ line ∷ []) (counted_with (not (has_acted steps line.processor)) line.step comparison counts)
            (compared || is_compared comparison)) }
    {
        let is_new = !self.acting[line.processor];
        self.acting[line.processor] = true;
        self.is_compared = self.is_compared || comparison == Comparison::Compared;
        self.counts = self.counts.counted(is_new, &line.step, comparison)?;
        Ok(())
    }
}
