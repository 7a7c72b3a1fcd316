//! How many stores wait.
ghost use Rattle.std.specs.Prelude.{◌≡◌, length, IfOk};
ghost use Rattle.std.specs.List.{sum_by};
ghost use Rattle.run_steps.specs.Machine.{state_of_machine, waits_of};

use crate::machines::Machine;
use tso_ops::OutOfMemory;

impl Machine {
    /// How many stores of processor `p` wait.
    pub fn waiting_of(&self, p: usize) -> usize
        ensures { result ≡ length (waits_of (state_of_machine self.now) p) }
    {
        if p < self.processors.len() {
            self.processors[p].waiting.len()
        } else {
            0
        }
    }

    /// How many stores wait. OutOfMemory above 64 bits: no memory holds so many.
    pub fn waiting(&self) -> Result<usize, OutOfMemory>
        ensures { IfOk result (λ count. count ≡ sum_by (λ x. length x.waits) (state_of_machine self.now).processors) }
    {
        let mut count: usize = 0;
        for processor in &self.processors {
            count = count
                .checked_add(processor.waiting.len())
                .ok_or(OutOfMemory)?;
        }
        Ok(count)
    }
}
