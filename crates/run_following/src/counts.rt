//! How many lines a run has of each kind.
ghost use Rattle.std.specs.Prelude.{◌≡◌, IfOk, IfErr};
ghost use Rattle.text_streams.specs.declared.faults.Fault.TheVariants.{Read};
ghost use Rattle.run_following.specs.Counts.{added, counted_with, is_load_step, is_operation, is_store_step, is_swap_step};

use run_steps::{Comparison, RunStep};
use text_streams::Fault;

/// How many lines a run has of each kind.
#[derive(Clone, Copy, Debug, PartialEq, Eq)]
pub struct RunCounts {
    /// The processors that have a line.
    pub processors: u64,
    /// The lines of processors but `dr`, `un` and `last`.
    pub operations: u64,
    /// The loads, `lr` among them.
    pub loads: u64,
    /// The stores, `wr` and `sc` among them.
    pub stores: u64,
    /// The swaps.
    pub swaps: u64,
    /// The lines that read what isn't known.
    pub unknown: u64,
}

impl RunCounts {
    /// What a run without lines has.
    pub(crate) fn none() -> RunCounts
        ensures { result ≡ record { processors = 0; operations = 0; loads = 0; stores = 0; swaps = 0; unknown = 0 } }
    {
        RunCounts {
            processors: 0,
            operations: 0,
            loads: 0,
            stores: 0,
            swaps: 0,
            unknown: 0,
        }
    }

    /// Counts one more line, which may be the first of its processor. Read above 64 bits.
    pub(crate) fn counted(
        self,
        is_new: bool,
        step: &RunStep,
        comparison: Comparison,
    ) -> Result<RunCounts, Fault>
        ensures counts { IfOk result (λ counts. counts ≡ counted_with is_new step.now comparison self) }
        ensures fault { IfErr result (λ fault. fault ≡ Read) }
    {
        Ok(RunCounts {
            processors: added(self.processors, is_new)?,
            operations: added(self.operations, is_operation(step))?,
            loads: added(self.loads, is_load(step))?,
            stores: added(self.stores, is_store(step))?,
            swaps: added(self.swaps, is_swap(step))?,
            unknown: added(self.unknown, comparison == Comparison::Unknown)?,
        })
    }
}

/// A number, and one more where something is so. Read above 64 bits.
fn added(count: u64, is: bool) -> Result<u64, Fault>
    ensures sum { IfOk result (λ sum. sum ≡ added count is) }
    ensures fault { IfErr result (λ fault. fault ≡ Read) }
{
    if is {
        count.checked_add(1).ok_or(Fault::Read)
    } else {
        Ok(count)
    }
}

/// Whether a step is an operation of its processor: no drain, and nothing that is said of memory.
fn is_operation(step: &RunStep) -> bool
    ensures { result ≡ is_operation step.now }
{
    !matches!(
        step,
        RunStep::Drain { .. } | RunStep::Unknown { .. } | RunStep::Last { .. }
    )
}

/// Whether a step is a load.
fn is_load(step: &RunStep) -> bool
    ensures { result ≡ is_load_step step.now }
{
    matches!(step, RunStep::Load { .. } | RunStep::Reserve { .. })
}

/// Whether a step is a store.
fn is_store(step: &RunStep) -> bool
    ensures { result ≡ is_store_step step.now }
{
    matches!(
        step,
        RunStep::Store { .. } | RunStep::Write { .. } | RunStep::StoreReserved { .. }
    )
}

/// Whether a step is a swap.
fn is_swap(step: &RunStep) -> bool
    ensures { result ≡ is_swap_step step.now }
{
    matches!(step, RunStep::Swap { .. })
}
