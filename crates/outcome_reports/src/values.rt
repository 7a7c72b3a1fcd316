//! The values that operations read.
ghost use Rattle.std.specs.Prelude.{◌≡◌, ◌++◌, map, IfOk, OnOk};
ghost use Rattle.std.specs.List.{filter_map};
ghost use Rattle.tso_ops.specs.Settings.{SettingValue};
ghost use Rattle.tso_ops.specs.Values.{rows, trace_of_lists};
ghost use Rattle.final_states.specs.FinalStates.{value_read, values_read};
ghost use Rattle.outcome_reports.specs.Internal.Counting.{traces_by};

use std::alloc::{AllocError, Global};
use tso_ops::{Outcome, Trace};

/// The value that an operation read.
pub(crate) fn read_by(outcome: Outcome) -> Option<u64>
    ensures { result ≡ value_read outcome }
{
    match outcome {
        Outcome::Ld { r, .. } | Outcome::Sw { r, .. } => Some(r),
        Outcome::St { .. } | Outcome::Mb | Outcome::Sb => None,
    }
}

/// The values that were read in a trace, in file order.
pub(crate) fn values_of(alloc: Global, trace: &Trace) -> Result<Vec<u64>, AllocError>
    ensures { IfOk result (λ values. values.items ≡ values_read trace.now) }
{
    let mut values = Vec::new(alloc);
    for p in 0..trace.processors() {
        push_values(&mut values, trace.ops(p))?;
    }
    Ok(values)
}

/// Those of each of these traces.
pub(crate) fn values_of_each(
    alloc: Global,
    traces: &[Vec<Vec<Outcome>>],
) -> Result<Vec<Vec<u64>>, AllocError>
    ensures { IfOk result (λ keys. (setting : SettingValue) → rows keys.items ≡ map values_read (traces_by setting traces.now)) }
{
    let mut keys = Vec::new(alloc);
    for lists in traces {
        keys.push(values_of_lists(alloc, lists)?)?;
    }
    Ok(keys)
}

/// Those of these lists.
fn values_of_lists(alloc: Global, lists: &[Vec<Outcome>]) -> Result<Vec<u64>, AllocError>
    ensures { IfOk result (λ values. (setting : SettingValue) → values.items ≡ values_read (trace_of_lists setting (rows lists.now))) }
{
    let mut values = Vec::new(alloc);
    for list in lists {
        push_values(&mut values, list)?;
    }
    Ok(values)
}

/// Appends the values that these operations read.
fn push_values(values: &mut Vec<u64>, outcomes: &[Outcome]) -> Result<(), AllocError>
    ensures { OnOk result (values.new.items ≡ values.old.items ++ filter_map value_read outcomes.now) }
{
    for outcome in outcomes {
        match read_by(*outcome) {
            Some(value) => values.push(value)?,
            None => {}
        }
    }
    Ok(())
}
