//! The search of a log by its values, where they repeat.
ghost use Rattle.std.specs.Prelude.{◌≡◌, ◌≤◌, ◌+◌, IfOk, IfSome, OnOk, true, false};
ghost use Rattle.std.specs.List.{count_by};
ghost use Rattle.log_reports.specs.Findings.{AreFindings, IsListed, IsRepeatedCount, IsUnknownCount, is_by_values, is_selection, is_unwritten};

use crate::counts::count_operations;
use crate::findings::{LogFindings, LogViolation};
use crate::renumbering::renumber;
use crate::value_violations::show_violation;
use log_search::{ValueFound, ValueSearch, ValueViolation};
use log_selections::KnownLog;
use log_thinning::{Thinned, read_idle_swaps, thin};
use progress_meters::{Meter, TotalMeter};
use request_options::{LogForm, LogOptions};
use std::alloc::Global;
use tso_ops::OutOfMemory;
use value_check::check_values;

/// The loads that a search by values passed.
#[derive(Drop)]
pub(crate) struct PassedLoads {
    /// How many have no source that is known.
    pub(crate) unknown: usize,
    /// How many it passed over, since they only repeat others.
    pub(crate) repeated: usize,
}

/// What one search by values came to.
#[derive(Drop)]
struct Searched {
    found: ValueFound,
    unknown: usize,
    parts: usize,
}

impl LogFindings {
    /// Searches the log by its values, with the effort of the options, where they repeat and nothing is listed yet, or where evidence
    /// by values is asked for: how many of its loads have no source that is known then, and how many were passed over.
    pub(crate) fn search_values<M: TotalMeter>(
        &mut self,
        alloc: Global,
        known: &KnownLog,
        options: LogOptions,
        meter: &M,
    ) -> Result<PassedLoads, OutOfMemory>
        ensures unknown { IfOk result (λ passed. IsUnknownCount known.now passed.unknown) }
        ensures repeated { IfOk result (λ passed. IsRepeatedCount known.now passed.repeated) }
        ensures found { OnOk result (AreFindings known.now self.old → AreFindings known.now self.new) }
        ensures unwritten { OnOk result (count_by is_unwritten self.new.violations.items ≡ count_by is_unwritten self.old.violations.items) }
        ensures selections { OnOk result (count_by is_selection self.new.violations.items ≡ count_by is_selection self.old.violations.items) }
        ensures by_values { OnOk result (count_by is_by_values self.new.violations.items ≤ count_by is_by_values self.old.violations.items + options.most) }
    {
        let several = known.ambiguous_loads();
        let is_open = several > 0 && self.violations.is_empty();
        if !is_open && options.form != LogForm::Evidence {
            return Ok(PassedLoads {
                unknown: several,
                repeated: 0,
            });
        }
        let Thinned { log, dropped } = thin(alloc, read_idle_swaps(alloc, known.log())?)?;
        let left = KnownLog::new(alloc, log)?;
        let (operations, _) = count_operations(known.log())?;
        let (fewer, _) = count_operations(left.log())?;
        meter.expect_total((operations as u64).saturating_add(fewer as u64));
        let unknown = self.search_left(alloc, known, &left, options, meter)?;
        Ok(PassedLoads {
            unknown: unknown.min(several),
            repeated: dropped,
        })
    }

    /// Searches what is left of the log with its idle swaps read as loads. Where the checker refuses the evidence, which would be a
    /// fault of the search, that begins once again with fewer shortcuts.
    fn search_left<M: Meter>(
        &mut self,
        alloc: Global,
        known: &KnownLog,
        left: &KnownLog,
        options: LogOptions,
        meter: &M,
    ) -> Result<usize, OutOfMemory>
        ensures found { OnOk result (AreFindings known.now self.old → AreFindings known.now self.new) }
        ensures unwritten { OnOk result (count_by is_unwritten self.new.violations.items ≡ count_by is_unwritten self.old.violations.items) }
        ensures selections { OnOk result (count_by is_selection self.new.violations.items ≡ count_by is_selection self.old.violations.items) }
        ensures by_values { OnOk result (count_by is_by_values self.new.violations.items ≤ count_by is_by_values self.old.violations.items + options.most) }
    {
        let mut places = options.most;
        for is_again in [false, true] {
            let Searched {
                found,
                unknown,
                parts,
            } = find_by_values(alloc, left, options.effort, is_again, meter)?;
            self.parts = self.parts.max(parts);
            match found {
                ValueFound::End => return Ok(unknown),
                ValueFound::BudgetEnd => {
                    self.is_early = true;
                    return Ok(unknown);
                }
                ValueFound::Violation(violation) => {
                    // A load that can have read nothing is no unknown one.
                    let without_source = violation.cycle.is_empty() as usize;
                    let found = check_violation(alloc, known, left, violation)?;
                    let is_listed = found.is_some();
                    self.list(found, &mut places)?;
                    if is_listed {
                        return Ok(unknown.saturating_sub(without_source));
                    }
                }
            }
        }
        self.has_refused = true;
        Ok(usize::MAX)
    }
}

/// Searches a log once by its values, from its beginning.
fn find_by_values<M: Meter>(
    alloc: Global,
    left: &KnownLog,
    effort: usize,
    is_again: bool,
    meter: &M,
) -> Result<Searched, OutOfMemory> {
    let mut search = ValueSearch::new(alloc, left, effort)?;
    if is_again {
        search.begin_again();
    }
    let found = search.run(alloc, meter)?;
    Ok(Searched {
        found,
        unknown: search.unknown(),
        parts: search.parts(),
    })
}

/// The violation that the search found in what is left of the log: None where its evidence doesn't hold of the log, with its idle
/// swaps read as loads.
fn check_violation(
    alloc: Global,
    known: &KnownLog,
    left: &KnownLog,
    violation: ValueViolation,
) -> Result<Option<LogViolation>, OutOfMemory>
    ensures found { IfOk result (λ found. IfSome found (IsListed known.now)) }
    ensures selection { IfOk result (λ found. IfSome found (λ violation. is_selection violation ≡ false)) }
    ensures unwritten { IfOk result (λ found. IfSome found (λ violation. is_unwritten violation ≡ false)) }
    ensures by_values { IfOk result (λ found. IfSome found (λ violation. is_by_values violation ≡ true)) }
{
    let read = read_idle_swaps(alloc, known.log())?;
    let evidence = renumber(alloc, &violation.evidence, left.log(), &read)?;
    match check_values(alloc, &read, &evidence)? {
        Ok(()) => {
            let shown = show_violation(alloc, known, left, &violation, evidence)?;
            Ok(Some(LogViolation::ByValues(shown)))
        }
        Err(_) => Ok(None),
    }
}
