//! The violations of a log.
ghost use Rattle.std.specs.Prelude.{◌≡◌, ◌≤◌, ◌⊎◌, ◌+◌, Bool, IfErr, IfOk, IfSome, OnOk, cond, false, true};
ghost use Rattle.std.specs.List.{count_by};
ghost use Rattle.text_streams.specs.declared.faults.Fault.{Fault};
ghost use Rattle.log_text.specs.LogValues.{NumberedLog};
ghost use Rattle.log_reports.specs.Findings.{AreFindings, AreWithin, AreWrittenIn, IsListed, IsRepeatedCount, IsUnknownCount, has_unjudged, is_by_values, is_selection, is_unwritten};
ghost use Rattle.log_reports.specs.declared.findings.LogViolation.{LogViolation};

use crate::judging::TraceJudge;
use crate::value_violations::ShownEvidence;
use log_search::{Found, Judge, Search, fit_trace, is_within_limits, reduce};
use log_selections::{Kept, KnownLog, Selected, Shown, UnwrittenLoad};
use progress_meters::{Meter, TotalMeter};
use request_options::LogOptions;
use std::alloc::{AllocFailed, Global};
use std::sync::Wait;
use std::thread::Threads;
use text_streams::Fault;
use trace_judging::{ByRules, Question};
use trace_reports::Finding;
use tso_ops::OutOfMemory;

/// A violation of a log.
#[derive(Drop)]
pub enum LogViolation {
    /// Operations of the log that have no memory order, and what is found of their trace.
    Selection {
        /// The operations, and their trace.
        selected: Selected,
        /// What is found of the trace.
        finding: Finding,
    },
    /// A load of what nothing wrote to its address.
    Unwritten(UnwrittenLoad),
    /// Evidence by the values of the log, where they repeat.
    ByValues(ShownEvidence),
}

/// What is found in a log.
#[derive(Drop)]
pub struct LogFindings {
    /// The violations. No two of them have a load in common.
    pub violations: Vec<LogViolation>,
    /// Whether there are more violations than are listed.
    pub has_more: bool,
    /// Operations that should have no memory order, but are past the limits of traces, so that they can't be judged.
    pub unjudged: Vec<Vec<Shown>>,
    /// How many were left out: proposals of the search that were no violations when they were judged, and loads whose value had
    /// been written after all. Anything but 0 is a fault of the search.
    pub mistaken: usize,
    /// Of how many violations lines might be left out, since enough work was done.
    pub unreduced: usize,
    /// In how many parts the addresses of the log were searched: what needs addresses of two parts isn't found.
    pub parts: usize,
    /// Whether the search ended before the log did, since it had done as much work as it is allowed.
    pub is_early: bool,
    /// Whether nothing is listed, though some load read what nothing wrote.
    pub has_unlisted: bool,
    /// Whether evidence by values was found, but its checker refused it: a fault of the search.
    pub has_refused: bool,
    /// How many loads have a source that isn't known. Where the log wasn't searched by its values these are all that have several
    /// sources by their values.
    pub unknown: usize,
    /// How many loads the search by values passed over, since each says no more than another one of its processor near by.
    pub repeated: usize,
}

/// Finds violations of a log: first loads of what nothing wrote, in the order of their processors, and then what the search
/// finds, with the effort that the options allow it; of each kind as many at most as they say. Where nothing was found, and some
/// loads have several sources by their values, or evidence by values is asked for, a second search finds the first violation that
/// the values show. The meter hears of each operation once in each search, when the search passed it, and before the second how many
/// there are in both.
///
/// Faults: OutOfMemory where an allocation was refused, and NoThread where the system refused a thread.
pub fn find_violations<H: Threads + Wait, M: TotalMeter>(
    rt: &H,
    alloc: Global,
    known: &KnownLog,
    options: LogOptions,
    meter: &M,
) -> Result<LogFindings, Fault>
    ensures found { IfOk result (AreFindings known.now) }
    ensures few { IfOk result (AreWithin options.most) }
    ensures unknown { IfOk result (λ findings. IsUnknownCount known.now findings.unknown) }
    ensures repeated { IfOk result (λ findings. IsRepeatedCount known.now findings.repeated) }
    ensures written { IfOk result (AreWrittenIn known.now) }
    ensures fault { IfErr result (λ fault. (fault ≡ Fault.OutOfMemory) ⊎ (fault ≡ Fault.NoThread)) }
{
    let mut findings = LogFindings {
        violations: Vec::new(alloc),
        has_more: false,
        unjudged: Vec::new(alloc),
        mistaken: 0,
        unreduced: 0,
        parts: 1,
        is_early: false,
        has_unlisted: false,
        has_refused: false,
        unknown: 0,
        repeated: 0,
    };
    findings.list_unwritten(alloc, known, options.most)?;
    findings.search(rt, alloc, known, options, meter)?;
    let passed = findings.search_values(alloc, known, options, meter)?;
    findings.note_unlisted(known);
    findings.unknown = passed.unknown;
    findings.repeated = passed.repeated;
    Ok(findings)
}

impl LogFindings {
    /// Lists loads of what nothing wrote, so many at most.
    fn list_unwritten(
        &mut self,
        alloc: Global,
        known: &KnownLog,
        most: usize,
    ) -> Result<(), OutOfMemory>
        ensures found { OnOk result (AreFindings known.now self.old → AreFindings known.now self.new) }
        ensures unwritten { OnOk result (count_by is_unwritten self.new.violations.items ≤ count_by is_unwritten self.old.violations.items + most) }
        ensures selections { OnOk result (count_by is_selection self.new.violations.items ≡ count_by is_selection self.old.violations.items) }
        ensures by_values { OnOk result (count_by is_by_values self.new.violations.items ≡ count_by is_by_values self.old.violations.items) }
    {
        let mut places = most;
        for number in known.unwritten_loads() {
            let found = unwritten_load(alloc, known, *number)?;
            if !self.list(found, &mut places)? {
                break;
            }
        }
        Ok(())
    }

    /// Searches the log, with the effort of the options, until there are more violations than they say.
    fn search<H: Threads + Wait, M: Meter>(
        &mut self,
        rt: &H,
        alloc: Global,
        known: &KnownLog,
        options: LogOptions,
        meter: &M,
    ) -> Result<(), Fault>
        ensures found { OnOk result (AreFindings known.now self.old → AreFindings known.now self.new) }
        ensures unwritten { OnOk result (count_by is_unwritten self.new.violations.items ≡ count_by is_unwritten self.old.violations.items) }
        ensures selections { OnOk result (count_by is_selection self.new.violations.items ≤ count_by is_selection self.old.violations.items + options.most) }
        ensures by_values { OnOk result (count_by is_by_values self.new.violations.items ≡ count_by is_by_values self.old.violations.items) }
        ensures fault { IfErr result (λ fault. (fault ≡ Fault.OutOfMemory) ⊎ (fault ≡ Fault.NoThread)) }
    {
        let mut search = Search::new(alloc, known, options.effort)?;
        let mut places = options.most;
        for _ in 0..usize::MAX {
            let found = search.next(alloc, meter)?;
            self.parts = search.parts();
            match found {
                Found::Proposal(kept) => {
                    if !self.consider(rt, alloc, known, kept, &mut places)? {
                        return Ok(());
                    }
                }
                Found::End => return Ok(()),
                Found::BudgetEnd => {
                    self.is_early = true;
                    return Ok(());
                }
            }
        }
        Ok(())
    }

    /// Judges what the search proposes, after it left out what it can, and lists it in one of the places that are left where it is
    /// a violation. Whether there was a place, or none was needed.
    fn consider<H: Threads + Wait>(
        &mut self,
        rt: &H,
        alloc: Global,
        known: &KnownLog,
        mut kept: Vec<Vec<Kept>>,
        places: &mut usize,
    ) -> Result<bool, Fault>
        ensures found { OnOk result (AreFindings known.now self.old → AreFindings known.now self.new) }
        ensures unwritten { OnOk result (count_by is_unwritten self.new.violations.items ≡ count_by is_unwritten self.old.violations.items) }
        ensures selections { OnOk result (count_by is_selection self.new.violations.items + places.new ≡
            count_by is_selection self.old.violations.items + places.old) }
        ensures by_values { OnOk result (count_by is_by_values self.new.violations.items ≡ count_by is_by_values self.old.violations.items) }
        ensures fault { IfErr result (λ fault. (fault ≡ Fault.OutOfMemory) ⊎ (fault ≡ Fault.NoThread)) }
    {
        let mut judge = TraceJudge::new(rt, alloc, known, &kept);
        if !is_within_limits(alloc, known, &kept)? {
            let Some(fewer) = fit_trace(alloc, known, &kept, &mut judge)? else {
                self.note_unjudged(alloc, known, &kept)?;
                return Ok(true);
            };
            kept = fewer;
        }
        let kept = reduce(alloc, known, kept, &mut judge)?;
        self.unreduced = self.unreduced.saturating_add(judge.is_done() as usize);
        let found = judge_kept(rt, alloc, known, &kept)?;
        Ok(self.list(found, places)?)
    }

    /// Lists a violation in one of the places that are left, or notes that there are more; or notes that what should have been one is
    /// none. Whether there was a place, or none was needed.
    pub(crate) fn list(
        &mut self,
        found: Option<LogViolation>,
        places: &mut usize,
    ) -> Result<bool, AllocFailed<LogViolation>>
        ensures found { OnOk result ((log : NumberedLog) → IfSome found (IsListed log) → AreFindings log self.old → AreFindings log self.new) }
        ensures placed { OnOk result ((is : LogViolation → Bool) (counts : Bool) → IfSome found (λ violation. is violation ≡ counts) →
            count_by is self.new.violations.items + cond counts places.new 0 ≡ count_by is self.old.violations.items + cond counts places.old 0) }
    {
        let Some(violation) = found else {
            self.mistaken = self.mistaken.saturating_add(1);
            return Ok(true);
        };
        if *places == 0 {
            self.has_more = true;
            return Ok(false);
        }
        self.violations.push(violation)?;
        *places -= 1;
        Ok(true)
    }

    /// Notes whether nothing is listed, though some load read what nothing wrote.
    fn note_unlisted(&mut self, known: &KnownLog)
        ensures written { AreWrittenIn known.now self.new }
        ensures violations { self.new.violations ≡ self.old.violations }
        ensures unjudged { self.new.unjudged ≡ self.old.unjudged }
    {
        if !self.violations.is_empty() {
            return;
        }
        self.has_unlisted = !known.unwritten_loads().is_empty();
    }

    /// Whether something wasn't judged that should have been a violation.
    pub(crate) fn has_unjudged(&self) -> bool
        ensures { result ≡ has_unjudged self.now }
    {
        !self.unjudged.is_empty() || self.has_unlisted || self.has_refused
    }

    /// Notes a proposal that can't be judged as a trace.
    fn note_unjudged(
        &mut self,
        alloc: Global,
        known: &KnownLog,
        kept: &[Vec<Kept>],
    ) -> Result<(), Fault>
        ensures found { OnOk result (AreFindings known.now self.old → AreFindings known.now self.new) }
        ensures same { OnOk result (self.new.violations ≡ self.old.violations) }
        ensures fault { IfErr result (λ fault. fault ≡ Fault.OutOfMemory) }
    {
        match known.show(alloc, kept)? {
            Some(shown) => self.unjudged.push(shown)?,
            None => self.mistaken = self.mistaken.saturating_add(1),
        }
        Ok(())
    }
}

/// The load of this number, as a violation: None where something wrote what it read.
fn unwritten_load(
    alloc: Global,
    known: &KnownLog,
    number: usize,
) -> Result<Option<LogViolation>, OutOfMemory>
    ensures found { IfOk result (λ found. IfSome found (IsListed known.now)) }
    ensures selection { IfOk result (λ found. IfSome found (λ violation. is_selection violation ≡ false)) }
    ensures unwritten { IfOk result (λ found. IfSome found (λ violation. is_unwritten violation ≡ true)) }
    ensures by_values { IfOk result (λ found. IfSome found (λ violation. is_by_values violation ≡ false)) }
{
    match known.unwritten(alloc, number)? {
        Some(load) => Ok(Some(LogViolation::Unwritten(load))),
        None => Ok(None),
    }
}

/// The violation that these operations are: None where they are no selection of the log, or no violation.
fn judge_kept<H: Threads + Wait>(
    rt: &H,
    alloc: Global,
    known: &KnownLog,
    kept: &[Vec<Kept>],
) -> Result<Option<LogViolation>, Fault>
    ensures found { IfOk result (λ found. IfSome found (IsListed known.now)) }
    ensures selection { IfOk result (λ found. IfSome found (λ violation. is_selection violation ≡ true)) }
    ensures written { IfOk result (λ found. IfSome found (λ violation. is_unwritten violation ≡ false)) }
    ensures by_values { IfOk result (λ found. IfSome found (λ violation. is_by_values violation ≡ false)) }
    ensures fault { IfErr result (λ fault. (fault ≡ Fault.OutOfMemory) ⊎ (fault ≡ Fault.NoThread)) }
{
    let Some(selected) = known.select(alloc, kept)? else {
        return Ok(None);
    };
    let finding = ByRules { workers: 1 }.find(rt, alloc, &selected.trace)?;
    if finding.certificate.is_some() {
        Ok(Some(LogViolation::Selection { selected, finding }))
    } else {
        Ok(None)
    }
}
