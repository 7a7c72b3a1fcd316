//! What is known of a campaign's seeds while their results come in.
ghost use Rattle.std.specs.Prelude.{◌≡◌, ◌⊎◌, ◌+◌, ◌<◌, ◌≤◌, ◌^◌, ℕ, List, [], false, None, IfOk, IfErr, IfSome, MatchOption, length, get_or, map, replicate, unwrap_or};
ghost use Rattle.tso_ops.specs.Values.{rows};
ghost use Rattle.tso_report.specs.Internal.Gathering.{AreKnown, AreUnitsFrom, IsGathered, IsLeastMissing, KeepsSeeds};
ghost use Rattle.text_streams.specs.declared.faults.Fault.{Fault};
ghost use Rattle.unit_core.specs.Units.{UnitValue};

use super::CampaignPlan;
use super::seeds::{JobResult, Judged, SeedUnits};
use std::alloc::Global;
use std::marker::{Model, PhantomData};
use text_streams::Fault;
use tso_ops::OutOfMemory;

/// What is known of all seeds of a campaign, in their order.
#[derive(Drop)]
pub(crate) struct Known {
    /// Whether the trace of each seed is a violation.
    pub violations: Vec<bool>,
    /// The text of each trace, where traces are printed.
    pub texts: Vec<Vec<u8>>,
}

/// What is said of a campaign's seeds, as far as it came, and which faults came.
#[derive(Drop)]
pub(crate) struct Gathered<S: SeedUnits> {
    plan: CampaignPlan,
    /// Whether the trace of each seed is a violation.
    violations: Vec<Option<bool>>,
    /// The text of each trace, where traces are printed.
    texts: Vec<Vec<u8>>,
    met_out_of_memory: bool,
    met_no_thread: bool,
    of: PhantomData<S>,
}

impl<S: SeedUnits> Model for Gathered<S> {
    ghost use Rattle.tso_ops.specs.Values.{rows};
    ghost use Rattle.tso_report.specs.Internal.Gathering.{GatheredValue, IsGathered};

    ghost Value = { GatheredValue };

    ghost view = { λ g. record { plan = g.plan; violations = g.violations.items; texts = rows g.texts.items } };

    ghost invariant = { λ g. IsGathered S.unit_of (record { plan = g.plan; violations = g.violations.items; texts = rows g.texts.items }) };
}

impl<S: SeedUnits> Gathered<S> {
    /// Nothing is known of so many seeds.
    pub(crate) fn new(
        alloc: Global,
        plan: CampaignPlan,
        seeds: usize,
    ) -> Result<Gathered<S>, OutOfMemory>
        requires { plan.first + seeds ≤ 2 ^ 64 }
        ensures { IfOk result (λ g. (g.plan ≡ plan) × (length g.violations ≡ seeds)) }
    {
        let violations = vec![in alloc; None; seeds]?;
        let texts = no_texts(alloc, seeds)?;
        Ok(Gathered {
            plan,
            violations,
            texts,
            met_out_of_memory: false,
            met_no_thread: false,
            of: PhantomData,
        })
    }

    /// The plan of the campaign.
    pub(crate) fn plan(&self) -> CampaignPlan
        ensures { result ≡ self.now.plan }
    {
        self.plan
    }

    /// Takes a result in. One of a strange seed is dropped, and so is a second one of a seed.
    pub(crate) fn accept(&mut self, came: JobResult<S>)
        ensures { KeepsSeeds self.old self.new }
    {
        match came {
            JobResult::Judged(judged) => self.accept_verdict(judged),
            JobResult::Failed { seed, fault } => self.accept_fault(seed, fault),
        }
    }

    /// Takes what is said of a seed in. What is by another plan is dropped.
    fn accept_verdict(&mut self, judged: Judged<S>)
        ensures { KeepsSeeds self.old self.new }
    {
        let Some(i) = self.place_of(judged.seed()) else {
            return;
        };
        if !judged.is_of(&self.plan) {
            return;
        }
        if self.violations[i].is_none() {
            let (violation, text) = judged.into_parts();
            self.violations[i] = Some(violation);
            self.texts[i] = text;
        }
    }

    /// Takes the fault of a seed in. A run without a record leaves the seed missing.
    fn accept_fault(&mut self, seed: u64, fault: Fault)
        ensures { KeepsSeeds self.old self.new }
    {
        if self.place_of(seed).is_none() {
            return;
        }
        match fault {
            Fault::OutOfMemory => self.met_out_of_memory = true,
            Fault::NoThread => self.met_no_thread = true,
            Fault::Read | Fault::Write | Fault::Missing(_) => {}
        }
    }

    /// The place of a seed, or None where it is a strange one.
    fn place_of(&self, seed: u64) -> Option<usize>
        ensures { IfSome result (λ i. (self.now.plan.first + i ≡ seed) × (i < length self.now.violations)) }
    {
        let after = seed.checked_sub(self.plan.first)?;
        if after < self.violations.len() as u64 {
            Some(after as usize)
        } else {
            None
        }
    }

    /// What is known of all seeds, in their order. OutOfMemory where a result said so or an allocation was refused, NoThread
    /// where a result said so; else Missing with the least seed that has no verdict.
    pub(crate) fn known(self, alloc: Global) -> Result<Known, Fault>
        ensures known { (units : List UnitValue) → length units ≡ length self.violations → AreUnitsFrom S.unit_of self.plan.first units →
            IfOk result (λ known. AreKnown self.plan units known.violations.items (rows known.texts.items)) }
        ensures fault { IfErr result (λ fault. (fault ≡ Fault.OutOfMemory) ⊎ (fault ≡ Fault.NoThread) ⊎
            ((i : ℕ) × IsLeastMissing self.violations i × (fault ≡ Fault.Missing (self.plan.first + i)))) }
    {
        if self.met_out_of_memory {
            return Err(Fault::OutOfMemory);
        }
        if self.met_no_thread {
            return Err(Fault::NoThread);
        }
        match least_missing(&self.violations) {
            Some(i) => Err(Fault::Missing(self.plan.first + i as u64)),
            None => Ok(Known {
                violations: verdicts(alloc, &self.violations)?,
                texts: self.texts,
            }),
        }
    }
}

/// The least place without a verdict.
fn least_missing(violations: &[Option<bool>]) -> Option<usize>
    ensures { MatchOption result ((i : ℕ) → i < length violations.now → get_or violations.now i None ≡ None → ⊥) (IsLeastMissing violations.now) }
{
    for i in 0..violations.len() {
        if violations[i].is_none() {
            return Some(i);
        }
    }
    None
}

/// The verdicts, where all are known, or OutOfMemory where an allocation was refused.
fn verdicts(alloc: Global, violations: &[Option<bool>]) -> Result<Vec<bool>, OutOfMemory>
    ensures { IfOk result (λ known. known.items ≡ map (λ violation. unwrap_or violation false) violations.now) }
{
    let mut known = Vec::with_capacity(alloc, violations.len())?;
    for violation in violations {
        known.push(violation.unwrap_or(false))?;
    }
    Ok(known)
}

/// So many empty texts, or OutOfMemory where an allocation was refused.
fn no_texts(alloc: Global, count: usize) -> Result<Vec<Vec<u8>>, OutOfMemory>
    ensures { IfOk result (λ texts. rows texts.items ≡ replicate count []) }
{
    let mut texts = Vec::with_capacity(alloc, count)?;
    for _ in 0..count {
        texts.push(Vec::new(alloc))?;
    }
    Ok(texts)
}
