//! Whether a step follows from what is known, and what is known after it.
ghost use Rattle.std.specs.Prelude.{◌↔◌, ℕ, List, IfOk};
ghost use Rattle.std.specs.List.{Contains};
ghost use Rattle.value_check.specs.Internal.Showing.{ShowsEnd, ShowsStep};

use crate::known::Known;
use crate::settling::Demand;
use std::alloc::Global;
use tso_ops::OutOfMemory;
use value_evidence::{ValueEnd, ValueStep};

impl Known {
    /// Whether a step follows from what is known. OutOfMemory where an allocation was refused.
    pub(crate) fn holds(&self, alloc: Global, step: ValueStep) -> Result<bool, OutOfMemory>
        ensures { IfOk result (ShowsStep self.now step) }
    {
        match step {
            ValueStep::Read { load, source } => self.read_holds(alloc, load, source),
            ValueStep::In { from, load } => self.in_holds(alloc, from, load),
            ValueStep::Out { load, to } => self.out_holds(alloc, load, to),
            ValueStep::Over { from, to, load } => self.over_holds(alloc, from, to, load),
            ValueStep::SwapAfter { swap, to } => Ok(self.swap_after_holds(swap, to)),
            ValueStep::SwapBefore { from, swap } => Ok(self.swap_before_holds(from, swap)),
        }
    }

    fn read_holds(&self, alloc: Global, load: usize, source: usize) -> Result<bool, OutOfMemory>
        ensures { IfOk result (ShowsStep self.now (ValueStep.Read load source)) }
    {
        let Some(l) = self.index_of(load) else {
            return Ok(false);
        };
        if !self.is_load(l) {
            return Ok(false);
        }
        self.are_all(alloc, l, Demand::Is(source))
    }

    fn in_holds(&self, alloc: Global, from: usize, load: usize) -> Result<bool, OutOfMemory>
        ensures { IfOk result (ShowsStep self.now (ValueStep.In from load)) }
    {
        let Some(u) = self.index_of(from) else {
            return Ok(false);
        };
        let Some(l) = self.index_of(load) else {
            return Ok(false);
        };
        if !self.is_load(l) {
            return Ok(false);
        }
        self.are_all(alloc, l, Demand::After(u))
    }

    fn out_holds(&self, alloc: Global, load: usize, to: usize) -> Result<bool, OutOfMemory>
        ensures { IfOk result (ShowsStep self.now (ValueStep.Out load to)) }
    {
        let Some(l) = self.index_of(load) else {
            return Ok(false);
        };
        let Some(v) = self.index_of(to) else {
            return Ok(false);
        };
        if !self.is_load(l) {
            return Ok(false);
        }
        if !self.is_store(v) {
            return Ok(false);
        }
        if !self.is_one_address(v, l) {
            return Ok(false);
        }
        self.are_all(alloc, l, Demand::Before(v))
    }

    fn over_holds(
        &self,
        alloc: Global,
        from: usize,
        to: usize,
        load: usize,
    ) -> Result<bool, OutOfMemory>
        ensures { IfOk result (ShowsStep self.now (ValueStep.Over from to load)) }
    {
        let Some(u) = self.index_of(from) else {
            return Ok(false);
        };
        let Some(v) = self.index_of(to) else {
            return Ok(false);
        };
        let Some(l) = self.index_of(load) else {
            return Ok(false);
        };
        if u == v {
            return Ok(false);
        }
        if !self.is_load(l) {
            return Ok(false);
        }
        if !self.sees(l, u) {
            return Ok(false);
        }
        if !self.is_store(v) {
            return Ok(false);
        }
        self.are_all(alloc, l, Demand::UpTo(v))
    }

    fn swap_after_holds(&self, swap: usize, to: usize) -> bool
        ensures { ShowsStep self.now (ValueStep.SwapAfter swap to) result }
    {
        let Some(m) = self.index_of(swap) else {
            return false;
        };
        let Some(v) = self.index_of(to) else {
            return false;
        };
        if v == m + 1 {
            return false;
        }
        if !self.is_swap_load(m) {
            return false;
        }
        if !self.is_store(v) {
            return false;
        }
        self.leads(m, v)
    }

    fn swap_before_holds(&self, from: usize, swap: usize) -> bool
        ensures { ShowsStep self.now (ValueStep.SwapBefore from swap) result }
    {
        let Some(u) = self.index_of(from) else {
            return false;
        };
        let Some(m) = self.index_of(swap) else {
            return false;
        };
        if u == m + 1 {
            return false;
        }
        if !self.is_swap_load(m) {
            return false;
        }
        if !self.is_store(u) {
            return false;
        }
        self.leads(u, m + 1)
    }

    /// Whether what is known leaves no order in which no load reads what is set aside of it. OutOfMemory where an allocation was
    /// refused.
    pub(crate) fn ends(
        &self,
        alloc: Global,
        end: ValueEnd,
        aside: &[(usize, usize)],
    ) -> Result<bool, OutOfMemory>
        ensures { IfOk result (ShowsEnd self.now aside.now end) }
    {
        match end {
            ValueEnd::NoSource(load) => self.has_no_source(alloc, load, aside),
            ValueEnd::Cycle(event) => Ok(self.is_on_cycle(event)),
        }
    }

    fn has_no_source(
        &self,
        alloc: Global,
        load: usize,
        aside: &[(usize, usize)],
    ) -> Result<bool, OutOfMemory>
        ensures { IfOk result (ShowsEnd self.now aside.now (ValueEnd.NoSource load)) }
    {
        let Some(l) = self.index_of(load) else {
            return Ok(false);
        };
        if !self.is_load(l) {
            return Ok(false);
        }
        self.are_all(alloc, l, Demand::SetAside(set_aside(alloc, load, aside)?))
    }

    fn is_on_cycle(&self, event: usize) -> bool
        ensures { (aside : List (ℕ × ℕ)) → ShowsEnd self.now aside (ValueEnd.Cycle event) result }
    {
        match self.index_of(event) {
            Some(x) => self.leads(x, x),
            None => false,
        }
    }
}

/// The sources of a load that are set aside.
fn set_aside(
    alloc: Global,
    load: usize,
    aside: &[(usize, usize)],
) -> Result<Vec<usize>, OutOfMemory>
    ensures { IfOk result (λ numbers. (r : ℕ) → Contains numbers.items r ↔ Contains aside.now (load, r)) }
{
    let mut numbers = Vec::new(alloc);
    for pair in aside {
        if pair.0 == load {
            numbers.push(pair.1)?;
        }
    }
    Ok(numbers)
}
