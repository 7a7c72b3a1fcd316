//! What a load can have read, by what is known.
ghost use Rattle.std.specs.Prelude.{◌≡◌, false, get_or, ◌≤◌, ◌<◌, ◌↔◌, ℕ, suc, List, IsTrue, IfOk, MatchBool, length};
ghost use Rattle.chain_reach.specs.Groups.{IsIn};
ghost use Rattle.chain_reach.specs.Internal.Lists.{IsCut};
ghost use Rattle.tso_ops.specs.Events.{IsLoad};
ghost use Rattle.tso_ops.specs.Values.{TraceValue};
ghost use Rattle.value_evidence.specs.declared.steps.ValueStep.{ValueStep};
ghost use Rattle.value_evidence.specs.Candidates.{CanRead, SeesStore};
ghost use Rattle.value_check.specs.Internal.Cells.{class_in};
ghost use Rattle.value_check.specs.Internal.Known.{IsKnownBy};
ghost use Rattle.value_check.specs.Internal.Showing.{ShowsAll};
ghost use Rattle.value_check.specs.Internal.Settling.{AreLastSeen, AreSeen, AreSeenFirst, HasUnsettledIn, Meets, SettlesIn};

use crate::known::Known;
use crate::settling::{Demand, Question, is_one_of};
use std::alloc::Global;
use tso_ops::OutOfMemory;

impl Known {
    /// Whether each number that a load can have read is as a step asks. OutOfMemory where an allocation was refused.
    pub(crate) fn are_all(
        &self,
        alloc: Global,
        load: usize,
        wanted: Demand,
    ) -> Result<bool, OutOfMemory>
        ensures { IfOk result (ShowsAll self.now load wanted) }
    {
        let seen = self.seen_stores(alloc, load)?;
        let question = Question { load, wanted, seen };
        if !self.is_first_settled(&question) {
            return Ok(false);
        }
        for cell in self.values.cells_of(load) {
            if !self.is_cell_settled(&question, *cell) {
                return Ok(false);
            }
        }
        Ok(true)
    }

    /// Whether the first value is as a step asks, or can't have been read.
    fn is_first_settled(&self, question: &Question) -> bool
        ensures { (t : TraceValue) (steps : List ValueStep) → IsKnownBy t steps self.now → AreSeen t steps question.now → IsLoad t (suc question.now.load) →
            IsTrue result ↔ (CanRead t steps (suc question.now.load) 0 → Meets t steps (suc question.now.load) question.now.wanted 0) }
    {
        if question.seen.len() > 0 {
            return true;
        }
        if !self.has_first_value(question.load) {
            return true;
        }
        if self.is_first_taken(question.load) {
            return true;
        }
        if self.read_another(question.load, 0) {
            return true;
        }
        match &question.wanted {
            Demand::Is(number) => *number == 0,
            Demand::Before(_) => true,
            Demand::After(_) => false,
            Demand::UpTo(_) => false,
            Demand::SetAside(numbers) => is_one_of(numbers, 0),
        }
    }

    /// Whether an event has the first value of its address.
    fn has_first_value(&self, x: usize) -> bool
        ensures { result ≡ get_or self.now.has_first.items x false }
    {
        if x < self.has_first.len() {
            self.has_first[x]
        } else {
            false
        }
    }

    /// Whether the stores of a cell are settled, which has events of the load's value and address. Those of a cell of loads are, as
    /// there are none.
    fn is_cell_settled(&self, question: &Question, cell: u32) -> bool
        ensures { (t : TraceValue) (steps : List ValueStep) → IsKnownBy t steps self.now → AreSeen t steps question.now → IsLoad t (suc question.now.load) →
            IsIn self.now.values.classes (class_in self.now.values question.now.load) cell →
            MatchBool result (SettlesIn t steps self.now question.now cell) (HasUnsettledIn t steps self.now question.now cell) }
    {
        let stores = self.values.members(cell);
        if stores.len() == 0 {
            return true;
        }
        if !self.is_store(stores[0] as usize) {
            return true;
        }
        self.are_settled(question, stores)
    }

    /// The last stores that a load sees: of each cell of its address the last one.
    fn seen_stores(&self, alloc: Global, load: usize) -> Result<Vec<usize>, OutOfMemory>
        ensures { IfOk result (λ seen. (t : TraceValue) (steps : List ValueStep) → IsKnownBy t steps self.now → IsLoad t (suc load) →
            AreLastSeen t steps load seen.items) }
    {
        let mut seen = Vec::new(alloc);
        for cell in self.addresses.cells_of(load) {
            let members = self.addresses.members(*cell);
            let count = self.count_seen(load, members);
            if count > 0 {
                seen.push(members[count - 1] as usize)?;
            }
        }
        Ok(seen)
    }

    /// How many of some events a load sees as stores, where it sees none that stands after another one that it doesn't.
    fn count_seen(&self, load: usize, stores: &[u32]) -> usize
        ensures within { result ≤ length stores.now }
        ensures cut { (t : TraceValue) (steps : List ValueStep) → IsKnownBy t steps self.now → AreSeenFirst t steps load stores.now →
            IsCut stores.now (λ w. SeesStore t steps (suc load) (suc w)) result }
    {
        let mut low = 0;
        let mut high = stores.len();
        while low < high {
            let middle = low + (high - low) / 2;
            if self.sees(load, stores[middle] as usize) {
                low = middle + 1;
            } else {
                high = middle;
            }
        }
        low
    }
}
