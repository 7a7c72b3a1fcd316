//! Whether all that a load can have read is as a step asks.
ghost use Rattle.std.specs.Prelude.{◌≤◌, ◌<◌, ◌↔◌, ℕ, suc, List, length, slice_index, IsTrue, MatchBool};
ghost use Rattle.std.specs.List.{Contains};
ghost use Rattle.tso_ops.specs.Values.{TraceValue};
ghost use Rattle.tso_ops.specs.Events.{HasSource};
ghost use Rattle.value_evidence.specs.declared.steps.ValueStep.{ValueStep};
ghost use Rattle.value_check.specs.Internal.Known.{IsKnownBy};
ghost use Rattle.value_check.specs.Internal.Settling.{AreInOrder, AreSeen, AreSources, HasUnsettled, IsAsked, IsOver, Settles, SettlesAfter, SettlesBefore};

use crate::known::Known;

/// What a step or an end asks of each number that a load can have read. Events go by their indices.
#[derive(Drop)]
pub(crate) enum Demand {
    /// It is this number.
    Is(usize),
    /// It is a store that isn't program-earlier than the load, and this event is it or comes before it.
    After(usize),
    /// It is the first value, or comes before this event.
    Before(usize),
    /// It is this event, or comes before it.
    UpTo(usize),
    /// It is one of these numbers, which are set aside.
    SetAside(Vec<usize>),
}

/// A load with what is asked of what it can have read, and the last stores that it sees.
#[derive(Drop)]
pub(crate) struct Question {
    pub(crate) load: usize,
    pub(crate) wanted: Demand,
    pub(crate) seen: Vec<usize>,
}

impl Known {
    /// Whether one of the stores that the load sees comes after a store: then the load can't have read it, nor what is before it in
    /// program order.
    fn is_over(&self, question: &Question, store: usize) -> bool
        ensures { (t : TraceValue) (steps : List ValueStep) → IsKnownBy t steps self.now → AreSeen t steps question.now →
            IsTrue result ↔ IsOver t steps (suc question.now.load) (suc store) }
    {
        for seen in &question.seen {
            if self.leads(store, *seen) {
                return true;
            }
        }
        false
    }

    /// Whether a store is settled, and with it what is before it in program order.
    fn settles_before(&self, question: &Question, store: usize) -> bool
        ensures { (t : TraceValue) (steps : List ValueStep) → IsKnownBy t steps self.now → AreSeen t steps question.now →
            IsTrue result ↔ SettlesBefore t steps question.now store }
    {
        if self.is_over(question, store) {
            return true;
        }
        match &question.wanted {
            Demand::Before(to) => self.leads(store, *to),
            Demand::UpTo(to) => self.leads(store, *to),
            Demand::Is(_) => false,
            Demand::After(_) => false,
            Demand::SetAside(_) => false,
        }
    }

    /// Whether a store is settled, and with it what is after it in program order.
    fn settles_after(&self, question: &Question, store: usize) -> bool
        ensures { (t : TraceValue) (steps : List ValueStep) → IsKnownBy t steps self.now → IsTrue result ↔ SettlesAfter t steps question.now store }
    {
        if self.is_earlier(store, question.load) {
            return false;
        }
        if self.leads(question.load, store) {
            return true;
        }
        match &question.wanted {
            Demand::After(from) => self.leads(*from, store),
            Demand::Is(_) => false,
            Demand::Before(_) => false,
            Demand::UpTo(_) => false,
            Demand::SetAside(_) => false,
        }
    }

    /// Whether a store itself is as the step asks.
    fn is_asked(&self, question: &Question, store: u32) -> bool
        ensures { (t : TraceValue) (steps : List ValueStep) → IsKnownBy t steps self.now → IsTrue result ↔ IsAsked t question.now question.now.wanted store }
    {
        let x = store as usize;
        match &question.wanted {
            Demand::Is(number) => *number == x + 1,
            Demand::After(from) => *from == x && !self.is_earlier(x, question.load),
            Demand::UpTo(to) => x == *to,
            Demand::Before(_) => false,
            Demand::SetAside(numbers) => is_one_of(numbers, x + 1),
        }
    }

    /// Whether a store of the load's value to its address is as the step asks, or can't have been read.
    fn settles(&self, question: &Question, store: u32) -> bool
        ensures { (t : TraceValue) (steps : List ValueStep) → IsKnownBy t steps self.now → AreSeen t steps question.now →
            HasSource t (suc question.now.load) (suc store) → IsTrue result ↔ Settles t steps question.now store }
    {
        let x = store as usize;
        if self.settles_before(question, x) {
            return true;
        }
        if self.settles_after(question, x) {
            return true;
        }
        if self.is_taken(question.load, x) {
            return true;
        }
        if self.read_another(question.load, x + 1) {
            return true;
        }
        self.is_asked(question, store)
    }

    /// So many of some stores in program order, from the first on, are settled by the last of them.
    fn settled_end(&self, question: &Question, stores: &[u32]) -> usize
        ensures within { result ≤ length stores.now }
        ensures settled { (t : TraceValue) (steps : List ValueStep) → IsKnownBy t steps self.now → AreSeen t steps question.now → AreInOrder t stores.now →
            (i : ℕ) → i < result → Settles t steps question.now (slice_index stores.now i) }
    {
        let mut low = 0;
        let mut high = stores.len();
        while low < high {
            let middle = low + (high - low) / 2;
            if self.settles_before(question, stores[middle] as usize) {
                low = middle + 1;
            } else {
                high = middle;
            }
        }
        low
    }

    /// Some stores in program order are settled from this index on, by the one there. It is `from` or more.
    fn settled_start(&self, question: &Question, from: usize, stores: &[u32]) -> usize
        requires { from ≤ length stores.now }
        ensures within { result ≤ length stores.now }
        ensures settled { (t : TraceValue) (steps : List ValueStep) → IsKnownBy t steps self.now → AreInOrder t stores.now →
            (i : ℕ) → result ≤ i → i < length stores.now → Settles t steps question.now (slice_index stores.now i) }
    {
        let mut low = from;
        let mut high = stores.len();
        while low < high {
            let middle = low + (high - low) / 2;
            if self.settles_after(question, stores[middle] as usize) {
                high = middle;
            } else {
                low = middle + 1;
            }
        }
        high
    }

    /// Whether all of some stores in program order are settled, which have the load's value and are to its address.
    pub(crate) fn are_settled(&self, question: &Question, stores: &[u32]) -> bool
        ensures { (t : TraceValue) (steps : List ValueStep) → IsKnownBy t steps self.now → AreSeen t steps question.now →
            AreInOrder t stores.now → AreSources t question.now.load stores.now →
            MatchBool result ((i : ℕ) → i < length stores.now → Settles t steps question.now (slice_index stores.now i))
            (HasUnsettled t steps question.now stores.now) }
    {
        let low = self.settled_end(question, stores);
        let high = self.settled_start(question, low, stores);
        for i in low..high {
            if !self.settles(question, stores[i]) {
                return false;
            }
        }
        true
    }
}

/// Whether a number is one of these.
pub(crate) fn is_one_of(numbers: &[usize], number: usize) -> bool
    ensures { IsTrue result ↔ Contains numbers.now number }
{
    numbers.contains(&number)
}
