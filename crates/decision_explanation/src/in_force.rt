//! Which lines of a refutation are in force.
ghost use Rattle.std.specs.Prelude.{◌≡◌, ◌≤◌, ◌<◌, ◌+◌, ◌^◌, drop, take, reverse, OnOk};
ghost use Rattle.std.specs.BTreeMap.{Updates};
ghost use Rattle.trace_explanation.specs.Internal.Tables.{pair_cmp};
ghost use Rattle.decision_explanation.specs.InForce.{beginning, case_count, case_number, pair_number, standing_after, with_pair};
ghost use Rattle.decision_explanation.specs.Internal.Standings.{IsKept, standing_of};

use std::alloc::{AllocError, Global};
use std::collections::BTreeMap;
use tso_evidence::RefutationLine;

/// A pair of numbers, the first before the second, that the line of this number put in force.
#[derive(Clone, Copy, Debug)]
pub(crate) struct NumberedPair {
    number: usize,
    from: u64,
    to: u64,
}

/// A case whose second part is still to come: the number of its line, and how many pairs were in force there.
#[derive(Clone, Copy, Debug)]
pub(crate) struct OpenCase {
    number: usize,
    count: usize,
}

/// A pair in force, and the number that it had before, where an earlier line in force has it too.
#[derive(Clone, Copy, Debug)]
pub(crate) struct Entry {
    pair: NumberedPair,
    before: Option<usize>,
}

/// Where a refutation has come to.
#[derive(Debug, Drop)]
pub(crate) struct InForce {
    /// The number of the next line that has one.
    next: usize,
    /// For each pair in force the number of the last line in force that has it.
    numbers: BTreeMap<(u64, u64), usize>,
    /// The pairs in force, in the order of their lines.
    log: Vec<Entry>,
    /// The cases whose second part is still to come, in the order of their lines.
    cases: Vec<OpenCase>,
}

impl InForce {
    /// Before the first line.
    pub(crate) fn new(alloc: Global) -> InForce
        ensures kept { IsKept result }
        ensures standing { standing_of result ≡ beginning }
    {
        InForce {
            next: 1,
            numbers: BTreeMap::new(alloc),
            log: Vec::new(alloc),
            cases: Vec::new(alloc),
        }
    }

    /// The number of the next line that has one.
    pub(crate) fn next(&self) -> usize
        ensures { result ≡ (standing_of self.now).next }
    {
        self.next
    }

    /// The number of the last line in force that has the pair: 0 where there is none.
    pub(crate) fn number(&self, from: u64, to: u64) -> usize
        requires { IsKept self.now }
        ensures { result ≡ pair_number (standing_of self.now).pairs (from, to) }
    {
        match self.numbers.get(&(from, to)) {
            Some(number) => *number,
            None => 0,
        }
    }

    /// The number of the last case whose second part is still to come: 0 where there is none.
    pub(crate) fn case_number(&self) -> usize
        ensures { result ≡ case_number (standing_of self.now).cases }
    {
        match self.cases.last() {
            Some(case) => case.number,
            None => 0,
        }
    }

    /// Goes on behind a line. OutOfMemory where an allocation was refused.
    pub(crate) fn follow(&mut self, line: &RefutationLine) -> Result<(), AllocError>
        requires kept { IsKept self.old }
        requires room { self.old.next + 1 < 2 ^ 64 }
        ensures kept { OnOk result (IsKept self.new) }
        ensures standing { OnOk result (standing_of self.new ≡ standing_after (standing_of self.old) line.now) }
        ensures next { self.new.next ≤ self.old.next + 1 }
    {
        match line {
            RefutationLine::Step(step) => self.add(step.from, step.to),
            RefutationLine::Case { first, second } => {
                let case = OpenCase {
                    number: self.next,
                    count: self.log.len(),
                };
                self.cases.push(case)?;
                self.add(*first, *second)
            },
            RefutationLine::Else { first, second } => {
                let count = self.close();
                self.cut(count)?;
                self.add(*first, *second)
            },
            RefutationLine::Cycle(_) => Ok(()),
        }
    }

    /// Puts the pair of a line that has a number in force. OutOfMemory where an allocation was refused.
    fn add(&mut self, from: u64, to: u64) -> Result<(), AllocError>
        requires kept { IsKept self.old }
        requires room { self.old.next + 1 < 2 ^ 64 }
        ensures kept { OnOk result (IsKept self.new) }
        ensures standing { OnOk result (standing_of self.new ≡ with_pair from to (standing_of self.old)) }
        ensures next { self.new.next ≤ self.old.next + 1 }
    {
        let number = self.next;
        let before = self.numbers.insert((from, to), number)?;
        let pair = NumberedPair { number, from, to };
        self.log.push(Entry { pair, before })?;
        self.next = number + 1;
        Ok(())
    }

    /// Takes the last open case away, and says how many pairs were in force there: 0 where none is open.
    fn close(&mut self) -> usize
        ensures count { result ≡ case_count (reverse self.old.cases.items) }
        ensures cases { reverse self.new.cases.items ≡ drop 1 (reverse self.old.cases.items) }
        ensures next { self.new.next ≡ self.old.next }
        ensures numbers { self.new.numbers ≡ self.old.numbers }
        ensures log { self.new.log.items ≡ self.old.log.items }
    {
        match self.cases.pop() {
            Some(case) => case.count,
            None => 0,
        }
    }

    /// Leaves the first `count` pairs in force, and no others. OutOfMemory where an allocation was refused.
    fn cut(&mut self, count: usize) -> Result<(), AllocError>
        requires { IsKept self.old }
        ensures kept { OnOk result (IsKept self.new) }
        ensures log { OnOk result (self.new.log.items ≡ take count self.old.log.items) }
        ensures next { self.new.next ≡ self.old.next }
        ensures cases { self.new.cases.items ≡ self.old.cases.items }
    {
        while self.log.len() > count {
            if let Some(entry) = self.log.pop() {
                self.restore(entry)?;
            }
        }
        Ok(())
    }

    /// Gives the pair of an entry the number that it had before. OutOfMemory where an allocation was refused.
    fn restore(&mut self, entry: Entry) -> Result<(), AllocError>
        ensures updates { OnOk result (Updates pair_cmp self.old.numbers self.new.numbers (entry.pair.from, entry.pair.to) entry.before) }
        ensures next { self.new.next ≡ self.old.next }
        ensures log { self.new.log.items ≡ self.old.log.items }
        ensures cases { self.new.cases.items ≡ self.old.cases.items }
    {
        let key = (entry.pair.from, entry.pair.to);
        match entry.before {
            Some(number) => {
                self.numbers.insert(key, number)?;
            },
            None => {
                self.numbers.remove(&key);
            },
        }
        Ok(())
    }
}
