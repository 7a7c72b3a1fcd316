ghost use Rattle.std.specs.Prelude.{◌≡◌, ◌<◌, ◌≤◌, ◌+◌, ◌^◌, [], ◌∷◌, ◌++◌, IfOk, OnOk, OnErr, length, replicate, set, slice_index};
ghost use Rattle.unit_core.specs.declared.steps.Step.TheVariants.{Drain};

use crate::steps::Step;
use std::alloc::Global;
use std::marker::Model;
use tso_ops::OutOfMemory;

/// The history of a memory unit: the first value of each of 256 addresses, and the steps that the unit has taken.
///
/// A unit reserves room for the steps of a call before it changes its memory, so that a call which is refused changes
/// nothing.
#[derive(Debug, Drop)]
pub struct History {
    /// The first value of each address.
    first: Vec<u64>,
    /// The first step first.
    steps: Vec<Step>,
}

impl Model for History {
    ghost use Rattle.std.specs.Prelude.{◌≡◌, ◌-◌, length};
    ghost use Rattle.std.specs.Vec.{vec_capacity, vec_len};
    ghost use Rattle.unit_core.specs.Histories.{HistoryValue};

    ghost Value = { HistoryValue };

    ghost view = { λ h. record { first = h.first.items; steps = h.steps.items; room = vec_capacity h.steps - vec_len h.steps } };

    ghost invariant = { λ h. length h.first.items ≡ 256 };
}

impl History {
    /// The history of a unit that has taken no step, with first values 0; or OutOfMemory where an allocation was refused.
    pub fn new(alloc: Global) -> Result<History, OutOfMemory>
        ensures steps { IfOk result (λ h. h.steps ≡ []) }
        ensures first { IfOk result (λ h. h.first ≡ replicate 256 0) }
    {
        Ok(History {
            first: vec![in alloc; 0; 256]?,
            steps: Vec::new(alloc),
        })
    }

    /// Makes room for so many steps, or answers OutOfMemory where an allocation was refused.
    pub fn reserve(&mut self, count: usize) -> Result<(), OutOfMemory>
        ensures steps { self.new.steps ≡ self.old.steps }
        ensures first { self.new.first ≡ self.old.first }
        ensures room { OnOk result (count ≤ self.new.room) }
        ensures countable { OnOk result (length self.new.steps + count < 2 ^ 64) }
        ensures full { OnErr result (self.old.room < count) }
        ensures refused { OnErr result (self.new ≡ self.old) }
    {
        self.steps.reserve(count)?;
        Ok(())
    }

    /// Appends a step, for which there is room.
    pub fn push_reserved(&mut self, step: Step)
        requires { 0 < self.old.room }
        ensures steps { self.new.steps ≡ self.old.steps ++ step ∷ [] }
        ensures first { self.new.first ≡ self.old.first }
        ensures room { self.old.room ≤ self.new.room + 1 }
    {
        let _pushed = self.steps.push(step);
    }

    /// Appends so many drains of processor `p` and then a step, for all of which there is room.
    pub fn push_after_drains(&mut self, p: usize, count: usize, step: Step)
        requires { count < self.old.room }
        ensures steps { self.new.steps ≡ self.old.steps ++ (replicate count (Drain p) ++ step ∷ []) }
        ensures first { self.new.first ≡ self.old.first }
        ensures room { self.old.room ≤ self.new.room + count + 1 }
    {
        for _done in 0..count {
            self.push_reserved(Step::Drain { p });
        }
        self.push_reserved(step);
    }

    /// Appends a step, or answers OutOfMemory where there is no room and an allocation was refused.
    pub fn append(&mut self, step: Step) -> Result<(), OutOfMemory>
        ensures steps { OnOk result (self.new.steps ≡ self.old.steps ++ step ∷ []) }
        ensures first { self.new.first ≡ self.old.first }
        ensures countable { OnOk result (length self.new.steps < 2 ^ 64) }
        ensures full { OnErr result (self.old.room ≡ 0) }
        ensures refused { OnErr result (self.new ≡ self.old) }
    {
        self.reserve(1)?;
        self.push_reserved(step);
        Ok(())
    }

    /// The steps that the unit has taken, the first one first.
    pub fn steps(&self) -> &[Step]
        ensures are { result.now ≡ self.now.steps }
        ensures kept { length self.now.first ≡ 256 }
    {
        &self.steps
    }

    /// The first value of address `a`.
    pub fn first(&self, a: u16) -> u64
        requires { a < 256 }
        ensures { result ≡ slice_index self.now.first a }
    {
        self.first[a as usize]
    }

    /// Gives address `a` the first value `v`.
    pub fn preset(&mut self, a: u16, v: u64)
        requires { a < 256 }
        ensures { self.new ≡ record self.old { first = set self.old.first a v } }
    {
        self.first[a as usize] = v;
    }
}
