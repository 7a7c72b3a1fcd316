ghost use Rattle.std.specs.Prelude.{◌≡◌, ◌<◌, [], IfOk, IfErr, set, slice_index};
ghost use Rattle.unit_core.specs.declared.steps.Step.TheVariants.{Store, Load, Swap, Membar, Stbar};
ghost use Rattle.unit_core.specs.Units.{UnitValue, Takes, AnswersDrain, IsUnit, waiting_of};

use crate::steps::Step;
use tso_ops::{Order, OutOfMemory};

/// A memory for 16 processors, which keeps a list of the steps that it has taken.
///
/// Processors go from 0 to 15, addresses from 0 to 255 and stored values from 1 to 2^64 - 1. A call that answers
/// OutOfMemory leaves the unit as it was. To end a unit is to drop it.
///
/// A unit is lawful where its steps are a run of the store-buffer machine of its memory model (SPARC V8 manual, chapter 6
/// and appendix K) from its first values.
pub trait MemoryUnit: Drop {
    ghost value_of: { Self → UnitValue };

    /// Loads from address `a`: one step `Load` with the answer, and otherwise only drains of processor `p`.
    fn load(&mut self, p: usize, a: u16) -> Result<u64, OutOfMemory>
        requires processor { p < 16 }
        requires address { a < 256 }
        ensures taken { IfOk result (λ r. Takes (value_of self.old) (value_of self.new) (Load p a r)) }
        ensures refused { IfErr result (λ _. value_of self.new ≡ value_of self.old) };

    /// Stores the value `v` to address `a`: one step `Store`, and otherwise only drains of processor `p`.
    fn store(&mut self, p: usize, a: u16, v: u64) -> Result<(), OutOfMemory>
        requires processor { p < 16 }
        requires address { a < 256 }
        requires value { 0 < v }
        ensures taken { IfOk result (λ _. Takes (value_of self.old) (value_of self.new) (Store p a v)) }
        ensures refused { IfErr result (λ _. value_of self.new ≡ value_of self.old) };

    /// Swaps the value `v` with what it reads at address `a`: one step `Swap` with the answer, and otherwise only drains of
    /// processor `p`.
    fn swap(&mut self, p: usize, a: u16, v: u64) -> Result<u64, OutOfMemory>
        requires processor { p < 16 }
        requires address { a < 256 }
        requires value { 0 < v }
        ensures taken { IfOk result (λ r. Takes (value_of self.old) (value_of self.new) (Swap p a r v)) }
        ensures refused { IfErr result (λ _. value_of self.new ≡ value_of self.old) };

    /// A barrier, MEMBAR #StoreLoad: one step `Membar`, and otherwise only drains of processor `p`.
    fn membar(&mut self, p: usize) -> Result<(), OutOfMemory>
        requires processor { p < 16 }
        ensures taken { IfOk result (λ _. Takes (value_of self.old) (value_of self.new) (Membar p)) }
        ensures refused { IfErr result (λ _. value_of self.new ≡ value_of self.old) };

    /// An STBAR: one step `Stbar`, and otherwise only drains of processor `p`.
    fn stbar(&mut self, p: usize) -> Result<(), OutOfMemory>
        requires processor { p < 16 }
        ensures taken { IfOk result (λ _. Takes (value_of self.old) (value_of self.new) (Stbar p)) }
        ensures refused { IfErr result (λ _. value_of self.new ≡ value_of self.old) };

    /// Drains one entry of processor `p`, or answers false where none waits.
    fn drain(&mut self, p: usize) -> Result<bool, OutOfMemory>
        requires processor { p < 16 }
        ensures drained { IfOk result (λ some. AnswersDrain (value_of self.old) (value_of self.new) p some) }
        ensures refused { IfErr result (λ _. value_of self.new ≡ value_of self.old) };

    /// Gives address `a` the first value `v`, before the unit's first step.
    fn preset(&mut self, a: u16, v: u64)
        requires address { a < 256 }
        requires untouched { (value_of self.old).steps ≡ [] }
        ensures { value_of self.new ≡ record (value_of self.old) { first = set (value_of self.old).first a v } };

    /// How many entries wait in the buffer of processor `p`.
    fn waiting(&self, p: usize) -> usize
        requires processor { p < 16 }
        ensures { result ≡ waiting_of (value_of self.now) p };

    /// The steps that the unit has taken, the first one first.
    fn steps(&self) -> &[Step]
        ensures are { result.now ≡ (value_of self.now).steps }
        ensures kept { IsUnit (value_of self.now) };

    /// Whether the unit is lawful. No call changes it.
    fn lawful(&self) -> bool
        ensures { result ≡ (value_of self.now).lawful };

    /// The memory model whose machine the unit is, where it is lawful. No call changes it.
    fn order(&self) -> Order
        ensures { result ≡ (value_of self.now).order };

    /// The first value of address `a`: 0 until `preset`.
    fn first(&self, a: u16) -> u64
        requires address { a < 256 }
        ensures { result ≡ slice_index (value_of self.now).first a };
}

impl MemoryUnit for Box<dyn MemoryUnit + Send> {
    ghost value_of = { λ b. (MemoryUnit-box b).value_of b.value };

    fn load(&mut self, p: usize, a: u16) -> Result<u64, OutOfMemory> {
        (**self).load(p, a)
    }

    fn store(&mut self, p: usize, a: u16, v: u64) -> Result<(), OutOfMemory> {
        (**self).store(p, a, v)
    }

    fn swap(&mut self, p: usize, a: u16, v: u64) -> Result<u64, OutOfMemory> {
        (**self).swap(p, a, v)
    }

    fn membar(&mut self, p: usize) -> Result<(), OutOfMemory> {
        (**self).membar(p)
    }

    fn stbar(&mut self, p: usize) -> Result<(), OutOfMemory> {
        (**self).stbar(p)
    }

    fn drain(&mut self, p: usize) -> Result<bool, OutOfMemory> {
        (**self).drain(p)
    }

    fn preset(&mut self, a: u16, v: u64) {
        (**self).preset(a, v)
    }

    fn waiting(&self, p: usize) -> usize {
        (**self).waiting(p)
    }

    fn steps(&self) -> &[Step] {
        (**self).steps()
    }

    fn lawful(&self) -> bool {
        (**self).lawful()
    }

    fn order(&self) -> Order {
        (**self).order()
    }

    fn first(&self, a: u16) -> u64 {
        (**self).first(a)
    }
}
