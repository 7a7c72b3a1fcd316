ghost use Rattle.std.specs.Prelude.{◌≡◌};

use tso_ops::{Order, OutOfMemory};
use unit_core::{MemoryUnit, Step};

/// A unit that passes each call on to another, but answers OutOfMemory to one of those of `load`, `store`, `swap`,
/// `membar`, `stbar` and `drain`.
#[derive(Drop)]
pub struct RefusingUnit<U> {
    inner: U,
    /// How many calls are passed on before the one that is refused.
    before: Option<u64>,
}

impl<U: MemoryUnit> RefusingUnit<U> {
    /// Passes calls on to this unit, but refuses its call number `refused`, from 1, and no call where that is 0.
    pub fn new(inner: U, refused: u64) -> RefusingUnit<U>
        ensures { ⟦<RefusingUnit<U> as MemoryUnit>⟧.value_of result ≡ U.value_of inner }
    {
        RefusingUnit {
            inner,
            before: refused.checked_sub(1),
        }
    }

    /// Counts a call, or refuses it.
    fn admit(&mut self) -> Result<(), OutOfMemory>
        ensures { self.new.inner ≡ self.old.inner }
    {
        match self.before {
            Some(0) => {
                self.before = None;
                Err(OutOfMemory)
            }
            Some(before) => {
                self.before = Some(before - 1);
                Ok(())
            }
            None => Ok(()),
        }
    }
}

impl<U: MemoryUnit> MemoryUnit for RefusingUnit<U> {
    ghost value_of = { λ u. U.value_of u.inner };

    fn load(&mut self, p: usize, a: u16) -> Result<u64, OutOfMemory> {
        self.admit()?;
        self.inner.load(p, a)
    }

    fn store(&mut self, p: usize, a: u16, v: u64) -> Result<(), OutOfMemory> {
        self.admit()?;
        self.inner.store(p, a, v)
    }

    fn swap(&mut self, p: usize, a: u16, v: u64) -> Result<u64, OutOfMemory> {
        self.admit()?;
        self.inner.swap(p, a, v)
    }

    fn membar(&mut self, p: usize) -> Result<(), OutOfMemory> {
        self.admit()?;
        self.inner.membar(p)
    }

    fn stbar(&mut self, p: usize) -> Result<(), OutOfMemory> {
        self.admit()?;
        self.inner.stbar(p)
    }

    fn drain(&mut self, p: usize) -> Result<bool, OutOfMemory> {
        self.admit()?;
        self.inner.drain(p)
    }

    fn preset(&mut self, a: u16, v: u64) {
        self.inner.preset(a, v)
    }

    fn waiting(&self, p: usize) -> usize {
        self.inner.waiting(p)
    }

    fn steps(&self) -> &[Step] {
        self.inner.steps()
    }

    fn lawful(&self) -> bool {
        self.inner.lawful()
    }

    fn order(&self) -> Order {
        self.inner.order()
    }

    fn first(&self, a: u16) -> u64 {
        self.inner.first(a)
    }
}
