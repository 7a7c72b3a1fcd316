//! Which unit a record is of, as clauses see it.
ghost use Rattle.std.specs.Prelude.{◌≡◌};
ghost use Rattle.unit_core.specs.Units.{Design};
ghost use base.Fml.{ftrue};

use crate::units::MemoryUnit;
use std::fmt;
use std::marker::{Model, PhantomData, Send, Sync};

/// The design of a unit. It has no bytes: only clauses read it.
pub(crate) struct DesignMark {
    of: PhantomData<u8>,
    pub(crate) ghost value: { Design },
}

impl Model for DesignMark {
    ghost also_owns = { λ _. ftrue };
}

impl DesignMark {
    /// The design of this unit.
    pub(crate) fn of<U: MemoryUnit>(unit: &U) -> DesignMark
        ensures { result.value ≡ (U.value_of unit.now).design }
    {
        let _ = unit;
        DesignMark { of: PhantomData }
    }
}

unsafe impl Send for DesignMark {}

unsafe impl Sync for DesignMark {}

impl Drop for DesignMark {
    fn drop(self) {
        let Self { of: _ } = self;
    }
}

impl fmt::Debug for DesignMark {
    fn fmt<W: fmt::Write>(&self, f: &mut fmt::Formatter<W>) -> fmt::Result {
        f.write_str("DesignMark")
    }
}
