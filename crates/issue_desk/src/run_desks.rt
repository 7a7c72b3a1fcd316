//! The desk that the threads of a run share: the unit in it is of one design all along.
ghost use Rattle.std.specs.Prelude.{◌≡◌, ◌<◌, IfOk};
ghost use Rattle.issue_desk.specs.Desks.{AnswersIssue};

use crate::desks::Desk;
use crate::passes::Pass;
use std::marker::{Brand, Model, PhantomData};
use tso_ops::OutOfMemory;
use unit_core::MemoryUnit;

/// The design of a run's unit. Each run picks it.
pub(crate) trait RunDesign {
    ghost use Rattle.unit_core.specs.Units.{Design};

    ghost design: { Design };
}

impl RunDesign for Brand {
    ghost use Rattle.std.specs.Prelude.{[]};

    ghost design = { record { kind = []; numbers = [] } };
}

/// A desk with a unit of this design: whoever gets the lock of a run's desk knows which unit the record will be of.
#[derive(Drop)]
pub(crate) struct RunDesk<D: RunDesign, U: MemoryUnit> {
    desk: Desk<U>,
    of: PhantomData<D>,
}

impl<D: RunDesign, U: MemoryUnit> Model for RunDesk<D, U> {
    ghost use Rattle.std.specs.Prelude.{◌≡◌};
    ghost use Rattle.issue_desk.specs.Desks.{DeskValue};

    ghost Value = { DeskValue };

    ghost view = { λ d. d.desk };

    ghost invariant = { λ d. d.desk.unit.design ≡ D.design };
}

impl<D: RunDesign, U: MemoryUnit> RunDesk<D, U> {
    /// The desk, whose unit is of this design.
    pub(crate) fn new(desk: Desk<U>) -> RunDesk<D, U>
        requires { desk.unit.design ≡ D.design }
        ensures { result ≡ desk }
    {
        RunDesk {
            desk,
            of: PhantomData,
        }
    }

    /// As `Desk::issue`.
    pub(crate) fn issue(&mut self, pass: &mut Pass) -> Result<bool, OutOfMemory>
        ensures { IfOk result (AnswersIssue self.old self.new pass.old pass.new) }
    {
        self.desk.issue(pass)
    }

    /// As `Desk::drain`.
    pub(crate) fn drain(&mut self, p: usize) -> Result<bool, OutOfMemory>
        requires { p < 16 }
    {
        self.desk.drain(p)
    }

    /// The desk.
    pub(crate) fn into_desk(self) -> Desk<U>
        ensures is { result ≡ self }
        ensures design { result.unit.design ≡ D.design }
    {
        let RunDesk { desk, .. } = self;
        desk
    }
}
