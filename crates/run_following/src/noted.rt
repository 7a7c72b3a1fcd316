//! The refusals of a run: the first of them, and how many there are.
ghost use Rattle.std.specs.Prelude.{◌≡◌, ◌++◌, ◌∷◌, [], List, IfErr, OnOk, map};
ghost use Rattle.run_steps.specs.Reads.{refusal_of};
ghost use Rattle.run_following.specs.Facts.{RefusalTold, told};
ghost use Rattle.run_following.specs.Internal.Faults.{IsRunFault};
ghost use Rattle.run_following.specs.KeptLines.{kept_text};
ghost use Rattle.run_following.specs.Noted.{AreNoted};

use crate::facts::{ToldRefusal, tell};
use crate::kept_lines::KeptLines;
use run_steps::RunRefusal;
use std::alloc::Global;
use text_streams::Fault;

/// The refusals of a run so far.
#[derive(Debug, Drop)]
pub(crate) struct NotedRefusals {
    /// The first of them, as many as are told.
    pub(crate) first: Vec<ToldRefusal>,
    /// How many are told at most.
    pub(crate) most: usize,
    /// How many there are.
    pub(crate) total: u64,
}

impl NotedRefusals {
    /// None.
    pub(crate) fn new(alloc: Global, most: usize) -> NotedRefusals
        ensures noted { AreNoted result [] }
        ensures most { result.most ≡ most }
    {
        NotedRefusals {
            first: Vec::new(alloc),
            most,
            total: 0,
        }
    }

    /// Notes the refusals of the line of this number. OutOfMemory where an allocation was refused; Read above 64 bits.
    pub(crate) fn note_all(
        &mut self,
        alloc: Global,
        kept: &KeptLines,
        number: u64,
        refusals: &[RunRefusal],
    ) -> Result<(), Fault>
        ensures fault { IfErr result IsRunFault }
        ensures noted { OnOk result ((rs : List RefusalTold) → AreNoted self.old rs →
            AreNoted self.new (rs ++ map (told (kept_text kept.now) number) (map refusal_of refusals.now))) }
        ensures most { self.new.most ≡ self.old.most }
    {
        for refusal in refusals {
            self.note(alloc, kept, number, refusal)?;
        }
        Ok(())
    }

    /// Notes one more. OutOfMemory where an allocation was refused; Read above 64 bits.
    fn note(
        &mut self,
        alloc: Global,
        kept: &KeptLines,
        number: u64,
        refusal: &RunRefusal,
    ) -> Result<(), Fault>
        ensures fault { IfErr result IsRunFault }
        ensures noted { OnOk result ((rs : List RefusalTold) → AreNoted self.old rs →
            AreNoted self.new (rs ++ told (kept_text kept.now) number (refusal_of refusal.now) ∷ [])) }
        ensures most { self.new.most ≡ self.old.most }
    {
        self.total = self.total.checked_add(1).ok_or(Fault::Read)?;
        if self.first.len() < self.most {
            self.first.push(tell(alloc, kept, number, refusal)?)?;
        }
        Ok(())
    }
}
