//! The lines of a text that refusals may name.
ghost use Rattle.std.specs.Prelude.{◌≡◌, ◌++◌, ◌∷◌, [], IsTrue, OnOk, filter, nat_eq};
ghost use Rattle.std.specs.HashSet.{contains};
ghost use Rattle.run_following.specs.KeptLines.{kept_text, line_number};

use smallvec::SmallVec;
use std::alloc::Global;
use std::collections::HashSet;
use tso_ops::OutOfMemory;

/// How many lines are kept at least before some are forgotten.
const LEAST_ROOM: usize = 65_536;

/// How many bytes of a line are kept without an allocation of its own.
const INLINE_BYTES: usize = 24;

/// A line of a text.
#[derive(Debug, Drop)]
pub(crate) struct KeptLine {
    /// Its number, from 1.
    pub(crate) number: u64,
    /// What it says, without its line end.
    pub(crate) text: SmallVec<u8, INLINE_BYTES>,
}

/// The lines of a text so far, but those that were forgotten.
#[derive(Debug, Drop)]
pub(crate) struct KeptLines {
    pub(crate) lines: Vec<KeptLine>,
    /// At how many lines those are forgotten that nothing names.
    room: usize,
}

impl KeptLines {
    /// None.
    pub(crate) fn new(alloc: Global) -> KeptLines
        ensures { result.lines.items ≡ [] }
    {
        KeptLines {
            lines: Vec::new(alloc),
            room: LEAST_ROOM,
        }
    }

    /// Keeps a line. OutOfMemory where an allocation was refused.
    pub(crate) fn keep(
        &mut self,
        alloc: Global,
        number: u64,
        line: &[u8],
    ) -> Result<(), OutOfMemory>
        ensures { OnOk result ((kept : KeptLine) × (self.new.lines.items ≡ self.old.lines.items ++ kept ∷ []) × (kept.number ≡ number) × (kept.text.items ≡ line.now)) }
    {
        let text = SmallVec::from_slice(alloc, line)?;
        self.lines.push(KeptLine { number, text })?;
        Ok(())
    }

    /// Whether there are so many that some should be forgotten.
    pub(crate) fn is_full(&self) -> bool {
        self.lines.len() >= self.room
    }

    /// Forgets all but the lines of these numbers.
    pub(crate) fn keep_only(&mut self, numbers: &HashSet<u64>)
        ensures { self.new.lines.items ≡ filter (λ line. contains nat_eq numbers.now (line_number line)) self.old.lines.items }
    {
        self.lines.retain(|line| numbers.contains(&line.number));
        let room = self.lines.len().saturating_mul(2);
        self.room = if room > LEAST_ROOM { room } else { LEAST_ROOM };
    }

    /// What the line of this number says, where it is kept; else nothing.
    pub(crate) fn text_of(&self, number: u64) -> &[u8]
        ensures { result.now ≡ kept_text self.now number }
    {
        for line in &self.lines {
            if line.number == number {
                return line.text.as_slice();
            }
        }
        &[]
    }
}
