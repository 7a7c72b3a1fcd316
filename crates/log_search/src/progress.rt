//! How many operations of a log a search has passed.
ghost use Rattle.std.specs.Prelude.{◌≡◌, ◌≤◌};

use progress_meters::Meter;

/// How many operations are passed, and how many of them a meter heard of.
#[derive(Clone, Copy, Debug)]
pub(crate) struct Progress {
    /// Those that aren't looked at, and those of earlier parts of the addresses.
    past: usize,
    /// How many the meter heard of.
    told: usize,
}

impl Progress {
    /// So many aren't looked at, and the meter heard of none.
    pub(crate) fn new(past: usize) -> Progress
        ensures past { result.past ≡ past }
        ensures told { result.told ≡ 0 }
    {
        Progress { past, told: 0 }
    }

    /// A part of the addresses is passed, in which so many operations are done.
    pub(crate) fn pass(&mut self, done: usize)
        ensures past { self.old.past ≤ self.new.past }
        ensures told { self.new.told ≡ self.old.told }
    {
        self.past = self.past.saturating_add(done);
    }

    /// Tells the meter of the operations that are passed and that it hasn't heard of, where so many are done in this part. What
    /// was taken back and is done again isn't told again.
    pub(crate) fn tell<M: Meter>(&mut self, done: usize, meter: &M)
        ensures past { self.new.past ≡ self.old.past }
        ensures told { self.old.told ≤ self.new.told }
    {
        let passed = self.past.saturating_add(done);
        if passed > self.told {
            meter.advance((passed - self.told) as u64);
            self.told = passed;
        }
    }
}
