//! The bytes of a run, followed as they come.
ghost use Rattle.std.specs.Prelude.{◌≡◌, ◌++◌, [], List, ℕ, IfErr, IfOk};
ghost use Rattle.run_following.specs.Accounts.{Account, Follows};
ghost use Rattle.run_following.specs.Internal.Faults.{IsRunFault};
ghost use Rattle.run_following.specs.Internal.Streams.{IsTaken, StandsAt, StopsAfter, IsCutOff};

use crate::followers::Follower;
use crate::stages::Stage;
use line_text::next_line;
use std::alloc::Global;
use std::mem;
use text_streams::Fault;
use tso_text::{TextFault, Why, fault_of};

/// Why no more of a run is followed.
#[derive(Clone, Copy)]
pub(crate) enum Stop {
    /// A line is refused.
    Refused(TextFault),
    /// A line is no step, and the first such line ends the run.
    Told,
}

/// A run whose bytes come one after the other.
#[derive(Drop)]
pub(crate) struct RunStream {
    pub(crate) follower: Follower,
    /// What came of a line that hasn't ended.
    pub(crate) pending: Vec<u8>,
    /// Whether the first line that is no step ends the run.
    pub(crate) is_fast: bool,
}

impl RunStream {
    /// Before the first byte.
    pub(crate) fn new(alloc: Global, most: usize, is_fast: bool) -> RunStream
        ensures stands { StandsAt result [] [] }
        ensures options { (result.is_fast ≡ is_fast) × (result.follower.noted.most ≡ most) }
    {
        RunStream {
            follower: Follower::new(alloc, most),
            pending: Vec::new(alloc),
            is_fast,
        }
    }

    /// Follows the lines that end in the next bytes, until one ends the run. OutOfMemory where an allocation was refused; Read above 2^64 lines
    /// or refusals.
    pub(crate) fn take(&mut self, alloc: Global, chunk: &[u8]) -> Result<Option<Stop>, Fault>
        ensures fault { IfErr result IsRunFault }
        ensures stands { IfOk result (λ stop. (bytes : List ℕ) → StandsAt self.old bytes [] → StopsAfter self.new (bytes ++ chunk.now) stop) }
        ensures options { (self.new.is_fast ≡ self.old.is_fast) × (self.new.follower.noted.most ≡ self.old.follower.noted.most) }
    {
        let mut rest = chunk;
        'lines: loop {
            let Some((line, after)) = next_line(rest) else {
                self.pending.extend_from_slice(rest)?;
                return Ok(None);
            };
            if let Some(stop) = self.take_line(alloc, line)? {
                return Ok(Some(stop));
            }
            rest = after;
        }
    }

    /// Follows a line that ends with these bytes.
    fn take_line(&mut self, alloc: Global, line: &[u8]) -> Result<Option<Stop>, Fault>
        ensures fault { IfErr result IsRunFault }
        ensures taken { IfOk result (λ stop. (account : Account) → Follows self.old.follower account →
            IsTaken self.new account (self.old.pending.items ++ line.now) stop) }
        ensures options { (self.new.is_fast ≡ self.old.is_fast) × (self.new.follower.noted.most ≡ self.old.follower.noted.most) }
    {
        if self.pending.is_empty() {
            return self.follow_line(alloc, line);
        }
        self.pending.extend_from_slice(line)?;
        let whole = mem::replace(&mut self.pending, Vec::new(alloc));
        self.follow_line(alloc, &whole)
    }

    /// Follows a line.
    fn follow_line(&mut self, alloc: Global, line: &[u8]) -> Result<Option<Stop>, Fault>
        requires { self.old.pending.items ≡ [] }
        ensures fault { IfErr result IsRunFault }
        ensures taken { IfOk result (λ stop. (account : Account) → Follows self.old.follower account → IsTaken self.new account line.now stop) }
        ensures options { (self.new.is_fast ≡ self.old.is_fast) × (self.new.follower.noted.most ≡ self.old.follower.noted.most) }
    {
        let number = self.follower.number.checked_add(1).ok_or(Fault::Read)?;
        let refused = self.follower.accept(alloc, line)?;
        if let Some(why) = refused {
            let line = number as usize;
            return Ok(Some(Stop::Refused(TextFault { line, why })));
        }
        if self.is_fast && self.follower.noted.total > 0 {
            return Ok(Some(Stop::Told));
        }
        Ok(None)
    }

    /// Why the run is refused at its end: its last line has no line end, or the line `end` is needed and missing.
    pub(crate) fn fault_at_end(&self, needs_end: bool) -> Result<Option<TextFault>, Fault>
        ensures fault { IfErr result IsRunFault }
        ensures cut_off { IfOk result (λ fault. (account : Account) → Follows self.now.follower account → IsCutOff self.now account needs_end fault) }
    {
        let number = self.follower.number.checked_add(1).ok_or(Fault::Read)?;
        if !self.pending.is_empty() || needs_end && self.follower.stage != Stage::Ended {
            return Ok(Some(fault_of(number as usize, Why::BadLine)));
        }
        Ok(None)
    }
}
