//! A run, followed line by line.
ghost use Rattle.std.specs.Prelude.{◌≡◌, ◌<◌, IfErr, IfOk, IsTrue, OnOk, Some};
ghost use Rattle.run_lines.specs.Lines.{HasProcessor};
ghost use Rattle.run_steps.specs.Machine.{state_of_machine};
ghost use Rattle.run_following.specs.Accounts.{Account, Follows, account_at_start, is_full, is_waiting_store, with_line, with_said, with_next_step, with_text};
ghost use Rattle.run_following.specs.Internal.Answers.{IsAnswered, IsAnsweredSaid};
ghost use Rattle.run_following.specs.Internal.Faults.{IsRunFault};
ghost use Rattle.run_following.specs.KeptLines.{has_kept};
ghost use Rattle.run_following.specs.Stages.{stage_after};

use crate::kept_lines::KeptLines;
use crate::noted::NotedRefusals;
use crate::stages::{Stage, stage_after};
use crate::tallies::Tally;
use run_lines::{RunText, Widths, line_read, widths_after};
use run_steps::{Machine, RunLine, RunStep};
use std::alloc::Global;
use std::collections::HashSet;
use text_streams::Fault;
use tso_ops::Order;
use tso_text::Why;

/// How many stores of one processor wait at most.
const MOST_WAITING: usize = 4096;

/// What the lines of a run so far say.
#[derive(Drop)]
pub(crate) struct Follower {
    pub(crate) machine: Machine,
    pub(crate) stage: Stage,
    pub(crate) widths: Widths,
    pub(crate) kept: KeptLines,
    /// How many lines there are.
    pub(crate) number: u64,
    pub(crate) tally: Tally,
    pub(crate) noted: NotedRefusals,
}

impl Follower {
    /// Before the first line.
    pub(crate) fn new(alloc: Global, most: usize) -> Follower
        ensures start { Follows result account_at_start }
        ensures most { result.noted.most ≡ most }
    {
        Follower {
            machine: Machine::new(alloc, Order::Tso),
            stage: Stage::Notes,
            widths: Widths::Unseen,
            kept: KeptLines::new(alloc),
            number: 0,
            tally: Tally::none(),
            noted: NotedRefusals::new(alloc, most),
        }
    }

    /// Goes on with the next line, or says why it is refused. Faults: OutOfMemory where an allocation was refused; Read above 2^64 lines or
    /// refusals.
    pub(crate) fn accept(&mut self, alloc: Global, line: &[u8]) -> Result<Option<Why>, Fault>
        ensures fault { IfErr result IsRunFault }
        ensures answered { IfOk result (λ why. (account : Account) → Follows self.old account → IsAnswered account line.now self.new why) }
        ensures most { self.new.noted.most ≡ self.old.noted.most }
    {
        if self.stage == Stage::Ended {
            return Ok(Some(Why::BadLine));
        }
        match line_read(self.widths, line) {
            Err(why) => Ok(Some(why)),
            Ok(said) => self.accept_said(alloc, line, said),
        }
    }

    /// Goes on with a line that says this, where no line `end` came, or says why it is refused.
    fn accept_said(
        &mut self,
        alloc: Global,
        line: &[u8],
        said: RunText,
    ) -> Result<Option<Why>, Fault>
        requires processor { HasProcessor said }
        ensures fault { IfErr result IsRunFault }
        ensures answered { IfOk result (λ why. (account : Account) → Follows self.old account → IsAnsweredSaid account line.now said self.new why) }
        ensures most { self.new.noted.most ≡ self.old.noted.most }
    {
        let Some(stage) = stage_after(self.stage, &said) else {
            return Ok(Some(Why::BadLine));
        };
        if self.is_full(&said) {
            return Ok(Some(Why::TooManyWaiting));
        }
        self.go_on(alloc, line, said, stage)?;
        Ok(None)
    }

    /// Goes on with a line that says this, to this part of the text.
    fn go_on(
        &mut self,
        alloc: Global,
        line: &[u8],
        said: RunText,
        stage: Stage,
    ) -> Result<(), Fault>
        requires processor { HasProcessor said }
        ensures fault { IfErr result IsRunFault }
        ensures follows { OnOk result ((account : Account) → Follows self.old account → stage_after account.stage said ≡ Some stage →
            Follows self.new (with_line account line.now said)) }
        ensures most { self.new.noted.most ≡ self.old.noted.most }
    {
        if self.kept.is_full() {
            self.forget(alloc)?;
        }
        self.keep(alloc, line, &said, stage)?;
        self.follow(alloc, &said)
    }

    /// Forgets the lines that nothing names.
    fn forget(&mut self, alloc: Global) -> Result<(), Fault>
        ensures fault { IfErr result IsRunFault }
        ensures follows { OnOk result ((account : Account) → Follows self.old account → Follows self.new account) }
        ensures most { self.new.noted.most ≡ self.old.noted.most }
    {
        let mut names = HashSet::new(alloc);
        self.machine.add_named_stores(&mut names)?;
        self.kept.keep_only(&names);
        Ok(())
    }

    /// Keeps a line, which says this, to this part of the text.
    fn keep(
        &mut self,
        alloc: Global,
        line: &[u8],
        said: &RunText,
        stage: Stage,
    ) -> Result<(), Fault>
        ensures fault { IfErr result IsRunFault }
        ensures follows { OnOk result ((account : Account) → Follows self.old account → stage_after account.stage said.now ≡ Some stage →
            Follows self.new (with_text account line.now said.now)) }
        ensures kept { OnOk result (IsTrue (has_kept self.new.kept self.new.number)) }
        ensures most { self.new.noted.most ≡ self.old.noted.most }
    {
        let number = self.number.checked_add(1).ok_or(Fault::Read)?;
        self.kept.keep(alloc, number, line)?;
        self.number = number;
        self.widths = widths_after(self.widths, said);
        self.stage = stage;
        Ok(())
    }

    /// Does what the last line says.
    fn follow(&mut self, alloc: Global, said: &RunText) -> Result<(), Fault>
        requires processor { HasProcessor said.now }
        requires kept { IsTrue (has_kept self.old.kept self.old.number) }
        ensures fault { IfErr result IsRunFault }
        ensures follows { OnOk result ((account : Account) → Follows self.old account → Follows self.new (with_said account said.now)) }
        ensures most { self.new.noted.most ≡ self.old.noted.most }
    {
        match said {
            RunText::Note | RunText::End => {},
            RunText::Pso => self.machine.set_model(Order::Pso),
            RunText::First { place, value } => self.machine.preset(*place, *value)?,
            RunText::Step { processor, step } => {
                let line = RunLine {
                    number: self.number,
                    processor: *processor as usize,
                    step: *step,
                };
                self.follow_step(alloc, line)?;
            },
        }
        Ok(())
    }

    /// Does a step.
    fn follow_step(&mut self, alloc: Global, line: RunLine) -> Result<(), Fault>
        requires processor { line.processor < 4096 }
        requires kept { IsTrue (has_kept self.old.kept line.number) }
        ensures fault { IfErr result IsRunFault }
        ensures follows { OnOk result ((account : Account) → Follows self.old account → Follows self.new (with_next_step account line)) }
        ensures most { self.new.noted.most ≡ self.old.noted.most }
    {
        let mut refusals = Vec::new(alloc);
        let comparison = self.machine.step(alloc, line, &mut refusals)?;
        self.tally.count(line, comparison)?;
        self.noted
            .note_all(alloc, &self.kept, line.number, &refusals)
    }

    /// Whether a store would wait, of a processor of which the most wait.
    fn is_full(&self, said: &RunText) -> bool
        ensures { result ≡ is_full (state_of_machine self.now.machine) said.now }
    {
        match said {
            RunText::Step { processor, step } => {
                is_waiting_store(step)
                    && self.machine.waiting_of(*processor as usize) >= MOST_WAITING
            },
            _ => false,
        }
    }
}

/// Whether a step is a store that waits.
fn is_waiting_store(step: &RunStep) -> bool
    ensures { result ≡ is_waiting_store step.now }
{
    matches!(step, RunStep::Store { .. })
}
