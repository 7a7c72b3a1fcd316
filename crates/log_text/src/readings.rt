//! A log while its text is read: it holds what the lines so far say.
ghost use Rattle.std.specs.Prelude.{◌≡◌, ◌&&◌, ◌++◌, ◌∷◌, [], ◌+◌, ◌<◌, ℕ, List, length, get_or, set, OnOk, IfOk, IfErr, vec_len, map, max, not, suc, true};
ghost use Rattle.std.specs.HashSet.{keys};
ghost use Rattle.tso_ops.specs.Values.{rows};
ghost use Rattle.log_text.specs.Internal.Cuts.{IsWithin};
ghost use Rattle.log_text.specs.Internal.Readings.{Adds, HoldsLines, HoldsSaid, HoldsStages, IsTextAccepted, IsTextRefused};
ghost use Rattle.log_text.specs.LogTexts.{log_of_lines, may_follow};
ghost use Rattle.log_text.specs.LogValues.{log_value};
ghost use Rattle.log_text.specs.Splits.{line_on_piece};

use crate::cutting::{Cutting, line_on_piece};
use crate::known::leave_out;
use crate::lines::{LogLine, SaidLine, line_said};
use crate::logs::{Log, LogOperation, LoggedOperation};
use std::alloc::{AllocFailed, Global};
use std::collections::BTreeMap;
use tso_ops::{Order, OutOfMemory};
use tso_text::Why;

/// What the lines so far say.
#[derive(Drop)]
pub(crate) struct Reading {
    /// The memory model.
    pub(crate) order: Order,
    /// What memory has at first, by address.
    pub(crate) first: BTreeMap<u64, u64>,
    /// All operations of each processor, also those at addresses of lines `un`.
    pub(crate) lists: Vec<Vec<LoggedOperation>>,
    /// The addresses of lines `un`.
    pub(crate) unknown: Vec<u64>,
    /// Whether a line came that says something.
    pub(crate) is_begun: bool,
    /// Whether a step of a processor came.
    pub(crate) has_steps: bool,
    /// Whether a line `end` came.
    pub(crate) is_ended: bool,
}

impl Reading {
    /// What no line says.
    pub(crate) fn new(alloc: Global) -> Reading
        ensures start { HoldsLines result [] }
    {
        Reading {
            order: Order::Tso,
            first: BTreeMap::new(alloc),
            lists: Vec::new(alloc),
            unknown: Vec::new(alloc),
            is_begun: false,
            has_steps: false,
            is_ended: false,
        }
    }

    /// Accepts the next line, whose first operation has this number, or refuses it for its fault; or OutOfMemory. Gives the number of
    /// what follows.
    pub(crate) fn accept_line(
        &mut self,
        alloc: Global,
        cutting: &Cutting,
        number: usize,
        line: &[u8],
    ) -> Result<usize, Why>
        ensures accepted { IfOk result (IsTextAccepted cutting.now self.old number line.now self.new) }
        ensures refused { IfErr result (IsTextRefused cutting.now self.old line.now) }
    {
        if self.is_ended {
            return Err(Why::BadLine);
        }
        let said = match line_said(cutting.places, line) {
            Ok(said) => said,
            Err(why) => return Err(why),
        };
        if !self.may_follow(said.line) {
            return Err(Why::BadLine);
        }
        match self.take_said(alloc, cutting, number, said) {
            Ok(next) => Ok(next),
            Err(_) => Err(Why::OutOfMemory),
        }
    }

    /// Takes what a line says, piece by piece from this number on, and gives the number of what follows. OutOfMemory where an
    /// allocation was refused.
    fn take_said(
        &mut self,
        alloc: Global,
        cutting: &Cutting,
        number: usize,
        said: SaidLine,
    ) -> Result<usize, OutOfMemory>
        requires { IsWithin said }
        ensures { IfOk result (λ next. (before : List SaidLine) → HoldsSaid self.old (keys cutting.now.boundaries) before number →
            HoldsSaid self.new (keys cutting.now.boundaries) (before ++ said ∷ []) next) }
    {
        if said.width == 0 {
            self.take(alloc, number, said.line)?;
            return next_number(number);
        }
        let pieces = cutting.pieces(alloc, said)?;
        self.take_pieces(alloc, number, said.line, &pieces)
    }

    /// Takes what a line says of these pieces of its place, from this number on, and gives the number of what follows. OutOfMemory
    /// where an allocation was refused.
    fn take_pieces(
        &mut self,
        alloc: Global,
        number: usize,
        line: LogLine,
        pieces: &[(u64, u64)],
    ) -> Result<usize, OutOfMemory>
        ensures { IfOk result (λ next. (before : List LogLine) → HoldsLines self.old before → number ≡ suc (length before) →
            HoldsLines self.new (before ++ map (line_on_piece line) pieces.now) × (next ≡ number + length pieces.now)) }
    {
        let mut next = number;
        for piece in pieces {
            self.take(alloc, next, line_on_piece(line, *piece))?;
            next = next_number(next)?;
        }
        Ok(next)
    }

    /// Whether what a line says may follow the lines so far, where no line `end` came.
    fn may_follow(&self, line: LogLine) -> bool
        ensures { (before : List LogLine) → HoldsStages self.now before → result ≡ may_follow before line }
    {
        match line {
            LogLine::Pso => !self.is_begun,
            LogLine::First { .. } => !self.has_steps,
            _ => true,
        }
    }

    /// Takes what the line of this number says. OutOfMemory where an allocation was refused.
    fn take(&mut self, alloc: Global, number: usize, line: LogLine) -> Result<(), OutOfMemory>
        ensures { OnOk result (Adds self.old number line self.new) }
    {
        match line {
            LogLine::Note => Ok(()),
            LogLine::Pso => {
                self.take_model();
                Ok(())
            }
            LogLine::First { a, v } => self.take_first(a, v),
            LogLine::Issued { p, x } => self.take_operation(alloc, number, p, x),
            LogLine::Unknown { p, a } => self.take_unknown(alloc, p, a),
            LogLine::Memory => {
                self.take_step();
                Ok(())
            }
            LogLine::End => {
                self.take_end();
                Ok(())
            }
        }
    }

    /// Takes that the memory model is PSO.
    fn take_model(&mut self)
        ensures { (number : ℕ) → Adds self.old number LogLine.Pso self.new }
    {
        self.order = Order::Pso;
        self.is_begun = true;
    }

    /// Takes a first value of an address.
    fn take_first(&mut self, a: u64, v: u64) -> Result<(), OutOfMemory>
        ensures { OnOk result ((number : ℕ) → Adds self.old number (LogLine.First a v) self.new) }
    {
        self.is_begun = true;
        self.first.insert(a, v)?;
        Ok(())
    }

    /// Takes an operation of a processor.
    fn take_operation(
        &mut self,
        alloc: Global,
        number: usize,
        p: u64,
        x: LogOperation,
    ) -> Result<(), OutOfMemory>
        ensures { OnOk result (Adds self.old number (LogLine.Issued p x) self.new) }
    {
        self.take_step();
        grow(alloc, &mut self.lists, p as usize)?;
        let logged = LoggedOperation {
            line: number,
            operation: x,
        };
        push_at(&mut self.lists, p as usize, logged)?;
        Ok(())
    }

    /// Takes that a processor did something unknown to the location at an address.
    fn take_unknown(&mut self, alloc: Global, p: u64, a: u64) -> Result<(), OutOfMemory>
        ensures { OnOk result ((number : ℕ) → Adds self.old number (LogLine.Unknown p a) self.new) }
    {
        self.take_step();
        grow(alloc, &mut self.lists, p as usize)?;
        self.unknown.push(a)?;
        Ok(())
    }

    /// Takes that a step of a processor came.
    fn take_step(&mut self)
        ensures { self.new ≡ record self.old { is_begun = true; has_steps = true } }
    {
        self.is_begun = true;
        self.has_steps = true;
    }

    /// Takes that nothing follows.
    fn take_end(&mut self)
        ensures { (number : ℕ) → Adds self.old number LogLine.End self.new }
    {
        self.is_begun = true;
        self.is_ended = true;
    }

    /// Whether the line `end` is needed and didn't come.
    pub(crate) fn lacks_end(&self, needs_end: bool) -> bool
        ensures { result ≡ (needs_end && not self.now.is_ended) }
    {
        needs_end && !self.is_ended
    }

    /// The log that the lines say: without the operations at addresses of lines `un`. Or OutOfMemory.
    pub(crate) fn log(self, alloc: Global) -> Result<Log, OutOfMemory>
        ensures { IfOk result (λ log. (lines : List LogLine) → HoldsLines self lines → log_value log ≡ log_of_lines lines) }
    {
        let Reading {
            order,
            first,
            lists,
            unknown,
            ..
        } = self;
        let log = Log {
            order,
            first: entries_of(alloc, first)?,
            lists,
            left_out: 0,
        };
        leave_out(alloc, log, &unknown)
    }
}

/// The number after this one; OutOfMemory above 64 bits: no memory holds so many operations.
fn next_number(number: usize) -> Result<usize, OutOfMemory>
    ensures { IfOk result (λ next. next ≡ number + 1) }
{
    number.checked_add(1).ok_or(OutOfMemory)
}

/// The entries of a map, in ascending order of their keys.
fn entries_of(alloc: Global, map: BTreeMap<u64, u64>) -> Result<Vec<(u64, u64)>, OutOfMemory>
    ensures { IfOk result (λ entries. entries.items ≡ map.entries) }
{
    let mut entries = Vec::new(alloc);
    for (a, v) in map {
        entries.push((a, v))?;
    }
    Ok(entries)
}

/// Appends lists without operations until there is one of processor `p`.
fn grow(
    alloc: Global,
    lists: &mut Vec<Vec<LoggedOperation>>,
    p: usize,
) -> Result<(), AllocFailed<Vec<LoggedOperation>>>
    ensures count { OnOk result (length (rows lists.new.items) ≡ max (p + 1) (length (rows lists.old.items))) }
    ensures same { OnOk result ((q : ℕ) → get_or (rows lists.new.items) q [] ≡ get_or (rows lists.old.items) q []) }
{
    while lists.len() <= p {
        lists.push(Vec::new(alloc))?;
    }
    Ok(())
}

/// Appends an operation to the list of this processor.
fn push_at(
    lists: &mut Vec<Vec<LoggedOperation>>,
    p: usize,
    x: LoggedOperation,
) -> Result<(), AllocFailed<LoggedOperation>>
    requires { p < vec_len lists.old }
    ensures { OnOk result (rows lists.new.items ≡ set (rows lists.old.items) p (get_or (rows lists.old.items) p [] ++ x ∷ [])) }
{
    lists[p].push(x)
}
