//! From which lines the operations of a log come, where some lines are cut into pieces.
ghost use Rattle.std.specs.Prelude.{◌≡◌, ◌+◌, ◌++◌, ◌∷◌, [], List, IfOk, OnOk, cond, length, replicate};
ghost use Rattle.std.specs.HashSet.{keys};
ghost use Rattle.log_text.specs.Internal.Cuts.{CutsText, IsWithin};
ghost use Rattle.log_text.specs.Origins.{AreOriginsOf, is_cut, line_of_number, said_of_number};
ghost use Rattle.log_text.specs.Splits.{address_in, pieces};

use crate::cutting::Cutting;
use crate::lines::{SaidLine, line_said};
use line_text::next_line;
use run_lines::Widths;
use std::alloc::Global;
use tso_ops::OutOfMemory;

/// From which lines of a text the operations of its log come: no memory where each line is one piece, as where its places are
/// locations.
#[derive(Drop)]
pub struct Origins {
    /// What each line says, where the places of the text are bytes.
    said: Vec<SaidLine>,
    /// Of each piece of each line, in their order, the number of the line, from 1.
    lines: Vec<usize>,
    /// How many lines are cut into several pieces.
    cut: usize,
}

/// From which lines of a text the operations of its log come. OutOfMemory where an allocation was refused.
pub(crate) fn read_origins(alloc: Global, text: &[u8]) -> Result<Origins, OutOfMemory>
    ensures { IfOk result (AreOriginsOf text.now) }
{
    let cutting = Cutting::new(alloc, text)?;
    match cutting.places {
        Widths::Bytes => read_cut_origins(alloc, &cutting, text),
        Widths::Unseen | Widths::Locations => Ok(Origins::new(alloc)),
    }
}

/// The same of a text whose places are bytes, and which is cut in this way.
fn read_cut_origins(alloc: Global, cutting: &Cutting, text: &[u8]) -> Result<Origins, OutOfMemory>
    requires { CutsText cutting.now text.now × (cutting.now.places ≡ Widths.Bytes) }
    ensures { IfOk result (AreOriginsOf text.now) }
{
    let mut origins = Origins::new(alloc);
    let mut rest = text;
    'lines: loop {
        let Some((line, after)) = next_line(rest) else {
            return Ok(origins);
        };
        match line_said(cutting.places, line) {
            Ok(said) => origins.add(alloc, cutting, said)?,
            Err(_) => return Ok(origins),
        }
        rest = after;
    }
}

impl Origins {
    /// Those of no line.
    fn new(alloc: Global) -> Origins
        ensures said { result.said.items ≡ [] }
        ensures lines { result.lines.items ≡ [] }
        ensures cut { result.cut ≡ 0 }
    {
        Origins {
            said: Vec::new(alloc),
            lines: Vec::new(alloc),
            cut: 0,
        }
    }

    /// The number of the line from which the operation of this number comes: the number itself where each line is one piece.
    pub fn line(&self, number: usize) -> usize
        ensures { result ≡ line_of_number self.now number }
    {
        if self.lines.is_empty() {
            return number;
        }
        self.lines
            .get(number.saturating_sub(1))
            .copied()
            .unwrap_or(0)
    }

    /// What the line says from which the operation of this number comes; nothing where each line is one piece.
    pub fn said(&self, number: usize) -> Option<SaidLine>
        ensures { result ≡ said_of_number self.now number }
    {
        self.said.get(self.line(number).saturating_sub(1)).copied()
    }

    /// How many lines are cut into several pieces.
    pub fn cut_lines(&self) -> usize
        ensures { result ≡ self.now.cut }
    {
        self.cut
    }

    /// Adds a line's pieces. OutOfMemory where an allocation was refused.
    fn add(&mut self, alloc: Global, cutting: &Cutting, said: SaidLine) -> Result<(), OutOfMemory>
        requires { IsWithin said }
        ensures said { OnOk result (self.new.said.items ≡ self.old.said.items ++ said ∷ []) }
        ensures lines { OnOk result (self.new.lines.items ≡ self.old.lines.items ++
            replicate (length (pieces (keys cutting.now.boundaries) (address_in said.line) said.width)) (length self.new.said.items)) }
        ensures cut { OnOk result (self.new.cut ≡ self.old.cut + cond (is_cut (keys cutting.now.boundaries) said) 1 0) }
    {
        let pieces = cutting.pieces(alloc, said)?;
        self.said.push(said)?;
        let line = self.said.len();
        self.add_lines(line, pieces.len())?;
        if pieces.len() > 1 {
            self.cut = self.cut.checked_add(1).ok_or(OutOfMemory)?;
        }
        Ok(())
    }

    /// Adds so many pieces of the line of this number. OutOfMemory where an allocation was refused.
    fn add_lines(&mut self, line: usize, count: usize) -> Result<(), OutOfMemory>
        ensures said { OnOk result (self.new.said ≡ self.old.said) }
        ensures lines { OnOk result (self.new.lines.items ≡ self.old.lines.items ++ replicate count line) }
        ensures cut { OnOk result (self.new.cut ≡ self.old.cut) }
    {
        for _k in 0..count {
            self.lines.push(line)?;
        }
        Ok(())
    }
}
