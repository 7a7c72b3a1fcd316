ghost use Rattle.std.specs.Prelude.{◌≡◌};

use std::marker::Model;
use tso_cert::{CertStep, NumList};

/// A line of a refutation. Numbers are those of events, with 0 for `init`.
#[derive(Debug, Drop)]
pub enum RefutationLine {
    /// An edge that every order has to keep in which the pairs in force stand as they say, and why it holds.
    Step(CertStep),
    /// Suppose that `first` comes before `second`: the pair is in force up to the cycle that ends this part.
    Case { first: u64, second: u64 },
    /// Otherwise `first` comes before `second`, which are those of the case the other way round.
    Else { first: u64, second: u64 },
    /// A cycle of pairs in force, which ends a part.
    Cycle(NumList),
}

/// The lines of a refutation, in their order.
#[derive(Debug, Drop)]
pub struct LineList {
    lines: Vec<RefutationLine>,
}

impl Model for LineList {
    ghost use Rattle.std.specs.Prelude.{List};
    ghost use Rattle.tso_evidence.specs.declared.refutations.RefutationLine.{RefutationLine};

    ghost Value = { List RefutationLine };

    ghost view = { λ l. l.lines.items };
}

impl LineList {
    /// The list that the vector holds.
    pub fn new(lines: Vec<RefutationLine>) -> LineList
        ensures { result ≡ lines.items }
    {
        LineList { lines }
    }

    /// The lines, in their order.
    pub fn items(&self) -> &[RefutationLine]
        ensures { result.now ≡ self.now }
    {
        &self.lines
    }
}
