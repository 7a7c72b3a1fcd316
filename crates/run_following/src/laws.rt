//! What is told of the lines of a run, proved of all runs.
ghost use Rattle.std.specs.Prelude.{◌≡◌, ◌↔◌, [], ◌∷◌, List};
ghost use Rattle.run_steps.specs.declared.steps.RunLine.{RunLine};
ghost use Rattle.run_steps.specs.Runs.{HoldsFrom, IsFirstRefused};
ghost use Rattle.run_following.specs.Accounts.{Account};
ghost use Rattle.run_following.specs.Exactness.{IsRunFromStart};
ghost use Rattle.run_following.specs.Facts.{RefusalTold};
ghost use Rattle.run_following.specs.Runs.{IsOfLines};

/// A run, with places of any width, is told of just the lines that the machine refuses (`told`). So it holds exactly where each line is a step
/// of the machine after those before it (`holds`); else what is told of first is the first line that is none (`first`).
pub fn refused_lines_are_told()
    ensures told { (account : Account) → IsOfLines account → IsRunFromStart account }
    ensures holds { (account : Account) (run : IsRunFromStart account) → (account.refusals ≡ []) ↔ HoldsFrom account.model run.start account.steps }
    ensures first { (account : Account) (run : IsRunFromStart account) (t : RefusalTold) (others : List RefusalTold) → account.refusals ≡ t ∷ others →
        (line : RunLine) × (line.number ≡ t.line.0) × IsFirstRefused account.model run.start account.steps line }
{}
