ghost use Rattle.std.specs.Prelude.{Decides};
ghost use Rattle.issue_desk.specs.Finishing.{ArePassesOf};

use issue_desk::Pass;
use tso_ops::Program;

/// Whether there is one pass for each processor of the program, in order, as `Desk::finish` asks.
pub fn are_passes_of(program: &Program, passes: &[Pass]) -> bool
    ensures { Decides result (ArePassesOf program.now passes.now) }
{
    if passes.len() != program.processors() {
        return false;
    }
    for p in 0..passes.len() {
        if passes[p].processor() != p {
            return false;
        }
    }
    true
}
