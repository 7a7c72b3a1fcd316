//! What a run that holds says of its log, proved of all values.

ghost use Rattle.std.specs.Prelude.{ℕ, List};
ghost use Rattle.std.specs.List.{flat_map};
ghost use Rattle.tso_model.specs.Axioms.{IsConsistent};
ghost use Rattle.run_steps.specs.Machine.{MachineState};
ghost use Rattle.run_steps.specs.declared.steps.RunLine.{RunLine};
ghost use Rattle.log_text.specs.declared.lines.LogLine.{LogLine};
ghost use Rattle.log_text.specs.declared.lines.SaidLine.{SaidLine};
ghost use Rattle.log_text.specs.LogTexts.{log_of_lines};
ghost use Rattle.log_text.specs.LogValues.{log_operations};
ghost use Rattle.log_text.specs.Splits.{split_line, split_lines};
ghost use Rattle.run_lines.specs.declared.arguments.Widths.{Widths};
ghost use Rattle.run_lines.specs.declared.arguments.Widths.TheVariants.{Bytes};
ghost use Rattle.run_orders.specs.RunLogs.{IsHeldRun};
ghost use Rattle.run_orders.specs.SplitLogs.{AreCutAt, IsHeldSplitRun};

/// The log of the lines of a run that holds has an order.
pub fn runs_have_orders()
    ensures { (log_lines : List LogLine) (s : MachineState) (lines : List RunLine) → IsHeldRun log_lines s lines →
        IsConsistent (log_operations (log_of_lines log_lines)) }
{}

/// The log of the pieces of a run that holds has an order: bytes are cut at boundaries, at least at the ends of all places.
pub fn split_runs_have_orders()
    // Whatever the boundaries are.
    ensures any { (boundaries : List ℕ) (said_lines : List SaidLine) (s : MachineState) (lines : List RunLine) → IsHeldSplitRun Bytes said_lines s lines →
        AreCutAt boundaries said_lines → IsConsistent (log_operations (log_of_lines (flat_map (split_line boundaries) said_lines))) }
    // Cut at the ends of places alone; and so of locations, each of which is one piece.
    ensures own { (widths : Widths) (said_lines : List SaidLine) (s : MachineState) (lines : List RunLine) → IsHeldSplitRun widths said_lines s lines →
        IsConsistent (log_operations (log_of_lines (split_lines widths said_lines))) }
{}
