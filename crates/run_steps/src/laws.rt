//! What the machine says of lines, proved of all lines and states.
ghost use Rattle.std.specs.Prelude.{◌≡◌, ◌↔◌, [], ◌∷◌, List, ℕ, Bool, map, IsTrue};
ghost use Rattle.std.specs.List.{AllByRecursion};
ghost use Rattle.tso_ops.specs.declared.settings.Order.{Order};
ghost use Rattle.run_steps.specs.declared.cells.Written.TheVariants.{First};
ghost use Rattle.run_steps.specs.declared.places.Place.{Place};
ghost use Rattle.run_steps.specs.declared.steps.RunLine.{RunLine};
ghost use Rattle.run_steps.specs.declared.steps.RunStep.{RunStep};
ghost use Rattle.run_steps.specs.Machine.{MachineState, after_step, beginning_state, line_refusals, next_state, state_after_line, step_refusals};
ghost use Rattle.run_steps.specs.Names.{RefusalNames, StateNames};
ghost use Rattle.run_steps.specs.Places.{cell_parts};
ghost use Rattle.run_steps.specs.Reads.{RefusalValue, filled, written_in};
ghost use Rattle.run_steps.specs.Runs.{HoldsFrom, IsFirstRefused, refusals_from};
ghost use Rattle.run_steps.specs.Steps.{MayStep};

/// A line is refused exactly where the machine may not take its step, and a step that it may take leads where the machine goes.
pub fn steps_are_never_refused()
    ensures exactly { (model : Order) (line p : ℕ) (step : RunStep) (s : MachineState) → (step_refusals model line p step s ≡ []) ↔ MayStep model p step s }
    ensures leads { (model : Order) (line p : ℕ) (step : RunStep) (s : MachineState) → MayStep model p step s →
        after_step line p step s ≡ next_state line p step s }
{}

/// A run has no refusals exactly where its lines are steps, one after the other; else its first refusal is of the first line that is none.
pub fn runs_hold_exactly_without_refusals()
    ensures exactly { (model : Order) (s : MachineState) (lines : List RunLine) → (refusals_from model s lines ≡ []) ↔ HoldsFrom model s lines }
    ensures first { (model : Order) (s : MachineState) (lines : List RunLine) (number : ℕ) (refusal : RefusalValue) (others : List (ℕ × RefusalValue)) →
        refusals_from model s lines ≡ (number, refusal) ∷ others → (line : RunLine) × (line.number ≡ number) × IsFirstRefused model s lines line }
{}

/// If the lines of the stores that a state names are among some lines, so are those that the next line's refusals name; with the next line
/// among them, so are those that the state after it names. What is kept of other stores can be forgotten.
pub fn stores_named_came_before()
    ensures begins { (among : ℕ → Bool) → StateNames among beginning_state }
    ensures preset { (among : ℕ → Bool) (place : Place) (value : ℕ) (s : MachineState) → StateNames among s →
        StateNames among (record s { memory = filled s.memory place.address (map (written_in First) (cell_parts place value)) }) }
    ensures after { (among : ℕ → Bool) (line : RunLine) (s : MachineState) → IsTrue (among line.number) → StateNames among s →
        StateNames among (state_after_line line s) }
    ensures refused { (among : ℕ → Bool) (model : Order) (line : RunLine) (s : MachineState) → StateNames among s →
        AllByRecursion (RefusalNames among) (line_refusals model line s) }
    ensures weaker { (among others : ℕ → Bool) (s : MachineState) → ((n : ℕ) → IsTrue (among n) → IsTrue (others n)) → StateNames among s →
        StateNames others s }
    ensures weaker_refusal { (among others : ℕ → Bool) (refusal : RefusalValue) → ((n : ℕ) → IsTrue (among n) → IsTrue (others n)) →
        RefusalNames among refusal → RefusalNames others refusal }
{}
