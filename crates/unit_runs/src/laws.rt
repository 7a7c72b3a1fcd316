//! What the two store-buffer machines say of each other, proved of all values.
ghost use Rattle.std.specs.Prelude.{◌≡◌, ◌↔◌, ◌++◌, ℕ, ◌<◌, List, length};
ghost use Rattle.std.specs.List.{AllByRecursion};
ghost use Rattle.tso_ops.specs.declared.settings.Order.{Order};
ghost use Rattle.unit_core.specs.declared.steps.Step.{Step};
ghost use Rattle.unit_core.specs.Machine.{IsRun, after, first_state};
ghost use Rattle.run_steps.specs.declared.places.Place.{Place};
ghost use Rattle.run_steps.specs.Machine.{MachineState, beginning_state};
ghost use Rattle.run_steps.specs.Runs.{HoldsFrom, state_after};
ghost use Rattle.unit_runs.specs.Lines.{AreLocations, IsStartOf, IsWithin, lines_of_steps, preset_from};
ghost use Rattle.unit_runs.specs.States.{IsSameState};

/// The steps are a run of a memory unit's machine exactly where each is within the unit's limits and their lines are steps of the machine of runs,
/// one after the other. After each step of a run the states are the same. There are such places, and a run may begin so.
pub fn unit_runs_are_runs()
    ensures exactly { (order : Order) (places : ℕ → Place) (memory : List ℕ) (start : MachineState) (number : ℕ) (steps : List Step) →
        AreLocations places → length memory ≡ 256 → IsStartOf memory start → 0 < number →
        IsRun order memory steps ↔ (AllByRecursion (IsWithin order) steps × HoldsFrom order start (lines_of_steps places number steps)) }
    ensures states { (order : Order) (places : ℕ → Place) (memory : List ℕ) (start : MachineState) (number : ℕ) (steps later : List Step) →
        AreLocations places → length memory ≡ 256 → IsStartOf memory start → 0 < number → IsRun order memory (steps ++ later) →
        IsSameState (after (first_state memory) steps) (state_after start (lines_of_steps places number steps)) }
    ensures begins { (places : ℕ → Place) (memory : List ℕ) → AreLocations places → length memory ≡ 256 →
        IsStartOf memory (preset_from places 0 memory beginning_state) }
    ensures located { (places : ℕ → Place) × AreLocations places }
{}
