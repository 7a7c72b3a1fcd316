//! What the definitions of the store-buffer machine say of each other, proved of all values.

ghost use Rattle.std.specs.Prelude.{◌≡◌, ◌≤◌, ◌+◌, ℕ, List, [], Some, length, slice_get};
ghost use Rattle.tso_ops.specs.declared.ops.Op.{Op};
ghost use Rattle.tso_ops.specs.declared.settings.Order.{Order};
ghost use Rattle.unit_core.specs.Machine.{State, IsRunFrom};
ghost use Rattle.unit_core.specs.Schedule.{AreLastDrains};
ghost use Rattle.unit_core.specs.Units.{AreDrains};
ghost use Rattle.tso_ops.specs.declared.settings.Order.TheVariants.{Tso, Pso};
ghost use Rattle.tso_ops.specs.Settings.{SettingValue};
ghost use Rattle.unit_core.specs.declared.steps.Step.{Step};
ghost use Rattle.unit_core.specs.Machine.{Entry, IsCompleteRun, IsRun, after, buffer_of, first_state, is_drain, is_store};
ghost use Rattle.std.specs.List.{count_by};

/// A run of the TSO machine is one of the PSO machine.
pub fn tso_runs()
    ensures { (memory : List ℕ) (steps : List Step) → IsRun Tso memory steps → IsRun Pso memory steps }
{}

/// The numbers of STBARs don't fall along a buffer: no entry that waits comes after more STBARs than a later one.
pub fn stbars_along_buffers()
    ensures { (memory : List ℕ) (steps : List Step) (p j k : ℕ) (e f : Entry) → j ≤ k →
        slice_get (buffer_of (after (first_state memory) steps) p) j ≡ Some e → slice_get (buffer_of (after (first_state memory) steps) p) k ≡ Some f →
        e.stbars ≤ f.stbars }
{}

/// A complete run has as many drains as stores.
pub fn complete_runs()
    ensures { (setting : SettingValue) (count : ℕ) (steps : List Step) → IsCompleteRun setting count steps → count_by is_drain steps ≡ count_by is_store steps }
{}

/// Drains of processors in order after which all buffers are empty are as many of each as entries waited.
pub fn last_drains_by_processor()
    ensures { (order : Order) (p : ℕ) (lists : List (List Op)) (s : State) (steps : List Step) → length s.buffers ≡ 16 → AreDrains p (p + length lists) steps →
        IsRunFrom order s steps → ((q : ℕ) → buffer_of (after s steps) q ≡ []) → AreLastDrains p lists s steps }
{}
