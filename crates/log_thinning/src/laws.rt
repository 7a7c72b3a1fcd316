//! The log has an order of its memory model exactly if what is left of it has one.

ghost use Rattle.std.specs.Prelude.{◌≡◌, ◌⊎◌, ℕ, [], get_or};
ghost use Rattle.std.specs.List.{Contains};
ghost use Rattle.tso_model.specs.Axioms.{IsConsistent};
ghost use Rattle.log_text.specs.declared.logs.LoggedOperation.{LoggedOperation};
ghost use Rattle.log_text.specs.LogValues.{NumberedLog, log_operations};
ghost use Rattle.log_thinning.specs.IdleSwaps.{read_of, with_idle_swaps_read};
ghost use Rattle.log_thinning.specs.Thinned.{thinned};

/// Where the log has an order of its memory model, it has one with its idle swaps read as loads.
pub fn idle_swaps_keep_orders()
    ensures { (log : NumberedLog) → IsConsistent (log_operations log) → IsConsistent (log_operations (with_idle_swaps_read log)) }
{}

/// Where it has one with its idle swaps read as loads, it has one.
pub fn idle_swaps_add_no_orders()
    ensures { (log : NumberedLog) → IsConsistent (log_operations (with_idle_swaps_read log)) → IsConsistent (log_operations log) }
{}

/// Where the log has an order of its memory model, it has one without loads that only repeat others.
pub fn thinning_keeps_orders()
    ensures { (log : NumberedLog) → IsConsistent (log_operations log) → IsConsistent (log_operations (thinned log)) }
{}

/// Where it has one without them, it has one.
pub fn thinning_adds_no_orders()
    ensures { (log : NumberedLog) → IsConsistent (log_operations (thinned log)) → IsConsistent (log_operations log) }
{}

/// Each operation of a processor of the thinned log is one of that processor in the log. Of the log with its idle swaps read, it
/// is so too, or is read of one.
pub fn operations_of_logs()
    ensures thinned { (log : NumberedLog) (p : ℕ) (x : LoggedOperation) → Contains (get_or (thinned log).lists p []) x → Contains (get_or log.lists p []) x }
    ensures read { (log : NumberedLog) (p : ℕ) (x : LoggedOperation) → Contains (get_or (with_idle_swaps_read log).lists p []) x →
        (y : LoggedOperation) × Contains (get_or log.lists p []) y × ((x ≡ y) ⊎ Contains (read_of y) x) }
{}
