//! What is left of a log, and renamed, keeps the log's memory orders.

ghost use Rattle.std.specs.Prelude.{ℕ, ◌+◌, List, [], ◌∷◌, ◌++◌, map};
ghost use Rattle.std.specs.List.{flat_map};
ghost use Rattle.tso_ops.specs.declared.ops.Outcome.{Outcome};
ghost use Rattle.tso_ops.specs.Values.{TraceValue, op_of};
ghost use Rattle.tso_ops.specs.Limits.{IsTrace, total_events};
ghost use Rattle.tso_ops.specs.Events.{IsLoad, HasSource};
ghost use Rattle.tso_model.specs.Axioms.{IsConsistent};
ghost use Rattle.log_text.specs.declared.logs.LoggedOperation.{LoggedOperation};
ghost use Rattle.log_text.specs.LogValues.{NumberedLog, log_operations};
ghost use Rattle.log_selections.specs.Cuts.{IsKept, IsCutFrom, AreCutFrom, IsCut};
ghost use Rattle.log_selections.specs.Selections.{IsSelection};
ghost use Rattle.log_selections.specs.Unwritten.{IsUnwrittenOperation};

/// Where the log has an order of its memory model, a selection of it has one too.
pub fn selections_keep_orders()
    ensures { (log t : TraceValue) → IsSelection log t → IsConsistent log → IsConsistent t }
{}

/// A selection that has no order of its memory model is of a log that has none.
pub fn violations_of_selections_are_violations()
    ensures { (log t : TraceValue) → IsSelection log t → (IsConsistent t → ⊥) → IsConsistent log → ⊥ }
{}

/// A trace that is cut out of a log is a selection of it.
pub fn cuts_are_selections()
    ensures { (log t : TraceValue) → IsCut log t → IsSelection log t }
{}

/// A trace that is cut out of a log and has no order of its memory model is of a log that has none.
pub fn violations_of_cuts_are_violations()
    ensures { (log t : TraceValue) → IsCut log t → (IsConsistent t → ⊥) → IsConsistent log → ⊥ }
{}

/// What is cut out of a log grows at its end: by what is kept of the next operation of a processor, also nothing, by the next
/// processor, also one that is left out, and by more addresses.
pub fn cuts_grow()
    ensures operation { (addresses : List ℕ) (n : ℕ) (xs ys : List Outcome) (origins : List ℕ) (x : Outcome) (kept : List Outcome) (here : List ℕ) →
        IsCutFrom addresses n xs ys origins → IsKept addresses (n + total_events (map op_of xs)) x kept here →
        IsCutFrom addresses n (xs ++ x ∷ []) (ys ++ kept) (origins ++ here) }
    ensures left_out_operation { (addresses : List ℕ) (n : ℕ) (xs ys : List Outcome) (origins : List ℕ) (x : Outcome) →
        IsCutFrom addresses n xs ys origins → IsCutFrom addresses n (xs ++ x ∷ []) ys origins }
    ensures processor { (addresses : List ℕ) (n : ℕ) (logs lists : List (List Outcome)) (origins : List ℕ) (xs ys : List Outcome) (here : List ℕ) →
        AreCutFrom addresses n logs lists origins → IsCutFrom addresses (n + total_events (flat_map (map op_of) logs)) xs ys here →
        AreCutFrom addresses n (logs ++ xs ∷ []) (lists ++ ys ∷ []) (origins ++ here) }
    ensures left_out_processor { (addresses : List ℕ) (n : ℕ) (logs lists : List (List Outcome)) (origins : List ℕ) (xs : List Outcome) →
        AreCutFrom addresses n logs lists origins → AreCutFrom addresses n (logs ++ xs ∷ []) lists origins }
    ensures more_addresses { (addresses more : List ℕ) (n : ℕ) (xs ys : List Outcome) (origins : List ℕ) →
        IsCutFrom addresses n xs ys origins → IsCutFrom (addresses ++ more) n xs ys origins }
    ensures more_addresses_of_lists { (addresses more : List ℕ) (n : ℕ) (logs lists : List (List Outcome)) (origins : List ℕ) →
        AreCutFrom addresses n logs lists origins → AreCutFrom (addresses ++ more) n logs lists origins }
{}

/// A trace is a selection of itself, and cut out of itself, whatever sources its loads have.
pub fn traces_are_selections()
    ensures selection { (t : TraceValue) (source : ℕ → ℕ) → IsTrace t → ((l : ℕ) → IsLoad t l → HasSource t l (source l)) → IsSelection t t }
    ensures cut { (t : TraceValue) (source : ℕ → ℕ) → IsTrace t → ((l : ℕ) → IsLoad t l → HasSource t l (source l)) → IsCut t t }
{}

/// A log in which an operation read what none stores to its address, and what isn't its first value, has no order of its memory
/// model.
pub fn unwritten_loads_are_violations()
    ensures { (log : NumberedLog) (x : LoggedOperation) → IsUnwrittenOperation log x → IsConsistent (log_operations log) → ⊥ }
{}
