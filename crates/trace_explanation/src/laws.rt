//! The laws of the sentences: what each says is true.
ghost use Rattle.std.specs.Prelude.{◌≡◌, ◌≢◌, ◌-◌, ◌<◌, ◌≤◌, ℕ, List, Some, get_or, slice_get, true};
ghost use Rattle.std.specs.List.{flat_map};
ghost use Rattle.order_paths.specs.Neighbours.{AreNeighbours};
ghost use Rattle.tso_ops.specs.Values.{TraceValue};
ghost use Rattle.tso_ops.specs.Events.{IsEvent};
ghost use Rattle.tso_ops.specs.Limits.{IsTrace};
ghost use Rattle.tso_cert.specs.declared.rules.BaseRule.{BaseRule};
ghost use Rattle.tso_cert.specs.declared.rules.InferredRule.{InferredRule};
ghost use Rattle.tso_cert.specs.declared.steps.Reason.TheVariants.{Inferred};
ghost use Rattle.tso_cert.specs.declared.steps.CertStep.{CertStep};
ghost use Rattle.tso_model.specs.Axioms.{IsBefore, IsMemoryOrder};
ghost use Rattle.tso_model.specs.RuleAxioms.{BaseAxiom, InferredAxiom};
ghost use Rattle.tso_model.specs.Rules.{BasePair, InferredBy, IsOwnBy};
ghost use Rattle.tso_model.specs.Certs.{StepsHold};
ghost use Rattle.tso_text.specs.Printed.{trace_text};
ghost use Rattle.tso_ops.specs.declared.operations.EventOperation.{EventOperation};
ghost use Rattle.trace_explanation.specs.Lines.{ended_line, text_lines};
ghost use Rattle.trace_explanation.specs.Names.{outcome_text};
ghost use Rattle.tso_ops.specs.Operations.{operation_at};
ghost use Rattle.trace_explanation.specs.Claims.{BaseSays, InferredSays, LoadPastToInitSays, OwnToInitSays};
ghost use Rattle.trace_explanation.specs.CycleShapes.{last_or_zero};
ghost use Rattle.trace_explanation.specs.Steps.{own_load, step_number};
ghost use Rattle.trace_explanation.specs.UnfoldedCycles.{is_of_kind, walk_by};
ghost use Rattle.trace_explanation.specs.declared.unfolded_cycles.EdgeKind.{EdgeKind};

/// What the sentence of a base rule says of an edge that the rule gives is true of every memory order that meets the rule's
/// axiom, whether it meets the others or not: so it is said of violations, too, which no order explains that meets all. Value
/// is asked of the edge's load alone. If an Own edge leads to `init`, no order meets that, and the law on its sentence is
/// `own_to_init_sentences_are_true`.
pub fn base_sentences_are_true()
    ensures { (t : TraceValue) (order : List ℕ) → IsTrace t → IsMemoryOrder t order → (rule : BaseRule) (u v l : ℕ) → BaseAxiom t order rule v l →
        BasePair t rule u v → (rule ≡ BaseRule.Own → IsOwnBy t l u v) → BaseSays t order rule u v l }
{}

/// What the sentence of an inferred rule says of an edge that the rule gives is true of every memory order that meets the
/// rule's axiom and puts the first number of its path before the last one. Value is asked of the edge's load alone. If a
/// LoadPast edge leads to `init`, there is no such order, and the law on its sentence is
/// `load_past_to_init_sentences_are_true`.
pub fn inferred_sentences_are_true()
    ensures { (t : TraceValue) (order : List ℕ) → IsTrace t → IsMemoryOrder t order → (rule : InferredRule) (l u v x y : ℕ) → InferredAxiom t order rule l →
        InferredBy t rule l u v x y → IsBefore order x y → InferredSays t order rule l u v x y }
{}

/// If an Own edge leads to `init`, what its sentence says but for its last words is true of every memory order: the load sees
/// the store, which is earlier on its own processor, yet the load read something else, the first value of its address. So no
/// memory order lets the load read what it read. The last words, that what it read comes after the store, are true of no order,
/// since `init` comes before all.
pub fn own_to_init_sentences_are_true()
    ensures { (t : TraceValue) (order : List ℕ) → IsTrace t → IsMemoryOrder t order → (l u : ℕ) → IsOwnBy t l u 0 → OwnToInitSays t order l u }
{}

/// If a LoadPast edge leads to `init`, what its sentence says but for the same last words is true of every memory order that
/// puts the first number of its path, the store, before the last one, the load: the load sees the store, yet the load read
/// something else, the first value of its address. So no memory order in which the events of the path stand in order lets the
/// load read what it read.
pub fn load_past_to_init_sentences_are_true()
    ensures { (t : TraceValue) (order : List ℕ) → IsTrace t → IsMemoryOrder t order → (l u x y : ℕ) → InferredBy t InferredRule.LoadPast l u 0 x y →
        IsBefore order x y → LoadPastToInitSays t order l u x y }
{}

/// Of any two events of a trace, some memory order puts the first before the second. So the laws on edges to `init` speak of
/// orders that exist, also the one on LoadPast, whose path leads from a store to a load.
pub fn memory_orders_put_either_event_first()
    ensures { (t : TraceValue) (u v : ℕ) → IsEvent t u → IsEvent t v → u ≢ v → (order : List ℕ) × IsMemoryOrder t order × IsBefore order u v }
{}

/// The load that an Own step's words name is the least one that gives the step's edge by the rule.
pub fn own_loads_give_edges()
    ensures { (t : TraceValue) → IsTrace t → (u v l : ℕ) → u ≢ v → own_load t u v ≡ Some l → IsOwnBy t l u v × ((other : ℕ) → IsOwnBy t other u v → l ≤ other) }
{}

/// Where the steps hold, a step rests only on steps of smaller numbers: each edge of its path has a number, which is below
/// its own.
pub fn steps_rest_on_smaller_numbers()
    ensures { (t : TraceValue) (steps : List CertStep) → StepsHold t steps → (k : ℕ) (s : CertStep) (rule : InferredRule) (load : ℕ) (path : List ℕ) →
        slice_get steps k ≡ Some s →
        s.reason ≡ Inferred rule load path → (x y : ℕ) → AreNeighbours path x y → (0 < step_number steps (x, y)) × (step_number steps (x, y) ≤ k) }
{}

/// A trace's text is its lines, each with its line feed, and the line of an event's operation is the number of the line
/// that says the operation.
pub fn operations_stand_on_their_lines()
    ensures lines { (t : TraceValue) → trace_text t ≡ flat_map ended_line (text_lines t) }
    ensures operation { (t : TraceValue) (n : ℕ) (o : EventOperation) → operation_at t n ≡ Some o → (0 < o.line) ×
        (slice_get (text_lines t) (o.line - 1) ≡ Some (outcome_text o.outcome)) }
{}

/// A diagnosis speaks of the two ends of a step: the walk that it goes by begins where the step leads, and ends where the step
/// comes from. For what it says of them see the laws on the sentences of that step's rule.
pub fn diagnoses_rest_on_steps()
    ensures { (steps : List CertStep) (kind : EdgeKind) (cycle walk : List ℕ) → walk_by steps kind cycle ≡ Some walk →
        (k : ℕ) × (s : CertStep) × (slice_get steps k ≡ Some s) × (s.from ≡ last_or_zero walk) × (s.to ≡ get_or walk 0 0) × (is_of_kind kind s.reason ≡ true) }
{}
