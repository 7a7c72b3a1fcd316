//! What the rows say of rank sets.
ghost use Rattle.std.specs.Prelude.{◌↔◌, ℕ, suc, List, Contains};
ghost use Rattle.order_paths.specs.Paths.{Reaches};
ghost use Rattle.order_graph.specs.Digraphs.{Digraph, IsEdge};
ghost use Rattle.tso_ops.specs.Values.{TraceValue};
ghost use Rattle.tso_cert.specs.declared.steps.Reason.{Reason};
ghost use Rattle.tso_model.specs.Ranks.{RankSet, HasRank};
ghost use Rattle.tso_model.specs.NewEdges.{IsNew};
ghost use Rattle.tso_model.specs.Certs.{IsJustified};
ghost use Rattle.bitsets.specs.Rows.{IsListOf};
ghost use Rattle.tso_rules.specs.Affected.{IsAffected};
ghost use Rattle.tso_rules.specs.Rows.{IsJustifiedOver};

/// Over a graph that has the edges of a rank set, the rows of new edges are those that the next rank set has and this one
/// lacks, and a justification of an edge of the next rank is the one that its certificate cites.
pub fn rank_sets()
    ensures rows { (t : TraceValue) (k u : ℕ) (g : Digraph) (row : List ℕ) → ((x y : ℕ) → IsEdge g x y ↔ RankSet t k x y) →
        IsListOf row (IsNew t (IsEdge g) u) →
        IsListOf row (λ v. RankSet t (suc k) u v × (RankSet t k u v → ⊥)) }
    ensures base { (t : TraceValue) (u v : ℕ) (g : Digraph) (reason : Reason) → RankSet t 0 u v → IsJustifiedOver t (IsEdge g) u v reason →
        IsJustified t 0 u v reason }
    ensures next { (t : TraceValue) (k u v : ℕ) (g : Digraph) (reason : Reason) → ((x y : ℕ) → IsEdge g x y ↔ RankSet t k x y) → HasRank t u v (suc k) →
        IsJustifiedOver t (IsEdge g) u v reason → IsJustified t (suc k) u v reason }
{}

/// A row that rests on no number that reaches more than before has no edge to give over the new graph, where the new graph
/// has the edges that it gave over the old one.
pub fn unaffected_rows()
    ensures { (t : TraceValue) (grown : List ℕ) (old new : Digraph) (u : ℕ) → ((x y : ℕ) → IsEdge old x y → IsEdge new x y) →
        ((x y : ℕ) → (Contains grown x → ⊥) → Reaches (IsEdge new) x y → Reaches (IsEdge old) x y) →
        ((v : ℕ) → IsNew t (IsEdge old) u v → IsEdge new u v) → (IsAffected t grown u → ⊥) → (v : ℕ) → IsNew t (IsEdge new) u v → ⊥ }
{}
