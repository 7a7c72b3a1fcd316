//! Laws on paths and cycles, over the pairs of numbers of which a test answers true.

ghost use Rattle.std.specs.Prelude.{◌≡◌, ◌⊎◌, ◌↔◌, ℕ, Bool, IsTrue, List};
ghost use Rattle.order_paths.specs.Paths.{Linked, Reaches, HasCycle, IsLeastPath, IsLeastCycle, Passes, IsTestWithin, AreBelow};

/// An edge is a path.
pub fn edge_is_path()
    ensures { (edge : ℕ → ℕ → Bool) (u v : ℕ) → IsTrue (edge u v) → Reaches (Passes edge) u v }
{}

/// Two paths join where one ends and the other begins.
pub fn paths_join()
    ensures { (edge : ℕ → ℕ → Bool) (u w v : ℕ) → Reaches (Passes edge) u w → Reaches (Passes edge) w v → Reaches (Passes edge) u v }
{}

/// A path is one edge, or begins with an edge to where another path begins.
pub fn path_splits_at_first()
    ensures { (edge : ℕ → ℕ → Bool) (u v : ℕ) → Reaches (Passes edge) u v → IsTrue (edge u v) ⊎ ((w : ℕ) × IsTrue (edge u w) × Reaches (Passes edge) w v) }
{}

/// A path is one edge, or ends with an edge from where another path ends.
pub fn path_splits_at_last()
    ensures { (edge : ℕ → ℕ → Bool) (u v : ℕ) → Reaches (Passes edge) u v → IsTrue (edge u v) ⊎ ((w : ℕ) × Reaches (Passes edge) u w × IsTrue (edge w v)) }
{}

/// More edges have all the paths and link all the numbers that fewer do.
pub fn more_edges_have_more_paths()
    ensures paths { (edge other : ℕ → ℕ → Bool) → IsTestWithin edge other → (u v : ℕ) → Reaches (Passes edge) u v → Reaches (Passes other) u v }
    ensures linked { (edge other : ℕ → ℕ → Bool) → IsTestWithin edge other → (numbers : List ℕ) → Linked (Passes edge) numbers → Linked (Passes other) numbers }
{}

/// A set of pairs that has the edges, and each pair that two of its own make, has the ends of each path.
pub fn transitive_sets_have_paths()
    ensures { (edge set : ℕ → ℕ → Bool) → IsTestWithin edge set → ((x y z : ℕ) → IsTrue (set x y) → IsTrue (set y z) → IsTrue (set x z)) →
        (u v : ℕ) → Reaches (Passes edge) u v → IsTrue (set u v) }
{}

/// There is a cycle exactly if some number has a path to itself.
pub fn cycles_are_paths()
    ensures { (edge : ℕ → ℕ → Bool) → HasCycle (Passes edge) ↔ ((u : ℕ) × Reaches (Passes edge) u u) }
{}

/// Where the edges lie below a number, there is a path or there is none.
pub fn paths_are_decided()
    ensures { (edge : ℕ → ℕ → Bool) (n : ℕ) → AreBelow n edge → (u v : ℕ) → Reaches (Passes edge) u v ⊎ (Reaches (Passes edge) u v → ⊥) }
{}

/// Where the edges lie below a number, and there is a path, there is one least path.
pub fn least_path_is_one()
    ensures exists { (edge : ℕ → ℕ → Bool) (n : ℕ) → AreBelow n edge → (u v : ℕ) → Reaches (Passes edge) u v →
        (path : List ℕ) × IsLeastPath (Passes edge) u v path }
    ensures unique { (edge : ℕ → ℕ → Bool) (u v : ℕ) (path other : List ℕ) →
        IsLeastPath (Passes edge) u v path → IsLeastPath (Passes edge) u v other → path ≡ other }
{}

/// Where the edges lie below a number, and there is a cycle, there is one least cycle.
pub fn least_cycle_is_one()
    ensures exists { (edge : ℕ → ℕ → Bool) (n : ℕ) → AreBelow n edge → HasCycle (Passes edge) → (cycle : List ℕ) × IsLeastCycle (Passes edge) cycle }
    ensures unique { (edge : ℕ → ℕ → Bool) (cycle other : List ℕ) → IsLeastCycle (Passes edge) cycle → IsLeastCycle (Passes edge) other → cycle ≡ other }
{}
