//! Whether a row of bits may have a number that another row lacks.
ghost use Rattle.std.specs.Prelude.{ℕ, IsTrue};
ghost use Rattle.bitsets.specs.Rows.{HasNumber};

/// Whether a row may have a number that the other lacks. Where the answer is false, it has none; it may be true where the
/// row is the longer one.
///
/// It has no branch between one word and the next, so the compiler can take several words at a time.
pub(crate) fn may_lack(row: &[u64], other: &[u64]) -> bool
    ensures { (v : ℕ) → HasNumber row.now v → (HasNumber other.now v → ⊥) → IsTrue result }
{
    let mut lacking = 0;
    for j in 0..row.len().min(other.len()) {
        lacking |= row[j] & !other[j];
    }
    lacking != 0 || row.len() > other.len()
}
