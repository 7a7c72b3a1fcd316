//! Least numbers by chain.
ghost use Rattle.std.specs.Prelude.{◌≡◌, ◌<◌, ◌≤◌, ◌+◌, ◌^◌, ℕ, length, min, slice_index};
ghost use Rattle.chain_rules.specs.Internal.Lowering.{LowersAt};

/// Lowers the number of a chain to `n`, where that is less.
pub fn lower(least: &mut [u16], chain: usize, n: usize)
    requires chain { chain < length least.old }
    requires small { n < 2 ^ 16 }
    ensures { LowersAt least.old least.new chain n }
{
    if n < least[chain] as usize {
        least[chain] = n as u16;
    }
}

/// Lowers each number to that of the same place from `start` on in a table, where that is less.
pub fn lower_by_row(least: &mut [u16], table: &[u16], start: usize)
    requires row { start + length least.old ≤ length table.now }
    ensures sized { length least.new ≡ length least.old }
    ensures lowered { (d : ℕ) → d < length least.old → slice_index least.new d ≡ min (slice_index least.old d) (slice_index table.now (start + d)) }
{
    for d in 0..least.len() {
        least[d] = least[d].min(table[start + d]);
    }
}
