//! Pairs of numbers below 64: for each number a word, in which the numbers that it has pairs with are bits.
ghost use Rattle.std.specs.Prelude.{◌≡◌, ◌⊎◌, ◌↔◌, ◌<◌, ℕ, false, IsTrue, length, slice_index};
ghost use Rattle.bitsets.specs.Rows.{HasBit};
ghost use Rattle.acyclic_traces.specs.Internal.Rows.{IsCoveredRow};
ghost use Rattle.acyclic_traces.specs.Internal.Pairs.{HasPair, HasAllPairs, AreTransposed, IsStrictOrder};

use std::marker::Model;

/// How many numbers a table has.
pub(crate) const NUMBERS: usize = 64;

/// Pairs, as a table and the same table turned around.
#[derive(Drop)]
pub(crate) struct Pairs {
    rows: [u64; NUMBERS],
    columns: [u64; NUMBERS],
}

impl Model for Pairs {
    ghost use Rattle.std.specs.Prelude.{ℕ, List};
    ghost use Rattle.acyclic_traces.specs.Internal.Pairs.{AreTransposed};

    ghost Value = { List ℕ };

    ghost view = { λ p. p.rows };

    ghost invariant = { λ p. AreTransposed p.rows p.columns };
}

impl Pairs {
    /// The pairs of a table.
    pub(crate) fn new(rows: [u64; NUMBERS]) -> Pairs
        ensures { result ≡ rows }
    {
        let mut columns = [0; NUMBERS];
        transpose(&rows, &mut columns);
        Pairs { rows, columns }
    }

    /// The table.
    pub(crate) fn rows(&self) -> &[u64]
        ensures value { result.now ≡ self.now }
        ensures sized { length result.now ≡ 64 }
    {
        &self.rows
    }

    /// The numbers that this one has a pair with.
    pub(crate) fn later(&self, u: usize) -> u64
        requires { u < 64 }
        ensures { result ≡ slice_index self.now u }
    {
        self.rows[u]
    }

    /// The numbers that have a pair with this one.
    pub(crate) fn earlier(&self, v: usize) -> u64
        requires { v < 64 }
        ensures { (u : ℕ) → HasBit result u ↔ HasPair self.now u v }
    {
        self.columns[v]
    }

    /// Gives each number of `to` a pair from each of `from`, and what follows from these pairs and those that are there. Whether there
    /// were numbers in both; else nothing is changed.
    fn join(&mut self, from: u64, to: u64) -> bool
        ensures same { result ≡ false → self.new ≡ self.old }
        ensures none { result ≡ false → (from ≡ 0) ⊎ (to ≡ 0) }
    {
        if from == 0 {
            return false;
        }
        if to == 0 {
            return false;
        }
        let before = from | joined_rows(&self.columns, from);
        let after = to | joined_rows(&self.rows, to);
        add_product(&mut self.rows, before, after);
        add_product(&mut self.columns, after, before);
        true
    }

    /// Adds the pairs of `to` with each of these numbers, and what follows from them. Whether there was a new one; else nothing is changed.
    pub(crate) fn add_before(&mut self, numbers: u64, to: usize) -> bool
        requires { to < 64 }
        ensures same { result ≡ false → self.new ≡ self.old }
        ensures has { result ≡ false → (u : ℕ) → HasBit numbers u → HasPair self.old u to }
    {
        let missing = numbers & !self.earlier(to);
        self.join(missing, 1 << to)
    }

    /// Adds the pairs of `from` with each of these numbers, and what follows from them. Whether there was a new one; else nothing is
    /// changed.
    pub(crate) fn add_after(&mut self, from: usize, numbers: u64) -> bool
        requires { from < 64 }
        ensures same { result ≡ false → self.new ≡ self.old }
        ensures has { result ≡ false → (v : ℕ) → HasBit numbers v → HasPair self.old from v }
    {
        let missing = numbers & !self.later(from);
        self.join(1 << from, missing)
    }
}

/// Whether the table has the pair.
#[inline]
pub(crate) fn has_pair(rows: &[u64], u: usize, v: usize) -> bool
    requires from { u < length rows.now }
    requires to { v < 64 }
    ensures { IsTrue result ↔ HasPair rows.now u v }
{
    (rows[u] >> v) & 1 == 1
}

/// Gives each number of `from` the pairs with those of `to`.
fn add_product(rows: &mut [u64], from: u64, to: u64)
    requires { length rows.old ≡ 64 }
    ensures sized { length rows.new ≡ 64 }
    ensures pairs { (x v : ℕ) → HasPair rows.new x v ↔ (HasPair rows.old x v ⊎ (HasBit from x × HasBit to v)) }
{
    let mut left = from;
    while left != 0 {
        let x = left.trailing_zeros() as usize;
        rows[x] |= to;
        left &= left - 1;
    }
}

/// Takes all pairs out of a table.
fn clear(rows: &mut [u64])
    requires { length rows.old ≡ 64 }
    ensures sized { length rows.new ≡ 64 }
    ensures empty { (u v : ℕ) → HasPair rows.new u v → ⊥ }
{
    for u in 0..NUMBERS {
        rows[u] = 0;
    }
}

/// Makes a table of the pairs of the other, turned around.
fn transpose(rows: &[u64], columns: &mut [u64])
    requires rows { length rows.now ≡ 64 }
    requires columns { length columns.old ≡ 64 }
    ensures columns { length columns.new ≡ 64 }
    ensures transposed { AreTransposed rows.now columns.new }
{
    clear(columns);
    for u in 0..NUMBERS {
        add_product(columns, rows[u], 1 << u);
    }
}

/// What these numbers have pairs with, where each has the pairs of the numbers that it has pairs with.
pub(crate) fn joined_rows(rows: &[u64], numbers: u64) -> u64
    requires { length rows.now ≡ 64 }
{
    let mut all = 0;
    let mut left = numbers;
    while left != 0 {
        let row = rows[left.trailing_zeros() as usize];
        all |= row;
        left &= left - 1;
        left &= !row;
    }
    all
}

/// Whether the table has all pairs of the other.
pub(crate) fn has_all(rows: &[u64], others: &[u64]) -> bool
    requires sized { length rows.now ≡ 64 }
    requires others { length others.now ≡ 64 }
    ensures { IsTrue result → HasAllPairs rows.now others.now }
{
    for u in 0..NUMBERS {
        if others[u] & !rows[u] != 0 {
            return false;
        }
    }
    true
}

/// Whether the pairs are a strict order: no number has one with itself, and each has those of the numbers that it has pairs with.
pub(crate) fn is_strict_order(rows: &[u64]) -> bool
    requires { length rows.now ≡ 64 }
    ensures { IsTrue result → IsStrictOrder rows.now }
{
    for u in 0..NUMBERS {
        if !is_strict_row(rows, u) {
            return false;
        }
    }
    true
}

/// The same of the pairs of `u`. What a number has pairs with isn't looked at again.
fn is_strict_row(rows: &[u64], u: usize) -> bool
    requires sized { length rows.now ≡ 64 }
    requires from { u < 64 }
    ensures { IsTrue result → IsCoveredRow rows.now u }
{
    if has_pair(rows, u, u) {
        return false;
    }
    let row = rows[u];
    let mut left = row;
    while left != 0 {
        let later = rows[left.trailing_zeros() as usize];
        if later & !row != 0 {
            return false;
        }
        left &= left - 1;
        left &= !later;
    }
    true
}
