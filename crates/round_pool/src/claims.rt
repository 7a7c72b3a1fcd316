//! Rows that workers claim, each at most once.
ghost use Rattle.std.specs.Prelude.{◌≡◌, ◌+◌, ◌-◌, ◌<◌, ◌≤◌, ◌++◌, [], ◌∷◌, true, false, length, get_or, sum_by, All, AllPairs, IfOk, IfSome, IfNone};
ghost use Rattle.round_pool.specs.ClaimCounts.{all_parts};
ghost use Rattle.round_pool.specs.Claims.{rows_to_claim, places_of, tried_by, claimant_parts, held, IsOf, IsFresh, NoneTwice, HasAll};

use atomic_table::Table;
use std::alloc::Global;
use table_rule::{Both, Look, Part, Try};
use tso_ops::OutOfMemory;
pub use types::{Claimant, Claims};

mod seat_view;
mod table_rule;
mod types;

impl Claims {
    /// The claims of these rows, which are ascending, perhaps none; and one claimant for each of `seats` workers, 1 to 64.
    ///
    /// OutOfMemory where an allocation was refused; the rows are dropped then.
    pub fn new(
        alloc: Global,
        rows: Vec<usize>,
        seats: usize,
    ) -> Result<(Claims, Vec<Claimant>), OutOfMemory>
        requires ascending { AllPairs (λ x y. x < y) rows.items }
        requires some { 1 ≤ seats }
        requires most { seats ≤ all_parts }
        ensures rows { IfOk result (λ made. rows_to_claim made.0 ≡ rows.items) }
        ensures seats { IfOk result (λ made. length made.1.items ≡ seats) }
        ensures fresh { IfOk result (λ made. All (IsFresh made.0) made.1.items) }
        ensures parts { IfOk result (λ made. sum_by claimant_parts made.1.items ≡ all_parts) }
    {
        let words = vec![in alloc; 0; rows.len() + 1]?;
        let (table, seat) = Table::of_words(alloc, words.as_slice(), &rows.len())?;
        let claims = Claims { table, rows };
        let claimants = claims.claimants(alloc, Claimant { seat, tried: 0 }, seats)?;
        Ok((claims, claimants))
    }

    /// Claimants for so many workers, made of one that has all parts.
    fn claimants(
        &self,
        alloc: Global,
        mut last: Claimant,
        seats: usize,
    ) -> Result<Vec<Claimant>, OutOfMemory>
        requires fresh { IsFresh self.now last }
        requires parts { claimant_parts last ≡ all_parts }
        requires some { 1 ≤ seats }
        requires most { seats ≤ all_parts }
        ensures seats { IfOk result (λ made. length made.items ≡ seats) }
        ensures fresh { IfOk result (λ made. All (IsFresh self.now) made.items) }
        ensures parts { IfOk result (λ made. sum_by claimant_parts made.items ≡ all_parts) }
    {
        let mut claimants = Vec::new(alloc);
        for _ in 1..seats {
            claimants.push(self.split(&mut last))?;
        }
        claimants.push(last)?;
        Ok(claimants)
    }

    /// Gives a part of the claimant's to a new one.
    fn split(&self, claimant: &mut Claimant) -> Claimant
        requires fresh { IsFresh self.now claimant.old }
        requires some { 1 < claimant_parts claimant.old }
        ensures kept { IsFresh self.now claimant.new }
        ensures parts { claimant_parts claimant.new + 1 ≡ claimant_parts claimant.old }
        ensures fresh { IsFresh self.now result }
        ensures part { claimant_parts result ≡ 1 }
    {
        let seat = self.table.shared.split_seat::<Part>(&mut claimant.seat);
        Claimant { seat, tried: 0 }
    }

    /// Claims the first row that the claimant hasn't tried and nobody has claimed, or None where there is none.
    ///
    /// The claimant is one of these claims. Each row is tried once, by one atomic swap, in ascending order; once all rows are
    /// tried the answer is None without a step. It takes no memory and waits for nobody.
    pub fn claim(&self, claimant: &mut Claimant) -> Option<usize>
        requires own { IsOf self.now claimant.old }
        ensures own { IsOf self.now claimant.new }
        ensures parts { claimant_parts claimant.new ≡ claimant_parts claimant.old }
        ensures held { IfSome result (λ row. held self.now claimant.new ≡ held self.now claimant.old ++ row ∷ []) }
        ensures some { IfSome result (λ row. (tried_by claimant.old < tried_by claimant.new) ×
            (places_of claimant.new ≡ places_of claimant.old ++ (tried_by claimant.new - 1) ∷ []) ×
            (row ≡ get_or (rows_to_claim self.now) (tried_by claimant.new - 1) 0)) }
        ensures none { IfNone result ((tried_by claimant.new ≡ length (rows_to_claim self.now)) × (places_of claimant.new ≡ places_of claimant.old)) }
        ensures once { NoneTwice (held self.now claimant.new) }
        ensures all { HasAll self.now claimant.new }
    {
        while claimant.tried < self.rows.len() {
            let place = claimant.tried;
            if self.try_next(claimant) {
                return Some(self.rows[place]);
            }
        }
        None
    }

    /// Tries the claimant's next place, and says whether it has claimed it.
    fn try_next(&self, claimant: &mut Claimant) -> bool
        requires own { IsOf self.now claimant.old }
        requires some { tried_by claimant.old < length (rows_to_claim self.now) }
        ensures own { IsOf self.now claimant.new }
        ensures parts { claimant_parts claimant.new ≡ claimant_parts claimant.old }
        ensures tried { tried_by claimant.new ≡ tried_by claimant.old + 1 }
        ensures free { result ≡ true → places_of claimant.new ≡ places_of claimant.old ++ tried_by claimant.old ∷ [] }
        ensures taken { result ≡ false → places_of claimant.new ≡ places_of claimant.old }
    {
        let found = self
            .table
            .shared
            .swap::<Try>(&mut claimant.seat, claimant.tried + 1, 1);
        claimant.tried += 1;
        found == 0
    }

    /// Gives what the second claimant has claimed to the first.
    ///
    /// Both are claimants of these claims. It takes no memory and waits for nobody.
    pub fn join(&self, into: &mut Claimant, from: Claimant)
        requires into { IsOf self.now into.old }
        requires from { IsOf self.now from }
        ensures own { IsOf self.now into.new }
        ensures parts { claimant_parts into.new ≡ claimant_parts into.old + claimant_parts from }
        ensures tried { tried_by into.new ≡ tried_by into.old }
        ensures held { held self.now into.new ≡ held self.now into.old ++ held self.now from }
        ensures once { NoneTwice (held self.now into.new) }
        ensures all { HasAll self.now into.new }
    {
        let Claimant { seat, tried: _ } = from;
        let table = &self.table.shared;
        table.join_seat::<Both>(&mut into.seat, seat);
        // The step of the join tells nothing about both views at once, and a look at word 0 does.
        table.load::<Look>(&mut into.seat, 0);
    }
}
