//! Rows that are claimed, and who claims them.
ghost use Rattle.std.specs.Prelude.{◌≡◌, suc, ◌<◌, length, [], AllPairs};
ghost use Rattle.round_pool.specs.Internal.ClaimTable.{IsKnown};

use crate::claims::seat_view::SeatView;
use crate::claims::table_rule::ClaimRule;
use atomic_table::{Seat, Table};
use std::alloc::Global;

/// Rows of a round, each of which one worker can claim.
#[derive(Drop)]
pub struct Claims {
    pub(crate) table: Table<(), SeatView, usize, ClaimRule, Global>,
    pub(crate) rows: Vec<usize>,
    ghost words: { table.shared.table_id.words ≡ suc (length rows.items) },
    ghost places: { table.shared.key ≡ length rows.items },
    ghost ascending: { AllPairs (λ x y. x < y) rows.items },
}

/// What one worker claims rows with: it knows which rows it claimed, and which it has tried.
#[derive(Drop)]
pub struct Claimant {
    pub(crate) seat: Seat<(), SeatView>,
    pub(crate) tried: usize,
    ghost tries: { tried ≡ seat.me.0.tried },
    ghost carries: { seat.me.1 ≡ [] },
    ghost known: { IsKnown seat.me.0 },
}
