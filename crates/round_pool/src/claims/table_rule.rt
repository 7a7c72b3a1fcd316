//! The table on which rows are claimed: its rule, and the kinds of its steps.
ghost use Rattle.round_pool.specs.Internal.ClaimTable.{KeepsClaims, first_view, tries, looks, kept_view, new_view, joined_view, spent_view};

use crate::claims::seat_view::SeatView;
use atomic_table::{Join, Play, Split, TableRule};

/// The rule, for as many places as the key says.
pub struct ClaimRule;

impl TableRule<(), SeatView, usize> for ClaimRule {
    ghost holds = { KeepsClaims };

    ghost first = { λ _. first_view };
}

/// Tries the seat's next place, by one swap.
pub struct Try;

impl Play<(), SeatView> for Try {
    ghost then = { tries };
}

/// Looks at word 0 after a join, whose step tells nothing about both views at once.
pub struct Look;

impl Play<(), SeatView> for Look {
    ghost then = { looks };
}

/// Splits off a seat with one part.
pub struct Part;

impl Split<SeatView> for Part {
    ghost left = { kept_view };

    ghost right = { λ _. new_view };
}

/// Joins two seats.
pub struct Both;

impl Join<SeatView> for Both {
    ghost both = { joined_view };

    ghost spent = { spent_view };
}
