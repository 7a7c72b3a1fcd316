//! What a seat of the table knows.
ghost use Rattle.std.specs.Prelude.{ℕ, List};
ghost use Rattle.std.specs.Borrow.{ftrue};

use std::marker::Model;

/// What a seat of the table knows. No value of it is made.
pub struct SeatView {
    /// The places that were claimed with it, in order.
    pub ghost places: { List ℕ },
    /// It has tried the places below this one.
    pub ghost tried: { ℕ },
    /// The part that it has of the right to all places, in 64ths.
    pub ghost parts: { ℕ },
}

impl Model for SeatView {
    ghost also_owns = { λ _. ftrue };
}
