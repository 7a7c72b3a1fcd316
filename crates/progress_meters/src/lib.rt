//! What hears how much of a long piece of work is done.
//!
//! `README.md` says what is promised.
#![tactic(auto)]

/// Hears how much of a long piece of work is done.
///
/// No clause says what it does with that: whoever does the work promises the same with each meter.
pub trait Meter {
    /// Hears that so many parts more are done.
    fn advance(&self, count: u64);
}

/// Hears how many parts there are in all, once that is known, and then by `advance` of those that are done.
pub trait TotalMeter: Meter {
    /// Hears that there are so many parts in all.
    fn expect_total(&self, count: u64);
}

/// A meter that does nothing.
#[derive(Clone, Copy, Debug)]
pub struct NoMeter;

impl Meter for NoMeter {
    fn advance(&self, _count: u64) {}
}

impl TotalMeter for NoMeter {
    fn expect_total(&self, _count: u64) {}
}
