ghost use Rattle.std.specs.Prelude.{◌≡◌, false};
ghost use Rattle.std.specs.List.{count_by};
ghost use Rattle.unit_core.specs.Accounts.{IsAccountOf};
ghost use Rattle.unit_core.specs.Machine.{is_drain, is_load, is_membar, is_store, is_swap};

use crate::steps::Step;

/// The numbers of a unit's steps, which are known at its end: from then on the account is closed.
///
/// STBARs aren't counted.
#[derive(Clone, Copy, Debug, PartialEq, Eq)]
pub struct Account {
    /// Loads, without those of swaps.
    pub loads: usize,
    /// Stores, without those of swaps.
    pub stores: usize,
    /// Swaps.
    pub swaps: usize,
    /// Barriers, MEMBAR #StoreLoad.
    pub membars: usize,
    /// Drains of either kind.
    pub drains: usize,
    /// Whether the unit was ended.
    pub closed: bool,
}

impl Account {
    /// The open account of no steps.
    pub fn new() -> Account
        ensures { result ≡ record { loads = 0; stores = 0; swaps = 0; membars = 0; drains = 0; closed = false } }
    {
        Account {
            loads: 0,
            stores: 0,
            swaps: 0,
            membars: 0,
            drains: 0,
            closed: false,
        }
    }

    /// The closed account of these steps.
    pub fn of_steps(steps: &[Step]) -> Account
        ensures { IsAccountOf steps.now result }
    {
        Account {
            loads: loads_among(steps),
            stores: stores_among(steps),
            swaps: swaps_among(steps),
            membars: membars_among(steps),
            drains: drains_among(steps),
            closed: true,
        }
    }
}

fn loads_among(steps: &[Step]) -> usize
    ensures { result ≡ count_by is_load steps.now }
{
    steps
        .iter()
        .filter(|step| matches!(step, Step::Load { .. }))
        .count()
}

fn stores_among(steps: &[Step]) -> usize
    ensures { result ≡ count_by is_store steps.now }
{
    steps
        .iter()
        .filter(|step| matches!(step, Step::Store { .. }))
        .count()
}

fn swaps_among(steps: &[Step]) -> usize
    ensures { result ≡ count_by is_swap steps.now }
{
    steps
        .iter()
        .filter(|step| matches!(step, Step::Swap { .. }))
        .count()
}

fn membars_among(steps: &[Step]) -> usize
    ensures { result ≡ count_by is_membar steps.now }
{
    steps
        .iter()
        .filter(|step| matches!(step, Step::Membar { .. }))
        .count()
}

fn drains_among(steps: &[Step]) -> usize
    ensures { result ≡ count_by is_drain steps.now }
{
    steps
        .iter()
        .filter(|step| matches!(step, Step::Drain { .. } | Step::DrainAt { .. }))
        .count()
}
