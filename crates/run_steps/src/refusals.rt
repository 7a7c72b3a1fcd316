//! Why a line is no step of the machine.
ghost use Rattle.std.specs.Prelude.{◌≡◌, ◌++◌, ◌<◌, OnOk, length, map, slice_index};
ghost use Rattle.run_steps.specs.Machine.{drain_refusals, drained_refusals, order_refusals, reservation_refusals, waiting_refusals};
ghost use Rattle.run_steps.specs.Reads.{is_origin, refusal_of};
ghost use Rattle.std.specs.Prelude.{Some};

use crate::places::Place;
use crate::processors::{Reservation, WaitingStore, first_passed};
use std::alloc::Global;
use tso_ops::{Order, OutOfMemory};

/// Where a value is from.
#[derive(Clone, Copy, Debug, PartialEq, Eq)]
pub enum Origin {
    /// The first value.
    First,
    /// The store of this line, which waits in the processor's own buffer.
    Waiting(u64),
    /// The store of one line, which reached memory at another.
    Reached { store: u64, line: u64 },
}

impl Origin {
    /// Whether the two are one origin.
    pub(crate) fn is(&self, other: &Origin) -> bool
        ensures { result ≡ is_origin self.now other.now }
    {
        match (*self, *other) {
            (Origin::First, Origin::First) => true,
            (Origin::Waiting(store), Origin::Waiting(second)) => store == second,
            (
                Origin::Reached { store, line },
                Origin::Reached {
                    store: second,
                    line: at,
                },
            ) => store == second && line == at,
            _ => false,
        }
    }
}

/// What a processor or memory has in a cell.
#[derive(Clone, Copy, Debug, PartialEq, Eq)]
pub struct CellContent {
    /// The value: of a byte, or a location's whole value.
    pub value: u64,
    /// Where it is from.
    pub origin: Origin,
}

/// Whether a line compared a value with what the machine has.
#[derive(Clone, Copy, Debug, PartialEq, Eq)]
pub enum Comparison {
    /// It says no value that was read.
    Nothing,
    /// What it read isn't known.
    Unknown,
    /// It did.
    Compared,
}

/// Why a line is no step of the machine after those before it. Lines are named by their numbers.
#[derive(Debug, Drop)]
pub enum RunRefusal {
    /// The machine has another value there, which is from these.
    Value { has: u64, origins: Vec<Origin> },
    /// This store still waits.
    Waiting { store: u64 },
    /// One store reaches memory before another, which it must not pass.
    Order { store: u64, first: u64 },
    /// There is no such store to reach memory.
    NothingWaits,
    /// The reservation was lost by a store, which reached memory at a line.
    Reservation { store: u64, reached: u64 },
    /// There is no reservation that has the place.
    NoReservation,
}

/// Refuses what completes only while none of the stores waits. OutOfMemory where an allocation was refused.
pub(crate) fn refuse_waiting(
    waiting: &[WaitingStore],
    refusals: &mut Vec<RunRefusal>,
) -> Result<(), OutOfMemory>
    ensures { OnOk result (map refusal_of refusals.new.items ≡ map refusal_of refusals.old.items ++ waiting_refusals waiting.now) }
{
    if !waiting.is_empty() {
        refusals.push(RunRefusal::Waiting {
            store: waiting[0].store,
        })?;
    }
    Ok(())
}

/// Refuses a store on a reservation that is lost, or that doesn't have its place. OutOfMemory where an allocation was refused.
pub(crate) fn refuse_reservation(
    reserved: Option<Reservation>,
    place: Place,
    refusals: &mut Vec<RunRefusal>,
) -> Result<(), OutOfMemory>
    ensures { OnOk result (map refusal_of refusals.new.items ≡ map refusal_of refusals.old.items ++ reservation_refusals place reserved) }
{
    match reserved {
        Some(reservation) if place.lies_in(&reservation.place) => {
            if let Some(by) = reservation.taken {
                refusals.push(RunRefusal::Reservation {
                    store: by.store,
                    reached: by.reached,
                })?;
            }
        },
        _ => refusals.push(RunRefusal::NoReservation)?,
    }
    Ok(())
}

/// Refuses a drain of the store at a number of the buffer, where it passes one that it must not pass, or has another value than is said.
/// OutOfMemory where an allocation was refused.
pub(crate) fn refuse_drain(
    alloc: Global,
    order: Order,
    waiting: &[WaitingStore],
    number: usize,
    said: Option<u64>,
    refusals: &mut Vec<RunRefusal>,
) -> Result<(), OutOfMemory>
    requires { number < length waiting.now }
    ensures { OnOk result (map refusal_of refusals.new.items ≡ map refusal_of refusals.old.items ++ drain_refusals order waiting.now (Some number) said) }
{
    let store = waiting[number];
    refuse_passing(order, &waiting[..number], store, refusals)?;
    refuse_drained(alloc, store, said, refusals)
}

/// Refuses a drain of a store that passes one of the older ones that it must not pass. OutOfMemory where an allocation was refused.
fn refuse_passing(
    order: Order,
    older: &[WaitingStore],
    store: WaitingStore,
    refusals: &mut Vec<RunRefusal>,
) -> Result<(), OutOfMemory>
    ensures { OnOk result (map refusal_of refusals.new.items ≡ map refusal_of refusals.old.items ++ order_refusals order store older.now) }
{
    if let Some(first) = first_passed(order, older, store) {
        refusals.push(RunRefusal::Order {
            store: store.store,
            first: first.store,
        })?;
    }
    Ok(())
}

/// Refuses a drain that says another value than the store has. OutOfMemory where an allocation was refused.
fn refuse_drained(
    alloc: Global,
    store: WaitingStore,
    said: Option<u64>,
    refusals: &mut Vec<RunRefusal>,
) -> Result<(), OutOfMemory>
    ensures { OnOk result (map refusal_of refusals.new.items ≡ map refusal_of refusals.old.items ++ drained_refusals store said) }
{
    let Some(value) = said else {
        return Ok(());
    };
    if store.value == value {
        return Ok(());
    }
    let mut origins = Vec::new(alloc);
    origins.push(Origin::Waiting(store.store))?;
    refusals.push(RunRefusal::Value {
        has: store.value,
        origins,
    })?;
    Ok(())
}
