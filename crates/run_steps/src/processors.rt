//! What the machine has of each processor: the stores that wait, and its reservation.
ghost use Rattle.std.specs.Prelude.{◌≡◌, ◌<◌, ◌+◌, ◌-◌, ◌++◌, suc, None, IfNone, IfSome, OnOk, cond, drop, length, map, replicate, slice_get};
ghost use Rattle.std.specs.List.{find, position};
ghost use Rattle.run_steps.specs.Machine.{processors_after, drained_number, idle, keeps_back, losing, oldest_waiting, processor_state, with_store, without_reserved};
ghost use Rattle.run_steps.specs.Places.{is_place, overlaps};
ghost use Rattle.run_steps.specs.Reads.{newest_over, newest_sharing};

use crate::places::Place;
use std::alloc::Global;
use tso_ops::{Order, OutOfMemory};

/// A store that waits in the buffer of its processor.
#[derive(Clone, Copy, Debug, PartialEq, Eq)]
pub struct WaitingStore {
    /// The number of its line.
    pub store: u64,
    /// The bytes or the location that it is of.
    pub place: Place,
    /// Its value.
    pub value: u64,
    /// The number of the line of the processor's last STBAR before it; 0 for none.
    pub stbar: u64,
}

/// The store of another processor that reached a reserved place.
#[derive(Clone, Copy, Debug, PartialEq, Eq)]
pub struct Taken {
    /// The number of the store's line.
    pub store: u64,
    /// The number of the line at which it reached memory.
    pub reached: u64,
}

/// What a load has reserved, for a store on that reservation.
#[derive(Clone, Copy, Debug, PartialEq, Eq)]
pub struct Reservation {
    /// The bytes or the location that is reserved.
    pub place: Place,
    /// The first store by which the reservation was lost.
    pub taken: Option<Taken>,
}

/// What the machine has of a processor.
#[derive(Debug, Drop)]
pub struct Processor {
    /// The stores that wait, the oldest first.
    pub waiting: Vec<WaitingStore>,
    /// The number of the line of its last STBAR; 0 for none.
    pub stbar: u64,
    /// What its last `lr` reserved, until its `sc`.
    pub reservation: Option<Reservation>,
}

/// A store of the processor waits. OutOfMemory where an allocation was refused.
pub(crate) fn add_waiting(
    processor: &mut Processor,
    line: u64,
    place: Place,
    value: u64,
) -> Result<(), OutOfMemory>
    ensures { OnOk result (processor_state processor.new ≡ with_store line place value (processor_state processor.old)) }
{
    let stbar = processor.stbar;
    processor.waiting.push(WaitingStore {
        store: line,
        place,
        value,
        stbar,
    })?;
    Ok(())
}

/// The newest of the stores that has a cell.
pub(crate) fn newest_over(waiting: &[WaitingStore], cell: u64) -> Option<WaitingStore>
    ensures { result ≡ newest_over waiting.now cell None }
{
    for k in (0..waiting.len()).rev() {
        let store = waiting[k];
        if store.place.covers(cell) {
            return Some(store);
        }
    }
    None
}

/// The number, from 0, of the newest of the stores that shares a cell with a place.
pub(crate) fn newest_sharing(waiting: &[WaitingStore], place: Place) -> Option<usize>
    ensures none { IfNone result (newest_sharing waiting.now place None ≡ None) }
    ensures bound { IfSome result (λ k. k < length waiting.now) }
    ensures is { IfSome result (λ k. newest_sharing waiting.now place None ≡ slice_get waiting.now k) }
    ensures newer { IfSome result (λ k. newest_sharing (drop (k + 1) waiting.now) place None ≡ None) }
{
    for k in (0..waiting.len()).rev() {
        if waiting[k].place.overlaps(&place) {
            return Some(k);
        }
    }
    None
}

/// The oldest of the stores that shares a cell with a place.
fn oldest_over(waiting: &[WaitingStore], place: Place) -> Option<WaitingStore>
    ensures { result ≡ find (λ w. overlaps w.place place) waiting.now }
{
    for store in waiting {
        if store.place.overlaps(&place) {
            return Some(*store);
        }
    }
    None
}

/// The oldest store that waits and shares a cell with a place, of the least processor that has one.
pub(crate) fn oldest_waiting(processors: &[Processor], place: Place) -> Option<WaitingStore>
    ensures { result ≡ oldest_waiting place (map processor_state processors.now) }
{
    for processor in processors {
        if let Some(store) = oldest_over(&processor.waiting, place) {
            return Some(store);
        }
    }
    None
}

/// The number, from 0, of the store that drains: the oldest of all, or of those at a place.
pub(crate) fn drained_number(waiting: &[WaitingStore], at: Option<Place>) -> Option<usize>
    ensures is { result ≡ drained_number at waiting.now }
    ensures bound { IfSome result (λ number. number < length waiting.now) }
{
    match at {
        None if waiting.is_empty() => None,
        None => Some(0),
        Some(place) => oldest_at(waiting, place),
    }
}

/// The number, from 0, of the oldest of the stores at a place.
fn oldest_at(waiting: &[WaitingStore], place: Place) -> Option<usize>
    ensures is { result ≡ position (λ w. is_place place w.place) waiting.now }
    ensures bound { IfSome result (λ number. number < length waiting.now) }
{
    waiting.iter().position(|store| place.is(&store.place))
}

/// The first of the older stores that a store must not pass.
pub(crate) fn first_passed(
    order: Order,
    older: &[WaitingStore],
    store: WaitingStore,
) -> Option<WaitingStore>
    ensures { result ≡ find (keeps_back order store) older.now }
{
    for other in older {
        if keeps_back(order, &store, other) {
            return Some(*other);
        }
    }
    None
}

/// Whether an older store keeps a newer one from passing it: under TSO each does; under PSO one of a shared byte, and one before an
/// STBAR that the newer comes after.
fn keeps_back(order: Order, newer: &WaitingStore, older: &WaitingStore) -> bool
    ensures { result ≡ keeps_back order newer.now older.now }
{
    match order {
        Order::Tso => true,
        Order::Pso => older.place.overlaps(&newer.place) || older.stbar != newer.stbar,
    }
}

/// Takes the reservations of the other processors that a store of processor `p` reaches.
pub(crate) fn take_reservations(processors: &mut [Processor], p: usize, place: Place, by: Taken)
    ensures states { map processor_state processors.new ≡ processors_after p place by 0 (map processor_state processors.old) }
    ensures kept { length processors.new ≡ length processors.old }
{
    for q in 0..processors.len() {
        take_reservation(&mut processors[q], q == p, place, by);
    }
}

/// Takes a processor's reservation, where a store reaches it that isn't its own.
fn take_reservation(processor: &mut Processor, own: bool, place: Place, by: Taken)
    ensures { processor_state processor.new ≡ cond own (processor_state processor.old) (without_reserved place by (processor_state processor.old)) }
{
    if own {
        return;
    }
    if let Some(reservation) = processor.reservation {
        processor.reservation = Some(lost(reservation, place, by));
    }
}

/// The reservation after a store of another processor reached memory.
fn lost(reservation: Reservation, place: Place, by: Taken) -> Reservation
    ensures { result ≡ losing place by reservation }
{
    if !reservation.place.overlaps(&place) {
        return reservation;
    }
    let first = match reservation.taken {
        Some(first) => first,
        None => by,
    };
    Reservation {
        place: reservation.place,
        taken: Some(first),
    }
}

/// Makes a place for processor `p`. OutOfMemory where an allocation was refused.
pub(crate) fn grow(
    alloc: Global,
    processors: &mut Vec<Processor>,
    p: usize,
) -> Result<(), OutOfMemory>
    requires { p < 4096 }
    ensures more { OnOk result (map processor_state processors.new.items ≡ map processor_state processors.old.items ++
        replicate (suc p - length (map processor_state processors.old.items)) idle) }
    ensures there { OnOk result (p < length processors.new.items) }
{
    if p < processors.len() {
        return Ok(());
    }
    for _q in processors.len()..p + 1 {
        processors.push(Processor {
            waiting: Vec::new(alloc),
            stbar: 0,
            reservation: None,
        })?;
    }
    Ok(())
}
