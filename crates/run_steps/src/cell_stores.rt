//! The newest of the stores that wait over each cell of a place, found in one pass over them.
ghost use Rattle.std.specs.Prelude.{◌≡◌, ◌<◌, ◌≤◌, ◌+◌, ◌&&◌, ℕ, None, Some, true, cond, get_or, is_some, length, nat_eq, nat_le, nat_lt};
ghost use Rattle.std.specs.Option.{option_or};
ghost use Rattle.run_steps.specs.Places.{cell_count, covers};
ghost use Rattle.run_steps.specs.Reads.{newest_over};

use crate::places::Place;
use crate::processors::WaitingStore;

/// The newest of the stores over each cell of a place, by ascending cell.
pub(crate) fn newest_of_cells(waiting: &[WaitingStore], place: Place) -> [Option<WaitingStore>; 8]
    ensures cells { (i : ℕ) → i < cell_count place → get_or result i None ≡ newest_over waiting.now (place.address + i) None }
    ensures whole { length result ≡ 8 }
{
    let mut found = [None; 8];
    for k in (0..waiting.len()).rev() {
        let store = waiting[k];
        if add_store(&mut found, store, place) {
            return found;
        }
    }
    found
}

/// Adds a store at each cell of a place that it has and that no newer one has. Where it says so, each cell has one now.
fn add_store(found: &mut [Option<WaitingStore>; 8], store: WaitingStore, place: Place) -> bool
    ensures cells { (i : ℕ) → i < cell_count place →
        get_or found.new i None ≡ option_or (get_or found.old i None) (cond (covers store.place (place.address + i)) (Some store) None) }
    ensures all { result ≡ true → (i : ℕ) → i < cell_count place → is_some (get_or found.new i None) ≡ true }
{
    if !store.place.overlaps(&place) {
        return false;
    }
    let (first, end) = shared(store.place, place);
    let is_new = add_between(found, store, first, end);
    is_new && has_all(found, place)
}

/// The numbers of the cells of a place, from 0, that another place has: from the first of these up to the second.
fn shared(other: Place, place: Place) -> (u64, u64)
    ensures within { result.1 ≤ 8 }
    ensures cells { (i : ℕ) → i < cell_count place → covers other (place.address + i) ≡ (nat_le result.0 i && nat_lt i result.1) }
{
    let first = other.address.saturating_sub(place.address);
    let end = if other.address >= place.address {
        first.saturating_add(other.cells())
    } else {
        other.cells().saturating_sub(place.address - other.address)
    };
    (first, end.min(place.cells()))
}

/// Adds a store at each of the cells from one number up to another that no newer one has. It says whether there was one.
fn add_between(
    found: &mut [Option<WaitingStore>; 8],
    store: WaitingStore,
    first: u64,
    end: u64,
) -> bool
    requires { end ≤ 8 }
    ensures { (i : ℕ) → i < 8 → get_or found.new i None ≡ option_or (get_or found.old i None) (cond (nat_le first i && nat_lt i end) (Some store) None) }
{
    let mut is_new = false;
    for i in first..end {
        let is_added = add_at(found, i as usize, store);
        is_new = is_new || is_added;
    }
    is_new
}

/// Adds a store at a cell, where no newer one has it. It says whether none had.
fn add_at(found: &mut [Option<WaitingStore>; 8], number: usize, store: WaitingStore) -> bool
    requires { number < 8 }
    ensures { (i : ℕ) → i < 8 → get_or found.new i None ≡ option_or (get_or found.old i None) (cond (nat_eq i number) (Some store) None) }
{
    if found[number].is_some() {
        return false;
    }
    found[number] = Some(store);
    true
}

/// Whether each cell of a place has a store.
fn has_all(found: &[Option<WaitingStore>; 8], place: Place) -> bool
    ensures { result ≡ true → (i : ℕ) → i < cell_count place → is_some (get_or found.now i None) ≡ true }
{
    for i in 0..place.cells() {
        if found[i as usize].is_none() {
            return false;
        }
    }
    true
}
