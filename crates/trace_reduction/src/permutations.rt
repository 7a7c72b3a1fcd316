//! The orders of some numbers, one after the other.

use std::alloc::Global;
use tso_ops::OutOfMemory;

/// The numbers below this one, in ascending order: the first of their orders.
pub(crate) fn ascending(alloc: Global, count: usize) -> Result<Vec<usize>, OutOfMemory> {
    let mut numbers = Vec::new(alloc);
    for number in 0..count {
        numbers.push(number)?;
    }
    Ok(numbers)
}

/// Makes the next order of different numbers, by the first number in which two differ; false after the last.
pub(crate) fn advance(numbers: &mut [usize]) -> bool {
    let Some(pivot) = last_ascent(numbers) else {
        return false;
    };
    let Some(next) = last_above(numbers, pivot) else {
        return false;
    };
    if pivot >= numbers.len() || next >= numbers.len() {
        return false;
    }
    numbers.swap(pivot, next);
    numbers[pivot + 1..].reverse();
    true
}

/// The last place of a number that is less than the next.
fn last_ascent(numbers: &[usize]) -> Option<usize> {
    let mut place = None;
    for k in 1..numbers.len() {
        if numbers[k - 1] < numbers[k] {
            place = Some(k - 1);
        }
    }
    place
}

/// The last place of a number that is greater than that at a place.
fn last_above(numbers: &[usize], place: usize) -> Option<usize> {
    let least = *numbers.get(place)?;
    let mut found = None;
    for (k, number) in numbers.iter().enumerate() {
        if *number > least {
            found = Some(k);
        }
    }
    found
}
