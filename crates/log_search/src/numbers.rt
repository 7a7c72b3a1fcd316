//! Lists of 32-bit numbers, read and written without a look at their length.

/// No node, chain or address.
pub(crate) const NONE: u32 = u32::MAX;

/// A number in 32 bits; the greatest of them where it has more.
#[inline]
pub(crate) fn narrow(number: usize) -> u32 {
    u32::try_from(number).unwrap_or(u32::MAX)
}

/// The item at an index; 0 where there is none.
#[inline]
pub(crate) fn item(items: &[u32], index: u32) -> u32 {
    items.get(index as usize).copied().unwrap_or(0)
}

/// Writes the item at an index, where there is one.
#[inline]
pub(crate) fn put(items: &mut [u32], index: u32, value: u32) {
    if let Some(slot) = items.get_mut(index as usize) {
        *slot = value;
    }
}

/// Adds 1 to the item at an index: what it was.
#[inline]
pub(crate) fn count(items: &mut [u32], index: u32) -> u32 {
    match items.get_mut(index as usize) {
        Some(slot) => {
            let before = *slot;
            *slot = before.saturating_add(1);
            before
        }
        None => 0,
    }
}

/// Turns counts into where each one's items begin, if they stand one after the other.
pub(crate) fn begin(counts: &mut [u32]) {
    let mut sum: u32 = 0;
    for slot in counts.iter_mut() {
        let items = *slot;
        *slot = sum;
        sum = sum.saturating_add(items);
    }
}

/// Where the items end that aren't above a value, among ascending ones from one index up to another. It looks near an index
/// first.
pub(crate) fn last_up_to(items: &[u32], range: (u32, u32), near: u32, value: u32) -> u32 {
    let (start, end) = range;
    let near = near.max(start).min(end);
    let (mut low, mut high) = if near < end && item(items, near) <= value {
        look_above(items, near, end, value)
    } else {
        look_below(items, start, near, value)
    };
    for _ in 0..u32::BITS {
        if low >= high {
            break;
        }
        let middle = low + (high - low) / 2;
        if item(items, middle) <= value {
            low = middle + 1;
        } else {
            high = middle;
        }
    }
    low
}

/// Between which indices the items end, which isn't before this one, by steps that grow.
fn look_above(items: &[u32], near: u32, end: u32, value: u32) -> (u32, u32) {
    let mut low = near.saturating_add(1);
    let mut step: u32 = 1;
    for _ in 0..u32::BITS {
        let next = low.saturating_add(step);
        if next >= end {
            break;
        }
        if item(items, next) > value {
            return (low, next);
        }
        low = next.saturating_add(1);
        step = step.saturating_mul(2);
    }
    (low, end)
}

/// The same, where they end before this index.
fn look_below(items: &[u32], start: u32, near: u32, value: u32) -> (u32, u32) {
    let mut high = near;
    let mut step: u32 = 1;
    for _ in 0..u32::BITS {
        let next = high.saturating_sub(step);
        if next <= start {
            break;
        }
        if item(items, next) <= value {
            return (next.saturating_add(1), high);
        }
        high = next;
        step = step.saturating_mul(2);
    }
    (start, high)
}
