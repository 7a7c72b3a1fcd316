//! The first items of a list.
ghost use Rattle.std.specs.Prelude.{◌≡◌, take};

/// The first items, as many as `limit` at most.
pub fn first_of<T>(items: &[T], limit: usize) -> &[T]
    ensures { result.now ≡ take limit items.now }
{
    if items.len() > limit {
        &items[..limit]
    } else {
        items
    }
}
