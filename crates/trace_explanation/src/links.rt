//! The edges of a cycle.
ghost use Rattle.std.specs.Prelude.{◌≡◌, IfOk};
ghost use Rattle.trace_explanation.specs.Steps.{links_of};

use std::alloc::{AllocError, Global};

/// The edges of a cycle, of which the last leads back to the first number. OutOfMemory where an allocation was refused.
pub fn list_links(alloc: Global, cycle: &[u64]) -> Result<Vec<(u64, u64)>, AllocError>
    ensures { IfOk result (λ links. links.items ≡ links_of cycle.now) }
{
    let mut links = Vec::new(alloc);
    match cycle {
        [] => {},
        [first, rest @ ..] => {
            let mut last = *first;
            for v in rest {
                links.push((last, *v))?;
                last = *v;
            }
            links.push((last, *first))?;
        },
    }
    Ok(links)
}
