//! A load of what nothing wrote, by itself.
ghost use Rattle.std.specs.Prelude.{◌≡◌, IfOk};
ghost use Rattle.log_selections.specs.Unwritten.{lone_load};

use std::alloc::Global;
use tso_ops::{Order, OutOfMemory, Outcome, Setting, Trace, Version};

/// The trace that has nothing but such a load, under this memory model. OutOfMemory where an allocation was refused.
pub fn lone_load(alloc: Global, order: Order) -> Result<Trace, OutOfMemory>
    ensures { IfOk result (λ trace. trace ≡ lone_load order) }
{
    let mut list = Vec::new(alloc);
    list.push(Outcome::Ld { a: 0, r: 1 })?;
    let mut lists = Vec::new(alloc);
    lists.push(list)?;
    let setting = Setting {
        version: Version::Two,
        order,
        first: Vec::new(alloc),
    };
    Trace::of_lists(alloc, setting, lists)
}
