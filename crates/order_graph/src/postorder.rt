//! The order in which a depth-first search leaves the numbers.

ghost use Rattle.std.specs.Prelude.{◌≡◌, ◌↔◌, ◌<◌, ◌+◌, ◌/◌, ◌^◌, ℕ, All, IfOk, IfSome, length};
ghost use Rattle.bitsets.specs.Tables.{IsSet};
ghost use Rattle.order_graph.specs.Internal.Tables.{IsTable};

use bitsets::{BitTable, clear_bit, first_shared, set_bit};
use std::alloc::{AllocError, Global};

/// A row of all numbers below `nodes`.
pub fn row_of_all(alloc: Global, width: usize, nodes: usize) -> Result<Vec<u64>, AllocError>
    requires small { nodes < 2 ^ 32 }
    requires fits { width ≡ (nodes + 63) / 64 }
    ensures { IfOk result (λ row. (length row.items ≡ width) × ((y : ℕ) → y / 64 < width → IsSet row.items width 0 y ↔ (y < nodes))) }
{
    let mut row = vec![in alloc; 0; width]?;
    for y in 0..nodes {
        set_bit(&mut row, width, 0, y);
    }
    Ok(row)
}

/// Where a search continues: the first number left that an edge leads to from the top of the stack, or, if nothing is on
/// it, the first number left.
#[inline]
pub fn next_left(edges: BitTable, stack: &[usize], left: &[u64], nodes: usize) -> Option<usize>
    requires edges { IsTable nodes edges.width edges.words.now }
    requires stack { All (λ x. x < nodes) stack.now }
    requires left { length left.now ≡ edges.width }
    ensures { IfSome result (λ y. (y / 64 < edges.entry.width) × IsSet left.now edges.entry.width 0 y) }
{
    match stack.last() {
        Some(x) => first_shared(edges, *x, left, 0, 0, edges.width),
        None => {
            let row = BitTable {
                words: left,
                width: edges.width,
            };
            first_shared(row, 0, left, 0, 0, edges.width)
        }
    }
}

/// The numbers in the order in which a depth-first search leaves them: where no cycle is, each after those that it has
/// an edge to. The contract leaves the order open, since it only saves time.
pub fn postorder(alloc: Global, edges: BitTable, nodes: usize) -> Result<Vec<usize>, AllocError>
    requires { IsTable nodes edges.width edges.words.now }
    ensures { IfOk result (λ order. All (λ x. x < nodes) order.items) }
{
    let mut left = row_of_all(alloc, edges.width, nodes)?;
    let mut stack = Vec::new(alloc);
    let mut order = Vec::new(alloc);
    // Each number is pushed once and popped once.
    for _ in 0..2 * nodes {
        match next_left(edges, &stack, &left, nodes) {
            Some(y) => {
                clear_bit(&mut left, edges.width, 0, y);
                stack.push(y)?;
            }
            None => {
                if let Some(x) = stack.pop() {
                    order.push(x)?;
                }
            }
        }
    }
    Ok(order)
}
