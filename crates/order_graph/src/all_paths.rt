//! The paths of all edges of a table at once.

ghost use Rattle.std.specs.Prelude.{◌≡◌, ◌<◌, ◌/◌, ℕ, IfOk, length};
ghost use Rattle.bitsets.specs.Tables.{IsSet};
ghost use Rattle.order_graph.specs.Internal.Tables.{IsTable, AreTransposed};
ghost use Rattle.order_graph.specs.Internal.KeptPaths.{KeepsAllPaths, KeepsSomePaths, KeepsPathsToDone};

use crate::joining::{Size, add_row, join};
use crate::postorder::postorder;
use bitsets::{BitTable, bit, set_bit};
use std::alloc::{AllocError, Global};

/// Gives row x the numbers of word j that are done and that it has an edge to, and what they lead to.
///
/// A number that the row has by then is left out, as the row has all that it leads to.
pub fn join_done(edges: BitTable, paths: &mut [u64], done: &[u64], nodes: usize, x: usize, j: usize)
    requires edges { IsTable nodes edges.width edges.words.now }
    requires paths { KeepsPathsToDone nodes edges.width edges.words.now paths.old done.now }
    requires done { length done.now ≡ edges.width }
    requires row { x < nodes }
    requires not_done { IsSet done.now edges.width 0 x → ⊥ }
    requires word { j < edges.width }
    ensures { KeepsPathsToDone nodes edges.entry.width edges.entry.words.now paths.new done.now }
{
    let place = x * edges.width + j;
    let mut left = edges.words[place] & done[j] & !paths[place];
    while left != 0 {
        add_row(
            paths,
            edges.width,
            x,
            64 * j + left.trailing_zeros() as usize,
        );
        left &= !paths[place];
    }
}

/// Gives row x the numbers done that it has edges to, and what they lead to. Then x is done.
pub fn finish(edges: BitTable, paths: &mut [u64], done: &mut [u64], nodes: usize, x: usize)
    requires edges { IsTable nodes edges.width edges.words.now }
    requires paths { KeepsPathsToDone nodes edges.width edges.words.now paths.old done.old }
    requires done { length done.old ≡ edges.width }
    requires row { x < nodes }
    ensures { KeepsPathsToDone nodes edges.entry.width edges.entry.words.now paths.new done.new }
{
    if bit(
        BitTable {
            words: done,
            width: edges.width,
        },
        0,
        x,
    ) {
        return;
    }
    for j in 0..edges.width {
        join_done(edges, paths, done, nodes, x, j);
    }
    set_bit(done, edges.width, 0, x);
}

/// A table of paths, from one pass over the numbers in postorder: where no cycle is, of all paths. The contract leaves
/// open which of them it has.
pub fn paths_in_order(alloc: Global, edges: BitTable, nodes: usize) -> Result<Vec<u64>, AllocError>
    requires { IsTable nodes edges.width edges.words.now }
    ensures { IfOk result (λ paths. KeepsSomePaths nodes edges.entry.width edges.entry.words.now paths.items) }
{
    let order = postorder(alloc, edges, nodes)?;
    let mut paths = vec![in alloc; 0; nodes * edges.width]?;
    let mut done = vec![in alloc; 0; edges.width]?;
    for x in order {
        finish(edges, &mut paths, &mut done, nodes, x);
    }
    Ok(paths)
}

/// Joins the edges from x to numbers of word j that are no paths yet.
pub fn join_word(
    edges: BitTable,
    paths: &mut [u64],
    transposed: &mut [u64],
    nodes: usize,
    x: usize,
    j: usize,
)
    requires edges { IsTable nodes edges.width edges.words.now }
    requires paths { KeepsSomePaths nodes edges.width edges.words.now paths.old }
    requires transposed { AreTransposed paths.old transposed.old edges.width nodes }
    requires row { x < nodes }
    requires word { j < edges.width }
    ensures paths { KeepsSomePaths nodes edges.entry.width edges.entry.words.now paths.new }
    ensures transposed { AreTransposed paths.new transposed.new edges.entry.width nodes }
    ensures kept { (a b : ℕ) → b / 64 < edges.entry.width → IsSet paths.old edges.entry.width a b → IsSet paths.new edges.entry.width a b }
    ensures joined { (y : ℕ) → y / 64 ≡ j → IsSet edges.entry.words.now edges.entry.width x y → IsSet paths.new edges.entry.width x y }
{
    let place = x * edges.width + j;
    let mut left = edges.words[place] & !paths[place];
    while left != 0 {
        let y = 64 * j + left.trailing_zeros() as usize;
        join(
            paths,
            transposed,
            Size {
                nodes,
                width: edges.width,
            },
            x,
            y,
        );
        left &= !paths[place];
    }
}

/// Joins the edges from x that are no paths yet.
pub fn join_row(edges: BitTable, paths: &mut [u64], transposed: &mut [u64], nodes: usize, x: usize)
    requires edges { IsTable nodes edges.width edges.words.now }
    requires paths { KeepsSomePaths nodes edges.width edges.words.now paths.old }
    requires transposed { AreTransposed paths.old transposed.old edges.width nodes }
    requires row { x < nodes }
    ensures paths { KeepsSomePaths nodes edges.entry.width edges.entry.words.now paths.new }
    ensures transposed { AreTransposed paths.new transposed.new edges.entry.width nodes }
    ensures kept { (a b : ℕ) → b / 64 < edges.entry.width → IsSet paths.old edges.entry.width a b → IsSet paths.new edges.entry.width a b }
    ensures joined { (y : ℕ) → y / 64 < edges.entry.width → IsSet edges.entry.words.now edges.entry.width x y → IsSet paths.new edges.entry.width x y }
{
    for j in 0..edges.width {
        join_word(edges, paths, transposed, nodes, x, j);
    }
}

/// Joins all edges that are no paths yet.
pub fn join_rest(edges: BitTable, paths: &mut [u64], transposed: &mut [u64], nodes: usize)
    requires edges { IsTable nodes edges.width edges.words.now }
    requires paths { KeepsSomePaths nodes edges.width edges.words.now paths.old }
    requires transposed { AreTransposed paths.old transposed.old edges.width nodes }
    ensures { KeepsAllPaths nodes edges.entry.width edges.entry.words.now paths.new transposed.new }
{
    for x in 0..nodes {
        join_row(edges, paths, transposed, nodes, x);
    }
}
