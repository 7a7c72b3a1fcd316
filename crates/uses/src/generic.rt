//! Of the crates for any purpose.

ghost use Rattle.std.specs.Prelude.{◌<◌};

use bitsets::mark;
use chain_reach::{Groups, Reach};
use json_texts::push_json_text;
use line_text::number_of;
use order_graph::Graph;
use progress_meters::{Meter, NoMeter};
use std::alloc::{AllocError, Global};
use store_buffers::Buffers;

/// `bitsets`: a row with number 70.
pub fn row_of_one_number(alloc: Global) -> Result<Vec<u64>, AllocError> {
    let mut row = Vec::new(alloc);
    row.push(0)?;
    row.push(0)?;
    mark(&mut row, 70)?;
    Ok(row)
}

/// `chain_reach`: two chains, of which the first number of one leads to the first of the other.
pub fn reach_of_two_chains(alloc: Global) -> Result<Reach, AllocError> {
    let groups = Groups::of_keys(alloc, Vec::from_array(alloc, [0, 1])?, 2)?;
    let mut reach = Reach::new(alloc, groups)?;
    reach.join(0, 1);
    Ok(reach)
}

/// `line_text`: the number that a token spells.
pub fn number_of_a_token(token: &[u8]) -> Option<u64> {
    number_of(token)
}

/// `json_texts`: a name, after a text that ends in a quote.
pub fn name_in_json(alloc: Global, name: &str) -> Result<String, AllocError> {
    let mut text = String::from_str(alloc, "\"")?;
    push_json_text(&mut text, name)?;
    Ok(text)
}

/// `order_graph`: the least cycle of a graph.
pub fn cycle_of_a_graph(alloc: Global) -> Result<Option<Vec<usize>>, AllocError> {
    let mut graph = Graph::new(alloc, 3)?;
    graph.add(1, 2);
    graph.add(2, 1);
    graph.least_cycle()
}

/// `progress_meters`: work that tells how much of it is done.
pub fn count_parts(parts: u64) {
    let meter = NoMeter;
    meter.advance(parts);
}

/// `store_buffers`: whether a store of processor 0 waited, which has gone to memory then.
pub fn drain_a_buffer(alloc: Global) -> Result<bool, AllocError> {
    let mut buffers = Buffers::new(alloc, 8)?;
    let drained = buffers.drain_oldest(0);
    Ok(drained)
}
