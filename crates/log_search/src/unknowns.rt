//! How many loads of a log have sources that aren't known after a search by values.

use crate::building::Scope;
use crate::candidates::Candidates;
use crate::graphs::Graph;
use crate::lookups::{number_of, source_of};
use crate::nodes::{Node, OPEN, node_at};
use crate::numbers::narrow;
use crate::surveys::address_of;
use log_text::{LogOperation, LoggedOperation};

/// The loads of a processor that are counted, as far as they were gone through.
#[derive(Clone, Copy)]
struct Tally {
    /// The node that comes next.
    at: u32,
    /// The source of the last load that was looked at.
    source: u32,
    /// How many loads after it weren't looked at.
    between: usize,
    unknown: usize,
}

/// How many loads that can have read several by their values have sources that aren't known. One that wasn't looked at has the
/// source that those before and after it in its run have, if that is one.
pub(crate) fn count_unknown(scope: Scope<'_>, graph: &Graph, candidates: &Candidates) -> usize {
    let mut unknown: usize = 0;
    for (processor, list) in scope.known.log().lists.iter().enumerate() {
        let start = graph.nodes_of(narrow(processor)).0;
        let found = count_in(scope, graph, candidates, (processor, list), start);
        unknown = unknown.saturating_add(found);
    }
    unknown
}

/// How many of one processor, whose nodes begin with this one.
fn count_in(
    scope: Scope<'_>,
    graph: &Graph,
    candidates: &Candidates,
    listed: (usize, &[LoggedOperation]),
    start: u32,
) -> usize {
    let (processor, list) = listed;
    let mut tally = Tally {
        at: start,
        source: OPEN,
        between: 0,
        unknown: 0,
    };
    for (operation, logged) in list.iter().enumerate() {
        let number = number_of(scope.known, processor, operation).unwrap_or(0);
        tally.skip_to(&graph.nodes, processor, operation);
        if is_asked(scope, number, logged.operation) {
            tally.count(graph, candidates, operation);
        }
    }
    tally.unknown
}

/// Whether an operation of this number is a load at an address that is looked at, whose source the values alone don't tell.
fn is_asked(scope: Scope<'_>, number: usize, operation: LogOperation) -> bool {
    matches!(operation, LogOperation::Ld { .. } | LogOperation::Sw { .. })
        && address_of(operation).is_some()
        && scope
            .addresses
            .place(scope.survey.address(number))
            .is_some()
        && source_of(scope.known, number).is_none()
}

impl Tally {
    /// Skips the nodes of the operations before one.
    fn skip_to(&mut self, nodes: &[Node], processor: usize, operation: usize) {
        for _ in 0..nodes.len() {
            match node_at(nodes, self.at) {
                Some(node)
                    if node.processor as usize == processor
                        && (node.operation as usize) < operation => {
                    self.at = self.at.saturating_add(1)
                }
                _ => break,
            }
        }
    }

    /// Counts the load of an operation.
    fn count(&mut self, graph: &Graph, candidates: &Candidates, operation: usize) {
        match graph.node(self.at) {
            Some(node) if node.is_load() && node.operation as usize == operation => {
                if candidates.count(self.at) > 1 {
                    self.add(node.source);
                } else {
                    self.between = 0;
                }
            }
            _ => self.between = self.between.saturating_add(1),
        }
    }

    /// Counts a load with this source that was looked at, and those before it that weren't.
    fn add(&mut self, source: u32) {
        if source == OPEN {
            self.unknown = self.unknown.saturating_add(1);
        }
        if source == OPEN || source != self.source {
            self.unknown = self.unknown.saturating_add(self.between);
        }
        self.between = 0;
        self.source = source;
    }
}
