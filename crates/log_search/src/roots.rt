//! The order in which nodes are done: each after those before it, as far as they are known, and what was done at one time
//! together.

use crate::derivation::Derivation;
use crate::graphs::Graph;
use crate::links::Links;
use crate::lookups::line_of;
use crate::numbers::{NONE, item, narrow, put};
use crate::progress::Progress;
use log_selections::KnownLog;
use progress_meters::Meter;
use search_memory::Memory;

/// After all processors wait for another, so many nodes of one are passed.
const FORCED: u32 = 64;

/// Where the search stands: loads by their times, then the other nodes.
#[derive(Drop)]
pub(crate) struct Roots {
    clock: Clock,
    round: usize,
    processor: usize,
    /// The next node of each processor.
    positions: Vec<u32>,
    /// Whether a processor advanced since the last time that the first one was looked at.
    has_moved: bool,
    /// How many nodes are passed though their processor waits.
    forced: u32,
    other: usize,
    /// Nodes that are to be done, the next one last, each with whether what comes before it was put on top of it.
    stack: Vec<(u32, bool)>,
    links: Links,
}

impl Roots {
    /// At the beginning.
    pub(crate) fn new(memory: &Memory, known: &KnownLog, graph: &Graph) -> Roots {
        Roots {
            clock: Clock::new(known),
            round: 0,
            processor: 0,
            positions: memory.copied(&graph.firsts),
            has_moved: false,
            forced: 0,
            other: 0,
            stack: Vec::new(memory.alloc()),
            links: Links::new(memory.alloc()),
        }
    }

    /// Goes on after nodes were taken back.
    pub(crate) fn go_on(&mut self) {
        self.stack.clear();
    }

    /// Does the nodes that aren't done, up to a violation or the end of the budget. The meter hears of the operations that are
    /// passed.
    pub(crate) fn advance<M: Meter>(
        &mut self,
        memory: &Memory,
        known: &KnownLog,
        derivation: &mut Derivation,
        progress: &mut Progress,
        meter: &M,
    ) {
        for _ in 0..usize::MAX {
            progress.tell(derivation.operations(), meter);
            if derivation.is_stopped(memory) {
                break;
            }
            let Some(root) = self.next(known, derivation) else {
                break;
            };
            memory.push(&mut self.stack, (root, false));
            self.visit(memory, derivation);
        }
        derivation.apply(memory);
    }

    /// The next node that isn't done: those that were taken back come first.
    fn next(&mut self, known: &KnownLog, derivation: &mut Derivation) -> Option<u32> {
        if let Some(node) = derivation.redo.pop() {
            return Some(node);
        }
        match self.next_load(known, &derivation.graph) {
            Some(load) => Some(load),
            None => self.next_other(&derivation.graph),
        }
    }

    /// The next node that isn't done, loads or others.
    fn next_other(&mut self, graph: &Graph) -> Option<u32> {
        for number in self.other..graph.nodes.len() {
            self.other = number;
            if !graph.is_done(narrow(number)) {
                return Some(narrow(number));
            }
        }
        None
    }

    /// The next load that isn't done. In a round each processor passes the nodes of a time, but waits at a load that read what
    /// another one stores later than it has come, so that what happened together is done together.
    fn next_load(&mut self, known: &KnownLog, graph: &Graph) -> Option<u32> {
        let processors = graph.firsts.len().saturating_sub(1);
        for _ in 0..usize::MAX {
            if self.processor >= processors && !self.begin_pass() {
                break;
            }
            let position = item(&self.positions, narrow(self.processor));
            if !self.passes(known, graph, position) {
                self.processor = self.processor.saturating_add(1);
                continue;
            }
            self.has_moved = true;
            self.forced = self.forced.saturating_sub(1);
            let next = position.saturating_add(1);
            put(&mut self.positions, narrow(self.processor), next);
            if let Some(node) = graph.node(position)
                && node.is_load()
                && !graph.is_done(position)
            {
                return Some(position);
            }
        }
        None
    }

    /// Whether the processor's next node, this one, is to be passed now.
    fn passes(&self, known: &KnownLog, graph: &Graph, position: u32) -> bool {
        match graph.node(position) {
            Some(node) if node.processor as usize == self.processor => {
                let operation = node.operation as usize;
                let time = self.clock.time_of(known, self.processor, operation);
                time <= self.clock.end_of(self.round)
                    && (self.forced > 0 || !self.waits(graph, position))
            }
            _ => false,
        }
    }

    /// Looks at the first processor again: whether there may be something to do.
    fn begin_pass(&mut self) -> bool {
        if self.has_moved {
            self.forced = 0;
        } else if self.round < self.clock.rounds {
            self.round = self.round.saturating_add(1);
        } else if self.forced == 0 {
            self.forced = FORCED;
        } else {
            return false;
        }
        self.has_moved = false;
        self.processor = 0;
        true
    }

    /// Whether a node is a load of what another processor stores later than it has come.
    fn waits(&self, graph: &Graph, position: u32) -> bool {
        match graph.node(position) {
            Some(load) if load.is_load() => match graph.node(load.source) {
                Some(source) => {
                    source.processor != load.processor
                        && item(&self.positions, source.processor) <= load.source
                }
                None => false,
            },
            _ => false,
        }
    }

    /// Does the nodes of the stack, and before each what comes before it.
    fn visit(&mut self, memory: &Memory, derivation: &mut Derivation) {
        for _ in 0..usize::MAX {
            if derivation.is_stopped(memory) {
                break;
            }
            let Some((number, is_begun)) = self.stack.pop() else {
                break;
            };
            if is_begun {
                finish(memory, derivation, number);
            } else if item(&derivation.graph.ranks, number) == 0 {
                put(&mut derivation.graph.ranks, number, NONE);
                memory.push(&mut self.stack, (number, true));
                self.push_before(memory, &derivation.graph, number);
            }
        }
    }

    /// Pushes what comes before a node and isn't begun: what is begun waits for this one.
    fn push_before(&mut self, memory: &Memory, graph: &Graph, number: u32) {
        graph.links_to(memory, number, &mut self.links);
        for k in 0..self.links.len() {
            if let Some(link) = self.links.get(k)
                && item(&graph.ranks, link.node) == 0
            {
                memory.push(&mut self.stack, (link.node, false));
            }
        }
    }
}

/// The times of operations, and how they are divided into rounds.
#[derive(Clone, Copy)]
struct Clock {
    operations: usize,
    lines: usize,
    rounds: usize,
    /// Whether the lines tell the times: else one processor stands after the other, and the shares do.
    has_lines: bool,
}

impl Clock {
    fn new(known: &KnownLog) -> Clock {
        let mut clock = Clock {
            operations: 0,
            lines: 0,
            rounds: 0,
            has_lines: false,
        };
        let mut spans: usize = 0;
        let mut processors: usize = 0;
        for (processor, list) in known.log().lists.iter().enumerate() {
            if let Some(last) = list.len().checked_sub(1) {
                let end = line_of(known, processor, last);
                let start = line_of(known, processor, 0);
                clock.operations = clock.operations.saturating_add(list.len());
                clock.lines = clock.lines.max(end);
                spans = spans.saturating_add(end.saturating_sub(start));
                processors = processors.saturating_add(1);
            }
        }
        clock.has_lines = spans > clock.lines.saturating_mul(processors) / 2;
        clock.rounds = quotient(clock.operations, processors).saturating_add(1);
        clock
    }

    fn time_of(self, known: &KnownLog, processor: usize, operation: usize) -> usize {
        if self.has_lines {
            return line_of(known, processor, operation);
        }
        match known.log().lists.get(processor) {
            Some(list) => quotient(operation.saturating_mul(self.operations), list.len()),
            None => 0,
        }
    }

    /// The last time of a round.
    fn end_of(self, round: usize) -> usize {
        if round >= self.rounds {
            return usize::MAX;
        }
        let all = if self.has_lines {
            self.lines
        } else {
            self.operations
        };
        quotient(all.saturating_mul(round), self.rounds)
    }
}

/// The quotient of two numbers; 0 where there is none.
fn quotient(number: usize, divisor: usize) -> usize {
    match number.checked_div(divisor) {
        Some(quotient) => quotient,
        None => 0,
    }
}

/// A node is done, and with a swap's load its store.
fn finish(memory: &Memory, derivation: &mut Derivation, number: u32) {
    if derivation.graph.is_done(number) {
        return;
    }
    derivation.finish(memory, number);
    let store = number.saturating_add(1);
    if derivation.closing.is_none()
        && derivation.graph.is_swap_load(number)
        && !derivation.graph.is_done(store)
    {
        derivation.finish(memory, store);
    }
}
