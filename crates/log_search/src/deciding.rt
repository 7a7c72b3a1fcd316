//! Deciding on a log by its values: an order of its stores, or a refutation by cases.

use crate::building::{Scope, build};
use crate::candidates::Candidates;
use crate::deciding::cases::{Case, OpenCase, Supposed};
use crate::deciding::simulation::{Outcome, simulate};
use crate::derivation::{Derivation, Work};
use crate::eliminations::{Elimination, Pace};
use crate::notes::event_of;
use crate::shown_values::end_of;
use crate::surveys::Survey;
use log_selections::KnownLog;
use progress_meters::NoMeter;
use search_memory::Memory;
use std::alloc::Global;
use tso_ops::OutOfMemory;
use value_evidence::{ValueEnd, ValueRefutationLine, ValueStep};

mod cases;
mod simulation;
mod sources;

/// What a search for a decision found.
#[derive(Debug, Drop)]
pub enum DecisionFound {
    /// All stores of the log, by the numbers of their events, in an order in which memory can have taken them.
    Stores(Vec<usize>),
    /// Why the log should have no order of its memory model.
    Refuted(Vec<ValueRefutationLine>),
    /// Neither, after as many cases as are allowed.
    Undecided,
}

/// Searches for an order of a log, or for a refutation by at most so many cases. OutOfMemory where an allocation was refused.
///
/// Of an order the stores are told: a load fits in where memory first has what it read. For each event and each chain a table has
/// 4 bytes: chains are two for each processor, under PSO one for each address that a processor stores to.
pub fn decide(alloc: Global, known: &KnownLog, effort: u64) -> Result<DecisionFound, OutOfMemory> {
    let memory = Memory::new(alloc);
    let mut survey = Survey::new(&memory, known);
    survey.keep_open(known);
    let mut deciding = Deciding {
        memory: &memory,
        known,
        survey: &survey,
        elimination: elimination_of(&memory, known, &survey),
        noted: 0,
        open: Vec::new(alloc),
        lines: Vec::new(alloc),
    };
    deciding.list_first_steps();
    let found = deciding.find(effort);
    memory.whole(found)
}

/// What is found by elimination before anything is supposed.
fn elimination_of(memory: &Memory, known: &KnownLog, survey: &Survey) -> Elimination {
    let scope = Scope {
        known,
        survey,
        addresses: survey.all_addresses(),
        is_open: true,
    };
    let graph = build(memory, scope);
    let candidates = Candidates::new(memory, known, &graph.nodes);
    let work = Work::new(usize::MAX, usize::MAX, 0);
    let derivation = Derivation::new(memory, graph, work);
    let mut elimination = Elimination::new(memory, derivation, candidates, Pace::One);
    elimination.run(memory, &NoMeter);
    elimination
}

/// A search by cases.
#[derive(Drop)]
struct Deciding<'a> {
    memory: &'a Memory,
    known: &'a KnownLog,
    survey: &'a Survey,
    /// What is known where all is in force that the open cases suppose.
    elimination: Elimination,
    /// How many of its notes stand in the lines.
    noted: usize,
    /// The cases that aren't refuted yet, the first one first.
    open: Vec<OpenCase>,
    lines: Vec<ValueRefutationLine>,
}

impl Deciding<'_> {
    /// Goes from case to case.
    fn find(&mut self, effort: u64) -> DecisionFound {
        let mut left = effort;
        for _ in 0..usize::MAX {
            if self.memory.is_refused() {
                break;
            }
            self.list_steps();
            if self.elimination.derivation.closing.is_some() {
                self.end_part();
                if self.open.is_empty() {
                    return DecisionFound::Refuted(self.taken_lines());
                }
                continue;
            }
            match simulate(self.memory, &self.elimination) {
                Outcome::Ordered(stores) => return DecisionFound::Stores(self.events_of(&stores)),
                Outcome::Stuck(case) if left > 0 => self.begin_case(case),
                Outcome::Stuck(_) | Outcome::Lost => break,
            }
            left = left.saturating_sub(1);
        }
        DecisionFound::Undecided
    }

    fn taken_lines(&mut self) -> Vec<ValueRefutationLine> {
        let empty = Vec::new(self.memory.alloc());
        std::mem::replace(&mut self.lines, empty)
    }

    /// The numbers of the events of nodes.
    fn events_of(&self, nodes: &[u32]) -> Vec<usize> {
        let mut events = self.memory.room(nodes.len());
        for node in nodes {
            let event = event_of(self.known, &self.elimination.derivation.graph, *node);
            self.memory.push(&mut events, event);
        }
        events
    }

    fn event(&self, node: u32) -> usize {
        event_of(self.known, &self.elimination.derivation.graph, node)
    }

    fn push_line(&mut self, line: ValueRefutationLine) {
        self.memory.push(&mut self.lines, line);
    }

    /// Lists the steps that were found before anything is supposed.
    fn list_first_steps(&mut self) {
        let derivation = &self.elimination.derivation;
        let steps = derivation
            .notes
            .steps(self.memory, self.known, &derivation.graph);
        self.noted = derivation.notes.len();
        self.push_steps(&steps);
    }

    /// Lists the steps that were found since steps were listed.
    fn list_steps(&mut self) {
        let derivation = &self.elimination.derivation;
        let steps = derivation
            .notes
            .steps_from(self.memory, self.known, &derivation.graph, self.noted);
        self.noted = derivation.notes.len();
        self.push_steps(&steps);
    }

    fn push_steps(&mut self, steps: &[ValueStep]) {
        for step in steps {
            self.push_line(ValueRefutationLine::Step(*step));
        }
    }

    /// Supposes what a case says first.
    fn begin_case(&mut self, case: Case) {
        let sources = match case {
            Case::Source(load) => {
                let Elimination {
                    derivation,
                    candidates,
                    looks,
                    ..
                } = &mut self.elimination;
                looks.list_sources(self.memory, derivation, candidates, load)
            }
            Case::Order { .. } => Vec::new(self.memory.alloc()),
        };
        let open = OpenCase {
            case,
            sources,
            tried: 0,
        };
        self.memory.push(&mut self.open, open);
        match self.supposed_last() {
            Some(supposed) => {
                self.list_case(supposed);
                self.suppose(supposed);
            }
            None => {
                // A load that can have read nothing would have ended the search.
                self.memory.note(true);
            }
        }
    }

    /// What the last open case supposes now.
    fn supposed_last(&self) -> Option<Supposed> {
        match self.open.last() {
            Some(open) => open.supposed(),
            None => None,
        }
    }

    /// Lists the line that supposes something.
    fn list_case(&mut self, supposed: Supposed) {
        let line = match supposed {
            Supposed::Source { load, source } => ValueRefutationLine::ReadCase {
                load: self.event(load),
                source: self.event(source),
            },
            Supposed::Before { first, second } => ValueRefutationLine::BeforeCase {
                first: self.event(first),
                second: self.event(second),
            },
        };
        self.push_line(line);
    }

    /// From now on something more is supposed.
    fn suppose(&mut self, supposed: Supposed) {
        self.elimination.suppose(self.memory, supposed);
    }

    /// Ends a part that is refuted: goes on with the next part of the last open case that has one.
    fn end_part(&mut self) {
        if let Some(closing) = self.elimination.derivation.closing {
            let end = end_of(self.memory, self.known, &self.elimination, closing);
            self.push_line(ValueRefutationLine::End(end));
        }
        for _ in 0..usize::MAX {
            let Some(open) = self.open.last_mut() else {
                return;
            };
            let is_second = open.is_second();
            open.tried = open.tried.saturating_add(1);
            let case = open.case;
            if is_second {
                self.open.pop();
                continue;
            }
            self.push_line(ValueRefutationLine::Else);
            match (self.supposed_last(), case) {
                (Some(supposed), _) => {
                    self.begin_again(supposed, case);
                    return;
                }
                (None, Case::Source(load)) => {
                    let load = self.event(load);
                    self.push_line(ValueRefutationLine::End(ValueEnd::NoSource(load)));
                    self.open.pop();
                }
                (None, Case::Order { .. }) => {
                    self.open.pop();
                }
            }
        }
    }

    /// Begins the next part of the last open case: makes anew what is known where all is in force that the cases before suppose.
    fn begin_again(&mut self, supposed: Supposed, case: Case) {
        self.elimination = elimination_of(self.memory, self.known, self.survey);
        let before = self.open.len().saturating_sub(1);
        for index in 0..before {
            let earlier = match self.open.get(index) {
                Some(open) => open.supposed(),
                None => None,
            };
            if let Some(earlier) = earlier {
                self.suppose(earlier);
            }
        }
        self.noted = self.elimination.derivation.notes.len();
        if matches!(case, Case::Source(_)) {
            self.list_case(supposed);
        }
        self.suppose(supposed);
    }
}
