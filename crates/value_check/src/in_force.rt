//! What is in force at a line of a refutation by values.
ghost use Rattle.std.specs.Prelude.{◌≡◌, All, IfOk, OnOk};
ghost use Rattle.tso_ops.specs.Values.{TraceValue};
ghost use Rattle.program_chains.specs.LogEvents.{log_trace};
ghost use Rattle.value_check.specs.Internal.Known.{IsOfEvents};
ghost use Rattle.value_check.specs.Internal.InForce.{Place, IsAt, in_first, in_second, after, place_of, start, supposed, with_opposite, with_step};
ghost use Rattle.value_check.specs.Internal.Walks.{LineHolds};

use crate::known::Known;
use log_text::Log;
use std::alloc::Global;
use tso_ops::OutOfMemory;
use value_evidence::{ValueRefutationLine, ValueStep};

/// What a case supposes in its first part. Events go by their numbers.
#[derive(Clone, Copy)]
pub(crate) enum Supposition {
    /// The load read this source.
    Source { load: usize, source: usize },
    /// The event `first` comes before the event `second`.
    Order { first: usize, second: usize },
}

impl Supposition {
    /// The step that says it.
    fn step(self) -> ValueStep
        ensures { result ≡ supposed self }
    {
        match self {
            Supposition::Source { load, source } => ValueStep::Read { load, source },
            Supposition::Order { first, second } => ValueStep::In {
                from: first,
                load: second,
            },
        }
    }
}

/// A case whose second part hasn't begun.
#[derive(Clone, Copy)]
pub(crate) struct OpenCase {
    /// How many steps were in force where it began.
    steps: usize,
    /// How many sources were set aside there.
    aside: usize,
    supposes: Supposition,
}

/// What is in force at a line of a refutation, and the cases that are open there.
#[derive(Drop)]
pub(crate) struct InForce {
    /// What is known by the steps in force.
    pub(crate) known: Known,
    /// The steps in force: those of lines, and those that say what cases suppose.
    pub(crate) steps: Vec<ValueStep>,
    /// The loads and sources that are set aside.
    pub(crate) aside: Vec<(usize, usize)>,
    /// The open cases, the last one at the end.
    cases: Vec<OpenCase>,
}

impl InForce {
    /// Nothing but the log's program. OutOfMemory as for `Known::new`.
    pub(crate) fn new(alloc: Global, log: &Log) -> Result<InForce, OutOfMemory>
        ensures { IfOk result (λ state. IsAt (log_trace log.now) state start) }
    {
        Ok(InForce {
            known: Known::new(alloc, log)?,
            steps: Vec::new(alloc),
            aside: Vec::new(alloc),
            cases: Vec::new(alloc),
        })
    }

    /// Goes on behind a line that holds. OutOfMemory as for `Known::new`.
    pub(crate) fn follow(
        &mut self,
        alloc: Global,
        log: &Log,
        line: ValueRefutationLine,
    ) -> Result<(), OutOfMemory>
        ensures { OnOk result ((p : Place) → IsAt (log_trace log.now) self.old p → LineHolds (log_trace log.now) p line →
            IsAt (log_trace log.now) self.new (after line p)) }
    {
        match line {
            ValueRefutationLine::Step(step) => self.add(step),
            ValueRefutationLine::ReadCase { load, source } => self.begin_first_part(
                Supposition::Source { load, source },
            ),
            ValueRefutationLine::BeforeCase { first, second } => self.begin_first_part(
                Supposition::Order { first, second },
            ),
            ValueRefutationLine::Else => self.begin_second_part(alloc, log),
            ValueRefutationLine::End(_) => Ok(()),
        }
    }

    /// Puts a step in force. OutOfMemory where an allocation was refused.
    fn add(&mut self, step: ValueStep) -> Result<(), OutOfMemory>
        ensures { OnOk result ((t : TraceValue) (p : Place) → IsAt t self.old p → IsOfEvents t step → IsAt t self.new (with_step step p)) }
    {
        self.steps.push(step)?;
        self.known.follow(step);
        Ok(())
    }

    /// Begins the first part of a case. OutOfMemory where an allocation was refused.
    fn begin_first_part(&mut self, supposes: Supposition) -> Result<(), OutOfMemory>
        ensures { OnOk result ((t : TraceValue) (p : Place) → IsAt t self.old p → IsOfEvents t (supposed supposes) → IsAt t self.new (in_first supposes p)) }
    {
        self.cases.push(OpenCase {
            steps: self.steps.len(),
            aside: self.aside.len(),
            supposes,
        })?;
        self.add(supposes.step())
    }

    /// Begins the second part of the last open case, if there is one. OutOfMemory as for `Known::new`.
    fn begin_second_part(&mut self, alloc: Global, log: &Log) -> Result<(), OutOfMemory>
        ensures { OnOk result ((p : Place) → IsAt (log_trace log.now) self.old p → IsAt (log_trace log.now) self.new (in_second p.cases p)) }
    {
        let Some(case) = self.cases.pop() else {
            return Ok(());
        };
        self.steps.truncate(case.steps);
        self.aside.truncate(case.aside);
        self.oppose(case.supposes)?;
        self.known = Known::by_steps(alloc, log, &self.steps)?;
        Ok(())
    }

    /// Puts the opposite of what a case supposed in force, or sets it aside; what is known stays the same. OutOfMemory where an
    /// allocation was refused.
    fn oppose(&mut self, supposes: Supposition) -> Result<(), OutOfMemory>
        ensures place { OnOk result (place_of self.new ≡ with_opposite supposes (place_of self.old)) }
        ensures cases { self.new.cases.items ≡ self.old.cases.items }
        ensures events { OnOk result ((t : TraceValue) → IsOfEvents t (supposed supposes) → All (IsOfEvents t) self.old.steps.items → All (IsOfEvents t) self.new.steps.items) }
    {
        match supposes {
            Supposition::Source { load, source } => self.aside.push((load, source))?,
            Supposition::Order { first, second } => self.steps.push(ValueStep::In {
                from: second,
                load: first,
            })?,
        }
        Ok(())
    }
}
