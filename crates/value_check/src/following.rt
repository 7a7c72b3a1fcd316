//! What is known after a step.
ghost use Rattle.std.specs.Prelude.{◌∷◌, ◌++◌, ◌<◌, [], suc, length, List, All, IfOk};
ghost use Rattle.tso_ops.specs.Values.{TraceValue};
ghost use Rattle.tso_ops.specs.Events.{IsEvent, IsLoad, IsSwapLoad};
ghost use Rattle.value_evidence.specs.declared.steps.ValueStep.{ValueStep};
ghost use Rattle.program_chains.specs.LogEvents.{log_trace};
ghost use Rattle.value_check.specs.Internal.Known.{IsKnownBy, IsKnownFrom, IsOfEvents, SaysJust};

use crate::known::Known;
use crate::noted::note;
use log_text::Log;
use std::alloc::Global;
use tso_ops::OutOfMemory;
use value_evidence::ValueStep;

impl Known {
    /// What is known of a log by some steps. OutOfMemory as for `new`.
    pub(crate) fn by_steps(
        alloc: Global,
        log: &Log,
        steps: &[ValueStep],
    ) -> Result<Known, OutOfMemory>
        ensures { IfOk result (λ known. All (IsOfEvents (log_trace log.now)) steps.now → IsKnownBy (log_trace log.now) steps.now known) }
    {
        let mut known = Known::new(alloc, log)?;
        for step in steps {
            known.follow(*step);
        }
        Ok(known)
    }

    /// From now on the step counts as known.
    pub(crate) fn follow(&mut self, step: ValueStep)
        ensures { (t : TraceValue) (steps : List ValueStep) → IsKnownBy t steps self.old → IsOfEvents t step →
            IsKnownBy t (steps ++ step ∷ []) self.new }
    {
        match step {
            ValueStep::Read { load, source } => self.note_source(load, source),
            ValueStep::In { from, load } => self.join(from, load),
            ValueStep::Out { load, to } => self.join(load, to),
            ValueStep::Over { from, to, load: _ } => self.join(from, to),
            ValueStep::SwapAfter { swap, to } => {
                if let Some(store) = swap.checked_add(1) {
                    self.join(store, to);
                }
            }
            ValueStep::SwapBefore { from, swap } => self.join(from, swap),
        }
    }

    /// From now on one event counts as one before another, where both numbers are those of events.
    fn join(&mut self, from: usize, to: usize)
        ensures { (t : TraceValue) (steps : List ValueStep) (step : ValueStep) → IsKnownBy t steps self.old → SaysJust step from to →
            IsEvent t from → IsEvent t to → IsKnownBy t (steps ++ step ∷ []) self.new }
    {
        let Some(u) = self.index_of(from) else {
            return;
        };
        let Some(v) = self.index_of(to) else {
            return;
        };
        let nodes = self.reach.chains().nodes();
        if u >= nodes {
            return;
        }
        if v >= nodes {
            return;
        }
        self.reach.join(u, v);
    }

    /// From now on the load counts as one that read this source.
    fn note_source(&mut self, load: usize, source: usize)
        ensures { (t : TraceValue) (steps : List ValueStep) → IsKnownBy t steps self.old → IsLoad t load →
            IsKnownBy t (steps ++ ValueStep.Read load source ∷ []) self.new }
    {
        let Some(l) = self.index_of(load) else {
            return;
        };
        note(&mut self.sources, l, source);
        if self.is_swap_load(l) {
            self.note_taker(l, source);
        }
    }

    /// From now on the source counts as one that this swap's load read.
    fn note_taker(&mut self, load: usize, source: usize)
        ensures { (t : TraceValue) (steps : List ValueStep) → IsKnownFrom t (steps ++ ValueStep.Read (suc load) source ∷ []) steps self.old →
            IsSwapLoad t (suc load) → load < length self.old.events.items → IsKnownBy t (steps ++ ValueStep.Read (suc load) source ∷ []) self.new }
    {
        match source.checked_sub(1) {
            Some(store) => {
                if self.is_one_address(store, load) {
                    note(&mut self.takers, store, load);
                }
            }
            None => self.note_first_taker(load),
        }
    }

    /// From now on the first value counts as one that this swap's load read.
    fn note_first_taker(&mut self, load: usize)
        ensures { (t : TraceValue) (steps : List ValueStep) → IsKnownFrom t (steps ++ ValueStep.Read (suc load) 0 ∷ []) steps self.old →
            IsSwapLoad t (suc load) → load < length self.old.events.items → IsKnownBy t (steps ++ ValueStep.Read (suc load) 0 ∷ []) self.new }
    {
        if load < self.addresses.class_of.len() {
            let class = self.addresses.class_of[load] as usize;
            note(&mut self.first_takers, class, load);
        }
    }
}
