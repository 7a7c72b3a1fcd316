//! What each line does, and whether it is a step.
ghost use Rattle.std.specs.Prelude.{◌≡◌, ◌++◌, ◌<◌, [], IfOk, OnOk, length, map};
ghost use Rattle.run_steps.specs.Machine.{state_after_line, after_step, last_refusals, line_comparison, line_refusals, model_of, processor_in, state_of_machine, step_comparison, step_refusals, view_of, waits_of};
ghost use Rattle.run_steps.specs.declared.steps.RunStep.TheVariants.{Drain};
ghost use Rattle.run_steps.specs.Reads.{compared, refusal_of, sees, value_refusals};

use crate::machines::Machine;
use crate::places::Place;
use crate::processors::{Reservation, WaitingStore, drained_number, oldest_waiting};
use crate::refusals::{Comparison, RunRefusal, refuse_drain, refuse_reservation, refuse_waiting};
use crate::steps::{RunLine, RunStep};
use crate::views::View;
use std::alloc::Global;
use tso_ops::OutOfMemory;

impl Machine {
    /// Does what a line says, and adds to the refusals why it is no step of the machine after those before it. It says whether a value was
    /// compared. OutOfMemory where an allocation was refused.
    pub fn step(
        &mut self,
        alloc: Global,
        line: RunLine,
        refusals: &mut Vec<RunRefusal>,
    ) -> Result<Comparison, OutOfMemory>
        requires { line.processor < 4096 }
        ensures after { OnOk result (state_of_machine self.new ≡ state_after_line line (state_of_machine self.old)) }
        ensures refused { OnOk result (map refusal_of refusals.new.items ≡ map refusal_of refusals.old.items ++
            line_refusals (model_of self.old) line (state_of_machine self.old)) }
        ensures compared { IfOk result (λ comparison. comparison ≡ line_comparison line (state_of_machine self.old)) }
        ensures model { model_of self.new ≡ model_of self.old }
    {
        self.admit(alloc, line.processor)?;
        self.step_admitted(alloc, line, refusals)
    }

    /// The same of a processor that has a place.
    fn step_admitted(
        &mut self,
        alloc: Global,
        line: RunLine,
        refusals: &mut Vec<RunRefusal>,
    ) -> Result<Comparison, OutOfMemory>
        requires { line.processor < length self.old.processors.items }
        ensures after { OnOk result (state_of_machine self.new ≡ after_step line.number line.processor line.step (state_of_machine self.old)) }
        ensures refused { OnOk result (map refusal_of refusals.new.items ≡ map refusal_of refusals.old.items ++
            step_refusals (model_of self.old) line.number line.processor line.step (state_of_machine self.old)) }
        ensures compared { IfOk result (λ comparison. comparison ≡ step_comparison line.number line.processor line.step (state_of_machine self.old)) }
        ensures model { model_of self.new ≡ model_of self.old }
    {
        let number = line.number;
        let p = line.processor;
        match line.step {
            RunStep::Load { place, value } => {
                self.compare_seen(alloc, p, place, value, refusals)
            },
            RunStep::Reserve { place, value } => {
                let comparison = self.compare_seen(alloc, p, place, value, refusals)?;
                self.reserve(p, Some(Reservation { place, taken: None }));
                Ok(comparison)
            },
            RunStep::Drain { at, value } => self.step_drain(alloc, line, at, value, refusals),
            RunStep::Swap { place, read, value } => {
                refuse_waiting(self.waits(p), refusals)?;
                self.empty_buffer(alloc, number, p)?;
                let comparison = self.compare_seen(alloc, p, place, read, refusals)?;
                self.store_at(number, p, place, value)?;
                Ok(comparison)
            },
            RunStep::Last { place, value } => self.compare_last(alloc, place, value, refusals),
            RunStep::Store { place, value } => {
                self.enter(number, p, place, value)?;
                Ok(Comparison::Nothing)
            },
            RunStep::Stbar => {
                self.separate(number, p);
                Ok(Comparison::Nothing)
            },
            RunStep::Unknown { place } => {
                self.forget(place)?;
                Ok(Comparison::Nothing)
            },
            RunStep::Write { place, value } => {
                refuse_waiting(self.waits(p), refusals)?;
                self.write(alloc, number, p, place, value)?;
                Ok(Comparison::Nothing)
            },
            RunStep::StoreReserved { place, value } => {
                refuse_waiting(self.waits(p), refusals)?;
                refuse_reservation(self.reserved(p), place, refusals)?;
                self.write(alloc, number, p, place, value)?;
                self.reserve(p, None);
                Ok(Comparison::Nothing)
            },
            RunStep::Membar => {
                refuse_waiting(self.waits(p), refusals)?;
                self.empty_buffer(alloc, number, p)?;
                Ok(Comparison::Nothing)
            },
        }
    }

    /// The stores of processor `p` that wait.
    fn waits(&self, p: usize) -> &[WaitingStore]
        requires { p < length self.now.processors.items }
        ensures { result.now ≡ waits_of (state_of_machine self.now) p }
    {
        &self.processors[p].waiting
    }

    /// The reservation of processor `p`.
    fn reserved(&self, p: usize) -> Option<Reservation>
        requires { p < length self.now.processors.items }
        ensures { result ≡ (processor_in (state_of_machine self.now) p).reserved }
    {
        self.processors[p].reservation
    }

    /// Compares what processor `p` sees at a place with the value that it read. OutOfMemory where an allocation was refused.
    fn compare_seen(
        &self,
        alloc: Global,
        p: usize,
        place: Place,
        said: u64,
        refusals: &mut Vec<RunRefusal>,
    ) -> Result<Comparison, OutOfMemory>
        requires { p < length self.now.processors.items }
        ensures found { OnOk result (map refusal_of refusals.new.items ≡ map refusal_of refusals.old.items ++
            value_refusals place (view_of (state_of_machine self.now) p) said) }
        ensures compared { IfOk result (λ comparison. comparison ≡ compared place (view_of (state_of_machine self.now) p)) }
    {
        let view = View {
            memory: &self.memory,
            waiting: self.waits(p),
        };
        view.compare(alloc, place, said, refusals)
    }

    /// Compares what memory has at a place with a last value, which no store to the place may wait to change. OutOfMemory where an
    /// allocation was refused.
    fn compare_last(
        &self,
        alloc: Global,
        place: Place,
        said: u64,
        refusals: &mut Vec<RunRefusal>,
    ) -> Result<Comparison, OutOfMemory>
        ensures found { OnOk result (map refusal_of refusals.new.items ≡ map refusal_of refusals.old.items ++
            last_refusals place (state_of_machine self.now) said) }
        ensures compared { IfOk result (λ comparison. comparison ≡ compared place (sees (state_of_machine self.now).memory [])) }
    {
        if let Some(store) = oldest_waiting(&self.processors, place) {
            refusals.push(RunRefusal::Waiting { store: store.store })?;
        }
        let view = View {
            memory: &self.memory,
            waiting: &[],
        };
        view.compare(alloc, place, said, refusals)
    }

    /// A store of the line's processor reaches memory, and has this value, where one is said. OutOfMemory where an allocation was refused.
    fn step_drain(
        &mut self,
        alloc: Global,
        line: RunLine,
        at: Option<Place>,
        said: Option<u64>,
        refusals: &mut Vec<RunRefusal>,
    ) -> Result<Comparison, OutOfMemory>
        requires { line.processor < length self.old.processors.items }
        ensures after { OnOk result (state_of_machine self.new ≡ after_step line.number line.processor (Drain at said) (state_of_machine self.old)) }
        ensures refused { OnOk result (map refusal_of refusals.new.items ≡ map refusal_of refusals.old.items ++
            step_refusals (model_of self.old) line.number line.processor (Drain at said) (state_of_machine self.old)) }
        ensures compared { IfOk result (λ comparison. comparison ≡ step_comparison line.number line.processor (Drain at said) (state_of_machine self.old)) }
        ensures model { model_of self.new ≡ model_of self.old }
    {
        let p = line.processor;
        let Some(number) = drained_number(self.waits(p), at) else {
            refusals.push(RunRefusal::NothingWaits)?;
            return Ok(Comparison::Nothing);
        };
        refuse_drain(alloc, self.order, self.waits(p), number, said, refusals)?;
        self.drain(line.number, p, number)?;
        match said {
            Some(_) => Ok(Comparison::Compared),
            None => Ok(Comparison::Nothing),
        }
    }
}
