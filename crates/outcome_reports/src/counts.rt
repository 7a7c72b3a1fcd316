//! How often traces were seen.
ghost use Rattle.std.specs.Prelude.{◌≡◌, ◌∷◌, ◌++◌, [], ℕ, List, ◌+◌, length, nat_lt, string_bytes, OnOk, IfOk, IfErr};
ghost use Rattle.std.specs.List.{count_by};
ghost use Rattle.text_streams.specs.declared.faults.Fault.{Fault};
ghost use Rattle.tso_ops.specs.declared.settings.Order.{Order};
ghost use Rattle.tso_ops.specs.Settings.{SettingValue};
ghost use Rattle.outcome_reports.specs.Internal.Counting.{CountsOf, IsWithin, traces_by};
ghost use Rattle.outcome_reports.specs.SeenTraces.{count_lines, seen_count, seen_text, seen_verdict, unreached_word};
ghost use Rattle.outcome_reports.specs.declared.classes.TraceClass.{TraceClass};

use crate::classes::TraceClass;
use crate::lines::print_reads;
use std::alloc::{AllocError, Global};
use std::fmt::Write;
use text_streams::Fault;
use trace_reports::Answer;
use tso_ops::{Order, Outcome};

/// How often each of some traces was seen, how many traces of the program were seen that no complete run leaves, and how many
/// trace texts were no trace of it.
#[derive(Drop)]
pub(crate) struct SeenCounts {
    pub(crate) seen: Vec<u64>,
    pub(crate) unreached: u64,
    pub(crate) foreign: u64,
}

impl SeenCounts {
    /// None yet, of so many traces.
    pub(crate) fn new(alloc: Global, count: usize) -> Result<SeenCounts, AllocError>
        ensures { IfOk result (CountsOf count []) }
    {
        Ok(SeenCounts {
            seen: vec![in alloc; 0u64; count]?,
            unreached: 0,
            foreign: 0,
        })
    }

    /// Counts what a trace text is. Read where there were 2^64 - 1 of these before.
    pub(crate) fn count(&mut self, class: TraceClass) -> Result<(), Fault>
        requires { IsWithin (length self.old.seen.items) class }
        ensures counted { OnOk result ((count : ℕ) (classes : List TraceClass) → CountsOf count classes self.old →
            CountsOf count (classes ++ class ∷ []) self.new) }
        ensures wide { length self.new.seen.items ≡ length self.old.seen.items }
        ensures fault { IfErr result (λ fault. fault ≡ Fault.Read) }
    {
        match class {
            TraceClass::Reached(k) => {
                let more = one_more(self.seen[k])?;
                self.seen[k] = more;
                Ok(())
            }
            TraceClass::Unreached => {
                self.unreached = one_more(self.unreached)?;
                Ok(())
            }
            TraceClass::Foreign => {
                self.foreign = one_more(self.foreign)?;
                Ok(())
            }
        }
    }

    /// How many of the traces were seen.
    fn seen_traces(&self) -> usize
        ensures { (classes : List TraceClass) → CountsOf (length self.now.seen.items) classes self.now →
            result ≡ seen_count classes 0 (length self.now.seen.items) }
    {
        count_some(&self.seen)
    }

    /// The verdict that they give.
    pub(crate) fn verdict(&self, order: Order) -> Answer
        ensures { (count : ℕ) (classes : List TraceClass) → CountsOf count classes self.now → result ≡ seen_verdict order classes }
    {
        match order {
            Order::Tso if self.unreached > 0 => Answer::Violation,
            _ if self.foreign > 0 => Answer::Refused,
            Order::Pso if self.unreached > 0 => Answer::Undecided,
            _ => Answer::Clear,
        }
    }

    /// The text of them, for these traces.
    pub(crate) fn print(
        &self,
        alloc: Global,
        order: Order,
        traces: &[Vec<Vec<Outcome>>],
    ) -> Result<String, AllocError>
        requires { length self.now.seen.items ≡ length traces.now }
        ensures { IfOk result (λ text. (setting : SettingValue) (classes : List TraceClass) → CountsOf (length traces.now) classes self.now →
            string_bytes text ≡ seen_text order (traces_by setting traces.now) classes) }
    {
        let count = traces.len();
        let mut text = format!(in alloc; "Traces {count}\n")?;
        self.print_lines(&mut text, traces)?;
        let seen = self.seen_traces();
        let word = unreached_word(order);
        let unreached = self.unreached;
        let foreign = self.foreign;
        write!(text, "Seen {seen}\n{word}{unreached}\nRefused {foreign}\n")?;
        Ok(text)
    }

    /// Appends the line of each of these traces.
    fn print_lines(&self, text: &mut String, traces: &[Vec<Vec<Outcome>>]) -> Result<(), AllocError>
        requires { length self.now.seen.items ≡ length traces.now }
        ensures { OnOk result ((setting : SettingValue) (classes : List TraceClass) → CountsOf (length traces.now) classes self.now →
            string_bytes text.new ≡ string_bytes text.old ++ count_lines classes 0 (traces_by setting traces.now)) }
    {
        for (k, lists) in traces.iter().enumerate() {
            let count = self.seen[k];
            write!(text, "{count} ")?;
            print_reads(text, lists)?;
        }
        Ok(())
    }
}

/// The word for traces that no complete run leaves.
fn unreached_word(order: Order) -> &'static str
    ensures { result.now ≡ unreached_word order }
{
    match order {
        Order::Tso => "Violations ",
        Order::Pso => "Undecided ",
    }
}

/// How many of these counts aren't 0.
fn count_some(counts: &[u64]) -> usize
    ensures { result ≡ count_by (λ count. nat_lt 0 count) counts.now }
{
    counts.iter().filter(|count| **count > 0).count()
}

/// One more, or Read where 64 bits don't hold it.
fn one_more(count: u64) -> Result<u64, Fault>
    ensures sum { IfOk result (λ more. more ≡ count + 1) }
    ensures fault { IfErr result (λ fault. fault ≡ Fault.Read) }
{
    match count.checked_add(1) {
        Some(more) => Ok(more),
        None => Err(Fault::Read),
    }
}
