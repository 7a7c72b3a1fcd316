//! A trace with what its text calls its events.
ghost use Rattle.std.specs.Prelude.{◌≡◌, ◌++◌, string_bytes, IfOk, OnOk};
ghost use Rattle.trace_explanation.specs.Namings.{line_named, name_text, naming_of};
ghost use Rattle.trace_explanation.specs.Places.{place_text, source_text};
ghost use Rattle.trace_explanation.specs.Words.{reason_by};

use std::alloc::{AllocError, Global};
use std::marker::Model;
use trace_explanation::{EventNames, NamedTrace, reason_words};
use tso_cert::CertStep;
use tso_ops::Trace;

/// A trace with the names of its events.
#[derive(Debug, Drop)]
pub(crate) struct NamedEvents<'t> {
    trace: &'t Trace,
    names: EventNames,
}

impl<'t> Model for NamedEvents<'t> {
    ghost use Rattle.std.specs.Prelude.{◌≡◌};
    ghost use Rattle.tso_ops.specs.Values.{TraceValue};
    ghost use Rattle.trace_explanation.specs.Namings.{naming_of};

    ghost Value = { TraceValue };

    ghost view = { λ n. n.trace.now };

    ghost invariant = { λ n. n.names ≡ naming_of n.trace.now };
}

impl<'t> NamedEvents<'t> {
    /// The trace with the names of its events, or OutOfMemory where an allocation was refused.
    pub(crate) fn new(alloc: Global, trace: &'t Trace) -> Result<NamedEvents<'t>, AllocError>
        ensures { IfOk result (λ named. named ≡ trace.now) }
    {
        let names = EventNames::of_trace(alloc, trace)?;
        Ok(NamedEvents { trace, names })
    }

    /// The trace.
    pub(crate) fn trace(&self) -> &'t Trace
        ensures { result.now ≡ self.now }
    {
        self.trace
    }

    /// The trace and the names.
    fn named(&self) -> NamedTrace<'_>
        ensures trace { result.trace.now ≡ self.now }
        ensures names { result.names.now ≡ naming_of self.now }
    {
        NamedTrace {
            trace: self.trace,
            names: &self.names,
        }
    }

    /// The name of number `n`: nothing where it has none.
    pub(crate) fn name(&self, n: usize) -> &str
        ensures { result.now ≡ name_text (naming_of self.now) n }
    {
        self.names.name(n)
    }

    /// The line of event `n` in the trace's text: 0 where there is no such event.
    pub(crate) fn line(&self, n: usize) -> usize
        ensures { result ≡ line_named (naming_of self.now) n }
    {
        self.names.line(n)
    }

    /// What load `l` read, by its source `s`. OutOfMemory where an allocation was refused.
    pub(crate) fn source_text(
        &self,
        alloc: Global,
        l: usize,
        s: usize,
    ) -> Result<String, AllocError>
        ensures { IfOk result (λ text. string_bytes text ≡ source_text (naming_of self.now) l s) }
    {
        self.named().source_text(alloc, l, s)
    }

    /// Appends the line of event `n`: its line, its name, and what it read. OutOfMemory where an allocation was refused.
    pub(crate) fn push_place(
        &self,
        alloc: Global,
        text: &mut String,
        n: usize,
    ) -> Result<(), AllocError>
        ensures { OnOk result (string_bytes text.new ≡ string_bytes text.old ++ place_text (naming_of self.now) self.now n) }
    {
        self.named().push_place(alloc, text, n)
    }

    /// Why the edge of a step holds, where `by` says on which lines its path rests. OutOfMemory where an allocation was refused.
    pub(crate) fn reason(
        &self,
        alloc: Global,
        step: &CertStep,
        by: &str,
    ) -> Result<String, AllocError>
        ensures { IfOk result (λ text. string_bytes text ≡ reason_by (naming_of self.now) self.now by.now step.now.from step.now.to step.now.reason) }
    {
        reason_words(alloc, &self.named(), step, by)
    }
}
