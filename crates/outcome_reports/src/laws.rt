//! What the definitions of outcomes and of seen traces say, proved of all programs and streams.
ghost use Rattle.std.specs.Prelude.{◌≡◌, ◌+◌, ℕ, List, length};
ghost use Rattle.std.specs.List.{count_by};
ghost use Rattle.tso_ops.specs.Values.{ProgramValue, TraceValue};
ghost use Rattle.trace_reports.specs.declared.answers.Answer.{Answer};
ghost use Rattle.outcome_reports.specs.Outcomes.{AreTracesOf, IsListing};
ghost use Rattle.outcome_reports.specs.SeenTraces.{AreClassesOf, CountsSeen, IsClassOfText, is_foreign, is_unreached, seen_total};
ghost use Rattle.request_options.specs.declared.outcomes.OutcomeForm.{OutcomeForm};
ghost use Rattle.outcome_reports.specs.declared.classes.TraceClass.{TraceClass};

/// A program has one list of traces, and in each form one text of its outcomes.
pub fn listings()
    ensures traces { (program : ProgramValue) (traces others : List TraceValue) → AreTracesOf program traces → AreTracesOf program others → traces ≡ others }
    ensures text { (form : OutcomeForm) (program : ProgramValue) (text other : List ℕ) → IsListing form program text → IsListing form program other →
        text ≡ other }
{}

/// A trace text of a stream is one thing to the traces of a program, each trace text is counted once, and a program and a
/// stream have one text and one verdict.
pub fn seen_traces()
    ensures one { (program : ProgramValue) (traces : List TraceValue) (piece : List ℕ) (class other : TraceClass) → AreTracesOf program traces →
        IsClassOfText program traces piece class → IsClassOfText program traces piece other → class ≡ other }
    ensures each { (program : ProgramValue) (traces : List TraceValue) (pieces : List (List ℕ)) (classes : List TraceClass) →
        AreClassesOf program traces pieces classes → seen_total classes 0 (length traces) + count_by is_unreached classes + count_by is_foreign classes ≡
        length pieces }
    ensures text { (program : ProgramValue) (stream text other : List ℕ) (verdict said : Answer) → CountsSeen program stream text verdict →
        CountsSeen program stream other said → (text ≡ other) × (verdict ≡ said) }
{}
