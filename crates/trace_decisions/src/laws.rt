//! What evidence says of its trace, proved of all traces and all evidence.
ghost use Rattle.tso_ops.specs.Values.{TraceValue};
ghost use Rattle.tso_ops.specs.Limits.{IsTrace};
ghost use Rattle.tso_evidence.specs.declared.evidence.Evidence.{Evidence};
ghost use Rattle.trace_decisions.specs.Decisions.{HoldsFor};
ghost use Rattle.trace_decisions.specs.DecisionTexts.{AnswerSays, answer_by};

/// An order that holds for a trace makes it consistent; a trace of which a load is unwritten, or for which a refutation holds,
/// isn't.
pub fn evidence()
    ensures { (t : TraceValue) (e : Evidence) → IsTrace t → HoldsFor t e → AnswerSays t (answer_by e) }
{}
