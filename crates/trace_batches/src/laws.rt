//! What the definitions of batches say, proved of all streams.
ghost use Rattle.std.specs.Prelude.{◌≡◌, ◌⊎◌, ◌<◌, ◌↔◌, ◌∷◌, ◌++◌, [], ℕ, Bool, List, Option, length, map, take, false, true};
ghost use Rattle.std.specs.List.{flat_map};
ghost use Rattle.tso_ops.specs.Values.{TraceValue};
ghost use Rattle.tso_text.specs.Texts.{text_byte_limit};
ghost use Rattle.trace_streams.specs.Limits.{trace_read_limit};
ghost use Rattle.trace_reports.specs.RefusalLines.{refusal_text};
ghost use Rattle.trace_reports.specs.Reports.{IsReport};
ghost use Rattle.trace_reports.specs.declared.verdicts.Verdict.{Verdict};
ghost use Rattle.tso_text.specs.Printed.{trace_text};
ghost use Rattle.tso_text.specs.Refusals.{IsTraceRefusal};
ghost use Rattle.tso_text.specs.declared.faults.TextFault.{TextFault};
ghost use Rattle.tso_text.specs.declared.faults.Why.{Why};
ghost use Rattle.trace_batches.specs.Batches.{asked, BatchText, IsBatch, batch_head_text, known_texts, last_line, last_text, trace_results_text, under_name};
ghost use Rattle.trace_batches.specs.Judgments.{AreJudgments, asking, IsJudgment, judgment_verdict, plain, says_undecided};
ghost use Rattle.request_options.specs.declared.batches.BatchMethod.TheVariants.{Judge, Decide};
ghost use Rattle.request_options.specs.declared.batches.BatchPrinting.{BatchPrinting};
ghost use Rattle.trace_batches.specs.declared.judgments.Judgment.{Judgment};
ghost use Rattle.trace_batches.specs.declared.questions.BatchQuestion.{BatchQuestion};
ghost use Rattle.trace_reports.specs.declared.answers.Answer.{Answer};

/// By the rules one thing is said of each trace text, which is what its report says: the verdict, and the line of a refusal.
/// Where it is asked for, what explains a violation is one too.
pub fn judgments()
    ensures exists { (explains : Bool) (piece : List ℕ) → (judgment : Judgment) × IsJudgment (asking Judge explains) piece judgment }
    ensures one { (explains : Bool) (piece : List ℕ) (judgment other : Judgment) → IsJudgment (asking Judge explains) piece judgment →
        IsJudgment (asking Judge explains) piece other → judgment ≡ other }
    ensures verdict { (explains : Bool) (piece text : List ℕ) (verdict : Verdict) (judgment : Judgment) → IsReport piece text verdict →
        IsJudgment (asking Judge explains) piece judgment → verdict ≡ judgment_verdict judgment }
    ensures refusal { (explains : Bool) (piece text : List ℕ) (verdict : Verdict) (fault : TextFault) → IsReport piece text verdict →
        IsJudgment (asking Judge explains) piece (Judgment.Refused fault) → text ≡ refusal_text fault.line fault.why }
{}

/// By a decision one thing is said of each trace text, unless it is undecided; but several evidences may explain a violation. A
/// refusal is the same as by the rules.
pub fn decisions()
    ensures one { (effort : ℕ) (piece : List ℕ) (judgment other : Judgment) → IsJudgment (asking (Decide effort) false) piece judgment →
        IsJudgment (asking (Decide effort) false) piece other → (says_undecided judgment ≡ true) ⊎ (says_undecided other ≡ true) ⊎ (judgment ≡ other) }
    ensures alike { (effort : ℕ) (explains : Bool) (piece : List ℕ) (judgment other : Judgment) → IsJudgment (asking (Decide effort) explains) piece judgment →
        IsJudgment (asking (Decide effort) explains) piece other → (says_undecided judgment ≡ true) ⊎ (says_undecided other ≡ true) ⊎
        (plain judgment ≡ plain other) }
    ensures refusal { (question : BatchQuestion) (piece : List ℕ) (fault : TextFault) →
        IsJudgment question piece (Judgment.Refused fault) ↔ IsTraceRefusal piece fault.line fault.why }
{}

/// Texts have a batch, and by the rules one, with one text, one text of notes and one verdict, whatever is printed of them.
pub fn batches()
    ensures exists { (printing : BatchPrinting) (texts : List BatchText) → (text : List ℕ) × (notes : List ℕ) × (verdict : Answer) ×
        IsBatch printing texts text notes verdict }
    ensures one { (printing : BatchPrinting) (streams : List (Option (List ℕ) × List ℕ)) (text other notes others : List ℕ) (v w : Answer) →
        printing.method ≡ Judge → IsBatch printing (known_texts streams) text notes v → IsBatch printing (known_texts streams) other others w →
        (text ≡ other) × (notes ≡ others) × (v ≡ w) }
{}

/// A trace text of more than 1,048,576 bytes has one report, a refusal as TooLong at line 0. Of what is kept of a trace text,
/// its first 1,048,577 bytes, the same is said as of the trace text.
pub fn long_trace_texts()
    ensures refused { (piece text : List ℕ) (verdict : Verdict) → text_byte_limit < length piece →
        IsReport piece text verdict ↔ ((text ≡ refusal_text 0 Why.TooLong) × (verdict ≡ Verdict.Refused)) }
    ensures kept { (question : BatchQuestion) (piece : List ℕ) (judgment : Judgment) →
        IsJudgment question (take trace_read_limit piece) judgment ↔ IsJudgment question piece judgment }
{}

/// Of the texts of traces one after another, as `log --trace` prints them, the K-th line of a batch that isn't quiet is that of the
/// K-th trace.
pub fn printed_traces()
    ensures { (printing : BatchPrinting) (name : Option (List ℕ)) (traces : List TraceValue) (text notes : List ℕ) (verdict : Answer) →
        IsBatch printing (known_texts ((name, flat_map trace_text traces) ∷ [])) text notes verdict →
        (judgments : List Judgment) × AreJudgments (asked printing) (map trace_text traces) judgments ×
        (text ≡ batch_head_text printing ++ (trace_results_text (under_name printing name) 1 (map trace_text traces) judgments ++
        last_text printing (last_line printing judgments))) }
{}
