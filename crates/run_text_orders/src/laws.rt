//! What the text of a run that holds says as a log, and that a text has one report as a run, proved of all values.

ghost use Rattle.std.specs.Prelude.{◌≡◌, ◌≢◌, ℕ, Bool, List, []};
ghost use Rattle.tso_model.specs.Axioms.{IsConsistent};
ghost use Rattle.trace_reports.specs.Renderings.{RendersRefusal};
ghost use Rattle.trace_reports.specs.declared.answers.Answer.{Answer};
ghost use Rattle.trace_reports.specs.declared.answers.Answer.TheVariants.{Refused, Violation};
ghost use Rattle.request_options.specs.declared.logs.LogOptions.{LogOptions};
ghost use Rattle.request_options.specs.declared.following.FollowOptions.{FollowOptions};
ghost use Rattle.tso_text.specs.declared.faults.Why.{Why};
ghost use Rattle.run_following.specs.Accounts.{Account};
ghost use Rattle.run_following.specs.JsonLines.{refused_json, run_json};
ghost use Rattle.run_following.specs.Reports.{IsRunReport, RendersRun};
ghost use Rattle.run_following.specs.Runs.{IsFollowed, IsOfLines, IsRunRefusal, SpellsRun};
ghost use Rattle.run_following.specs.Words.{refused_words, run_words};
ghost use Rattle.log_reports.specs.LogReports.{IsLogReport, RendersLog};
ghost use Rattle.log_text.specs.LogTexts.{SpellsLog};
ghost use Rattle.log_text.specs.LogValues.{NumberedLog, log_operations};
ghost use Rattle.run_text_orders.specs.UnknownBytes.{HasNoUnknownBytes};

/// Where a text spells a run none of whose lines is refused, the log that it spells has an order of its memory model. So has a log whose text, as a run, is
/// reported to hold, also where no value was compared. A text of bytes must have no line `un`: a load of which one byte isn't known is compared nowhere, but its
/// log has what it says of its other bytes.
pub fn texts_of_runs_have_orders()
    ensures spelled { (needs_end : Bool) (text : List ℕ) (account : Account) (log : NumberedLog) → SpellsRun needs_end text account →
        account.refusals ≡ [] → SpellsLog text log → HasNoUnknownBytes text → IsConsistent (log_operations log) }
    ensures reported { (renders : RendersRun) (refused : RendersRefusal) (options : FollowOptions) (bytes text : List ℕ) (answer : Answer) (log : NumberedLog) →
        IsRunReport renders refused options bytes text answer → answer ≢ Violation → answer ≢ Refused → SpellsLog bytes log →
        HasNoUnknownBytes bytes → IsConsistent (log_operations log) }
{}

/// Where the report on a text as a run says neither a violation nor a refusal, no report on it as a log says a violation. A text of bytes must have no line
/// `un`.
pub fn runs_that_hold_are_never_violations()
    ensures { (renders : RendersRun) (refused : RendersRefusal) (options : FollowOptions) (bytes text : List ℕ) (answer : Answer) (log_renders : RendersLog)
        (log_refused : RendersRefusal) (log_options : LogOptions) (log_report : List ℕ) → IsRunReport renders refused options bytes text answer →
        answer ≢ Violation → answer ≢ Refused → HasNoUnknownBytes bytes → IsLogReport log_renders log_refused log_options bytes log_report Violation → ⊥ }
{}

/// A text has one report as a run. Two accounts of the same lines are one; one account is followed of a text, or else it is refused, at one line for one fault.
/// So one text in words and one line of JSON report on it, with or without sentences, and the answer is one.
pub fn texts_have_one_report()
    ensures account { (a b : Account) → IsOfLines a → IsOfLines b → a.texts ≡ b.texts → a ≡ b }
    ensures followed { (needs_end is_fast : Bool) (text : List ℕ) (a b : Account) → IsFollowed needs_end is_fast text a →
        IsFollowed needs_end is_fast text b → a ≡ b }
    ensures never_both { (needs_end is_fast : Bool) (text : List ℕ) (account : Account) (line : ℕ) (why : Why) → IsFollowed needs_end is_fast text account →
        IsRunRefusal needs_end is_fast text line why → ⊥ }
    ensures refusal { (needs_end is_fast : Bool) (text : List ℕ) (line other_line : ℕ) (why other_why : Why) → IsRunRefusal needs_end is_fast text line why →
        IsRunRefusal needs_end is_fast text other_line other_why → (line ≡ other_line) × (why ≡ other_why) }
    ensures words { (explained : Bool) (options : FollowOptions) (bytes text other : List ℕ) (answer another : Answer) →
        IsRunReport (run_words explained) (λ head. refused_words) options bytes text answer →
        IsRunReport (run_words explained) (λ head. refused_words) options bytes other another → (text ≡ other) × (answer ≡ another) }
    ensures json { (explained : Bool) (options : FollowOptions) (bytes text other : List ℕ) (answer another : Answer) →
        IsRunReport (run_json explained) (λ head. refused_json) options bytes text answer →
        IsRunReport (run_json explained) (λ head. refused_json) options bytes other another → (text ≡ other) × (answer ≡ another) }
{}
